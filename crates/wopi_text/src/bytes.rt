//! Bytes: few of them inline, more on the heap.
ghost use Rattle.std.specs.Prelude.{◌≡◌, ◌≤◌, ◌-◌, IfOk, length, take, drop};

use crate::Memory;
use crate::inline::Inline;
use std::alloc::Global;
use std::marker::Model;

/// The most bytes that stand inline: the longest name of a WOPI header has 30.
const SHORT: usize = 32;

/// A list of bytes, such as the contents of a file, the body of a message or the name of a header. Up to
/// 32 bytes that are copied from a slice stand inline and take no memory.
#[derive(Drop)]
pub struct Bytes {
    // Where there are long ones, they are the bytes.
    long: Vec<u8>,
    short: Inline<SHORT>,
}

impl Model for Bytes {
    ghost use Rattle.std.specs.Prelude.{List, ℕ};
    ghost use Rattle.wopi_text.specs.Bytes.{bytes_of};

    ghost Value = { List ℕ };

    ghost view = { λ b. bytes_of b.long.items b.short };
}

fn copied(alloc: Global, bytes: &[u8]) -> Result<Vec<u8>, Memory>
    ensures { IfOk result (λ v. v.items ≡ bytes.now) }
{
    Ok(bytes.to_vec(alloc)?)
}

impl Bytes {
    /// Takes over the vector, without a copy.
    pub fn from_vec(v: Vec<u8>) -> Bytes
        ensures { result ≡ v.items }
    {
        Bytes {
            long: v,
            short: Inline::new(b""),
        }
    }

    /// A copy of these bytes.
    pub fn from_slice(alloc: Global, bytes: &[u8]) -> Result<Bytes, Memory>
        ensures { IfOk result (λ b. b ≡ bytes.now) }
    {
        if bytes.len() > SHORT {
            return Ok(Bytes::from_vec(copied(alloc, bytes)?));
        }
        Ok(Bytes {
            long: Vec::new(alloc),
            short: Inline::new(bytes),
        })
    }

    /// A copy of the bytes from one place up to another.
    pub fn from_part(alloc: Global, bytes: &[u8], start: usize, end: usize) -> Result<Bytes, Memory>
        requires order { start ≤ end }
        requires inside { end ≤ length bytes.now }
        ensures { IfOk result (λ b. b ≡ take (end - start) (drop start bytes.now)) }
    {
        let len = end - start;
        if len > SHORT || bytes.len() - start < SHORT {
            return Bytes::from_slice(alloc, &bytes[start..end]);
        }
        Ok(Bytes {
            long: Vec::new(alloc),
            short: Inline::cut(bytes, start, len),
        })
    }

    /// The bytes as a vector. Those on the heap aren't copied.
    pub fn into_vec(self, alloc: Global) -> Result<Vec<u8>, Memory>
        ensures { IfOk result (λ v. v.items ≡ self) }
    {
        let Bytes { long, short } = self;
        if long.is_empty() {
            return copied(alloc, short.as_slice());
        }
        Ok(long)
    }

    /// The bytes, which stay where they are.
    pub fn as_slice(&self) -> &[u8]
        ensures { result.now ≡ self.now }
    {
        if self.long.is_empty() {
            return self.short.as_slice();
        }
        &self.long
    }

    /// An equal list, in memory of its own.
    pub fn try_copy(&self, alloc: Global) -> Result<Bytes, Memory>
        ensures { IfOk result (λ b. b ≡ self.now) }
    {
        Bytes::from_slice(alloc, self.as_slice())
    }
}
