//! Names of copies.
ghost use Rattle.std.specs.Prelude.{◌≡◌, ◌≤◌, ◌<◌, ◌↔◌, ◌++◌, length, take, drop, codes, decimal, IsSome, IfSome, IfNone};
ghost use Rattle.wopi_text.specs.FileName.{name_limit};
ghost use Rattle.put_relative.specs.CopyNames.{copy_name};

use crate::stem::stem_len;
use arrayvec::ArrayVec;
use itoa::Buffer;
use wopi_text::{FileName, NAME_LIMIT};

/// The number of candidates: the name itself and 99 copies.
const CANDIDATES: u32 = 100;

/// The name itself at 0, and `stem (n).ending` at another number below 100, where it isn't longer
/// than a name may be. It takes no memory.
pub fn candidate(name: &FileName, n: u32) -> Option<FileName>
    ensures exact { IsSome result ↔ ((n < 100) × (length (copy_name name.now n) ≤ name_limit)) }
    ensures value { IfSome result (λ copy. copy ≡ copy_name name.now n) }
{
    if n >= CANDIDATES {
        return None;
    }
    if n == 0 {
        return Some(name.copy());
    }
    let bytes = name.as_slice();
    let stem = stem_len(bytes);
    let text = numbered(bytes, stem, n)?;
    match FileName::read(&text) {
        Ok(copy) => Some(copy),
        Err(_) => unreachable!(),
    }
}

/// The name with ` (n)` after its stem, which ends at this place, if it isn't longer than a name may
/// be.
fn numbered(name: &[u8], stem: usize, n: u32) -> Option<ArrayVec<u8, NAME_LIMIT>>
    requires { stem ≤ length name.now }
    ensures some { IfSome result (λ text. text.items ≡ take stem name.now ++ (codes " (" ++ (decimal n ++ (codes ")" ++ drop stem name.now)))) }
    ensures none { IfNone result (name_limit < length (take stem name.now ++ (codes " (" ++ (decimal n ++ (codes ")" ++ drop stem name.now))))) }
{
    let mut digits = Buffer::new();
    let mut text = ArrayVec::new();
    text.try_extend_from_slice(&name[..stem]).ok()?;
    text.try_extend_from_slice(b" (").ok()?;
    text.try_extend_from_slice(digits.format(n).as_bytes())
        .ok()?;
    text.try_extend_from_slice(b")").ok()?;
    text.try_extend_from_slice(&name[stem..]).ok()?;
    Some(text)
}
