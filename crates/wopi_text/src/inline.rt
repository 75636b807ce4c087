//! Short texts that stand where they are kept.
ghost use Rattle.std.specs.Prelude.{◌≡◌, ◌≤◌, ◌+◌, length, take, drop};

use std::marker::Model;

/// Up to N bytes, inline. A copy is one move of memory, and clears nothing.
#[derive(Drop)]
pub struct Inline<const N: usize> {
    len: usize,
    // The text is the first `len` of them; what is behind it tells nothing.
    bytes: [u8; N],
}

impl<const N: usize> Model for Inline<N> {
    ghost use Rattle.std.specs.Prelude.{List, ℕ, take, ◌≤◌};

    ghost Value = { List ℕ };

    ghost view = { λ s. take s.len s.bytes };

    ghost invariant = { λ s. s.len ≤ N };
}

impl<const N: usize> PartialEq for Inline<N> {
    ghost use Rattle.std.specs.Prelude.{nat_eq};
    ghost use Rattle.std.specs.Cmp.{partial_equiv_from_equiv};
    ghost use Rattle.std.specs.Cmp.Lexicographic.{pointwise, nat_list_eq_equiv};

    ghost eq = { pointwise nat_eq };

    ghost laws = { partial_equiv_from_equiv nat_list_eq_equiv };

    fn eq(&self, other: &Inline<N>) -> bool {
        self.as_slice() == other.as_slice()
    }
}

impl<const N: usize> Eq for Inline<N> {
    ghost use Rattle.std.specs.Cmp.Lexicographic.{nat_list_eq_equiv};

    ghost laws = { nat_list_eq_equiv };
}

impl<const N: usize> Inline<N> {
    /// These bytes.
    pub fn new(bytes: &[u8]) -> Inline<N>
        requires { length bytes.now ≤ N }
        ensures { result ≡ bytes.now }
    {
        let mut inline = [0u8; N];
        inline[..bytes.len()].copy_from_slice(bytes);
        Inline {
            len: bytes.len(),
            bytes: inline,
        }
    }

    /// So many bytes from a place on. What follows them is copied too, up to the greatest length: a copy of a
    /// known size takes few instructions.
    pub fn cut(bytes: &[u8], start: usize, len: usize) -> Inline<N>
        requires few { len ≤ N }
        requires inside { start + N ≤ length bytes.now }
        ensures { result ≡ take len (drop start bytes.now) }
    {
        let mut inline = [0u8; N];
        inline.copy_from_slice(&bytes[start..start + N]);
        Inline { len, bytes: inline }
    }

    /// The bytes, which stay where they are.
    pub fn as_slice(&self) -> &[u8]
        ensures value { result.now ≡ self.now }
        ensures few { length self.now ≤ N }
    {
        &self.bytes[..self.len]
    }

    /// The same bytes.
    pub fn copy(&self) -> Inline<N>
        ensures { result ≡ self.now }
    {
        Inline {
            len: self.len,
            bytes: self.bytes,
        }
    }
}
