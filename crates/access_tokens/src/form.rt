//! The forms of a token's single fields.
ghost use Rattle.std.specs.Prelude.{◌≡◌, ◌↔◌, Bool, Option, Some, None, IsTrue, option_copied};
ghost use Rattle.std.specs.List.{list_all};
ghost use Rattle.access_tokens.specs.TokenText.{IsMac, is_lower_digit, rights_of};

/// The digits of a code.
pub(crate) const MAC: usize = 64;

/// How the right to read alone, or to write as well, is written.
pub(crate) fn rights_of(write: bool) -> &'static [u8]
    ensures { result.now ≡ rights_of write }
{
    if write { b"w" } else { b"r" }
}

/// Whether the rights of a token allow to write, if they are rights: `r` or `w`.
pub fn may_write(rights: &[u8]) -> Option<bool>
    ensures { (write : Bool) → (result ≡ Some write) ↔ (rights.now ≡ rights_of write) }
{
    match rights {
        b"r" => Some(false),
        b"w" => Some(true),
        _ => None,
    }
}

/// Whether the digits may be a code: 64 of lower-case hex.
pub(crate) fn is_mac(digits: &[u8]) -> bool
    ensures { IsTrue result ↔ IsMac digits.now }
{
    digits.len() == MAC && are_lower_digits(digits)
}

fn are_lower_digits(digits: &[u8]) -> bool
    ensures { result ≡ list_all is_lower_digit digits.now }
{
    digits.iter().all(|digit| is_lower_digit(*digit))
}

fn is_lower_digit(byte: u8) -> bool
    ensures { result ≡ is_lower_digit byte }
{
    matches!(byte, b'0'..=b'9' | b'a'..=b'f')
}
