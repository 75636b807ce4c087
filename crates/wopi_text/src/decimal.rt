//! Numbers in decimal digits.
ghost use Rattle.std.specs.Prelude.{true, ◌≡◌, ◌≤◌, ◌+◌, ◌^◌, min};
ghost use Rattle.std.specs.List.{list_all};
ghost use Rattle.std.specs.Char.{is_ascii_digit};
ghost use Rattle.std.specs.Str.Parse.{digits_value};
ghost use Rattle.wopi_text.specs.Decimals.{are_digits, digits_up_to, digits_of, has_no_leading_zero, decimal_of};

fn all_digits(bytes: &[u8]) -> bool
    ensures { result ≡ list_all is_ascii_digit bytes.now }
{
    bytes.iter().all(|b| b.is_ascii_digit())
}

/// Whether the bytes are one or more digits.
pub fn are_digits(bytes: &[u8]) -> bool
    ensures { result ≡ are_digits bytes.now }
{
    !bytes.is_empty() && all_digits(bytes)
}

fn has_no_leading_zero(bytes: &[u8]) -> bool
    ensures { result ≡ has_no_leading_zero bytes.now }
{
    bytes.len() == 1 || bytes.first() != Some(&b'0')
}

/// The number of the digits, or the cap where it is as great.
fn capped(bytes: &[u8], cap: u128) -> u128
    requires digits { list_all is_ascii_digit bytes.now ≡ true }
    requires cap { cap ≤ 2 ^ 64 }
    ensures { result ≡ min (digits_value 10 bytes.now) cap }
{
    let mut total = 0u128;
    for byte in bytes {
        total = (total * 10 + u128::from(*byte - b'0')).min(cap);
    }
    total
}

/// The number of one or more digits, if it is at most `most`. Leading zeros may stand.
pub fn digits_up_to(bytes: &[u8], most: u64) -> Option<u64>
    ensures { result ≡ digits_up_to bytes.now most }
{
    if !are_digits(bytes) {
        return None;
    }
    let total = capped(bytes, u128::from(most) + 1);
    if total <= u128::from(most) {
        Some(total as u64)
    } else {
        None
    }
}

/// The number of one or more digits, if it is at most the greatest `u64`. Leading zeros may stand.
pub fn digits_read(bytes: &[u8]) -> Option<u64>
    ensures { result ≡ digits_of bytes.now }
{
    digits_up_to(bytes, u64::MAX)
}

/// The number of a canonical decimal: digits without a leading zero, save `0` itself, and at most
/// the greatest `u64`.
pub fn decimal_read(bytes: &[u8]) -> Option<u64>
    ensures { result ≡ decimal_of bytes.now }
{
    if has_no_leading_zero(bytes) {
        digits_read(bytes)
    } else {
        None
    }
}
