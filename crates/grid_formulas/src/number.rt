//! Numbers in decimal digits.
ghost use Rattle.std.specs.Prelude.{true, ◌≡◌, ◌^◌, ◌-◌, ◌<◌, min};
ghost use Rattle.std.specs.List.{list_all};
ghost use Rattle.std.specs.Char.{is_ascii_digit};
ghost use Rattle.std.specs.Str.Parse.{digits_value};
ghost use Rattle.grid_formulas.specs.Numbers.{is_canonical, below_zero_of, from_zero_of, integer_of, natural_of, plain_value};

use crate::Value;
use wopi_text::are_digits;

/// The magnitude of the least `i128`.
const MOST_BELOW: u128 = 170_141_183_460_469_231_731_687_303_715_884_105_728;

/// The greatest `i128`.
const MOST_ABOVE: u128 = 170_141_183_460_469_231_731_687_303_715_884_105_727;

fn is_canonical(bytes: &[u8]) -> bool
    ensures { result ≡ is_canonical bytes.now }
{
    are_digits(bytes) && (bytes.len() == 1 || bytes.first() != Some(&b'0'))
}

// The number of the digits, or the greatest `u128` where it is as great.
fn capped(bytes: &[u8]) -> u128
    requires { list_all is_ascii_digit bytes.now ≡ true }
    ensures { result ≡ min (digits_value 10 bytes.now) (2 ^ 128 - 1) }
{
    let mut total = 0u128;
    for byte in bytes {
        total = total
            .saturating_mul(10)
            .saturating_add(u128::from(*byte - b'0'));
    }
    total
}

/// The number of a canonical decimal, if it is at most `limit`.
pub fn natural(bytes: &[u8], limit: u128) -> Option<u128>
    requires { limit < 2 ^ 128 - 1 }
    ensures { result ≡ natural_of limit bytes.now }
{
    if !is_canonical(bytes) {
        return None;
    }
    let total = capped(bytes);
    if total <= limit { Some(total) } else { None }
}

// The number of a canonical decimal, with `-` before it where it is below 0.
fn integer(bytes: &[u8]) -> Option<i128>
    ensures { result ≡ integer_of bytes.now }
{
    if bytes.first() == Some(&b'-') {
        below_zero(&bytes[1..])
    } else {
        from_zero(bytes)
    }
}

fn below_zero(bytes: &[u8]) -> Option<i128>
    ensures { result ≡ below_zero_of bytes.now }
{
    match natural(bytes, MOST_BELOW) {
        None | Some(0) => None,
        Some(total) => Some(-1 - (total - 1) as i128),
    }
}

fn from_zero(bytes: &[u8]) -> Option<i128>
    ensures { result ≡ from_zero_of bytes.now }
{
    match natural(bytes, MOST_ABOVE) {
        None => None,
        Some(total) => Some(total as i128),
    }
}

/// The value of a cell of these bytes that is no formula.
pub fn plain_value(bytes: &[u8]) -> Value
    ensures { result ≡ plain_value bytes.now }
{
    if bytes.is_empty() {
        return Value::Empty;
    }
    match integer(bytes) {
        None => Value::Text,
        Some(number) => Value::Number(number),
    }
}
