//! The numbers in tokens and in the words for keys: canonical decimals.
ghost use Rattle.std.specs.Prelude.{◌≡◌, ◌↔◌, ◌<◌, ◌^◌, ℕ, Some, decimal};
ghost use Rattle.wopi_model.specs.Moment.{IsMoment};
ghost use Rattle.access_tokens.specs.Keys.{IsKeyNumber};

use wopi_text::{MOMENTS_END, decimal_read};

/// The greatest number of a key.
const MOST_KEY_NUMBER: u64 = 255;

/// The number with these digits, if they are a canonical decimal.
pub(crate) fn number_read(digits: &[u8]) -> Option<u64>
    ensures { (number : ℕ) → (result ≡ Some number) ↔ ((number < 2 ^ 64) × (digits.now ≡ decimal number)) }
{
    decimal_read(digits)
}

/// The number of a key with these digits, if they are a canonical decimal of 0 to 255. It takes no memory.
pub fn key_number_read(digits: &[u8]) -> Option<u8>
    ensures { (number : ℕ) → (result ≡ Some number) ↔ (IsKeyNumber number × (digits.now ≡ decimal number)) }
{
    let number = number_read(digits)?;
    if number <= MOST_KEY_NUMBER {
        Some(number as u8)
    } else {
        None
    }
}

/// The moment with these digits, if they are a canonical decimal below the end of moments, the
/// year 10,000. It takes no memory.
pub fn moment_read(digits: &[u8]) -> Option<u64>
    ensures { (moment : ℕ) → (result ≡ Some moment) ↔ (IsMoment moment × (digits.now ≡ decimal moment)) }
{
    let moment = number_read(digits)?;
    if moment < MOMENTS_END {
        Some(moment)
    } else {
        None
    }
}
