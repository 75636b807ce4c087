//! Lengths of time.
ghost use Rattle.std.specs.Prelude.{◌≡◌, ◌*◌, ◌<◌, ◌≤◌, ℕ, IfSome, IfNone};
ghost use Rattle.wopi_text.specs.Moments.{moments_end};
ghost use Rattle.command_words.specs.Spans.{IsSpan, unit_of};

use wopi_text::{MOMENTS_END, decimal_read};

/// The milliseconds of a unit of time.
fn unit_of(unit: u8) -> u64
    ensures { result ≡ unit_of unit }
{
    match unit {
        b's' => 1000,
        b'm' => 60_000,
        b'h' => 3_600_000,
        b'd' => 86_400_000,
        _ => 0,
    }
}

/// So many units, in milliseconds, where there are some, and they are less than all moments.
fn spanned(count: u64, unit: u64) -> Option<u64>
    ensures some { IfSome result (λ span. (span ≡ count * unit) × (0 < span) × (span < moments_end)) }
    ensures none { IfNone result (0 < count * unit → moments_end ≤ count * unit) }
{
    match count.checked_mul(unit) {
        Some(span) => {
            if 0 < span && span < MOMENTS_END {
                return Some(span);
            }
            None
        }
        None => None,
    }
}

/// The milliseconds that a word tells: a decimal and then `s`, `m`, `h` or `d`, for seconds, minutes, hours or days.
pub fn span_of(word: &str) -> Option<u64>
    ensures some { IfSome result (IsSpan word.now) }
    ensures none { IfNone result ((span : ℕ) → ¬ IsSpan word.now span) }
{
    match word.as_bytes() {
        [digits @ .., unit] => match decimal_read(digits) {
            Some(count) => spanned(count, unit_of(*unit)),
            None => None,
        },
        [] => None,
    }
}
