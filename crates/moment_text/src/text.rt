//! How moments are written.
ghost use Rattle.std.specs.Prelude.{◌≡◌, ◌<◌, Some};
ghost use Rattle.wopi_text.specs.Moments.{moments_end};
ghost use Rattle.moment_text.specs.Reading.{moment_of, reading_end};
ghost use Rattle.moment_text.specs.Text.{moment_text};

use arrayvec::ArrayString;
use jiff_core::civil::DateTime;
use jiff_fmt::temporal::DateTimePrinter;

/// A moment's text.
pub fn moment_text(moment: u64) -> ArrayString<33>
    requires { moment < moments_end }
    ensures text { result.bytes ≡ moment_text moment }
    ensures reads { moment < reading_end → moment_of (result.bytes) ≡ Some moment }
{
    let shown = DateTime::from_nanosecond_in_range((moment as u128 * 1_000_000) as i128);
    let printer = DateTimePrinter::new().precision(Some(7));
    let mut text = ArrayString::new();
    text.push_str(printer.datetime_text(shown).as_str());
    text.push('Z');
    text
}
