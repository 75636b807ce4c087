//! How moments are read.
ghost use Rattle.std.specs.Prelude.{◌≡◌};
ghost use Rattle.jiff_core.specs.Timestamp.{IsTimestampNanos};
ghost use Rattle.moment_text.specs.Reading.{moment_of, whole_milliseconds};

use jiff_fmt::temporal::parse_timestamp;

/// The nanoseconds since 1970 as a moment.
fn whole_milliseconds(nanoseconds: i128) -> Option<u64>
    requires { IsTimestampNanos nanoseconds }
    ensures { result ≡ whole_milliseconds nanoseconds }
{
    if nanoseconds < 0 {
        return None;
    }
    let since = nanoseconds as u128;
    if since % 1_000_000 == 0 {
        Some((since / 1_000_000) as u64)
    } else {
        None
    }
}

/// The moment that a text tells, if it tells one.
pub fn moment_read(bytes: &[u8]) -> Option<u64>
    ensures { result ≡ moment_of bytes.now }
{
    match parse_timestamp(bytes) {
        Ok(timestamp) => whole_milliseconds(timestamp.nanosecond),
        Err(_) => None,
    }
}
