//! How long a link may take.
ghost use Rattle.std.specs.Prelude.{◌≡◌, true, ◌↔◌};
ghost use Rattle.adapters.specs.Limits.{IsTooSilent, IsTooSlow};

/// How long a link may take, in seconds; 0 is for ever.
#[derive(Clone, Copy, Debug, PartialEq, Eq)]
pub struct Limits {
    /// So long a read or a write may wait with no byte either way.
    pub idle: u32,
    /// So long a message may be on its way at less than 1,024 bytes a second.
    pub patience: u32,
}

/// Whether a link has to give up that has been silent for so many milliseconds.
pub fn is_too_silent(limits: Limits, silence: u64) -> bool
    ensures { result ≡ true ↔ IsTooSilent limits.idle silence }
{
    if limits.idle == 0 {
        return false;
    }
    limits.idle as u64 * 1000 <= silence
}

/// Whether a link has to give up of whose message so many bytes moved in so many milliseconds.
pub fn is_too_slow(limits: Limits, time: u64, bytes: u64) -> bool
    ensures { result ≡ true ↔ IsTooSlow limits.patience time bytes }
{
    if limits.patience == 0 || time <= limits.patience as u64 * 1000 {
        return false;
    }
    (bytes as u128) * 1000 < 1024 * (time as u128)
}
