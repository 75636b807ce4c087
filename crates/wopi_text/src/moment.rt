//! Where moments end.

/// The end of moments, in milliseconds since 1970: the beginning of the year 10,000. Each moment
/// lies below it.
pub const MOMENTS_END: u64 = 253_402_300_800_000;
