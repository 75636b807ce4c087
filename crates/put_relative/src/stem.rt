//! The stem of a name, and its ending.
ghost use Rattle.std.specs.Prelude.{◌≡◌, ◌≤◌, ◌<◌, length, take, slice_index, true};
ghost use Rattle.put_relative.specs.CopyNames.{ending_of, is_period, stem_of};

/// The length of what stands before the last period, or of all where there is none.
pub(crate) fn stem_len(name: &[u8]) -> usize
    ensures stem { stem_of name.now ≡ take result name.now }
    ensures bound { result ≤ length name.now }
    ensures period { result < length name.now → is_period (slice_index name.now result) ≡ true }
{
    let mut end = name.len();
    'back: while end > 0 {
        end -= 1;
        if name[end] == b'.' {
            return end;
        }
    }
    name.len()
}

/// The last period of a name and what stands after it, or nothing where the name has none.
pub fn ending(name: &str) -> &str
    ensures { result.now ≡ ending_of name.now }
{
    let stem = stem_len(name.as_bytes());
    &name[stem..]
}
