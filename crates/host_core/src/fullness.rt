//! When a shard is nearly full.
ghost use Rattle.std.specs.Prelude.{◌⊎◌, ◌*◌, ◌≤◌, ◌↔◌, IsTrue};
ghost use Rattle.wopi_model.specs.Host.{most_kept};

use crate::store::MOST_KEPT;

/// Nine tenths of the entries that a shard may make, or of the bytes that it may keep.
pub(crate) fn are_nine_tenths(capacity: u32, entries: u64, bytes: u64) -> bool
    ensures { IsTrue result ↔ (9 * capacity ≤ 10 * entries) ⊎ (9 * most_kept ≤ 10 * bytes) }
{
    if 9 * u128::from(capacity) <= 10 * u128::from(entries) {
        return true;
    }
    are_most_kept(bytes)
}

/// Nine tenths of the bytes that a shard may keep.
pub(crate) fn are_most_kept(bytes: u64) -> bool
    ensures { IsTrue result ↔ (9 * most_kept ≤ 10 * bytes) }
{
    9 * u128::from(MOST_KEPT) <= 10 * u128::from(bytes)
}
