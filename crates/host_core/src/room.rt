//! What a shard takes in advance, so that its steps needn't take it.
ghost use Rattle.std.specs.Prelude.{◌≡◌, ◌≤◌, IfOk, OnOk, ℕ, length};
ghost use Rattle.kept_locks.specs.Locks.{unlocked};
ghost use Rattle.host_core.specs.Turns.{AreAsOf};
ghost use Rattle.host_core.specs.Whole.{standing_at};

use crate::files::make_lock_place;
use kept_locks::KeptLocks;
use std::alloc::Global;
use wopi_text::Memory;

/// Adds places for files that were never locked.
fn add_files(locks: &mut KeptLocks, files: usize) -> Result<(), Memory>
    requires none { (number : ℕ) → standing_at locks.old.files number ≡ unlocked }
    requires as_of { AreAsOf 0 locks.old }
    ensures none { (number : ℕ) → standing_at locks.new.files number ≡ unlocked }
    ensures as_of { AreAsOf 0 locks.new }
    ensures long { OnOk result (files ≤ length locks.new.files) }
    ensures spare { locks.new.spare ≡ locks.old.spare }
    ensures room { locks.new.room ≡ locks.old.room }
{
    let mut count = 0;
    'count: while count < files {
        make_lock_place(locks, count)?;
        count += 1;
    }
    Ok(())
}

/// Takes the room for the locks of so many files, and for so many locks and ids.
pub fn take_room(alloc: Global, files: usize, ids: usize) -> Result<KeptLocks, Memory>
    ensures none { IfOk result (λ locks. (number : ℕ) → standing_at locks.files number ≡ unlocked) }
    ensures as_of { IfOk result (λ locks. AreAsOf 0 locks) }
    ensures long { IfOk result (λ locks. files ≤ length locks.files) }
    ensures spare { IfOk result (λ locks. ids ≤ locks.spare) }
    ensures room { IfOk result (λ locks. ids ≤ locks.room) }
{
    let mut locks = KeptLocks::with_room(alloc, ids)?;
    add_files(&mut locks, files)?;
    Ok(locks)
}
