//! A watch over a host while its workers work, which tells of shards that are nearly full.
ghost use Rattle.std.specs.Prelude.{◌≡◌, ◌⊎◌, ◌<◌, ℕ, Some, true, false, slice_get};
ghost use Rattle.host_table.specs.Journal.{IsNearlyFullIn};
ghost use Rattle.host_table.specs.Passes.{IsSamePass, locks_of, own_of, sight_of};
ghost use Rattle.wopi_program.specs.Watched.{AreRight, AreRightIn, TellsOf, nearly_full_line, none_raised};

use crate::note;
use host_core::Store;
use host_table::{Host, Journal, Pass};
use outside::{Folder, Sink};
use std::sync::Wait;
use std::sync::atomic::{AtomicBool, Ordering};
use std::thread::Parker;
use std::time::Duration;

/// How long a watch pauses between two looks, in milliseconds.
const PAUSE: u64 = 1000;

/// A mark for each shard, raised when it was told of.
pub(crate) type Marks = [bool; 16];

/// The line of the shard of that number.
fn nearly_full_line(shard: u8) -> &'static [u8]
    requires { shard < 16 }
    ensures { result.now ≡ nearly_full_line shard }
{
    match shard {
        0 => b"shard 0 nearly full\n",
        1 => b"shard 1 nearly full\n",
        2 => b"shard 2 nearly full\n",
        3 => b"shard 3 nearly full\n",
        4 => b"shard 4 nearly full\n",
        5 => b"shard 5 nearly full\n",
        6 => b"shard 6 nearly full\n",
        7 => b"shard 7 nearly full\n",
        8 => b"shard 8 nearly full\n",
        9 => b"shard 9 nearly full\n",
        10 => b"shard 10 nearly full\n",
        11 => b"shard 11 nearly full\n",
        12 => b"shard 12 nearly full\n",
        13 => b"shard 13 nearly full\n",
        14 => b"shard 14 nearly full\n",
        15 => b"shard 15 nearly full\n",
        _ => unreachable!(),
    }
}

/// No mark is raised.
pub(crate) fn lowered() -> Marks
    ensures { result ≡ none_raised }
{
    [false; 16]
}

/// Whether a shard was told of.
fn is_marked(marks: &Marks, shard: u8) -> bool
    requires { shard < 16 }
    ensures { slice_get marks.now shard ≡ Some result }
{
    marks[usize::from(shard)]
}

/// Marks a shard and tells of it.
fn tell_of<K: Sink>(notes: &mut K, marks: &mut Marks, shard: u8)
    requires shard { shard < 16 }
    requires lowered { slice_get marks.old shard ≡ Some false }
    ensures told { TellsOf K.held K.write_faults notes.old notes.new marks.old marks.new }
    ensures raised { (other : ℕ) → slice_get marks.new other ≡ Some true → (other ≡ shard) ⊎ (slice_get marks.old other ≡ Some true) }
    ensures itself { slice_get marks.new shard ≡ Some true }
{
    marks[usize::from(shard)] = true;
    note(notes, nearly_full_line(shard));
}

/// Looks at a shard that was not told of, and tells of it where it is nearly full.
fn look_at<R: Wait, F: Store, K: Sink>(
    rt: &R,
    host: &Host<F>,
    pass: &mut Pass<F>,
    notes: &mut K,
    marks: &mut Marks,
    shard: u8,
)
    requires host { locks_of pass.old ≡ host.now.locks }
    requires shard { shard < 16 }
    requires right { AreRight marks.old (sight_of pass.old) }
    ensures told { TellsOf K.held K.write_faults notes.old notes.new marks.old marks.new }
    ensures right { AreRight marks.new (sight_of pass.new) }
    ensures own { own_of pass.new ≡ own_of pass.old }
    ensures same { IsSamePass pass.old pass.new }
{
    if is_marked(marks, shard) {
        return;
    }
    if host.is_nearly_full(rt, pass, shard) {
        tell_of(notes, marks, shard);
    }
}

/// Looks at all shards once.
fn look_round<R: Wait, F: Store, K: Sink>(
    rt: &R,
    host: &Host<F>,
    pass: &mut Pass<F>,
    notes: &mut K,
    marks: &mut Marks,
)
    requires host { locks_of pass.old ≡ host.now.locks }
    requires right { AreRight marks.old (sight_of pass.old) }
    ensures told { TellsOf K.held K.write_faults notes.old notes.new marks.old marks.new }
    ensures right { AreRight marks.new (sight_of pass.new) }
    ensures own { own_of pass.new ≡ own_of pass.old }
    ensures same { IsSamePass pass.old pass.new }
{
    'shards: for shard in 0..16 {
        look_at(rt, host, pass, notes, marks, shard);
    }
}

/// Looks at all shards again and again, with a pause between, until the work is over. What the end of the work rings
/// cuts the pause short.
pub(crate) fn watch<R: Wait, F: Store, K: Sink>(
    rt: &R,
    host: &Host<F>,
    over: &AtomicBool,
    bell: &Parker,
    pass: &mut Pass<F>,
    notes: &mut K,
    marks: &mut Marks,
)
    requires host { locks_of pass.old ≡ host.now.locks }
    requires right { AreRight marks.old (sight_of pass.old) }
    ensures told { TellsOf K.held K.write_faults notes.old notes.new marks.old marks.new }
    ensures right { AreRight marks.new (sight_of pass.new) }
    ensures own { own_of pass.new ≡ own_of pass.old }
    ensures same { IsSamePass pass.old pass.new }
{
    'looks: for _ in rt.forever() {
        look_round(rt, host, pass, notes, marks);
        if over.load(Ordering::SeqCst) {
            return;
        }
        bell.park_timeout(rt, Duration::from_millis(PAUSE));
    }
    unreachable!()
}

/// Tells of a shard where its journal shows it nearly full and it was not told of before.
fn tell_in<K: Sink, F: Folder>(
    notes: &mut K,
    marks: &mut Marks,
    journal: &Journal<F>,
    capacity: u32,
    shard: u8,
)
    requires shard { shard < 16 }
    requires right { AreRightIn capacity journal.now.parts marks.old }
    ensures told { TellsOf K.held K.write_faults notes.old notes.new marks.old marks.new }
    ensures right { AreRightIn capacity journal.now.parts marks.new }
    ensures itself { IsNearlyFullIn capacity (slice_get journal.now.parts shard) → slice_get marks.new shard ≡ Some true }
{
    if is_marked(marks, shard) {
        return;
    }
    if journal.is_nearly_full(shard, capacity) {
        tell_of(notes, marks, shard);
    }
}

/// Tells of the shards that the journal shows nearly full and that were not told of before.
pub(crate) fn tell_rest<K: Sink, F: Folder>(
    notes: &mut K,
    marks: &mut Marks,
    journal: &Journal<F>,
    capacity: u32,
)
    requires right { AreRightIn capacity journal.now.parts marks.old }
    ensures told { TellsOf K.held K.write_faults notes.old notes.new marks.old marks.new }
    ensures right { AreRightIn capacity journal.now.parts marks.new }
    ensures all { (shard : ℕ) → shard < 16 → IsNearlyFullIn capacity (slice_get journal.now.parts shard) → slice_get marks.new shard ≡ Some true }
{
    'shards: for shard in 0..16 {
        tell_in(notes, marks, journal, capacity, shard);
    }
}
