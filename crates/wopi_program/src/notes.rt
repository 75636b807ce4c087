//! Lines to the notes.
ghost use Rattle.wopi_program.specs.Notes.{Notes};

use outside::{Sink, write_whole};

/// Writes a line to the notes. A failed write changes nothing else.
pub fn note<K: Sink>(notes: &mut K, line: &[u8])
    ensures { Notes (K.held notes.old) (K.held notes.new) (K.write_faults notes.old) (K.write_faults notes.new) line.now }
{
    let _ = write_whole(notes, line);
}
