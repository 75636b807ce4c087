//! How long the lock ids of a journal may be.
ghost use Rattle.std.specs.Prelude.{◌↔◌, IsTrue};
ghost use Rattle.journal_text.specs.Lines.{AreOfForm, HasShort, IsShort, MayBeShort};

use crate::text::Format;
use host_core::EntryAct;
use wopi_text::LockId;

/// The most bytes of a lock id in the first form.
const MOST: usize = 256;

fn is_short(id: &LockId) -> bool
    ensures { IsTrue result ↔ IsShort id.now }
{
    id.as_slice().len() <= MOST
}

fn may_be_short(lock: &Option<LockId>) -> bool
    ensures { IsTrue result ↔ MayBeShort lock.now }
{
    match lock {
        None => return true,
        Some(id) => return is_short(id),
    }
}

/// Whether the first form can tell the lock ids of an act.
fn has_short(act: &EntryAct) -> bool
    ensures { IsTrue result ↔ HasShort act.now }
{
    match act {
        EntryAct::Put { lock, size: _ } => return may_be_short(lock),
        EntryAct::Lock { id } => return is_short(id),
        EntryAct::Refresh { id } => return is_short(id),
        EntryAct::Unlock { id } => return is_short(id),
        EntryAct::Relock { old, id } => return is_short(old) && is_short(id),
        _ => return true,
    }
}

/// Whether a form can tell the lock ids of an entry.
pub(crate) fn are_of_form(form: Format, act: &EntryAct, lock: &Option<LockId>) -> bool
    ensures { IsTrue result ↔ AreOfForm form act.now lock.now }
{
    match form {
        Format::First => return has_short(act) && may_be_short(lock),
        Format::Second => return true,
    }
}
