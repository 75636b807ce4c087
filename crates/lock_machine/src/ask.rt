//! Acts as the lock table sees them, by ids that lie elsewhere.
ghost use Rattle.std.specs.Prelude.{◌≡◌};
ghost use Rattle.lock_machine.specs.Asks.{act_of};

use wopi_model::LockAct;
use wopi_text::LockId;

/// What an act asks of the lock of its file, as [`LockAct`] does, by ids that are only looked at.
#[derive(Clone, Copy)]
pub enum LockAsk<'a> {
    Lock { id: &'a LockId },
    GetLock,
    Refresh { id: &'a LockId },
    Unlock { id: &'a LockId },
    Relock { old: &'a LockId, id: &'a LockId },
    Put { id: Option<&'a LockId>, empty: bool },
    Delete,
    Create { exists: bool, overwrite: bool },
    Look,
}

/// What an act asks.
pub fn ask_of(act: &LockAct) -> LockAsk<'_>
    ensures { act_of result ≡ act.now }
{
    match act {
        LockAct::Lock { id } => LockAsk::Lock { id },
        LockAct::GetLock => LockAsk::GetLock,
        LockAct::Refresh { id } => LockAsk::Refresh { id },
        LockAct::Unlock { id } => LockAsk::Unlock { id },
        LockAct::Relock { old, id } => LockAsk::Relock { old, id },
        LockAct::Put { id: None, empty } => LockAsk::Put {
            id: None,
            empty: *empty,
        },
        LockAct::Put {
            id: Some(id),
            empty,
        } => LockAsk::Put {
            id: Some(id),
            empty: *empty,
        },
        LockAct::Delete => LockAsk::Delete,
        LockAct::Create { exists, overwrite } => LockAsk::Create {
            exists: *exists,
            overwrite: *overwrite,
        },
        LockAct::Look => LockAsk::Look,
    }
}
