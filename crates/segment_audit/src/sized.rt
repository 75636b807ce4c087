//! What is told of a file, without its contents and settled.
ghost use Rattle.std.specs.Prelude.{◌≡◌, option_map};
ghost use Rattle.lock_machine.specs.Asks.{act_of};
ghost use Rattle.journal_audit.specs.Judging.{has_no_bytes, shows_spent, sized_ask};
ghost use Rattle.segment_audit.specs.Sizes.{refused_at, sized_at};

use journal_segments::ToldFile;
use journal_text::LineAct;
use lock_machine::LockAsk;
use std::marker::Model;
use wopi_model::Lock;

/// A settled file: its version, the size of its contents where it is there, and its lock.
#[derive(Drop)]
pub(crate) struct SizedFile {
    version: u64,
    size: Option<u64>,
    lock: Option<Lock>,
}

impl Model for SizedFile {
    ghost use Rattle.journal_audit.specs.Judging.{Placed};

    ghost Value = { Placed };

    ghost view = { λ f. record { version = f.version; size = f.size; lock = f.lock } };
}

fn has_no_bytes(size: Option<u64>) -> bool
    ensures { result ≡ has_no_bytes size }
{
    match size {
        None => return true,
        Some(size) => return size == 0,
    }
}

/// What an act asks of the lock of a file whose contents have that size.
pub(crate) fn sized_ask(size: Option<u64>, act: &LineAct) -> LockAsk<'_>
    ensures { act_of result ≡ sized_ask size act.now }
{
    match act {
        LineAct::Put {
            lock: None,
            size: _,
        } => LockAsk::Put {
            id: None,
            empty: has_no_bytes(size),
        },
        LineAct::Put {
            lock: Some(id),
            size: _,
        } => LockAsk::Put {
            id: Some(id),
            empty: has_no_bytes(size),
        },
        LineAct::Lock { id } => LockAsk::Lock { id },
        LineAct::GetLock => LockAsk::GetLock,
        LineAct::Refresh { id } => LockAsk::Refresh { id },
        LineAct::Unlock { id } => LockAsk::Unlock { id },
        LineAct::Relock { old, id } => LockAsk::Relock { old, id },
        LineAct::Create { overwrite, size: _ } => LockAsk::Create {
            exists: size.is_some(),
            overwrite: *overwrite,
        },
        LineAct::Delete => LockAsk::Delete,
        LineAct::Info | LineAct::Get { most: _ } | LineAct::Look => LockAsk::Look,
    }
}

/// A copy of a lock, if there is one.
fn copy_of(lock: Option<&Lock>) -> Option<Lock>
    ensures { result ≡ option_map (λ held. held.now) lock.entry }
{
    match lock {
        None => return None,
        Some(held) => return Some(held.copy()),
    }
}

impl SizedFile {
    /// What is told of the file, once it is settled.
    pub(crate) fn of(file: &ToldFile, now: u64) -> SizedFile
        ensures { result ≡ sized_at file.now now }
    {
        SizedFile {
            version: file.version(),
            size: file.size(),
            lock: copy_of(file.standing(now)),
        }
    }

    /// Its version.
    pub(crate) fn version(&self) -> u64
        ensures { result ≡ self.now.version }
    {
        self.version
    }

    /// The size of its contents, if it is there.
    pub(crate) fn size(&self) -> Option<u64>
        ensures { result ≡ self.now.size }
    {
        self.size
    }

    /// Its lock.
    pub(crate) fn lock(&self) -> Option<&Lock>
        ensures { option_map (λ held. held.now) result ≡ self.now.lock }
    {
        self.lock.as_ref()
    }
}

/// Whether an id is refused that the act presents.
pub(crate) fn shows_refused(file: &ToldFile, act: &LineAct, now: u64) -> bool
    ensures { result ≡ shows_spent (refused_at file.now now) act.now }
{
    match act {
        LineAct::Lock { id } => return file.refuses(id, now),
        LineAct::Refresh { id } => return file.refuses(id, now),
        LineAct::Unlock { id } => return file.refuses(id, now),
        LineAct::Relock { old, id } => return file.refuses(old, now) || file.refuses(id, now),
        LineAct::Put {
            lock: Some(id),
            size: _,
        } => return file.refuses(id, now),
        _ => return false,
    }
}
