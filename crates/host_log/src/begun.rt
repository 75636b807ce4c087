//! A call that was begun, as it is kept until its line is written.
ghost use Rattle.std.specs.Prelude.{◌≡◌, ◌∷◌};
ghost use Rattle.std.specs.List.{flat_map};
ghost use Rattle.host_core.specs.Entries.{asked_as, kept_act};
ghost use Rattle.wopi_text.specs.FileName.{shard_of};
ghost use Rattle.host_table.specs.Pieces.{piece_text, place_text};
ghost use Rattle.host_table.specs.Text.{space, act_text, token_fields};
ghost use Rattle.wopi_model.specs.Act.{is_stored};
ghost use Rattle.host_log.specs.Rows.{only_looks};

use host_core::{Act, Beginning, Call, EntryAct};
use host_table::lines::{Piece, act_pieces, head_pieces, token_pieces};
use std::marker::Model;
use std::snapshot::Snapshot;
use wopi_model::Token;
use wopi_text::{FileName, LockId};

/// A call that was begun, with the size in bytes of the contents that it brings. A contract sees the whole call.
#[derive(Drop)]
pub struct Begun {
    stamp: u64,
    pass: u32,
    moment: u64,
    time: u64,
    name: FileName,
    token: Token,
    act: EntryAct,
    call: Snapshot<Call>,
}

impl Model for Begun {
    ghost use Rattle.host_core.specs.Entries.{Asked};

    ghost Value = { Asked };

    ghost use Rattle.host_log.specs.Begun.{asked_of, IsBegun};

    ghost view = { asked_of };

    ghost invariant = { IsBegun };
}

/// The id, where there is one.
fn copy_lock(lock: &Option<LockId>) -> Option<LockId>
    ensures { result ≡ lock.now }
{
    match lock {
        None => None,
        Some(id) => Some(id.copy()),
    }
}

/// The act, with the size of the contents that it brings.
fn act_of(act: &Act) -> EntryAct
    ensures { result ≡ kept_act act.now }
{
    match act {
        Act::Info => return EntryAct::Info,
        Act::Get { most } => return EntryAct::Get { most: *most },
        Act::Put { lock, contents } => {
            let size = contents.as_slice().len() as u64;
            let lock = copy_lock(lock);
            return EntryAct::Put { lock, size };
        }
        Act::Lock { id } => return EntryAct::Lock { id: id.copy() },
        Act::GetLock => return EntryAct::GetLock,
        Act::Refresh { id } => return EntryAct::Refresh { id: id.copy() },
        Act::Unlock { id } => return EntryAct::Unlock { id: id.copy() },
        Act::Relock { old, id } => {
            return EntryAct::Relock {
                old: old.copy(),
                id: id.copy(),
            };
        }
        Act::Look => return EntryAct::Look,
        Act::Create {
            overwrite,
            contents,
        } => {
            let size = contents.as_slice().len() as u64;
            return EntryAct::Create {
                overwrite: *overwrite,
                size,
            };
        }
        Act::Delete => return EntryAct::Delete,
    }
}

impl Begun {
    /// What is kept of a beginning. It takes no memory.
    pub fn of(beginning: &Beginning<'_>) -> Begun
        ensures { result ≡ asked_as beginning.now.stamp beginning.now.pass beginning.now.moment beginning.now.time beginning.now.call.now }
    {
        Begun {
            stamp: beginning.stamp,
            pass: beginning.pass,
            moment: beginning.moment,
            time: beginning.time,
            name: beginning.call.name.copy(),
            token: beginning.call.token.copy(),
            act: act_of(&beginning.call.act),
            call: Snapshot::of(beginning.call),
        }
    }

    /// Whether the store takes part in it where it is accepted.
    pub fn is_stored(&self) -> bool
        ensures { result ≡ is_stored self.now.call.act }
    {
        match &self.act {
            EntryAct::Put { .. } => return true,
            EntryAct::Create { .. } => return true,
            EntryAct::Delete => return true,
            _ => return false,
        }
    }

    /// Whether it leaves the file and its lock as they are.
    pub fn only_looks(&self) -> bool
        ensures { result ≡ only_looks self.now.call.act }
    {
        match &self.act {
            EntryAct::Info => return true,
            EntryAct::Get { .. } => return true,
            EntryAct::GetLock => return true,
            EntryAct::Look => return true,
            _ => return false,
        }
    }

    /// Where it stands, when it was made and of which file.
    pub(crate) fn head(&self) -> [Piece<'_>; 11]
        ensures { flat_map piece_text result ≡ place_text self.now.stamp (shard_of self.now.call.name) self.now.pass self.now.moment self.now.time self.now.call.name }
    {
        head_pieces(
            self.stamp,
            self.name.shard(),
            self.pass,
            self.moment,
            self.time,
            &self.name,
        )
    }

    /// A space and what it asks.
    pub(crate) fn asks(&self) -> [Piece<'_>; 6]
        ensures { flat_map piece_text result ≡ space ∷ act_text (kept_act self.now.call.act) }
    {
        act_pieces(&self.act)
    }

    /// A space and its token without the code.
    pub(crate) fn token(&self) -> [Piece<'_>; 12]
        ensures { flat_map piece_text result ≡ space ∷ token_fields self.now.call.token }
    {
        token_pieces(&self.token)
    }
}
