//! What a shard began with, in no memory.
ghost use Rattle.std.specs.Prelude.{◌≡◌, []};
ghost use Rattle.wopi_model.specs.Begin.{new_life};
ghost use Rattle.host_log.specs.Begins.{begin_in};

use crate::start::Start;
use host_core::{KeptFile, ToldLocks};
use std::alloc::Global;
use std::marker::Model;
use std::snapshot::Snapshot;

/// What a shard began with. No file and no lock is kept: contracts alone see them.
#[derive(Drop)]
pub struct Origin {
    opened: u64,
    first: u64,
    time: u64,
    last: u64,
    files: Snapshot<Vec<KeptFile>>,
    locks: Option<Snapshot<Vec<ToldLocks>>>,
}

impl Model for Origin {
    ghost use Rattle.wopi_model.specs.Begin.{Begin};

    ghost Value = { Begin };

    ghost use Rattle.host_log.specs.Begins.{begin_at};

    ghost view = { begin_at };
}

impl Origin {
    /// Of nothing that was begun.
    pub fn none(alloc: Global) -> Origin
        ensures { result ≡ new_life [] 0 0 }
    {
        let files: Vec<KeptFile> = Vec::new(alloc);
        Origin {
            opened: 0,
            first: 0,
            time: 0,
            last: 0,
            files: Snapshot::of(&files),
            locks: None,
        }
    }

    /// Of a shard that begins so.
    pub fn of(start: &Start<'_>) -> Origin
        ensures { result ≡ begin_in start.now }
    {
        let locks = match start.locks {
            None => None,
            Some(locks) => Some(Snapshot::of(locks)),
        };
        Origin {
            opened: start.opened,
            first: start.first,
            time: start.time,
            last: start.last,
            files: Snapshot::of(start.files),
            locks,
        }
    }
}
