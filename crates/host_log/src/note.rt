//! What an entry was, in no memory.
ghost use Rattle.std.specs.Prelude.{◌≡◌};
ghost use Rattle.host_core.specs.Entries.{ruled_as};

use crate::begun::Begun;
use host_core::Ruling;
use std::marker::Model;
use std::snapshot::Snapshot;

/// An entry of which nothing is kept: contracts alone see it.
#[derive(Drop)]
pub struct Note {
    asked: Snapshot<Begun>,
    ruling: Snapshot<Ruling>,
    told: Snapshot<bool>,
}

impl Model for Note {
    ghost use Rattle.host_core.specs.Entries.{Made, ruled_as};

    ghost Value = { Made };

    ghost view = { λ n. ruled_as n.told.value n.ruling.value n.asked.value };
}

impl Note {
    /// A call that was begun, with its ruling, and whether it may be told.
    pub fn of(begun: &Begun, ruling: &Ruling, told: bool) -> Note
        ensures { result ≡ ruled_as told ruling.now begun.now }
    {
        Note {
            asked: Snapshot::of(begun),
            ruling: Snapshot::of(ruling),
            told: Snapshot::of(&told),
        }
    }
}
