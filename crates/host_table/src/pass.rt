//! What a caller of a host has.
ghost use Rattle.std.specs.Prelude.{◌≡◌};
ghost use Rattle.host_table.specs.Passes.{HasSeen};

use crate::held::Held;
use crate::opening::Most;
use host_core::Store;
use std::marker::Model;
use std::snapshot::Snapshot;
use turn_lock::Seat;

/// A seat at each shard of a host, under one number. Contracts see what it has seen of each shard, its own
/// entries with their places, and its last stamp. One that is dropped takes its weight with it, so its host
/// can't be closed any more.
#[derive(Drop)]
pub struct Pass<F: Store> {
    pub(crate) number: u32,
    /// The greatest stamp of any entry that was seen, or of one before the shards began.
    pub(crate) last: u64,
    /// That of each seat.
    pub(crate) weight: u64,
    /// Those of its host, as contracts see them.
    pub(crate) opened: Snapshot<u64>,
    pub(crate) first: Snapshot<u64>,
    pub(crate) most: Snapshot<Most>,
    pub(crate) seats: Vec<Seat<Held<F>>>,
}

impl<F: Store> Model for Pass<F> {
    ghost use Rattle.host_table.specs.Passes.{PassView};

    ghost Value = { PassView F };

    ghost use Rattle.host_table.specs.Views.{pass_of};
    ghost use Rattle.host_table.specs.Passes.{IsPass};

    ghost view = { pass_of };

    ghost invariant = { λ pass. IsPass (pass_of pass) };
}

impl<F: Store> Pass<F> {
    /// The pass's part of the weight, of which all passes of a host together have 2^62.
    pub fn weight(&self) -> u64
        ensures { result ≡ self.now.weight }
    {
        self.weight
    }

    pub(crate) fn number(&self) -> u32
        ensures { result ≡ self.now.number }
    {
        self.number
    }

    /// What a pass has seen holds of every pass.
    pub(crate) fn look(&self)
        ensures { HasSeen self.now }
    {
        let _last = self.last;
    }
}
