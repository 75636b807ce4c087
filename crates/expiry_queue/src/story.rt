//! A list of which nothing is kept: contracts alone see it.
ghost use Rattle.std.specs.Prelude.{◌≡◌, ◌∷◌, []};

use std::marker::Model;
use std::snapshot::Snapshot;
use wopi_model::Spent;

/// Ids, the one that was told last at the front. It takes no memory, however long it is, and none at all as a snapshot.
#[cycle(story)]
#[derive(Drop)]
pub struct Story {
    part: Part,
}

/// Nothing, or one id and what was told before.
#[cycle(story)]
#[derive(Drop)]
enum Part {
    Empty,
    More(Snapshot<Spent>, Snapshot<Snapshot<Story>>),
}

impl Model for Story {
    ghost use Rattle.std.specs.Prelude.{List, length};
    ghost use Rattle.wopi_model.specs.declared.locks.Spent.{Spent};

    ghost Value = { List Spent };

    ghost use Rattle.expiry_queue.specs.Told.{told};

    ghost view = { λ story. told story.part };

    ghost size = { length };

    ghost use Rattle.std.proofs.Common.{arith};

    ghost size_decreases = { λ story h. Prim.grind (arith) };
}

impl Story {
    /// Nothing was told.
    pub fn new() -> Story
        ensures { result ≡ [] }
    {
        Story { part: Part::Empty }
    }

    /// One id more than that was told.
    pub fn after(one: &Spent, before: &Snapshot<Story>) -> Story
        ensures { result ≡ one.now ∷ before.now.value }
    {
        let part = Part::More(Snapshot::of(one), Snapshot::of(before));
        Story { part }
    }
}
