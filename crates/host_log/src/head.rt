//! What a segment begins with, in no memory.
ghost use Rattle.std.specs.Prelude.{◌≡◌};
ghost use Rattle.host_log.specs.Begins.{begin_in};
ghost use Rattle.host_log.specs.Rows.{begin_text};

use crate::origin::Origin;
use crate::start::Start;
use std::marker::Model;

/// What a segment begins with: its shard, and what that began with. A contract sees its text.
#[derive(Drop)]
pub struct Head {
    shard: u8,
    origin: Origin,
}

impl Model for Head {
    ghost use Rattle.std.specs.Prelude.{List, ℕ};
    ghost use Rattle.host_log.specs.Rows.{begin_text};

    ghost Value = { List ℕ };

    ghost view = { λ h. begin_text h.shard h.origin };
}

impl Head {
    /// Of a shard that begins so.
    pub fn of(shard: u8, start: &Start<'_>) -> Head
        ensures { result ≡ begin_text shard (begin_in start.now) }
    {
        Head {
            shard,
            origin: Origin::of(start),
        }
    }
}
