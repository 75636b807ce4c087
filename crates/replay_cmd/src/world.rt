//! The world that a schedule leads to.
ghost use Rattle.std.specs.Prelude.{◌≡◌, true, IfOk};
ghost use Rattle.wopi_world.specs.Safe.{IsSafe};
ghost use Rattle.replay_cmd.specs.Carryings.{CarriesOver, IsRunOver};
ghost use Rattle.replay_cmd.specs.Runs.{setting_of, world_of};
ghost use Rattle.replay_cmd.specs.Worlds.{IsRunOf};

use crate::stage::Stage;
use crate::starting::start;
use crate::wire::Wire;
use schedule_text::Schedule;
use std::alloc::Global;
use wopi_text::{Bytes, Memory};
use wopi_world::laws::safe_always;

/// The world after the last event of a schedule, and what its events showed, a line each.
pub struct World {
    pub stage: Stage,
    pub trace: Bytes,
}

impl Drop for World {
    fn drop(self) {
        let World {
            stage: _stage,
            trace: _trace,
        } = self;
    }
}

impl World {
    /// Runs a schedule: its sessions, its host, and the wire between them. The request of each
    /// delivery and of each ask of somebody else goes over the wire once, and so does the reply that
    /// a session takes; the host and the session go on with what a reader makes of what comes, over
    /// whatever wire. Over a straight wire the shard is never full. That what it leaves fits into the one
    /// that opens at a restart is proved of a restart alone; here want of memory stands for files that
    /// don't. It stands also for a message that wouldn't be read back as it was written: by a schedule's
    /// limits none should come, and no clause excludes it.
    pub fn run<W: Wire>(alloc: Global, schedule: &Schedule, wire: &mut W) -> Result<World, Memory>
        ensures runs { W.is_straight wire.old ≡ true → IfOk result (IsRunOf schedule.now) }
        ensures carries { IfOk result (λ world. CarriesOver (W.carried wire.old) (W.carried wire.new) (IsRunOver schedule.now world)) }
        ensures safe { IfOk result (λ _. IsSafe (setting_of schedule.now) (world_of schedule.now)) }
        ensures straight { W.is_straight wire.old ≡ true → W.is_straight wire.new ≡ true }
    {
        safe_always();
        let stage = start(alloc, schedule)?;
        let Some(world) = stage.lines(wire, schedule.events())? else {
            return Err(Memory);
        };
        Ok(world)
    }
}
