//! Calls on files, and what became of them.
ghost use Rattle.std.specs.Prelude.{◌≡◌};
ghost use Rattle.wopi_model.specs.Moment.{IsMoment};
ghost use Rattle.host_server.specs.Keeping.{KeepsTold};
ghost use Rattle.host_server.specs.Calls.{Calls};

use host_core::{Call, Caller, Carried, Refusal, Ruling};
use wopi_text::Bytes;

/// What became of a call.
#[derive(Drop)]
pub enum Called {
    /// An entry was made; and the contents that weren't accepted came back.
    Ruled { ruling: Ruling, back: Option<Bytes> },
    Full,
    /// No entry was made, since there was no memory, or the store of the file's shard is lost.
    Memory,
}

/// Makes a call.
pub fn make<C: Caller>(caller: &mut C, call: Call, moment: u64) -> Called
    requires { IsMoment moment }
    ensures calls { Calls C.always (C.sight caller.old) (C.sight caller.new) call moment result }
    ensures telling { KeepsTold C.loses (C.telling caller.old) (C.telling caller.new) (C.sight caller.old) (C.sight caller.new) }
    ensures basis { C.basis caller.new ≡ C.basis caller.old }
    ensures references { C.references caller.new ≡ C.references caller.old }
{
    let mut call = call;
    let mut carried = Carried::new();
    match caller.call_at(&mut call, moment, &mut carried) {
        Ok(_placed) => Called::Ruled {
            ruling: carried.ruling,
            back: carried.back,
        },
        Err(Refusal::Full) => Called::Full,
        Err(Refusal::Memory) => Called::Memory,
        Err(Refusal::Lost) => Called::Memory,
    }
}
