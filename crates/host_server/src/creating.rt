//! Files made under the first of some names that isn't taken.
ghost use Rattle.std.specs.Prelude.{◌≡◌, ◌≤◌, ◌<◌, ◌↔◌, ℕ, IsTrue, length, ◌++◌};
ghost use Rattle.wopi_model.specs.Moment.{IsMoment};
ghost use Rattle.put_relative.specs.CopyNames.{copy_name};
ghost use Rattle.host_server.specs.Keeping.{KeepsTold};
ghost use Rattle.host_server.specs.Copies.{IsTaken, create_as};
ghost use Rattle.host_server.specs.Tries.{Attempts, Creates, Judges};

use crate::calling::{Called, make};
use access_tokens::Token;
use host_core::{Act, Call, Caller, Ruling};
use put_relative::candidate;
use wopi_text::{Bytes, FileName, Reason};

/// What became of the making of a file.
#[derive(Drop)]
enum Attempt {
    /// Its name is taken, and the contents came back.
    Taken { ruling: Ruling, back: Bytes },
    Ruled(Ruling),
    Full,
    Memory,
}

/// What became of the attempts to make a file.
#[derive(Drop)]
pub enum Outcome {
    /// The last one decided.
    Ruled { name: FileName, ruling: Ruling },
    Full,
    Memory,
}

fn is_taken(ruling: &Ruling) -> bool
    ensures { IsTrue result ↔ IsTaken ruling.now }
{
    ruling.status == 409 && ruling.reason == Some(Reason::Taken)
}

/// What a ruling makes of an attempt, with the contents where they came back.
fn judged(ruling: Ruling, back: Option<Bytes>) -> Attempt
    ensures { Judges ruling back result }
{
    let Some(back) = back else {
        return Attempt::Ruled(ruling);
    };
    if is_taken(&ruling) {
        Attempt::Taken { ruling, back }
    } else {
        Attempt::Ruled(ruling)
    }
}

/// Makes the file of that name.
fn make_named<C: Caller>(
    caller: &mut C,
    name: FileName,
    token: Token,
    overwrite: bool,
    contents: Bytes,
    moment: u64,
) -> Attempt
    requires { IsMoment moment }
    ensures attempts { Attempts C.always (C.sight caller.old) (C.sight caller.new)
        record { name = name; token = token; act = Act.Create overwrite contents } contents moment result }
    ensures telling { KeepsTold C.loses (C.telling caller.old) (C.telling caller.new) (C.sight caller.old) (C.sight caller.new) }
    ensures basis { C.basis caller.new ≡ C.basis caller.old }
    ensures references { C.references caller.new ≡ C.references caller.old }
{
    let act = Act::Create {
        overwrite,
        contents,
    };
    match make(caller, Call { name, token, act }, moment) {
        Called::Ruled { ruling, back } => judged(ruling, back),
        Called::Full => Attempt::Full,
        Called::Memory => Attempt::Memory,
    }
}

/// Makes the file under the name, or the first of its copies that isn't taken, so many at most. The
/// contents go from one attempt to the next without a copy.
pub fn create<C: Caller>(
    caller: &mut C,
    name: &FileName,
    token: &Token,
    overwrite: bool,
    contents: Bytes,
    tries: u32,
    moment: u64,
) -> Outcome
    requires moment { IsMoment moment }
    requires some { 0 < tries }
    requires names { (number : ℕ) → number < tries → (number < 100) × (length (copy_name name.now number) ≤ 128) }
    ensures creates { Creates C.always (C.sight caller.old) (C.sight caller.new) (create_as name.now token.now overwrite contents) moment tries result }
    ensures telling { KeepsTold C.loses (C.telling caller.old) (C.telling caller.new) (C.sight caller.old) (C.sight caller.new) }
    ensures basis { C.basis caller.new ≡ C.basis caller.old }
    ensures references { C.references caller.new ≡ C.references caller.old }
{
    let mut contents = contents;
    'names: for number in 0..tries {
        let Some(copy) = candidate(name, number) else {
            unreachable!()
        };
        match make_named(
            caller,
            copy.copy(),
            token.copy(),
            overwrite,
            contents,
            moment,
        ) {
            Attempt::Taken { ruling, back } => {
                if number + 1 == tries {
                    return Outcome::Ruled { name: copy, ruling };
                }
                contents = back;
            }
            Attempt::Ruled(ruling) => return Outcome::Ruled { name: copy, ruling },
            Attempt::Full => return Outcome::Full,
            Attempt::Memory => return Outcome::Memory,
        }
    }
    unreachable!()
}
