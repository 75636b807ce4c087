//! The ends that a step can have: something is sent, told, or handed back.
ghost use Rattle.std.specs.Prelude.{◌≡◌};
ghost use Rattle.save_session.specs.Session as machine;

use crate::input::Input;
use crate::output::Outcome;
use crate::state::{Effect, Goal, Phase, SessionOp, State, Turn, Waiting};
use wopi_headers::Answer;

/// The input is handed back, and the session stays.
pub fn ignored(session: State, input: Input) -> Turn
    ensures { result ≡ machine.ignores session input }
{
    Turn {
        session,
        effect: Effect::Ignores { input },
    }
}

/// An operation is sent for this goal, for the first time.
pub fn sent(mut session: State, goal: Goal, op: SessionOp) -> Turn
    ensures { result ≡ machine.sends session goal op }
{
    session.waits = Some(Waiting { goal, op, tries: 1 });
    Turn {
        session,
        effect: Effect::Sends { op },
    }
}

/// The outcome is told, and nothing waits any more.
pub fn told(mut session: State, outcome: Outcome) -> Turn
    ensures { result ≡ machine.tells session outcome }
{
    session.waits = None;
    session.body = None;
    Turn {
        session,
        effect: Effect::Tells { outcome },
    }
}

/// The outcome is told, and the session has ended.
pub fn ended(mut session: State, outcome: Outcome) -> Turn
    ensures { result ≡ machine.ends session outcome }
{
    session.phase = Phase::Ended;
    told(session, outcome)
}

/// The lock is lost, as the answer says.
pub fn lost(session: State, reply: Answer) -> Turn
    ensures { result ≡ machine.loses session reply }
{
    let outcome = Outcome::LockLost {
        lock: reply.lock,
        reason: reply.reason,
    };
    ended(session, outcome)
}

/// A status that has no row of its own.
pub fn refused(session: State, reply: Answer) -> Turn
    ensures { result ≡ machine.refused session reply }
{
    if reply.status == 401 {
        ended(session, Outcome::TokenDead)
    } else if reply.status == 404 {
        ended(session, Outcome::Gone)
    } else {
        let status = reply.status;
        told(session, Outcome::HostFault { status })
    }
}

/// Whether there is a number after this one.
pub fn has_next(number: u64) -> bool
    ensures { result ≡ machine.has_next number }
{
    number < u64::MAX - 1
}

/// The relock to the next id is sent, with the body that the session has.
pub fn relock_sent(mut session: State, goal: Goal) -> Turn
    ensures { result ≡ machine.relocks session goal session.body }
{
    session.relocking = true;
    let op = SessionOp::Relock {
        number: session.number,
    };
    sent(session, goal, op)
}

/// The session's body is sent under its id.
pub fn put_sent(mut session: State) -> Turn
    ensures { result ≡ machine.puts session session.body }
{
    session.used = true;
    let op = SessionOp::Put {
        number: session.number,
    };
    sent(session, Goal::Save, op)
}
