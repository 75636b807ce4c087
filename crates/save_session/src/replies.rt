//! What comes of the operation that a session sent.
ghost use Rattle.std.specs.Prelude.{◌≡◌, ◌+◌, ◌&&◌, IsTrue};
ghost use Rattle.save_session.specs.declared.state.SessionOp.TheVariants as op;
ghost use Rattle.save_session.specs.LockIds.{lock_id};
ghost use Rattle.save_session.specs.Relocking.{wants_next, is_sound};
ghost use Rattle.save_session.specs.Session as machine;

use crate::ids::names;
use crate::input::Input;
use crate::nonce::Nonce;
use crate::output::Outcome;
use crate::sending::{ended, has_next, ignored, lost, put_sent, refused, sent, told};
use crate::state::{Effect, Goal, Phase, SessionOp, State, Turn, Waiting};
use wopi_headers::Answer;
use wopi_text::Reason;

/// No answer came.
pub fn unanswered(mut session: State) -> Turn
    ensures { result ≡ machine.unanswered session }
{
    match session.waits {
        None => ignored(session, Input::NoAnswer),
        Some(waiting) => {
            if waiting.tries < 3 {
                session.waits = Some(Waiting {
                    goal: waiting.goal,
                    op: waiting.op,
                    tries: waiting.tries + 1,
                });
                Turn {
                    session,
                    effect: Effect::Sends { op: waiting.op },
                }
            } else {
                told(session, Outcome::NoAnswer)
            }
        }
    }
}

fn was_read(mut session: State, goal: Goal, reply: Answer) -> Turn
    ensures { result ≡ machine.was_read session goal reply }
{
    let version = reply.version;
    session.contents = Some(reply.body);
    match goal {
        Goal::Start => {
            session.phase = Phase::Working;
            told(session, Outcome::Opened { version })
        }
        Goal::Read | Goal::Save | Goal::Refresh | Goal::Close => {
            told(session, Outcome::Read { version })
        }
    }
}

/// The session with its next id, which no save has used.
fn with_next(mut session: State) -> State
    requires { IsTrue (machine.has_next session.number) }
    ensures { result ≡ machine.with_next session }
{
    session.number += 1;
    session.used = false;
    session.relocking = false;
    session
}

/// The next id is held, and what it was wanted for goes on.
fn continued(session: State, goal: Goal, reply: Answer) -> Turn
    requires { IsTrue (wants_next goal && machine.has_next session.number) }
    ensures { result ≡ machine.continues session goal reply }
{
    let number = session.number + 1;
    match goal {
        Goal::Save => put_sent(with_next(session)),
        Goal::Refresh => sent(with_next(session), goal, SessionOp::Refresh { number }),
        Goal::Close => sent(with_next(session), goal, SessionOp::Unlock { number }),
        Goal::Start | Goal::Read => unreachable!(),
    }
}

fn reply_to_info(nonce: &Nonce, session: State, goal: Goal, reply: Answer) -> Turn
    ensures { result ≡ machine.reply_to nonce.now session goal op.Info reply }
{
    if reply.status == 200 {
        sent(session, goal, SessionOp::TakeLock)
    } else {
        refused(session, reply)
    }
}

fn reply_to_lock(nonce: &Nonce, session: State, goal: Goal, reply: Answer) -> Turn
    ensures { result ≡ machine.reply_to nonce.now session goal op.TakeLock reply }
{
    if reply.status == 200 {
        sent(session, goal, SessionOp::Get)
    } else if reply.status == 409 {
        let outcome = Outcome::Conflict {
            lock: reply.lock,
            reason: reply.reason,
        };
        told(session, outcome)
    } else {
        refused(session, reply)
    }
}

fn reply_to_get(nonce: &Nonce, session: State, goal: Goal, reply: Answer) -> Turn
    ensures { result ≡ machine.reply_to nonce.now session goal op.Get reply }
{
    if reply.status == 200 {
        was_read(session, goal, reply)
    } else {
        refused(session, reply)
    }
}

fn reply_to_put(nonce: &Nonce, session: State, goal: Goal, number: u64, reply: Answer) -> Turn
    ensures { result ≡ machine.reply_to nonce.now session goal (op.Put number) reply }
{
    if reply.status == 200 {
        let version = reply.version;
        told(session, Outcome::Saved { version })
    } else if reply.status == 409 {
        lost(session, reply)
    } else if reply.status == 413 {
        told(session, Outcome::TooLarge)
    } else {
        refused(session, reply)
    }
}

/// Whether the answer names the next id: then an earlier try of the relock has taken it.
fn names_next(nonce: &Nonce, number: u64, reply: &Answer) -> bool
    ensures { result ≡ (machine.has_next number && machine.names reply.now.lock (lock_id nonce.now (number + 1))) }
{
    has_next(number) && names(&reply.lock, nonce, u128::from(number) + 1)
}

fn reply_to_relock(nonce: &Nonce, session: State, goal: Goal, number: u64, reply: Answer) -> Turn
    requires { IsTrue (wants_next goal && machine.has_next session.number) }
    ensures { result ≡ machine.reply_to nonce.now session goal (op.Relock number) reply }
{
    if reply.status == 200 {
        continued(session, goal, reply)
    } else if reply.status == 409 {
        if names_next(nonce, session.number, &reply) {
            continued(session, goal, reply)
        } else {
            lost(session, reply)
        }
    } else {
        refused(session, reply)
    }
}

fn reply_to_refresh(nonce: &Nonce, session: State, goal: Goal, number: u64, reply: Answer) -> Turn
    ensures { result ≡ machine.reply_to nonce.now session goal (op.Refresh number) reply }
{
    if reply.status == 200 {
        told(session, Outcome::Refreshed)
    } else if reply.status == 409 {
        lost(session, reply)
    } else {
        refused(session, reply)
    }
}

fn reply_to_unlock(nonce: &Nonce, session: State, goal: Goal, number: u64, reply: Answer) -> Turn
    ensures { result ≡ machine.reply_to nonce.now session goal (op.Unlock number) reply }
{
    if reply.status == 200 {
        ended(session, Outcome::Closed)
    } else if reply.status == 409 {
        match reply.reason {
            Some(Reason::Spent) => ended(session, Outcome::Closed),
            Some(Reason::Locked)
            | Some(Reason::NotLocked)
            | Some(Reason::Taken)
            | Some(Reason::Changed)
            | None => lost(session, reply),
        }
    } else {
        refused(session, reply)
    }
}

/// An answer comes.
pub fn answered(nonce: &Nonce, session: State, reply: Answer) -> Turn
    requires { IsTrue (is_sound session) }
    ensures { result ≡ machine.answered nonce.now session reply }
{
    let Some(waiting) = session.waits else {
        return ignored(session, Input::Reply(reply));
    };
    let goal = waiting.goal;
    match waiting.op {
        SessionOp::Info => reply_to_info(nonce, session, goal, reply),
        SessionOp::TakeLock => reply_to_lock(nonce, session, goal, reply),
        SessionOp::Get => reply_to_get(nonce, session, goal, reply),
        SessionOp::Put { number } => reply_to_put(nonce, session, goal, number, reply),
        SessionOp::Relock { number } => reply_to_relock(nonce, session, goal, number, reply),
        SessionOp::Refresh { number } => reply_to_refresh(nonce, session, goal, number, reply),
        SessionOp::Unlock { number } => reply_to_unlock(nonce, session, goal, number, reply),
    }
}
