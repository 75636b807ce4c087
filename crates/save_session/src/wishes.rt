//! What a session is asked for.
ghost use Rattle.std.specs.Prelude.{◌≡◌};
ghost use Rattle.save_session.specs.Session as machine;

use crate::input::Input;
use crate::sending::{has_next, ignored, put_sent, relock_sent, sent};
use crate::state::{Goal, Phase, SessionOp, State, Turn};
use wopi_text::Bytes;

fn is_new(session: &State) -> bool
    ensures { result ≡ machine.is_new session.now }
{
    match session.phase {
        Phase::New => session.waits.is_none(),
        Phase::Working | Phase::Ended => false,
    }
}

fn is_free(session: &State) -> bool
    ensures { result ≡ machine.is_free session.now }
{
    match session.phase {
        Phase::Working => session.waits.is_none(),
        Phase::New | Phase::Ended => false,
    }
}

/// At Start.
pub fn starting(session: State) -> Turn
    ensures { result ≡ machine.starts session }
{
    if is_new(&session) {
        sent(session, Goal::Start, SessionOp::Info)
    } else {
        ignored(session, Input::Start)
    }
}

/// At Read.
pub fn reading(session: State) -> Turn
    ensures { result ≡ machine.reads session }
{
    if is_free(&session) {
        sent(session, Goal::Read, SessionOp::Get)
    } else {
        ignored(session, Input::Read)
    }
}

/// The session saves, or relocks first.
fn writing(mut session: State, contents: Bytes) -> Turn
    ensures { result ≡ machine.saves session contents }
{
    if !(session.used || session.relocking) {
        session.body = Some(contents);
        return put_sent(session);
    }
    if has_next(session.number) {
        session.body = Some(contents);
        relock_sent(session, Goal::Save)
    } else {
        ignored(session, Input::Save(contents))
    }
}

/// At Save: a PutFile under the present lock, or, where that lock was used, the relock that comes before it.
pub fn saving(session: State, contents: Bytes) -> Turn
    ensures { result ≡ machine.asks_to_save session contents }
{
    if is_free(&session) {
        writing(session, contents)
    } else {
        ignored(session, Input::Save(contents))
    }
}

/// The operation is sent, or the relock that isn't settled is sent again first.
fn under_lock(session: State, goal: Goal, op: SessionOp, input: Input) -> Turn
    ensures { result ≡ machine.settles_then session goal op input }
{
    if !session.relocking {
        sent(session, goal, op)
    } else if has_next(session.number) {
        relock_sent(session, goal)
    } else {
        ignored(session, input)
    }
}

/// At Refresh: the relock that is not settled yet, or else a RefreshLock.
pub fn refreshing(session: State) -> Turn
    ensures { result ≡ machine.refreshes session }
{
    if is_free(&session) {
        let op = SessionOp::Refresh {
            number: session.number,
        };
        under_lock(session, Goal::Refresh, op, Input::Refresh)
    } else {
        ignored(session, Input::Refresh)
    }
}

/// At Close: the relock that is not settled yet, or else an Unlock.
pub fn closing(session: State) -> Turn
    ensures { result ≡ machine.closes session }
{
    if is_free(&session) {
        let op = SessionOp::Unlock {
            number: session.number,
        };
        under_lock(session, Goal::Close, op, Input::Close)
    } else {
        ignored(session, Input::Close)
    }
}
