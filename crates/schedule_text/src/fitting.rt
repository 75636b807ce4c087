//! What can stand behind the lines of a schedule.
ghost use Rattle.std.specs.Prelude.{◌≡◌, ◌<◌, ◌↔◌, ◌||◌, ℕ, List, not, Some, IsTrue, IfOk, IfSome, OnOk};
ghost use Rattle.std.specs.List.{slice_get};
ghost use Rattle.std.specs.BTreeSet.{contains_text};
ghost use Rattle.std.specs.Str.{bytes_eq};
ghost use Rattle.save_session.specs.LockIds.{BeginsWith};
ghost use Rattle.wopi_acts.specs.Acts.{act_with};
ghost use Rattle.schedule_text.specs.Readings.{BeginsWithDash, HasLatest, HasNonce, IsOfSession, Suits};
ghost use Rattle.schedule_text.specs.Schedules.{IsBefore, IsOfNobody};
ghost use Rattle.schedule_text.specs.declared.schedule.EventLine.{EventLine};

use crate::schedule::{EventLine, SessionLine};
use save_session::Nonce;
use std::alloc::Global;
use std::collections::BTreeSet;
use wopi_headers::Op;
use wopi_text::{FileName, LockId, Memory};

/// Notes a file's name, and tells whether it is a new one.
pub(crate) fn note(
    names: &mut BTreeSet<String>,
    alloc: Global,
    name: &FileName,
) -> Result<bool, Memory>
    ensures fresh { IfOk result (λ fresh. fresh ≡ not (contains_text names.old name.now)) }
    ensures noted { OnOk result ((other : List ℕ) → contains_text names.new other ≡ (bytes_eq name.now other || contains_text names.old other)) }
{
    let text = String::from_str(alloc, name.as_str())?;
    let fresh = names.insert(text)?;
    Ok(fresh)
}

/// Whether the session has this nonce.
fn has_nonce(session: &SessionLine, nonce: &Nonce) -> bool
    ensures { IsTrue result ↔ (session.now.nonce ≡ nonce.now) }
{
    session.nonce.as_slice() == nonce.as_slice()
}

/// Whether one of the sessions has this nonce.
pub(crate) fn is_known(sessions: &[SessionLine], nonce: &Nonce) -> bool
    ensures { IsTrue result ↔ HasNonce sessions.now nonce.now }
{
    sessions.iter().any(|session| has_nonce(session, nonce))
}

/// Whether the text begins with a dash.
fn begins_with_dash(text: &[u8]) -> bool
    ensures { IsTrue result ↔ BeginsWithDash text.now }
{
    match text.first() {
        None => false,
        Some(first) => *first == b'-',
    }
}

/// Whether the id could be one of a session with this nonce.
fn begins_with(nonce: &Nonce, id: &LockId) -> bool
    ensures { IsTrue result ↔ BeginsWith nonce.now id.now }
{
    match id.as_slice().strip_prefix(nonce.as_slice()) {
        Some(rest) => return begins_with_dash(rest),
        None => return false,
    }
}

/// Whether the id could be one of any of these sessions.
fn is_of_session(sessions: &[SessionLine], id: &LockId) -> bool
    ensures { IsTrue result ↔ IsOfSession sessions.now id.now }
{
    sessions
        .iter()
        .any(|session| begins_with(&session.nonce, id))
}

/// Whether the lock, where there is one, could be of no session.
fn is_lock_of_nobody(sessions: &[SessionLine], lock: &Option<LockId>) -> bool
    ensures { IsTrue result ↔ ((id : List ℕ) → lock.now ≡ Some id → IsOfSession sessions.now id → ⊥) }
{
    match lock {
        Some(id) => return !is_of_session(sessions, id),
        None => return true,
    }
}

/// Whether no id that is presented could be one of a session.
fn is_of_nobody(sessions: &[SessionLine], op: &Op) -> bool
    ensures { (body : List ℕ) → IsTrue result ↔ IsOfNobody sessions.now (act_with body op.now) }
{
    match op {
        Op::Put { lock } => is_lock_of_nobody(sessions, lock),
        Op::Lock { id } => !is_of_session(sessions, id),
        Op::Refresh { id } => !is_of_session(sessions, id),
        Op::Unlock { id } => !is_of_session(sessions, id),
        Op::Relock { old, id } => !is_of_session(sessions, old) && !is_of_session(sessions, id),
        _ => true,
    }
}

/// When the token of the session at that place was issued, 0 where there is no such session.
fn issued_at(sessions: &[SessionLine], place: u64) -> u64
    ensures { (later : ℕ) → 0 < later → (result < later) ↔ IfSome (slice_get sessions.now place) (λ session. session.issued < later) }
{
    match sessions.get(place as usize) {
        Some(session) => session.issued,
        None => 0,
    }
}

/// The moment of the event, or the one at which the token of its session was issued; 0 where it has
/// neither.
pub(crate) fn moment_of(sessions: &[SessionLine], event: &EventLine) -> u64
    ensures { (later : ℕ) → 0 < later → (result < later) ↔ IsBefore sessions.now later event.now }
{
    match event {
        EventLine::Asks { session, .. } => issued_at(sessions, *session),
        EventLine::Deliver { moment, .. } => *moment,
        EventLine::Answer { .. } => 0,
        EventLine::Lose { session } => issued_at(sessions, *session),
        EventLine::Ticks { moment } => *moment,
        EventLine::Foreign { moment, .. } => *moment,
        EventLine::Restarts { moment } => *moment,
    }
}

/// Whether the event can stand behind these sessions, and behind events of which that is the latest
/// moment.
pub(crate) fn suits(sessions: &[SessionLine], latest: u64, event: &EventLine) -> bool
    ensures { (events : List EventLine) → HasLatest sessions.now events latest → IsTrue result ↔ Suits sessions.now events event.now }
{
    match event {
        EventLine::Asks { session, .. } => *session < sessions.len() as u64,
        EventLine::Lose { session } => *session < sessions.len() as u64,
        EventLine::Foreign { ask, .. } => is_of_nobody(sessions, &ask.op),
        EventLine::Restarts { moment } => latest < *moment,
        _ => true,
    }
}
