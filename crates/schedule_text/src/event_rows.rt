//! The lines of the events.
ghost use Rattle.std.specs.Prelude.{◌≡◌, ◌↔◌, ◌+◌, ℕ, List, [], ◌∷◌, decimal, Some, IfOk, IfSome, IfNone};
ghost use Rattle.schedule_text.specs.declared.schedule.EventLine.{EventLine};
ghost use Rattle.schedule_text.specs.declared.schedule.EventLine.TheVariants.{Answer, Asks, Deliver};
ghost use Rattle.schedule_text.specs.declared.schedule.Wish.TheVariants.{Save};
ghost use Rattle.schedule_text.specs.declared.schedule.Reference.{Reference};
ghost use Rattle.wopi_model.specs.Moment.{IsMoment};
ghost use Rattle.schedule_text.specs.Grammar.{IsCounted, IsEventRow, words_of};
ghost use Rattle.schedule_text.specs.RowKinds.{IsNamed, IsTimed};

use crate::foreign_rows::foreign_read;
use crate::schedule::{EventLine, Reference, Wish};
use crate::values::{contents_read, place_read, reference_read};
use line_text::{is_word, moment_read, three_words, two_words};
use std::alloc::Global;
use wopi_text::Memory;

/// The event that a line tells of, if it is such a line.
pub(crate) fn event_read(alloc: Global, row: &[u8]) -> Result<Option<EventLine>, Memory>
    ensures some { IfOk result (λ read. IfSome read (IsEventRow row.now)) }
    ensures none { IfOk result (λ read. IfNone read ((event : EventLine) → IsEventRow row.now event → ⊥)) }
{
    if let Some(event) = named_read(row) {
        return Ok(Some(event));
    }
    if let Some(event) = timed_read(row) {
        return Ok(Some(event));
    }
    if let Some(event) = save_read(alloc, row)? {
        return Ok(Some(event));
    }
    match foreign_read(alloc, row) {
        Ok(Some((moment, ask))) => return Ok(Some(EventLine::Foreign { moment, ask })),
        Ok(None) => return Ok(None),
        Err(fault) => return Err(fault),
    }
}

/// The session, counted from 0, that stands behind that word.
fn place_after(row: &[u8], kind: &[u8]) -> Option<u64>
    ensures { (s : ℕ) → (result ≡ Some s) ↔ (IsCounted (s + 1) × (words_of row.now ≡ kind.now ∷ decimal (s + 1) ∷ [])) }
{
    let Some((first, second)) = two_words(row) else {
        return None;
    };
    if !is_word(first, kind) {
        return None;
    }
    place_read(second)
}

/// The event that a word and a session say.
fn named_read(row: &[u8]) -> Option<EventLine>
    ensures some { IfSome result (IsEventRow row.now) }
    ensures none { IfNone result ((event : EventLine) → IsNamed event → IsEventRow row.now event → ⊥) }
{
    if let Some(session) = place_after(row, b"open") {
        let wish = Wish::Start;
        return Some(EventLine::Asks { session, wish });
    }
    if let Some(session) = place_after(row, b"read") {
        let wish = Wish::Read;
        return Some(EventLine::Asks { session, wish });
    }
    if let Some(session) = place_after(row, b"refresh") {
        let wish = Wish::Refresh;
        return Some(EventLine::Asks { session, wish });
    }
    if let Some(session) = place_after(row, b"close") {
        let wish = Wish::Close;
        return Some(EventLine::Asks { session, wish });
    }
    if let Some(session) = place_after(row, b"lose") {
        return Some(EventLine::Lose { session });
    }
    None
}

/// The event that a line with a save tells of, if it is such a line.
fn save_read(alloc: Global, row: &[u8]) -> Result<Option<EventLine>, Memory>
    ensures some { IfOk result (λ read. IfSome read (IsEventRow row.now)) }
    ensures none { IfOk result (λ read. IfNone read ((s : ℕ) (contents : List ℕ) → IsEventRow row.now (Asks s (Save contents)) → ⊥)) }
{
    let Some((first, second, third)) = three_words(row) else {
        return Ok(None);
    };
    if !is_word(first, b"save".as_slice()) {
        return Ok(None);
    }
    let Some(session) = place_read(second) else {
        return Ok(None);
    };
    let Some(contents) = contents_read(alloc, third)? else {
        return Ok(None);
    };
    Ok(Some(EventLine::Asks {
        session,
        wish: Wish::Save(contents),
    }))
}

/// The event that a word and numbers say.
fn timed_read(row: &[u8]) -> Option<EventLine>
    ensures some { IfSome result (IsEventRow row.now) }
    ensures none { IfNone result ((event : EventLine) → IsTimed event → IsEventRow row.now event → ⊥) }
{
    if let Some((request, moment)) = deliver_read(row) {
        return Some(EventLine::Deliver { request, moment });
    }
    if let Some(reply) = answer_read(row) {
        return Some(EventLine::Answer { reply });
    }
    if let Some(moment) = moment_after(row, b"tick") {
        return Some(EventLine::Ticks { moment });
    }
    if let Some(moment) = moment_after(row, b"restart") {
        return Some(EventLine::Restarts { moment });
    }
    None
}

/// The moment that stands behind that word.
fn moment_after(row: &[u8], kind: &[u8]) -> Option<u64>
    ensures { (moment : ℕ) → (result ≡ Some moment) ↔ (IsMoment moment × (words_of row.now ≡ kind.now ∷ decimal moment ∷ [])) }
{
    let Some((first, second)) = two_words(row) else {
        return None;
    };
    if !is_word(first, kind) {
        return None;
    }
    moment_read(second)
}

/// The reply that a line hands back, if it is such a line.
fn answer_read(row: &[u8]) -> Option<Reference>
    ensures some { IfSome result (λ reply. IsEventRow row.now (Answer reply)) }
    ensures none { IfNone result ((reply : Reference) → IsEventRow row.now (Answer reply) → ⊥) }
{
    let Some((first, second)) = two_words(row) else {
        return None;
    };
    if !is_word(first, b"answer".as_slice()) {
        return None;
    }
    let Some(reply) = reference_read(second) else {
        return None;
    };
    Some(reply)
}

/// The request that a line delivers, and the moment, if it is such a line.
fn deliver_read(row: &[u8]) -> Option<(Reference, u64)>
    ensures some { IfSome result (λ read. IsEventRow row.now (Deliver read.0 read.1)) }
    ensures none { IfNone result ((request : Reference) (moment : ℕ) → IsEventRow row.now (Deliver request moment) → ⊥) }
{
    let Some((first, second, third)) = three_words(row) else {
        return None;
    };
    if !is_word(first, b"deliver".as_slice()) {
        return None;
    }
    let Some(request) = reference_read(second) else {
        return None;
    };
    let Some(moment) = moment_read(third) else {
        return None;
    };
    Some((request, moment))
}
