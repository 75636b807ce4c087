//! What comes to the sessions, and the time that goes on.
ghost use Rattle.std.specs.Prelude.{◌≡◌, ◌≤◌, ◌∷◌, [], max, true, codes, decimal, IfOk, IfSome, Some};
ghost use Rattle.save_session.specs.declared.input.Input.TheVariants.{NoAnswer};
ghost use Rattle.wopi_model.specs.Moment.{IsMoment};
ghost use Rattle.wopi_world.specs.Requests.{input_of};
ghost use Rattle.wopi_world.specs.World as event;
ghost use Rattle.replay_cmd.specs.Carryings.{CarriesOver, GoesOn, HandsOver, TakesInput};
ghost use Rattle.replay_cmd.specs.Runs.{wish_of};
ghost use Rattle.replay_cmd.specs.Sessions.{given_as};
ghost use Rattle.replay_cmd.specs.Steps.{ShowsEvent};
ghost use Rattle.replay_cmd.specs.Trace.{session_shown, answer_shown, now_shown};

use crate::carrying::carry_answer;
use crate::history::Item;
use crate::lookups::{member_at, reply_at, request_at, waits_for};
use crate::sessions::step_at;
use crate::stage::Stage;
use crate::wire::Wire;
use crate::words::{numbered_words, words_of};
use save_session::Input;
use schedule_text::Wish;
use std::alloc::Global;
use wopi_headers::Answer;
use wopi_text::{Bytes, Memory};

/// What a session makes of an answer, or of none.
fn input_of(answer: Option<Answer>) -> Input
    ensures { result ≡ given_as answer }
{
    match answer {
        Some(answer) => Input::Reply(answer),
        None => Input::NoAnswer,
    }
}

fn wished(alloc: Global, wish: &Wish) -> Result<Input, Memory>
    ensures { IfOk result (λ given. given ≡ input_of (wish_of wish.now)) }
{
    match wish {
        Wish::Start => Ok(Input::Start),
        Wish::Read => Ok(Input::Read),
        Wish::Save(contents) => Ok(Input::Save(contents.try_copy(alloc)?)),
        Wish::Refresh => Ok(Input::Refresh),
        Wish::Close => Ok(Input::Close),
    }
}

/// What is asked for isn't there.
pub fn absent_words(alloc: Global) -> Result<Vec<Bytes>, Memory>
    ensures { IfOk result (λ words. words.items ≡ codes "none" ∷ []) }
{
    words_of(alloc, &[b"none".as_slice()])
}

/// Nobody waits for a reply.
fn late_words(alloc: Global) -> Result<Vec<Bytes>, Memory>
    ensures { IfOk result (λ words. words.items ≡ codes "late" ∷ []) }
{
    words_of(alloc, &[b"late".as_slice()])
}

fn now_words(alloc: Global, now: u64) -> Result<Vec<Bytes>, Memory>
    ensures { IfOk result (λ words. words.items ≡ codes "now" ∷ decimal now ∷ []) }
{
    numbered_words(alloc, b"now", now, Vec::new(alloc))
}

impl Stage {
    /// Asks a session for something. The words of its line say what it did, or that it isn't there.
    pub(crate) fn ask(&mut self, session: u64, wish: &Wish) -> Result<Vec<Bytes>, Memory>
        ensures takes { IfOk result (λ words. TakesInput session (input_of (wish_of wish.now)) self.old self.new) }
        ensures follows { IfOk result (λ words. ShowsEvent (event.Asks session (wish_of wish.now)) (session_shown session (input_of (wish_of wish.now))) self.old self.new words.items) }
    {
        let Some(_) = member_at(&self.members, session) else {
            let absent = absent_words(self.alloc)?;
            return Ok(absent);
        };
        let given = wished(self.alloc, wish)?;
        let words = step_at(
            self.alloc,
            &mut self.members,
            &mut self.requests,
            session as usize,
            given,
        )?;
        Ok(words)
    }

    /// No answer comes to a session. The words of its line say what it did, or that it isn't there.
    pub(crate) fn lose(&mut self, session: u64) -> Result<Vec<Bytes>, Memory>
        ensures takes { IfOk result (λ words. TakesInput session NoAnswer self.old self.new) }
        ensures follows { IfOk result (λ words. ShowsEvent (event.Lose session) (session_shown session NoAnswer) self.old self.new words.items) }
    {
        let Some(_) = member_at(&self.members, session) else {
            let absent = absent_words(self.alloc)?;
            return Ok(absent);
        };
        let words = step_at(
            self.alloc,
            &mut self.members,
            &mut self.requests,
            session as usize,
            Input::NoAnswer,
        )?;
        Ok(words)
    }

    /// Hands the reply at a place to the session that waits for it. The words of its line say what the
    /// session did, that nobody waits for the reply, or that there is none.
    pub(crate) fn answer<W: Wire>(&mut self, wire: &mut W, place: u64) -> Result<Vec<Bytes>, Memory>
        ensures carries { IfOk result (λ words. CarriesOver (W.carried wire.old) (W.carried wire.new) (HandsOver place self.old self.new)) }
        ensures follows { W.is_straight wire.old ≡ true → IfOk result (λ words. ShowsEvent (event.Answer place) (answer_shown place) self.old self.new words.items) }
        ensures straight { W.is_straight wire.old ≡ true → W.is_straight wire.new ≡ true }
    {
        let Some(reply) = reply_at(&self.replies, place) else {
            let absent = absent_words(self.alloc)?;
            return Ok(absent);
        };
        let Some(asked) = reply.request else {
            let late = late_words(self.alloc)?;
            return Ok(late);
        };
        let Some(request) = request_at(&self.requests, asked) else {
            let late = late_words(self.alloc)?;
            return Ok(late);
        };
        let session = request.sender;
        let Some(member) = member_at(&self.members, session) else {
            let late = late_words(self.alloc)?;
            return Ok(late);
        };
        if !waits_for(member, asked) {
            let late = late_words(self.alloc)?;
            return Ok(late);
        }
        let given = input_of(carry_answer(self.alloc, wire, &reply.answer)?);
        let words = step_at(
            self.alloc,
            &mut self.members,
            &mut self.requests,
            session as usize,
            given,
        )?;
        Ok(words)
    }

    /// Time goes on to a moment. The words of its line tell the time then.
    pub(crate) fn tick(&mut self, moment: u64) -> Result<Vec<Bytes>, Memory>
        requires { IsMoment moment }
        ensures on { IfOk result (λ words. GoesOn moment self.old self.new) }
        ensures follows { IfOk result (λ words. ShowsEvent (event.Ticks moment) (now_shown moment) self.old self.new words.items) }
    {
        let now = self.host.settle_to(moment);
        self.history.push(Item::Tick { moment })?;
        let words = now_words(self.alloc, now)?;
        Ok(words)
    }
}
