//! A request on its way to the host, and its answer on the way back.
ghost use Rattle.std.specs.Prelude.{◌≡◌, ℕ, List, true, IfOk, Ok};
ghost use Rattle.host_core.specs.Single.{SeesItsOwn, sight_of};
ghost use Rattle.host_server.specs.Turns.{Answers};
ghost use Rattle.wopi_headers.specs.declared.ask.Ask.{Ask};
ghost use Rattle.wopi_headers.specs.Operations.{AsksFor};
ghost use Rattle.wopi_headers.specs.Requests.{request_of};
ghost use Rattle.wopi_http.specs.RequestTexts.{request_text};
ghost use Rattle.wopi_model.specs.Moment.{IsMoment};
ghost use Rattle.replay_cmd.specs.Carryings.{AnswersWhatCame, refused_as};
ghost use Rattle.replay_cmd.specs.Exchanges.{Exchanges};
ghost use Rattle.replay_cmd.specs.Wires.{WentOver, localhost};

use crate::carrying::carry_request;
use crate::watched::Watched;
use crate::wire::Wire;
use host_server::{Desk, answer};
use std::alloc::Global;
use wopi_headers::{
    Answer, Ask, BodyKind, a_refused_request_asks_for_nothing, a_request_asks_for_one_thing,
    a_request_for_a_file_is_not_for_the_container,
};
use wopi_http::Request;
use wopi_text::{Bytes, LockField, Memory};

/// The answer that says no more than its status.
fn refusal(alloc: Global, status: u16) -> Answer
    ensures { result ≡ refused_as status }
{
    Answer {
        status,
        lock: LockField::Absent,
        reason: None,
        version: None,
        kind: BodyKind::None,
        body: Bytes::from_vec(Vec::new(alloc)),
    }
}

/// The host answers a request that came.
fn answer_request(
    alloc: Global,
    host: &mut Watched,
    desk: &Desk,
    request: Request,
    moment: u64,
) -> Result<Answer, Memory>
    requires { IsMoment moment }
    ensures answers { IfOk result (λ a. Answers desk.now request moment SeesItsOwn (sight_of host.old.shard) (sight_of host.new.shard) (Ok a)) }
    ensures asked { IfOk result (λ a. (ask : Ask) (body : List ℕ) → AsksFor request ask → request.body ≡ body → Exchanges desk.now ask body moment host.old.shard host.new.shard a) }
{
    a_request_asks_for_one_thing();
    a_refused_request_asks_for_nothing();
    a_request_for_a_file_is_not_for_the_container();
    host.begin();
    let answer = answer(alloc, host, desk, request, moment)?;
    let _time = host.now();
    Ok(answer)
}

/// Writes what is asked as a request, carries it to the host, and gives the host's answer. What comes
/// and is no message gets the status of its refusal, 400 where nothing came.
pub(crate) fn exchange<W: Wire>(
    alloc: Global,
    host: &mut Watched,
    desk: &Desk,
    wire: &mut W,
    ask: Ask,
    body: Bytes,
    moment: u64,
) -> Result<Answer, Memory>
    requires { IsMoment moment }
    ensures went { IfOk result (λ a. WentOver (W.carried wire.old) (W.carried wire.new) (request_text (request_of ask localhost body)) (λ got. AnswersWhatCame desk.now moment host.old.shard host.new.shard got a)) }
    ensures told { W.is_straight wire.old ≡ true → IfOk result (Exchanges desk.now ask body moment host.old.shard host.new.shard) }
    ensures straight { W.is_straight wire.old ≡ true → W.is_straight wire.new ≡ true }
{
    match carry_request(alloc, wire, &ask, &body)? {
        Ok(request) => {
            let answer = answer_request(alloc, host, desk, request, moment)?;
            return Ok(answer);
        }
        Err(status) => return Ok(refusal(alloc, status)),
    }
}
