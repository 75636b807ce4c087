//! Requests and replies, written, carried over a wire and read.
ghost use Rattle.std.specs.Prelude.{◌≡◌, ◌≢◌, ◌<◌, ◌≤◌, ◌+◌, ℕ, [], true, false, length, IfOk, IfSome, IfNone, All};
ghost use Rattle.wopi_http.specs.Answers.{FindsEach};
ghost use Rattle.wopi_http.specs.declared.message.Method.{Method};
ghost use Rattle.wopi_http.specs.declared.message.Reply.{Reply};
ghost use Rattle.wopi_http.specs.declared.message.Request.{Request};
ghost use Rattle.wopi_http.specs.declared.reading.Got.TheVariants.{Message, End, Refused};
ghost use Rattle.wopi_http.specs.ReplyReads.{ReadsReply};
ghost use Rattle.wopi_http.specs.Replies.{phrase_of, reply_text};
ghost use Rattle.wopi_http.specs.RequestTexts.{request_text};
ghost use Rattle.wopi_headers.specs.AnswerReads.{HasLockId, IsVersion};
ghost use Rattle.wopi_headers.specs.declared.answer.BodyKind.{BodyKind};
ghost use Rattle.wopi_headers.specs.Requests.{method_of, request_of, IsByte, IsReadable, IsWritableOp, IsWritableName};
ghost use Rattle.replay_cmd.specs.Sessions.{IsGivenBack};
ghost use Rattle.wopi_headers.specs.Replies.{reply_of};
ghost use Rattle.replay_cmd.specs.Wires.{localhost, is_get, AreRefused, Arrives, BeginWith, IsAnswerIn, IsFoundIn, IsTellable, WentOver};

use crate::wire::Wire;
use outside::{MemSink, MemSource, Pair};
use std::alloc::Global;
use wopi_headers::{
    Answer, Ask, BodyKind, Op, Target, an_answer_comes_back, answer_of, reply_of, request_bytes,
    what_is_asked_is_read, what_is_replied_is_read,
};
use wopi_http::{
    Buffer, Got, Reply, ReplyFault, Request, bytes_begin_with_one_reply, read_reply, read_request,
    write_reply,
};
use wopi_text::{Bytes, LockField, Memory};

/// The authority of a schedule's host.
const AUTHORITY: &str = "localhost";

/// The most bytes of a head.
const HEAD_LIMIT: usize = 16_384;

/// The most bytes of a body that a schedule has.
const BODY_LIMIT: usize = 65_536;

/// The most bytes of a reply's body that is read back.
const REPLY_LIMIT: usize = 16_777_216;

/// Room for what the host writes before a body, and for the head of a reply.
const ROOM: usize = 4_096;

/// What the host reads of these bytes, which are the whole input.
fn read_bytes(alloc: Global, bytes: Bytes) -> Result<Got, Memory>
    ensures found { IfOk result (FindsEach bytes) }
    ensures there { IfOk result (λ got. (q : Request) → got ≡ Message q → BeginWith bytes q) }
    ensures ended { IfOk result (λ got. got ≡ End → bytes ≡ []) }
    ensures refused { IfOk result (λ got. (status at : ℕ) → got ≡ Refused status at → AreRefused bytes status) }
{
    let source = MemSource::new(bytes, BODY_LIMIT, Vec::new(alloc));
    let sink = MemSink::new(alloc, ROOM, Vec::new(alloc))?;
    let mut link = Pair::new(source, sink);
    let mut buffer = Buffer::new(alloc)?;
    Ok(read_request(&mut link, &mut buffer))
}

/// Whether the bytes are a text that begins and ends with another byte than a space.
fn is_writable_name(name: &[u8]) -> bool
    ensures { result ≡ true → IsWritableName name.now }
{
    if name.is_empty() {
        return false;
    }
    if name[0] == b' ' {
        return false;
    }
    if name[name.len() - 1] == b' ' {
        return false;
    }
    match str::from_utf8(name) {
        Ok(_) => return true,
        Err(_) => return false,
    }
}

/// Whether the operation is read back as it was written.
fn is_writable_op(op: &Op) -> bool
    ensures { result ≡ true → IsWritableOp op.now }
{
    match op {
        Op::Info | Op::GetLock | Op::Delete => return true,
        Op::Get { most } => return most.is_none(),
        Op::Put { lock: None } => return true,
        Op::Put { lock: Some(id) } => {
            let _form = id.as_slice();
            return true;
        }
        Op::Lock { id } => {
            let _form = id.as_slice();
            return true;
        }
        Op::Refresh { id } => {
            let _form = id.as_slice();
            return true;
        }
        Op::Unlock { id } => {
            let _form = id.as_slice();
            return true;
        }
        Op::Relock { old, id } => {
            let _form = id.as_slice();
            let _old_form = old.as_slice();
            return true;
        }
        Op::PutRelative {
            target: Target::Relative { name, overwrite: _ },
        } => return is_writable_name(name.as_slice()),
        Op::PutRelative {
            target: Target::Suggested(_),
        } => return false,
    }
}

/// Whether the operation brings no body.
fn is_get(op: &Op) -> bool
    ensures { result ≡ is_get op.now }
{
    matches!(op, Op::Info | Op::Get { .. })
}

/// Whether there is a body where none belongs.
fn brings_too_much(op: &Op, body: &[u8]) -> bool
    ensures { result ≡ false → method_of op.now ≡ Method.Get → body.now ≡ [] }
{
    if is_get(op) {
        return !body.is_empty();
    }
    false
}

fn are_bytes(token: &[u8]) -> bool
    ensures { result ≡ true → All IsByte token.now }
{
    token.iter().all(|byte| byte.is_ascii())
}

/// Whether what stands before the body keeps the limit of a head.
fn is_short(text: &[u8], body: &[u8]) -> bool
    requires { length body.now ≤ 65536 }
    ensures { result ≡ true → length text.now ≤ length body.now + 16384 }
{
    text.len() <= body.len() + HEAD_LIMIT
}

/// Whether the request is read back as it was written: its head keeps the limit, and only an
/// operation that writes brings a body.
fn is_readable(ask: &Ask, body: &[u8], text: &[u8]) -> bool
    requires { text.now ≡ request_text (request_of ask.now localhost body.now) }
    ensures { result ≡ true → IsReadable ask.now localhost body.now }
{
    let _name = ask.file.as_slice();
    if body.len() > BODY_LIMIT {
        return false;
    }
    if !is_short(text, body) {
        return false;
    }
    if brings_too_much(&ask.op, body) {
        return false;
    }
    let token = ask.token.as_slice();
    if !are_bytes(token) {
        return false;
    }
    is_writable_op(&ask.op)
}

/// The request that comes over the wire, or the status by which the host refuses what came. A request
/// that wouldn't be read back as it was written counts as want of memory.
pub fn carry_request<W: Wire>(
    alloc: Global,
    wire: &mut W,
    ask: &Ask,
    body: &Bytes,
) -> Result<Result<Request, u16>, Memory>
    ensures arrives { W.is_straight wire.old ≡ true → IfOk result (Arrives ask.now body.now) }
    ensures went { IfOk result (λ found. WentOver (W.carried wire.old) (W.carried wire.new) (request_text (request_of ask.now localhost body.now)) (λ got. IsFoundIn got found)) }
    ensures straight { W.is_straight wire.old ≡ true → W.is_straight wire.new ≡ true }
{
    what_is_asked_is_read();
    let contents = body.as_slice();
    let text = request_bytes(alloc, ask, AUTHORITY, contents)?;
    if !is_readable(ask, contents, text.as_slice()) {
        return Err(Memory);
    }
    let arrived = wire.carry(text)?;
    match read_bytes(alloc, arrived)? {
        Got::Message(request) => return Ok(Ok(request)),
        Got::End => return Ok(Err(400)),
        Got::Refused { status, at: _ } => return Ok(Err(status)),
        Got::ReadFault => return Err(Memory),
        Got::WriteFault => return Err(Memory),
        Got::Memory => return Err(Memory),
    }
}

fn copy_field(field: &LockField) -> LockField
    ensures { result ≡ field.now }
{
    match field {
        LockField::Absent => LockField::Absent,
        LockField::Empty => LockField::Empty,
        LockField::Held(id) => LockField::Held(id.copy()),
    }
}

fn copy_answer(alloc: Global, answer: &Answer) -> Result<Answer, Memory>
    ensures { IfOk result (λ copy. copy ≡ answer.now) }
{
    Ok(Answer {
        status: answer.status,
        lock: copy_field(&answer.lock),
        reason: answer.reason,
        version: answer.version,
        kind: answer.kind,
        body: answer.body.try_copy(alloc)?,
    })
}

/// Whether the host has a phrase for the status.
#[tactic(auto, unfolding(wopi_http::specs::Replies::phrase_of))]
fn has_phrase(status: u16) -> bool
    ensures { result ≡ true → 0 < length (phrase_of status) }
{
    match status {
        200 | 400 | 401 | 404 | 409 | 412 | 413 | 500 | 501 | 503 => true,
        _ => false,
    }
}

/// Whether the id of a lock, where there is one, is an id.
fn has_lock_id(lock: &LockField) -> bool
    ensures { result ≡ true → HasLockId lock.now }
{
    match lock {
        LockField::Absent | LockField::Empty => return true,
        LockField::Held(id) => {
            let _form = id.as_slice();
            return true;
        }
    }
}

/// Whether a version, where there is one, is a number that can be written.
fn has_version(version: Option<u64>) -> bool
    ensures { result ≡ true → IsVersion version }
{
    match version {
        Some(_number) => return true,
        None => return true,
    }
}

/// Whether a body, where there is one, has a kind.
fn has_kind(body: &[u8], kind: BodyKind) -> bool
    ensures { result ≡ true → 0 < length body.now → kind ≢ BodyKind.None }
{
    if body.is_empty() {
        return true;
    }
    kind != BodyKind::None
}

/// Whether the answer's reply is read back as it was written.
fn is_tellable(answer: &Answer) -> bool
    ensures { result ≡ true → IsTellable answer.now }
{
    if !has_phrase(answer.status) {
        return false;
    }
    let body = answer.body.as_slice();
    if body.len() > REPLY_LIMIT {
        return false;
    }
    if !has_lock_id(&answer.lock) {
        return false;
    }
    if !has_version(answer.version) {
        return false;
    }
    has_kind(body, answer.kind)
}

/// The text of a reply.
fn reply_text(alloc: Global, reply: &Reply) -> Result<Bytes, Memory>
    ensures { IfOk result (λ text. text ≡ reply_text reply.now) }
{
    let room = reply.body.as_slice().len().saturating_add(ROOM);
    let mut sink = MemSink::new(alloc, room, Vec::new(alloc))?;
    match write_reply(&mut sink, reply) {
        Ok(()) => Ok(Bytes::from_slice(alloc, sink.as_slice())?),
        Err(_) => Err(Memory),
    }
}

/// The reply that the bytes begin with, if they begin with one.
fn read_back(alloc: Global, bytes: &[u8]) -> Result<Option<Reply>, Memory>
    ensures some { IfOk result (λ read. IfSome read (ReadsReply bytes.now)) }
    ensures none { IfOk result (λ read. IfNone read ((reply : Reply) → ReadsReply bytes.now reply → ⊥)) }
{
    bytes_begin_with_one_reply();
    match read_reply(alloc, bytes) {
        Ok(reply) => return Ok(Some(reply)),
        Err(fault) => match fault {
            ReplyFault::Bad { at: _ } => return Ok(None),
            ReplyFault::Memory => return Err(Memory),
        },
    }
}

/// The answer as it comes back over the wire, if a reply came. An answer that wouldn't be read back
/// as it was told counts as want of memory.
pub fn carry_answer<W: Wire>(
    alloc: Global,
    wire: &mut W,
    answer: &Answer,
) -> Result<Option<Answer>, Memory>
    ensures back { W.is_straight wire.old ≡ true → IfOk result (IsGivenBack answer.now) }
    ensures went { IfOk result (λ found. WentOver (W.carried wire.old) (W.carried wire.new) (reply_text (reply_of answer.now true)) (λ got. IsAnswerIn got found)) }
    ensures straight { W.is_straight wire.old ≡ true → W.is_straight wire.new ≡ true }
{
    an_answer_comes_back();
    what_is_replied_is_read();
    bytes_begin_with_one_reply();
    if !is_tellable(answer) {
        return Err(Memory);
    }
    let reply = reply_of(alloc, copy_answer(alloc, answer)?, true)?;
    let text = reply_text(alloc, &reply)?;
    let came = wire.carry(text)?;
    let Some(reply) = read_back(alloc, came.as_slice())? else {
        return Ok(None);
    };
    Ok(Some(answer_of(reply)))
}
