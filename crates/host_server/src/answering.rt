//! Requests answered by calls on files, and by listings of them.
ghost use Rattle.std.specs.Prelude.{◌≡◌, ℕ, Bool, List, Option, IfOk, IfSome, IsSome, Some, true, false};
ghost use Rattle.wopi_model.specs.Moment.{IsMoment};
ghost use Rattle.access_tokens.specs.Remembering.{Remembers};
ghost use Rattle.access_tokens.specs.TokenText.{IsWritable};
ghost use Rattle.wopi_acts.specs.Acts.{act_of};
ghost use Rattle.host_server.specs.Keeping.{KeepsTold};
ghost use Rattle.host_server.specs.Answering.{RuledTo, Contained, asked_with, container_asked_with};
ghost use Rattle.host_server.specs.Asking.{asks_info, is_copy, TellsAct, TellsCopy};
ghost use Rattle.host_server.specs.Calls.{Tells};
ghost use Rattle.host_server.specs.Known.{last_known};
ghost use Rattle.host_server.specs.Turns.{Answers, AnswersTo};

use crate::calling::{Called, make};
use crate::copying::{Copying, put_beside};
use crate::desk::Desk;
use crate::editing::{refused_status, token_taken};
use crate::kept::Kept;
use crate::knowing::{LastSave, last_known, moment_known, suite_of};
use crate::saving::{is_info, told_by};
use crate::telling::{info_told, journal_full, ruling_told, status_only};
use access_tokens::{RecentTokens, Token};
use containers::container_answer;
use host_core::{Act, Call, CallFault, Caller, Carried, Lister, Refusal};
use std::alloc::Global;
use std::mem;
use wopi_headers::{Answer, Ask, AskFault, ContainerAsk, Op, Target, place_into};
use wopi_http::{Field, Request};
use wopi_text::{Bytes, LockId, Memory};

fn is_copy(op: &Op) -> bool
    ensures { result ≡ is_copy op.now }
{
    matches!(op, Op::PutRelative { target: _ })
}

fn lock_copied(lock: &Option<LockId>) -> Option<LockId>
    ensures { result ≡ lock.now }
{
    match lock {
        Some(id) => return Some(id.copy()),
        None => return None,
    }
}

/// The act of an operation, which is no PutRelativeFile, with the request's body. Each arm gives its own, since a value in
/// which arms meet is moved once more.
fn act_of(op: &Op, body: Bytes) -> Act
    requires { is_copy op.now ≡ false }
    ensures { act_of op.now body ≡ Some result }
{
    match op {
        Op::Info => return Act::Info,
        Op::Get { most } => return Act::Get { most: *most },
        Op::Put { lock } => {
            return Act::Put {
                lock: lock_copied(lock),
                contents: body,
            };
        }
        Op::Lock { id } => return Act::Lock { id: id.copy() },
        Op::GetLock => return Act::GetLock,
        Op::Refresh { id } => return Act::Refresh { id: id.copy() },
        Op::Unlock { id } => return Act::Unlock { id: id.copy() },
        Op::Relock { old, id } => {
            return Act::Relock {
                old: old.copy(),
                id: id.copy(),
            };
        }
        Op::PutRelative { target: _ } => unreachable!(),
        Op::Delete => return Act::Delete,
    }
}

/// Makes the call of an operation that is no PutRelativeFile and no CheckFileInfo, and tells what became of it.
fn make_and_tell<C: Caller>(
    alloc: Global,
    caller: &mut C,
    ask: &Ask,
    token: Token,
    body: Bytes,
    moment: u64,
) -> Result<Answer, Memory>
    requires moment { IsMoment moment }
    requires alone { is_copy ask.now.op ≡ false }
    requires other { asks_info ask.now.op ≡ false }
    ensures tells { (origin : Option (List ℕ)) (last : Option LastSave) → TellsAct false origin last ask.now token body moment C.always (C.sight caller.old) (C.sight caller.new) result }
    ensures telling { KeepsTold C.loses (C.telling caller.old) (C.telling caller.new) (C.sight caller.old) (C.sight caller.new) }
    ensures basis { C.basis caller.new ≡ C.basis caller.old }
    ensures references { C.references caller.new ≡ C.references caller.old }
{
    let name = ask.file.copy();
    let act = act_of(&ask.op, body);
    let mut call = Call { name, token, act };
    let mut carried = Carried::new();
    match caller.call_at(&mut call, moment, &mut carried) {
        Ok(_placed) => ruling_told(alloc, carried.ruling),
        Err(Refusal::Full) => journal_full(alloc),
        Err(Refusal::Memory) => Err(Memory),
        Err(Refusal::Lost) => Err(Memory),
    }
}

/// Makes CheckFileInfo's call, and tells what became of it.
fn check_file_info<C: Caller>(
    alloc: Global,
    caller: &mut C,
    ask: &Ask,
    token: Token,
    body: Bytes,
    moment: u64,
) -> Result<Answer, Memory>
    requires moment { IsMoment moment }
    requires info { asks_info ask.now.op ≡ true }
    ensures tells { (origin : Option (List ℕ)) (last : Option LastSave) → TellsAct false origin last ask.now token body moment C.always (C.sight caller.old) (C.sight caller.new) result }
    ensures telling { KeepsTold C.loses (C.telling caller.old) (C.telling caller.new) (C.sight caller.old) (C.sight caller.new) }
    ensures basis { C.basis caller.new ≡ C.basis caller.old }
    ensures references { C.references caller.new ≡ C.references caller.old }
{
    let name = ask.file.copy();
    let shown = token.copy();
    let call = Call {
        name,
        token: shown,
        act: Act::Info,
    };
    match make(caller, call, moment) {
        Called::Ruled { ruling, back: _ } => info_told(
            alloc, false, &None, &None, &ask.file, &token, ruling,
        ),
        Called::Full => journal_full(alloc),
        Called::Memory => Err(Memory),
    }
}

/// Makes an editor's call, which is no PutRelativeFile, and tells what became of it and what its file is like.
fn call_for_editor<C: Caller>(
    alloc: Global,
    caller: &mut C,
    desk: &Desk,
    last: Option<LastSave>,
    ask: &Ask,
    token: Token,
    body: Bytes,
    moment: u64,
) -> Result<Answer, Memory>
    requires moment { IsMoment moment }
    requires alone { is_copy ask.now.op ≡ false }
    ensures tells { TellsAct true desk.now.origin last ask.now token body moment C.always (C.sight caller.old) (C.sight caller.new) result }
    ensures telling { KeepsTold C.loses (C.telling caller.old) (C.telling caller.new) (C.sight caller.old) (C.sight caller.new) }
    ensures basis { C.basis caller.new ≡ C.basis caller.old }
    ensures references { C.references caller.new ≡ C.references caller.old }
{
    let name = ask.file.copy();
    let shown = token.copy();
    let act = act_of(&ask.op, body);
    let call = Call {
        name,
        token: shown,
        act,
    };
    match caller.call_for_editor(call, moment_known(last), moment) {
        Ok(told) => told_by(
            alloc,
            &desk.origin,
            suite_of(last),
            &ask.op,
            &ask.file,
            &token,
            told,
        ),
        Err(CallFault::Full(_)) => journal_full(alloc),
        Err(CallFault::Memory(_)) => Err(Memory),
        Err(CallFault::Lost(_)) => Err(Memory),
    }
}

/// Makes the call of an operation that is no PutRelativeFile, by whether the host serves editors, and tells what became of it.
fn call_asked<C: Caller>(
    alloc: Global,
    caller: &mut C,
    desk: &Desk,
    editor: bool,
    fields: &[Field],
    ask: &Ask,
    token: Token,
    body: Bytes,
    moment: u64,
) -> Result<Answer, Memory>
    requires moment { IsMoment moment }
    requires alone { is_copy ask.now.op ≡ false }
    ensures tells { TellsAct editor desk.now.origin (last_known editor fields.now) ask.now token body moment C.always (C.sight caller.old) (C.sight caller.new) result }
    ensures telling { KeepsTold C.loses (C.telling caller.old) (C.telling caller.new) (C.sight caller.old) (C.sight caller.new) }
    ensures basis { C.basis caller.new ≡ C.basis caller.old }
    ensures references { C.references caller.new ≡ C.references caller.old }
{
    let last = last_known(editor, fields);
    if editor {
        return call_for_editor(alloc, caller, desk, last, ask, token, body, moment);
    }
    if is_info(&ask.op) {
        return check_file_info(alloc, caller, ask, token, body, moment);
    }
    make_and_tell(alloc, caller, ask, token, body, moment)
}

/// Makes the calls of a PutRelativeFile, and tells what became of them. The target is taken out of the ask.
fn copy_asked<C: Caller>(
    alloc: Global,
    caller: &mut C,
    desk: &Desk,
    ask: &mut Ask,
    token: Token,
    body: Bytes,
    moment: u64,
) -> Result<Answer, Memory>
    requires moment { IsMoment moment }
    requires copy { is_copy ask.old.op ≡ true }
    requires asking { IsWritable token }
    ensures tells { TellsCopy desk.now ask.old token body moment C.always (C.sight caller.old) (C.sight caller.new) result }
    ensures telling { KeepsTold C.loses (C.telling caller.old) (C.telling caller.new) (C.sight caller.old) (C.sight caller.new) }
    ensures basis { C.basis caller.new ≡ C.basis caller.old }
    ensures references { C.references caller.new ≡ C.references caller.old }
{
    let source = ask.file.copy();
    let Op::PutRelative { target } = &mut ask.op else {
        unreachable!()
    };
    let none = Target::Suggested(Bytes::from_vec(Vec::new(alloc)));
    let copying = Copying {
        source,
        token,
        target: mem::replace(target, none),
        contents: body,
        moment,
    };
    put_beside(alloc, caller, desk, copying)
}

/// Answers what was asked, with the request's fields and body: its token is read under the desk's keys, and then
/// the call is made.
fn answer_ask<C: Caller>(
    alloc: Global,
    caller: &mut C,
    desk: &Desk,
    editor: bool,
    recent: &mut RecentTokens,
    fields: &[Field],
    ask: &mut Ask,
    body: Bytes,
    moment: u64,
) -> Result<Answer, Memory>
    requires moment { IsMoment moment }
    requires remembers { Remembers desk.now.keys recent.old }
    ensures tells { Tells (RuledTo editor (last_known editor fields.now) desk.now (asked_with editor fields.now ask.old) body moment) C.always (C.sight caller.old) (C.sight caller.new) result }
    ensures telling { KeepsTold C.loses (C.telling caller.old) (C.telling caller.new) (C.sight caller.old) (C.sight caller.new) }
    ensures basis { C.basis caller.new ≡ C.basis caller.old }
    ensures references { C.references caller.new ≡ C.references caller.old }
    ensures remembers { Remembers desk.now.keys recent.new }
{
    let text = mem::replace(&mut ask.token, Bytes::from_vec(Vec::new(alloc)));
    let judged = token_taken(alloc, editor, fields, text)?;
    let Some(token) = recent.read(&desk.keys, judged) else {
        return Ok(status_only(alloc, 401));
    };
    if is_copy(&ask.op) {
        return copy_asked(alloc, caller, desk, ask, token, body, moment);
    }
    call_asked(
        alloc, caller, desk, editor, fields, ask, token, body, moment,
    )
}

/// Answers what was asked, which is in its place.
fn answer_kept<C: Caller>(
    alloc: Global,
    caller: &mut C,
    desk: &Desk,
    editor: bool,
    kept: &mut Kept,
    fields: &[Field],
    body: Bytes,
    moment: u64,
) -> Result<Answer, Memory>
    requires moment { IsMoment moment }
    requires asked { IsSome kept.old.ask }
    requires remembers { Remembers desk.now.keys kept.old.recent }
    ensures tells { IfSome kept.old.ask (λ ask. Tells (RuledTo editor (last_known editor fields.now) desk.now (asked_with editor fields.now ask) body moment) C.always (C.sight caller.old) (C.sight caller.new) result) }
    ensures telling { KeepsTold C.loses (C.telling caller.old) (C.telling caller.new) (C.sight caller.old) (C.sight caller.new) }
    ensures basis { C.basis caller.new ≡ C.basis caller.old }
    ensures references { C.references caller.new ≡ C.references caller.old }
    ensures remembers { Remembers desk.now.keys kept.new.recent }
{
    let Some(ask) = &mut kept.ask else {
        unreachable!()
    };
    answer_ask(
        alloc,
        caller,
        desk,
        editor,
        &mut kept.recent,
        fields,
        ask,
        body,
        moment,
    )
}

/// What is asked of the container, with the token that the request is judged by.
fn container_judged(
    alloc: Global,
    editor: bool,
    fields: &[Field],
    ask: ContainerAsk,
) -> Result<ContainerAsk, Memory>
    ensures { IfOk result (λ judged. judged ≡ container_asked_with editor fields.now ask) }
{
    let ContainerAsk { token, op } = ask;
    let token = token_taken(alloc, editor, fields, token)?;
    Ok(ContainerAsk { token, op })
}

/// Answers what was asked of the container: its token is read under the desk's keys, and its files are listed.
fn answer_container<C: Lister>(
    alloc: Global,
    caller: &mut C,
    desk: &Desk,
    editor: bool,
    fields: &[Field],
    ask: ContainerAsk,
    moment: u64,
) -> Result<Answer, Memory>
    requires { IsMoment moment }
    ensures tells { Tells (Contained desk.now (container_asked_with editor fields.now ask) moment) C.always (C.sight caller.old) (C.sight caller.new) result }
    ensures telling { KeepsTold C.loses (C.telling caller.old) (C.telling caller.new) (C.sight caller.old) (C.sight caller.new) }
    ensures basis { C.basis caller.new ≡ C.basis caller.old }
    ensures references { C.references caller.new ≡ C.references caller.old }
{
    let judged = container_judged(alloc, editor, fields, ask)?;
    container_answer(
        alloc,
        caller,
        &desk.keys,
        &desk.base,
        desk.opened,
        &judged,
        moment,
    )
}

/// Answers a request, by whether the host serves editors. A token with a text that is remembered isn't read anew, and what is
/// asked stands where the last one stood.
pub(crate) fn answer_again<C: Lister>(
    alloc: Global,
    caller: &mut C,
    desk: &Desk,
    editor: bool,
    kept: &mut Kept,
    request: Request,
    moment: u64,
) -> Result<Answer, Memory>
    requires moment { IsMoment moment }
    requires remembers { Remembers desk.now.keys kept.old.recent }
    ensures answers { AnswersTo editor desk.now request moment C.always (C.sight caller.old) (C.sight caller.new) result }
    ensures telling { KeepsTold C.loses (C.telling caller.old) (C.telling caller.new) (C.sight caller.old) (C.sight caller.new) }
    ensures basis { C.basis caller.new ≡ C.basis caller.old }
    ensures references { C.references caller.new ≡ C.references caller.old }
    ensures remembers { Remembers desk.now.keys kept.new.recent }
{
    match place_into(alloc, &request, &mut kept.ask) {
        Ok(None) => {
            let Request { fields, body, .. } = request;
            answer_kept(
                alloc,
                caller,
                desk,
                editor,
                kept,
                fields.as_slice(),
                body,
                moment,
            )
        }
        Ok(Some(ask)) => {
            answer_container(
                alloc,
                caller,
                desk,
                editor,
                request.fields.as_slice(),
                ask,
                moment,
            )
        }
        Err(AskFault::Refused { status }) => {
            let status = refused_status(editor, &request, status);
            Ok(status_only(alloc, status))
        }
        Err(AskFault::Memory) => Err(Memory),
    }
}

/// Answers a request: what it asks for is read from its head, its token is read under the desk's keys,
/// and then the call is made, or the shards are listed. Contents go from the request into the call without a copy.
/// It answers as a host that serves no editors.
pub fn answer<C: Lister>(
    alloc: Global,
    caller: &mut C,
    desk: &Desk,
    request: Request,
    moment: u64,
) -> Result<Answer, Memory>
    requires { IsMoment moment }
    ensures answers { Answers desk.now request moment C.always (C.sight caller.old) (C.sight caller.new) result }
    ensures telling { KeepsTold C.loses (C.telling caller.old) (C.telling caller.new) (C.sight caller.old) (C.sight caller.new) }
    ensures basis { C.basis caller.new ≡ C.basis caller.old }
    ensures references { C.references caller.new ≡ C.references caller.old }
{
    answer_again(
        alloc,
        caller,
        desk,
        false,
        &mut Kept::new(alloc),
        request,
        moment,
    )
}
