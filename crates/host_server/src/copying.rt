//! PutRelativeFile: contents put into a file beside another.
ghost use Rattle.std.specs.Prelude.{◌≡◌, IfOk};
ghost use Rattle.wopi_model.specs.Moment.{IsMoment};
ghost use Rattle.access_tokens.specs.TokenText.{IsWritable};
ghost use Rattle.host_server.specs.Keeping.{KeepsTold};
ghost use Rattle.host_server.specs.Calls.{Calls, Tells};
ghost use Rattle.host_server.specs.Copies.{CanBeHad, Copied, Tried, asked_name, create, look, overwrites, tries};
ghost use Rattle.host_server.specs.Tries.{IsAsked};

use crate::address::file_told;
use crate::calling::{Called, make};
use crate::creating::{Outcome, create};
use crate::desk::Desk;
use crate::telling::{journal_full, ruling_told, status_only};
use access_tokens::Token;
use host_core::{Act, Call, Caller};
use put_relative::laws::a_tidied_name_has_every_candidate;
use put_relative::{TidyFault, tidy};
use std::alloc::Global;
use wopi_headers::{Answer, Target};
use wopi_text::{Bytes, FileName, Memory};

/// The most names that are tried for a suggestion.
const CANDIDATES: u32 = 100;

/// Contents that are to be put into a file beside a source: where, by whom, and when.
#[derive(Drop)]
pub struct Copying {
    pub source: FileName,
    pub token: Token,
    pub target: Target,
    pub contents: Bytes,
    /// In milliseconds.
    pub moment: u64,
}

/// The name that a suggestion asks for, or none where no file can have it.
fn suggested(alloc: Global, source: &FileName, text: &[u8]) -> Result<Option<FileName>, Memory>
    ensures { IfOk result (IsAsked source.now (Target.Suggested text.now)) }
{
    let Ok(text) = str::from_utf8(text) else {
        return Ok(None);
    };
    match tidy(alloc, source, text) {
        Ok(name) => Ok(Some(name)),
        Err(TidyFault::BadName) => Ok(None),
        Err(TidyFault::Memory) => Err(Memory),
    }
}

/// The name that a target asks for, or none where no file can have it.
fn asked_name(alloc: Global, source: &FileName, target: &Target) -> Result<Option<FileName>, Memory>
    ensures { IfOk result (IsAsked source.now target.now) }
{
    match target {
        Target::Relative { name, overwrite: _ } => Ok(FileName::read(name.as_slice()).ok()),
        Target::Suggested(text) => suggested(alloc, source, text.as_slice()),
    }
}

fn tries(target: &Target) -> u32
    ensures { result ≡ tries target.now }
{
    match target {
        Target::Relative {
            name: _,
            overwrite: _,
        } => 1,
        Target::Suggested(_) => CANDIDATES,
    }
}

fn overwrites(target: &Target) -> bool
    ensures { result ≡ overwrites target.now }
{
    match target {
        Target::Relative { name: _, overwrite } => *overwrite,
        Target::Suggested(_) => false,
    }
}

/// Looks at the source.
fn look<C: Caller>(caller: &mut C, copying: &Copying) -> Called
    requires { IsMoment copying.now.moment }
    ensures calls { Calls C.always (C.sight caller.old) (C.sight caller.new) (look copying.now) copying.now.moment result }
    ensures telling { KeepsTold C.loses (C.telling caller.old) (C.telling caller.new) (C.sight caller.old) (C.sight caller.new) }
    ensures basis { C.basis caller.new ≡ C.basis caller.old }
    ensures references { C.references caller.new ≡ C.references caller.old }
{
    let call = Call {
        name: copying.source.copy(),
        token: copying.token.copy(),
        act: Act::Look,
    };
    make(caller, call, copying.moment)
}

/// Makes the file that was asked for under that name, and tells what became of it.
fn make_file<C: Caller>(
    alloc: Global,
    caller: &mut C,
    desk: &Desk,
    name: &FileName,
    copying: Copying,
) -> Result<Answer, Memory>
    requires asking { IsWritable copying.token }
    requires moment { IsMoment copying.moment }
    requires asked { name.now ≡ asked_name copying.source copying.target }
    requires good { CanBeHad copying.source copying.target }
    ensures tells { Tells (Tried desk.now copying) C.always (C.sight caller.old) (C.sight caller.new) result }
    ensures telling { KeepsTold C.loses (C.telling caller.old) (C.telling caller.new) (C.sight caller.old) (C.sight caller.new) }
    ensures basis { C.basis caller.new ≡ C.basis caller.old }
    ensures references { C.references caller.new ≡ C.references caller.old }
{
    let Copying {
        source: _,
        token,
        target,
        contents,
        moment,
    } = copying;
    a_tidied_name_has_every_candidate();
    match create(
        caller,
        name,
        &token,
        overwrites(&target),
        contents,
        tries(&target),
        moment,
    ) {
        Outcome::Ruled { name, ruling } => file_told(alloc, desk, &name, &token, moment, ruling),
        Outcome::Full => journal_full(alloc),
        Outcome::Memory => Err(Memory),
    }
}

/// Makes the file that was asked for, once its source may be copied.
fn go_on<C: Caller>(
    alloc: Global,
    caller: &mut C,
    desk: &Desk,
    name: Option<FileName>,
    copying: Copying,
) -> Result<Answer, Memory>
    requires asking { IsWritable copying.token }
    requires moment { IsMoment copying.moment }
    requires asked { IsAsked copying.source copying.target name }
    ensures tells { Tells (Tried desk.now copying) C.always (C.sight caller.old) (C.sight caller.new) result }
    ensures telling { KeepsTold C.loses (C.telling caller.old) (C.telling caller.new) (C.sight caller.old) (C.sight caller.new) }
    ensures basis { C.basis caller.new ≡ C.basis caller.old }
    ensures references { C.references caller.new ≡ C.references caller.old }
{
    match name {
        Some(name) => make_file(alloc, caller, desk, &name, copying),
        None => Ok(status_only(alloc, 400)),
    }
}

/// Puts the contents into a file beside the source, and tells what became of it. The name is thought
/// of first, so that no call is made where there is no memory for it.
pub fn put_beside<C: Caller>(
    alloc: Global,
    caller: &mut C,
    desk: &Desk,
    copying: Copying,
) -> Result<Answer, Memory>
    requires asking { IsWritable copying.token }
    requires moment { IsMoment copying.moment }
    ensures tells { Tells (Copied desk.now copying) C.always (C.sight caller.old) (C.sight caller.new) result }
    ensures telling { KeepsTold C.loses (C.telling caller.old) (C.telling caller.new) (C.sight caller.old) (C.sight caller.new) }
    ensures basis { C.basis caller.new ≡ C.basis caller.old }
    ensures references { C.references caller.new ≡ C.references caller.old }
{
    let Ok(name) = asked_name(alloc, &copying.source, &copying.target) else {
        return Err(Memory);
    };
    match look(caller, &copying) {
        Called::Ruled { ruling, back: _ } => {
            if ruling.status == 200 {
                return go_on(alloc, caller, desk, name, copying);
            }
            ruling_told(alloc, ruling)
        }
        Called::Full => journal_full(alloc),
        Called::Memory => Err(Memory),
    }
}
