//! What the types of an entry's parts keep. It is said here for a journal's lines: nothing is tested.
ghost use Rattle.std.specs.Prelude.{◌≡◌, option_map};
ghost use Rattle.hex.specs.Hex.{IsBytes};
ghost use Rattle.host_core.specs.Entries.{accepted_contents};
ghost use Rattle.host_table.specs.Bounds.{Fits, IsAct, IsBounded, IsToken, MayBeBytes, MayBeLock, MayFit, MayTellLock};

use host_core::{Entry, EntryAct};
use wopi_model::Token;
use wopi_text::{LockField, LockId};

/// Contents are bytes.
pub(crate) fn see_bytes(contents: &[u8])
    ensures { IsBytes contents.now }
{}

/// Contents that are there are bytes.
fn see_contents(contents: Option<&[u8]>)
    ensures { MayBeBytes (option_map (λ bytes. bytes.now) contents.entry) }
{
    if let Some(contents) = contents {
        see_bytes(contents);
    }
}

/// A lock id that is there is one.
fn see_lock(lock: &Option<LockId>)
    ensures { MayBeLock lock.now }
{
    if let Some(id) = lock {
        let _id = id.as_slice();
    }
}

/// A lock id that was told is one.
fn see_field(lock: &LockField)
    ensures { MayTellLock lock.now }
{
    if let LockField::Held(id) = lock {
        let _id = id.as_slice();
    }
}

/// A number fits its type.
fn see_number(number: u64)
    ensures { Fits number }
{}

/// A number that is there fits its type.
fn see_optional(number: Option<u64>)
    ensures { MayFit number }
{
    if let Some(number) = number {
        see_number(number);
    }
}

/// The parts of a token.
fn see_token(token: &Token)
    ensures { IsToken token.now }
{
    let _user = token.user.as_slice();
    let _file = token.file.as_slice();
    see_number(token.serial);
    see_number(token.issued);
    see_number(token.expires);
}

/// What was asked.
fn see_act(act: &EntryAct)
    ensures { IsAct act.now }
{
    match act {
        EntryAct::Info => return,
        EntryAct::Get { most } => return see_optional(*most),
        EntryAct::Put { lock, size } => {
            see_lock(lock);
            return see_number(*size);
        }
        EntryAct::Lock { id } => {
            let _id = id.as_slice();
            return;
        }
        EntryAct::GetLock => return,
        EntryAct::Refresh { id } => {
            let _id = id.as_slice();
            return;
        }
        EntryAct::Unlock { id } => {
            let _id = id.as_slice();
            return;
        }
        EntryAct::Relock { old, id } => {
            let _old = old.as_slice();
            let _id = id.as_slice();
            return;
        }
        EntryAct::Look => return,
        EntryAct::Create { overwrite: _, size } => return see_number(*size),
        EntryAct::Delete => return,
    }
}

/// An entry, with the contents that it brought.
pub(crate) fn see_entry(entry: &Entry, contents: Option<&[u8]>)
    requires { option_map (λ contents. contents.now) contents ≡ accepted_contents entry.now }
    ensures { IsBounded entry.now }
{
    let _stamp = entry.stamp();
    let _pass = entry.pass();
    let _moment = entry.moment();
    let _now = entry.now();
    let _status = entry.status();
    see_optional(entry.version());
    let _name = entry.name().as_slice();
    see_act(entry.act());
    see_token(entry.token());
    see_field(entry.lock());
    see_contents(contents);
}
