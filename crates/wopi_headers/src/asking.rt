//! Requests read as operations. What is asked is made once, by the function of its row, in the place
//! that the caller has for it: lock ids stand inline, and each move of one would copy them whole.
ghost use Rattle.std.specs.Prelude.{List, ◌≡◌, ◌↔◌, false, IsTrue, OnErr};
ghost use Rattle.wopi_http.specs.declared.message.Field.{Field};
ghost use Rattle.wopi_headers.specs.declared.row.Row.TheVariants.{CheckFileInfo, GetFile, PutFile, Lock, GetLock, RefreshLock, Unlock, PutRelativeFile, DeleteFile};
ghost use Rattle.wopi_headers.specs.Readings.{lock_name, old_lock_name, IsMissing};
ghost use Rattle.wopi_headers.specs.Rows.{has_two_targets};
ghost use Rattle.wopi_headers.specs.Operations.{HasOneOverride, IsAnswerIn, IsAnswerTo};
ghost use Rattle.wopi_headers.specs.RowReads.{IsRead, IsRowIn};
ghost use Rattle.wopi_headers.specs.Targets.{path_of, query_of};

use crate::ask::{Ask, AskFault, Op};
use crate::naming::target_named;
use crate::path::id_in;
use crate::reading::{is_missing, lock_named, most_named};
use crate::row::{Row, row_asked};
use crate::target::{Split, split_of, token_in};
use std::alloc::Global;
use wopi_http::{Field, Method, Request, count_named};
use wopi_text::{Bytes, FileName, id_read};

/// Whether a request of this row names its operation once, where it has to.
fn has_one_override(row: Row, fields: &[Field]) -> bool
    ensures { IsTrue result ↔ HasOneOverride row fields.now }
{
    match row {
        Row::CheckFileInfo | Row::GetFile => true,
        _ => count_named(fields, b"X-WOPI-Override") == 1,
    }
}

/// A lock that is taken in place of an old one.
fn ask_relock(
    file: FileName,
    token: Bytes,
    fields: &[Field],
    place: &mut Option<Ask>,
) -> Result<(), AskFault>
    requires { ¬ (IsMissing old_lock_name fields.now) }
    ensures read { IsRead Lock file token fields.now result place.new }
    ensures left { OnErr result (place.new ≡ place.old) }
{
    let Some(id) = lock_named(fields, b"X-WOPI-Lock") else {
        return Err(AskFault::Refused { status: 400 });
    };
    let Some(old) = lock_named(fields, b"X-WOPI-OldLock") else {
        return Err(AskFault::Refused { status: 400 });
    };
    *place = Some(Ask {
        file,
        token,
        op: Op::Relock { old, id },
    });
    Ok(())
}

/// A lock that is taken, in place of an old one where the fields name one.
fn ask_lock(
    file: FileName,
    token: Bytes,
    fields: &[Field],
    place: &mut Option<Ask>,
) -> Result<(), AskFault>
    ensures read { IsRead Lock file token fields.now result place.new }
    ensures left { OnErr result (place.new ≡ place.old) }
{
    if !is_missing(fields, b"X-WOPI-OldLock") {
        return ask_relock(file, token, fields, place);
    }
    let Some(id) = lock_named(fields, b"X-WOPI-Lock") else {
        return Err(AskFault::Refused { status: 400 });
    };
    *place = Some(Ask {
        file,
        token,
        op: Op::Lock { id },
    });
    Ok(())
}

fn ask_get(
    file: FileName,
    token: Bytes,
    fields: &[Field],
    place: &mut Option<Ask>,
) -> Result<(), AskFault>
    ensures read { IsRead GetFile file token fields.now result place.new }
    ensures left { OnErr result (place.new ≡ place.old) }
{
    let Some(most) = most_named(fields) else {
        return Err(AskFault::Refused { status: 400 });
    };
    *place = Some(Ask {
        file,
        token,
        op: Op::Get { most },
    });
    Ok(())
}

/// A write under a lock.
fn ask_locked_put(
    file: FileName,
    token: Bytes,
    fields: &[Field],
    place: &mut Option<Ask>,
) -> Result<(), AskFault>
    requires { ¬ (IsMissing lock_name fields.now) }
    ensures read { IsRead PutFile file token fields.now result place.new }
    ensures left { OnErr result (place.new ≡ place.old) }
{
    let Some(id) = lock_named(fields, b"X-WOPI-Lock") else {
        return Err(AskFault::Refused { status: 400 });
    };
    *place = Some(Ask {
        file,
        token,
        op: Op::Put { lock: Some(id) },
    });
    Ok(())
}

fn ask_put(
    file: FileName,
    token: Bytes,
    fields: &[Field],
    place: &mut Option<Ask>,
) -> Result<(), AskFault>
    ensures read { IsRead PutFile file token fields.now result place.new }
    ensures left { OnErr result (place.new ≡ place.old) }
{
    if !is_missing(fields, b"X-WOPI-Lock") {
        return ask_locked_put(file, token, fields, place);
    }
    *place = Some(Ask {
        file,
        token,
        op: Op::Put { lock: None },
    });
    Ok(())
}

fn ask_refresh(
    file: FileName,
    token: Bytes,
    fields: &[Field],
    place: &mut Option<Ask>,
) -> Result<(), AskFault>
    ensures read { IsRead RefreshLock file token fields.now result place.new }
    ensures left { OnErr result (place.new ≡ place.old) }
{
    let Some(id) = lock_named(fields, b"X-WOPI-Lock") else {
        return Err(AskFault::Refused { status: 400 });
    };
    *place = Some(Ask {
        file,
        token,
        op: Op::Refresh { id },
    });
    Ok(())
}

fn ask_unlock(
    file: FileName,
    token: Bytes,
    fields: &[Field],
    place: &mut Option<Ask>,
) -> Result<(), AskFault>
    ensures read { IsRead Unlock file token fields.now result place.new }
    ensures left { OnErr result (place.new ≡ place.old) }
{
    let Some(id) = lock_named(fields, b"X-WOPI-Lock") else {
        return Err(AskFault::Refused { status: 400 });
    };
    *place = Some(Ask {
        file,
        token,
        op: Op::Unlock { id },
    });
    Ok(())
}

/// PutRelativeFile, with its target.
fn ask_copy(
    alloc: Global,
    file: FileName,
    token: Bytes,
    fields: &[Field],
    place: &mut Option<Ask>,
) -> Result<(), AskFault>
    requires { has_two_targets fields.now ≡ false }
    ensures read { IsRead PutRelativeFile file token fields.now result place.new }
    ensures left { OnErr result (place.new ≡ place.old) }
{
    let Some(target) = target_named(alloc, fields)? else {
        return Err(AskFault::Refused { status: 400 });
    };
    *place = Some(Ask {
        file,
        token,
        op: Op::PutRelative { target },
    });
    Ok(())
}

fn ask_info(file: FileName, token: Bytes, place: &mut Option<Ask>) -> Result<(), AskFault>
    ensures read { (fields : List Field) → IsRead CheckFileInfo file token fields result place.new }
    ensures left { OnErr result (place.new ≡ place.old) }
{
    *place = Some(Ask {
        file,
        token,
        op: Op::Info,
    });
    Ok(())
}

fn ask_held(file: FileName, token: Bytes, place: &mut Option<Ask>) -> Result<(), AskFault>
    ensures read { (fields : List Field) → IsRead GetLock file token fields result place.new }
    ensures left { OnErr result (place.new ≡ place.old) }
{
    *place = Some(Ask {
        file,
        token,
        op: Op::GetLock,
    });
    Ok(())
}

fn ask_delete(file: FileName, token: Bytes, place: &mut Option<Ask>) -> Result<(), AskFault>
    ensures read { (fields : List Field) → IsRead DeleteFile file token fields result place.new }
    ensures left { OnErr result (place.new ≡ place.old) }
{
    *place = Some(Ask {
        file,
        token,
        op: Op::Delete,
    });
    Ok(())
}

/// The row of a request to a file, or to its contents, or the status that refuses it.
fn row_in(method: Method, contents: bool, fields: &[Field]) -> Result<Row, u16>
    ensures { IsRowIn method contents fields.now result }
{
    let Some(row) = row_asked(method, contents, fields) else {
        return Err(501);
    };
    if has_one_override(row, fields) {
        Ok(row)
    } else {
        Err(400)
    }
}

/// What a request asks for of a file, put into a place, where its target is cut so.
pub fn ask_at(
    alloc: Global,
    request: &Request,
    split: Split<'_>,
    place: &mut Option<Ask>,
) -> Result<(), AskFault>
    requires path { split.path.now ≡ path_of request.now.target }
    requires query { split.query.now ≡ query_of request.now.target }
    ensures read { IsAnswerIn request.now result place.new }
    ensures left { OnErr result (place.new ≡ place.old) }
{
    let fields = request.fields.as_slice();
    let Some((id, contents)) = id_in(split.path) else {
        return Err(AskFault::Refused { status: 404 });
    };
    let Ok(file) = id_read(id) else {
        return Err(AskFault::Refused { status: 404 });
    };
    let row = match row_in(request.method, contents, fields) {
        Ok(row) => row,
        Err(status) => return Err(AskFault::Refused { status }),
    };
    let token = token_in(alloc, split.query)?;
    match row {
        Row::CheckFileInfo => ask_info(file, token, place),
        Row::GetFile => ask_get(file, token, fields, place),
        Row::PutFile => ask_put(file, token, fields, place),
        Row::Lock => ask_lock(file, token, fields, place),
        Row::GetLock => ask_held(file, token, place),
        Row::RefreshLock => ask_refresh(file, token, fields, place),
        Row::Unlock => ask_unlock(file, token, fields, place),
        Row::PutRelativeFile => ask_copy(alloc, file, token, fields, place),
        Row::DeleteFile => ask_delete(file, token, place),
    }
}

/// What a request asks for, put into a place, as [`ask_of`] tells it. A place that is used again spares
/// the moves of what is asked.
pub fn ask_into(alloc: Global, request: &Request, place: &mut Option<Ask>) -> Result<(), AskFault>
    ensures read { IsAnswerIn request.now result place.new }
    ensures left { OnErr result (place.new ≡ place.old) }
{
    ask_at(alloc, request, split_of(request.target.as_slice()), place)
}

/// What a request asks for. A request that asks for nothing is refused: with 404 where its path names
/// no file, else with 501 where method, path and override are no row of the table or a copy is asked
/// for under two names, else with 400 where a header that the row reads is missing, stands twice or
/// is out of form.
pub fn ask_of(alloc: Global, request: &Request) -> Result<Ask, AskFault>
    ensures { IsAnswerTo request.now result }
{
    let mut place = None;
    match ask_into(alloc, request, &mut place) {
        Ok(()) => match place {
            Some(ask) => Ok(ask),
            None => unreachable!(),
        },
        Err(fault) => Err(fault),
    }
}
