//! What a host that serves editors answers beyond what every host does.
ghost use Rattle.std.specs.Prelude.{◌≡◌, IfOk, OnOk, true};
ghost use Rattle.std.specs.Option.{option_copied};
ghost use Rattle.serde_json.specs.Data.{boolean, string, put as with_member};
ghost use Rattle.serde_json.specs.View.{members_view, view};
ghost use Rattle.std.specs.Str.{IsUtf8};
ghost use Rattle.file_info.specs.Info.{HasTexts};
ghost use Rattle.host_server.specs.Editing.{as_get, asks_head, asks_health, asks_options, bearer_in, behind_scheme, editor_json, file_members, info_body, is_get, is_head, is_options, joined, judged_as, last_in, may_tell, refused_status, supports_members, token_taken, user_members, with_last, with_members, with_page};

use crate::address::text_of;
use file_info::{Info, Saved, info_text, put_saved};
use put_relative::ending;
use serde_json::{Map, Value, put};
use std::alloc::{AllocError, Global};
use wopi_http::{Field, Method, Request, first_named};
use wopi_text::{Bytes, Memory};

/// Puts a member whose value is a text.
fn put_text(
    alloc: Global,
    map: &mut Map<String, Value>,
    key: &str,
    text: &str,
) -> Result<(), AllocError>
    ensures { OnOk result (members_view map.new.entries ≡ with_member key.now (string text.now) (members_view map.old.entries)) }
{
    let value = Value::try_from_str(alloc, text)?;
    put(map, alloc, key, value)
}

/// Puts a member whose value is a truth.
fn put_truth(
    alloc: Global,
    map: &mut Map<String, Value>,
    key: &str,
    truth: bool,
) -> Result<(), AllocError>
    ensures { OnOk result (members_view map.new.entries ≡ with_member key.now (boolean truth) (members_view map.old.entries)) }
{
    put(map, alloc, key, Value::from(truth))
}

/// Puts the members that tell of the file itself.
fn put_file(alloc: Global, map: &mut Map<String, Value>, info: &Info) -> Result<(), AllocError>
    requires { HasTexts info.now }
    ensures { OnOk result (members_view map.new.entries ≡ with_members (file_members info.now) (members_view map.old.entries)) }
{
    let name = text_of(info.name.as_slice());
    put_text(alloc, map, "BaseFileName", name)?;
    put_text(alloc, map, "FileExtension", ending(name))?;
    put_text(alloc, map, "OwnerId", text_of(info.owner.as_slice()))?;
    put(map, alloc, "Size", Value::from(info.size))?;
    put_text(alloc, map, "Version", text_of(info.version.as_slice()))
}

/// Puts the members that tell what the host supports.
fn put_supports(alloc: Global, map: &mut Map<String, Value>) -> Result<(), AllocError>
    ensures { OnOk result (members_view map.new.entries ≡ with_members supports_members (members_view map.old.entries)) }
{
    put_truth(alloc, map, "SupportsDeleteFile", true)?;
    put_truth(alloc, map, "SupportsExtendedLockLength", true)?;
    put_truth(alloc, map, "SupportsGetLock", true)?;
    put_truth(alloc, map, "SupportsLocks", true)?;
    put_truth(alloc, map, "SupportsRename", false)?;
    put_truth(alloc, map, "SupportsUpdate", true)
}

/// Puts the members that tell of the user who asks.
fn put_user(alloc: Global, map: &mut Map<String, Value>, info: &Info) -> Result<(), AllocError>
    requires { HasTexts info.now }
    ensures { OnOk result (members_view map.new.entries ≡ with_members (user_members info.now) (members_view map.old.entries)) }
{
    let user = text_of(info.user.as_slice());
    put_truth(alloc, map, "ReadOnly", !info.can_write)?;
    put_truth(alloc, map, "UserCanNotWriteRelative", !info.can_write)?;
    put_truth(alloc, map, "UserCanRename", false)?;
    put_truth(alloc, map, "UserCanWrite", info.can_write)?;
    put_text(alloc, map, "UserFriendlyName", user)?;
    put_text(alloc, map, "UserId", user)
}

/// Puts the members that tell of the file's last save, where that is told.
fn put_last(
    alloc: Global,
    map: &mut Map<String, Value>,
    saved: &Option<Saved>,
) -> Result<(), AllocError>
    ensures { OnOk result (members_view map.new.entries ≡ with_last (last_in saved.now) (members_view map.old.entries)) }
{
    match saved {
        None => return Ok(()),
        Some(saved) => return put_saved(alloc, map, saved),
    }
}

/// Puts the member that tells the page's origin, where there is one.
fn put_page(
    alloc: Global,
    map: &mut Map<String, Value>,
    origin: &Option<Bytes>,
) -> Result<(), AllocError>
    requires { may_tell origin.now ≡ true }
    ensures { OnOk result (members_view map.new.entries ≡ with_page origin.now (members_view map.old.entries)) }
{
    match origin {
        None => return Ok(()),
        Some(origin) => {
            return put_text(alloc, map, "PostMessageOrigin", text_of(origin.as_slice()));
        }
    }
}

/// What the body of CheckFileInfo's answer tells an editor in a page of that origin.
#[tactic(auto, using(crate::proofs::MemberLemmas::told_in_order))]
fn editor_value(
    alloc: Global,
    origin: &Option<Bytes>,
    saved: &Option<Saved>,
    info: &Info,
) -> Result<Value, AllocError>
    requires texts { HasTexts info.now }
    requires page { may_tell origin.now ≡ true }
    ensures { IfOk result (λ value. view value ≡ editor_json origin.now (last_in saved.now) info.now) }
{
    let mut map = Map::new(alloc);
    put_file(alloc, &mut map, info)?;
    put_supports(alloc, &mut map)?;
    put_user(alloc, &mut map, info)?;
    put_last(alloc, &mut map, saved)?;
    put_page(alloc, &mut map, origin)?;
    Ok(Value::Object(map))
}

/// The body of CheckFileInfo's answer, by whether the host serves editors, in which page, and what it tells of the
/// file's last save.
pub fn info_body(
    alloc: Global,
    editor: bool,
    origin: &Option<Bytes>,
    saved: &Option<Saved>,
    info: &Info,
) -> Result<Bytes, Memory>
    requires texts { HasTexts info.now }
    requires page { may_tell origin.now ≡ true }
    ensures { IfOk result (λ text. text ≡ info_body editor origin.now (last_in saved.now) info.now) }
{
    if !editor {
        return info_text(alloc, info);
    }
    let value = editor_value(alloc, origin, saved, info)?;
    Ok(Bytes::from_vec(value.to_vec(alloc)?))
}

/// What a value bears behind the scheme `Bearer` and a space.
fn behind_scheme(value: &[u8]) -> Option<&[u8]>
    ensures { option_copied result ≡ behind_scheme value.now }
{
    if value.len() < 7 {
        return None;
    }
    if value[..7].eq_ignore_ascii_case(b"Bearer ") {
        Some(&value[7..])
    } else {
        None
    }
}

/// The token that the first `Authorization` field bears.
fn bearer_in(fields: &[Field]) -> Option<&[u8]>
    ensures { option_copied result ≡ bearer_in fields.now }
{
    let field = first_named(fields, b"Authorization")?;
    behind_scheme(field.value.as_slice())
}

/// The token of the query, or where that is empty the one that a field bears. Two that differ are none.
fn joined(alloc: Global, token: Bytes, borne: Option<&[u8]>) -> Result<Bytes, Memory>
    ensures { IfOk result (λ text. text ≡ joined token (option_copied borne.entry)) }
{
    let Some(borne) = borne else {
        return Ok(token);
    };
    if token.as_slice().is_empty() {
        return Bytes::from_slice(alloc, borne);
    }
    if token.as_slice() == borne {
        Ok(token)
    } else {
        Ok(Bytes::from_vec(Vec::new(alloc)))
    }
}

/// The token that a request with this one in its query is judged by.
pub fn token_taken(
    alloc: Global,
    editor: bool,
    fields: &[Field],
    token: Bytes,
) -> Result<Bytes, Memory>
    ensures { IfOk result (λ text. text ≡ token_taken editor fields.now token) }
{
    if editor {
        joined(alloc, token, bearer_in(fields))
    } else {
        Ok(token)
    }
}

fn is_get(method: Method) -> bool
    ensures { result ≡ is_get method }
{
    method == Method::Get
}

/// Whether a request is `GET /healthz`.
fn asks_health(request: &Request) -> bool
    ensures { result ≡ asks_health request.now }
{
    is_get(request.method) && request.target.as_slice() == b"/healthz".as_slice()
}

/// The status of a request that asks for nothing, which else has this one.
pub fn refused_status(editor: bool, request: &Request, status: u16) -> u16
    ensures { result ≡ refused_status editor request.now status }
{
    if editor && asks_health(request) {
        200
    } else {
        status
    }
}

fn is_head(method: Method) -> bool
    ensures { result ≡ is_head method }
{
    method == Method::Head
}

/// Whether a request asks for the reply to a GET without its body.
pub fn asks_head(editor: bool, request: &Request) -> bool
    ensures { result ≡ asks_head editor request.now }
{
    editor && is_head(request.method)
}

fn is_options(method: Method) -> bool
    ensures { result ≡ is_options method }
{
    method == Method::Options
}

/// Whether a request asks for the methods.
pub fn asks_options(editor: bool, request: &Request) -> bool
    ensures { result ≡ asks_options editor request.now }
{
    editor && is_options(request.method)
}

/// The request as a GET.
fn as_get(request: Request) -> Request
    ensures { result ≡ as_get request }
{
    let Request {
        method: _,
        target,
        version,
        fields,
        body,
    } = request;
    Request {
        method: Method::Get,
        target,
        version,
        fields,
        body,
    }
}

/// The request that this one is answered as.
pub fn judged_as(editor: bool, request: Request) -> Request
    ensures { result ≡ judged_as editor request }
{
    if asks_head(editor, &request) {
        as_get(request)
    } else {
        request
    }
}
