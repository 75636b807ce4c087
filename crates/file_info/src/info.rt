//! What CheckFileInfo tells of a file.
ghost use Rattle.std.specs.Prelude.{◌≡◌, ◌↔◌, IsTrue, Some, true, codes, IfOk, IfErr};
ghost use Rattle.serde_json.specs.Data.{boolean};
ghost use Rattle.serde_json.specs.Find.{get};
ghost use Rattle.std.specs.Str.{IsUtf8};
ghost use Rattle.serde_json.specs.View.{view};
ghost use Rattle.file_info.specs.Info.{HasTexts, IsInfoOf, info_json, info_required, info_text};
ghost use Rattle.file_info.specs.Json.{IsFaultOf};

use crate::members::{json_of, text_member};
use crate::{InfoFault, Required};
use serde_json::{Value, json};
use std::alloc::{AllocError, Global};
use wopi_text::{Bytes, Memory};

/// What CheckFileInfo tells of a file.
#[derive(Drop)]
pub struct Info {
    /// The file's name, the member `BaseFileName`.
    pub name: Bytes,
    /// Who owns the file, the member `OwnerId`.
    pub owner: Bytes,
    /// Who asks, the member `UserId`.
    pub user: Bytes,
    /// The version of the contents, the member `Version`.
    pub version: Bytes,
    /// The size of the contents in bytes, the member `Size`.
    pub size: u64,
    /// Whether the user may write the file, the member `UserCanWrite`.
    pub can_write: bool,
}

/// The body of CheckFileInfo's answer. Beside what is known of the file it says that the host
/// supports deletion, lock ids of up to 1,024 bytes, locks, their look-up and updates, and that the
/// user may make other files beside this one exactly where he may write this one.
pub fn info_text(alloc: Global, info: &Info) -> Result<Bytes, Memory>
    requires { HasTexts info.now }
    ensures text { IfOk result (λ text. text ≡ info_text info.now) }
    ensures tells { IfOk result (λ text. IsInfoOf text info.now) }
{
    let value = info_value(alloc, info)?;
    Ok(Bytes::from_vec(value.to_vec(alloc)?))
}

/// What the body of CheckFileInfo's answer tells of a file. Members that it does not need are
/// ignored.
pub fn info_read(alloc: Global, bytes: &[u8]) -> Result<Info, InfoFault>
    ensures ok { IfOk result (IsInfoOf bytes.now) }
    ensures err { IfErr result (IsFaultOf info_required bytes.now) }
{
    let value = json_of(alloc, bytes)?;
    let name = text_member(alloc, &value, Required::BaseFileName)?;
    let owner = text_member(alloc, &value, Required::OwnerId)?;
    let Some(size) = value.get("Size").and_then(Value::as_u64) else {
        return Err(InfoFault::Missing {
            field: Required::Size,
        });
    };
    let user = text_member(alloc, &value, Required::UserId)?;
    let version = text_member(alloc, &value, Required::Version)?;
    let can_write = may_write(&value);
    Ok(Info {
        name,
        owner,
        user,
        version,
        size,
        can_write,
    })
}

fn may_write(value: &Value) -> bool
    ensures { IsTrue result ↔ (get (codes "UserCanWrite") (view value.now) ≡ Some (boolean true)) }
{
    matches!(
        value.get("UserCanWrite").and_then(Value::as_bool),
        Some(true)
    )
}

fn info_value(alloc: Global, info: &Info) -> Result<Value, AllocError>
    requires { HasTexts info.now }
    ensures { IfOk result (λ value. view value ≡ info_json info.now) }
{
    json!(in alloc; {
        "BaseFileName": text_of(&info.name),
        "OwnerId": text_of(&info.owner),
        "Size": info.size,
        "SupportsDeleteFile": true,
        "SupportsExtendedLockLength": true,
        "SupportsGetLock": true,
        "SupportsLocks": true,
        "SupportsUpdate": true,
        "UserCanNotWriteRelative": !info.can_write,
        "UserCanWrite": info.can_write,
        "UserId": text_of(&info.user),
        "Version": text_of(&info.version),
    })
}

fn text_of(bytes: &Bytes) -> &str
    requires { IsUtf8 bytes.now }
    ensures { result.now ≡ bytes.now }
{
    match str::from_utf8(bytes.as_slice()) {
        Ok(text) => text,
        Err(_) => unreachable!(),
    }
}
