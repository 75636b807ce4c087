//! What an editor is told of a file's last save.
ghost use Rattle.std.specs.Prelude.{◌≡◌, ◌<◌, IfOk, OnOk, string_bytes};
ghost use Rattle.wopi_text.specs.Moments.{moments_end};
ghost use Rattle.serde_json.specs.View.{members_view, view};
ghost use Rattle.file_info.specs.Saved.{digest_text, save_json, save_text, with_saved};

use crate::save::Saved;
use base64::engine::general_purpose::STANDARD;
use moment_text::moment_text;
use serde_json::{Map, Value, json, put};
use std::alloc::{AllocError, Global};
use wopi_text::{Bytes, Memory};

/// The digest as it is told.
fn digest_text(alloc: Global, digest: &[u8]) -> Result<String, AllocError>
    ensures { IfOk result (λ text. string_bytes text ≡ digest_text digest.now) }
{
    STANDARD.encode(alloc, digest)
}

/// Puts the members `LastModifiedTime` and `SHA256` into what an editor is told of a file.
pub fn put_saved(
    alloc: Global,
    map: &mut Map<String, Value>,
    saved: &Saved,
) -> Result<(), AllocError>
    ensures { OnOk result (members_view map.new.entries ≡ with_saved saved.now (members_view map.old.entries)) }
{
    let moment = moment_text(saved.moment);
    let value = Value::try_from_str(alloc, moment.as_str())?;
    put(map, alloc, "LastModifiedTime", value)?;
    let digest = digest_text(alloc, &saved.digest)?;
    put(map, alloc, "SHA256", Value::String(digest))
}

fn save_value(alloc: Global, moment: &str) -> Result<Value, AllocError>
    ensures { IfOk result (λ value. view value ≡ save_json moment.now) }
{
    json!(in alloc; {"LastModifiedTime": moment})
}

/// The body of PutFile's answer to an editor: when the file was saved.
pub fn save_text(alloc: Global, moment: u64) -> Result<Bytes, Memory>
    requires { moment < moments_end }
    ensures { IfOk result (λ text. text ≡ save_text moment) }
{
    let shown = moment_text(moment);
    let value = save_value(alloc, shown.as_str())?;
    Ok(Bytes::from_vec(value.to_vec(alloc)?))
}
