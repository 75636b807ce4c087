//! What PutRelativeFile tells of the file that it made.
ghost use Rattle.std.specs.Prelude.{◌≡◌, IfOk, IfErr};
ghost use Rattle.serde_json.specs.View.{view};
ghost use Rattle.file_info.specs.Relative.{IsRelativeOf, relative_json, relative_required, relative_text};
ghost use Rattle.file_info.specs.Json.{IsFaultOf};

use crate::members::{json_of, text_member};
use crate::{InfoFault, Required};
use serde_json::{Value, json};
use std::alloc::{AllocError, Global};
use wopi_text::{Bytes, Memory};

/// The body of PutRelativeFile's answer: the new file's name and the address of it, with a token.
pub fn relative_text(alloc: Global, name: &str, url: &str) -> Result<Bytes, Memory>
    ensures text { IfOk result (λ text. text ≡ relative_text name.now url.now) }
    ensures tells { IfOk result (λ text. IsRelativeOf text name.now url.now) }
{
    let value = relative_value(alloc, name, url)?;
    Ok(Bytes::from_vec(value.to_vec(alloc)?))
}

/// The name and the address that the body of PutRelativeFile's answer tells. Other members are
/// ignored.
pub fn relative_read(alloc: Global, bytes: &[u8]) -> Result<(Bytes, Bytes), InfoFault>
    ensures ok { IfOk result (λ made. IsRelativeOf bytes.now made.0 made.1) }
    ensures err { IfErr result (IsFaultOf relative_required bytes.now) }
{
    let value = json_of(alloc, bytes)?;
    let name = text_member(alloc, &value, Required::Name)?;
    let url = text_member(alloc, &value, Required::Url)?;
    Ok((name, url))
}

fn relative_value(alloc: Global, name: &str, url: &str) -> Result<Value, AllocError>
    ensures { IfOk result (λ value. view value ≡ relative_json name.now url.now) }
{
    json!(in alloc; {"Name": name, "Url": url})
}
