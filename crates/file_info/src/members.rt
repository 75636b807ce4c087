//! How the members of a body are read.
ghost use Rattle.std.specs.Prelude.{◌≡◌, ◌≢◌, Some, None, IfOk, IfErr};
ghost use Rattle.serde_json.specs.Data.{Data};
ghost use Rattle.serde_json.specs.View.{view};
ghost use Rattle.file_info.specs.Json.{IsJsonOf, member_name, text_at};

use crate::{InfoFault, Required};
use serde_json::Value;
use std::alloc::Global;
use wopi_text::Bytes;

/// The value that the body is.
pub(crate) fn json_of(alloc: Global, bytes: &[u8]) -> Result<Value, InfoFault>
    ensures ok { IfOk result (λ value. IsJsonOf bytes.now (view value)) }
    ensures no_memory { IfErr result (λ fault. fault ≢ InfoFault.Memory → fault ≡ InfoFault.NotJson) }
    ensures not_json { IfErr result (λ fault. fault ≢ InfoFault.Memory → (other : Data) → ¬ IsJsonOf bytes.now other) }
{
    match Value::from_slice(alloc, bytes) {
        Ok(value) => Ok(value),
        Err(fault) if fault.is_memory() => Err(InfoFault::Memory),
        Err(_) => Err(InfoFault::NotJson),
    }
}

/// The text that a member is.
pub(crate) fn text_member(alloc: Global, value: &Value, field: Required) -> Result<Bytes, InfoFault>
    ensures ok { IfOk result (λ text. text_at (member_name field) (view value.now) ≡ Some text) }
    ensures no_memory { IfErr result (λ fault. fault ≢ InfoFault.Memory → fault ≡ InfoFault.Missing field) }
    ensures missing { IfErr result (λ fault. fault ≢ InfoFault.Memory → text_at (member_name field) (view value.now) ≡ None) }
{
    let Some(text) = value.get(field.name()).and_then(Value::as_str) else {
        return Err(InfoFault::Missing { field });
    };
    Ok(Bytes::from_slice(alloc, text.as_bytes())?)
}
