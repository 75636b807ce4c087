//! The name that a new file is asked to have.
ghost use Rattle.std.specs.Prelude.{◌≡◌, false, IfOk, MatchOption};
ghost use Rattle.wopi_http.specs.Fields.{count_named};
ghost use Rattle.wopi_headers.specs.Readings.{suggested_name, relative_name, IsTarget};
ghost use Rattle.wopi_headers.specs.Rows.{has_two_targets};

use crate::ask::Target;
use crate::reading::{overwrite_named, text_named};
use std::alloc::Global;
use wopi_http::{Field, count_named};
use wopi_text::Memory;

/// The name that is suggested.
fn suggested(alloc: Global, fields: &[Field]) -> Result<Option<Target>, Memory>
    requires { count_named relative_name fields.now ≡ 0 }
    ensures { IfOk result (λ found. MatchOption found ((target : Target) → ¬ (IsTarget fields.now target)) (IsTarget fields.now)) }
{
    match text_named(alloc, fields, b"X-WOPI-SuggestedTarget")? {
        Some(name) => Ok(Some(Target::Suggested(name))),
        None => Ok(None),
    }
}

/// The name that is asked for.
fn relative(alloc: Global, fields: &[Field]) -> Result<Option<Target>, Memory>
    requires { count_named suggested_name fields.now ≡ 0 }
    ensures { IfOk result (λ found. MatchOption found ((target : Target) → ¬ (IsTarget fields.now target)) (IsTarget fields.now)) }
{
    let Some(overwrite) = overwrite_named(fields) else {
        return Ok(None);
    };
    match text_named(alloc, fields, b"X-WOPI-RelativeTarget")? {
        Some(name) => Ok(Some(Target::Relative { name, overwrite })),
        None => Ok(None),
    }
}

/// The name in the one of the two fields that is there, or nothing where none is there, or where the
/// one stands twice or is out of form.
pub fn target_named(alloc: Global, fields: &[Field]) -> Result<Option<Target>, Memory>
    requires { has_two_targets fields.now ≡ false }
    ensures { IfOk result (λ found. MatchOption found ((target : Target) → ¬ (IsTarget fields.now target)) (IsTarget fields.now)) }
{
    if count_named(fields, b"X-WOPI-RelativeTarget") == 0 {
        suggested(alloc, fields)
    } else {
        relative(alloc, fields)
    }
}
