//! The table of operations.
ghost use Rattle.std.specs.Prelude.{◌≡◌};
ghost use Rattle.std.specs.Option.{option_copied};
ghost use Rattle.wopi_headers.specs.Rows.{by_override, row_of, has_two_targets, row_asked};

use crate::reading::value_named;
use wopi_http::{Field, Method, count_named};

/// A row of the table: what method, path and `X-WOPI-Override` together ask for.
#[derive(Clone, Copy, Debug, PartialEq, Eq)]
pub enum Row {
    CheckFileInfo,
    GetFile,
    PutFile,
    /// Lock, or UnlockAndRelock where an old lock is named.
    Lock,
    GetLock,
    RefreshLock,
    Unlock,
    PutRelativeFile,
    DeleteFile,
}

/// The row of an override, at a POST to a file. A copy under two names is none.
fn by_override(name: &[u8], two_targets: bool) -> Option<Row>
    ensures { result ≡ by_override name.now two_targets }
{
    if name == b"LOCK".as_slice() {
        Some(Row::Lock)
    } else if name == b"GET_LOCK".as_slice() {
        Some(Row::GetLock)
    } else if name == b"REFRESH_LOCK".as_slice() {
        Some(Row::RefreshLock)
    } else if name == b"UNLOCK".as_slice() {
        Some(Row::Unlock)
    } else if name == b"PUT_RELATIVE".as_slice() {
        if two_targets {
            return None;
        }
        Some(Row::PutRelativeFile)
    } else if name == b"DELETE".as_slice() {
        Some(Row::DeleteFile)
    } else {
        None
    }
}

/// The row of a request to a file, or to its contents, with this override.
fn row_of(
    method: Method,
    contents: bool,
    override_name: Option<&[u8]>,
    two_targets: bool,
) -> Option<Row>
    ensures { result ≡ row_of method contents (option_copied override_name.entry) two_targets }
{
    match method {
        Method::Get => Some(if contents {
            Row::GetFile
        } else {
            Row::CheckFileInfo
        }),
        Method::Post => {
            let name = override_name?;
            if !contents {
                return by_override(name, two_targets);
            }
            if name == b"PUT".as_slice() {
                Some(Row::PutFile)
            } else {
                None
            }
        }
        Method::Head | Method::Options | Method::Other => None,
    }
}

/// Whether a copy is asked for under two names.
fn has_two_targets(fields: &[Field]) -> bool
    ensures { result ≡ has_two_targets fields.now }
{
    count_named(fields, b"X-WOPI-SuggestedTarget") > 0
        && count_named(fields, b"X-WOPI-RelativeTarget") > 0
}

/// The row of a request to a file, or to its contents.
#[tactic(auto, unfolding(crate::specs::Rows::row_asked))]
pub fn row_asked(method: Method, contents: bool, fields: &[Field]) -> Option<Row>
    ensures { result ≡ row_asked method contents fields.now }
{
    let named = value_named(fields, b"X-WOPI-Override");
    row_of(method, contents, named, has_two_targets(fields))
}
