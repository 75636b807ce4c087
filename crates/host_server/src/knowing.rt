//! What a request knows of its file's last save.
ghost use Rattle.std.specs.Prelude.{◌≡◌, option_map};
ghost use Rattle.wopi_headers.specs.Known.{told};
ghost use Rattle.host_server.specs.Known.{last_known, last_told, moment_known, moment_told, suite_of};

use moment_text::moment_read;
use wopi_headers::{Known, Suite, known_in};
use wopi_http::Field;

/// A moment at which no file was saved: that at which moments end.
const NEVER: u64 = 253_402_300_800_000;

/// The last save of a file that a request knows of, and by which name it tells of it. A moment that can't be read is one
/// at which no file was saved.
#[derive(Clone, Copy, Debug, PartialEq, Eq)]
pub struct LastSave {
    pub suite: Suite,
    pub moment: u64,
}

/// The moment that a text tells; where it tells none, one at which no file was saved.
fn moment_told(text: &[u8]) -> u64
    ensures { result ≡ moment_told text.now }
{
    moment_read(text).unwrap_or(NEVER)
}

/// The last save that the fields tell of, if they tell of one.
fn last_told(known: Option<Option<Known<'_>>>) -> Option<LastSave>
    ensures { result ≡ last_told (option_map (option_map told) known.entry) }
{
    let Some(known) = known else {
        return Some(LastSave {
            suite: Suite::Cool,
            moment: NEVER,
        });
    };
    let Some(known) = known else {
        return None;
    };
    Some(LastSave {
        suite: known.suite,
        moment: moment_told(known.text),
    })
}

/// The last save that a request with these fields knows of, on a host that serves editors.
pub fn last_known(editor: bool, fields: &[Field]) -> Option<LastSave>
    ensures { result ≡ last_known editor fields.now }
{
    if editor {
        last_told(known_in(fields))
    } else {
        None
    }
}

pub fn moment_known(last: Option<LastSave>) -> Option<u64>
    ensures { result ≡ moment_known last }
{
    match last {
        None => None,
        Some(save) => Some(save.moment),
    }
}

/// By which name an editor goes that knows of it.
pub fn suite_of(last: Option<LastSave>) -> Suite
    ensures { result ≡ suite_of last }
{
    match last {
        None => Suite::Cool,
        Some(save) => save.suite,
    }
}
