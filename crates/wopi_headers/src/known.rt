//! When a request says that its file was last saved.
ghost use Rattle.std.specs.Prelude.{◌≡◌, option_map};
ghost use Rattle.std.specs.Option.{option_copied};
ghost use Rattle.wopi_headers.specs.Known.{changed_text, joined, known_in, stands_twice, told};

use crate::reading::value_named;
use wopi_http::{Field, count_named};

/// By which name an editor goes in its field and in what it is answered: Collabora Online, or LibreOffice Online, from which that came.
#[derive(Clone, Copy, Debug, PartialEq, Eq)]
pub enum Suite {
    Cool,
    Lool,
}

impl Suite {
    /// The body of the answer that the file was changed meanwhile.
    pub fn changed_text(self) -> &'static str
        ensures { result.now ≡ changed_text self }
    {
        match self {
            Suite::Cool => "{\"COOLStatusCode\":1010}",
            Suite::Lool => "{\"LOOLStatusCode\":1010}",
        }
    }
}

/// The text that says when a file was last saved, as an editor knows it.
#[derive(Clone, Copy)]
pub struct Known<'a> {
    pub suite: Suite,
    pub text: &'a [u8],
}

/// What the values of the two fields say.
fn joined<'a>(cool: Option<&'a [u8]>, lool: Option<&'a [u8]>) -> Option<Option<Known<'a>>>
    ensures { option_map (option_map told) result ≡ joined (option_copied cool.entry) (option_copied lool.entry) }
{
    let Some(text) = cool else {
        let Some(text) = lool else {
            return Some(None);
        };
        return Some(Some(Known {
            suite: Suite::Lool,
            text,
        }));
    };
    let Some(other) = lool else {
        return Some(Some(Known {
            suite: Suite::Cool,
            text,
        }));
    };
    if text == other {
        return Some(Some(Known {
            suite: Suite::Cool,
            text,
        }));
    }
    None
}

/// Whether one of the two fields stands more than once.
fn stands_twice(fields: &[Field]) -> bool
    ensures { result ≡ stands_twice fields.now }
{
    count_named(fields, b"X-COOL-WOPI-Timestamp") > 1
        || count_named(fields, b"X-LOOL-WOPI-Timestamp") > 1
}

/// When the fields say that the file was last saved; inside, none where they don't say it. They say nothing that can be read where
/// a field stands twice, or two differ.
#[tactic(auto, unfolding(crate::specs::Known::known_in))]
pub fn known_in(fields: &[Field]) -> Option<Option<Known<'_>>>
    ensures { option_map (option_map told) result ≡ known_in fields.now }
{
    if stands_twice(fields) {
        return None;
    }
    joined(
        value_named(fields, b"X-COOL-WOPI-Timestamp"),
        value_named(fields, b"X-LOOL-WOPI-Timestamp"),
    )
}
