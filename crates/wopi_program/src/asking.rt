//! What a command asks to be made of the outside world before it runs.
ghost use Rattle.std.specs.Prelude.{◌≡◌, ℕ, Bool, List, map, string_bytes};
ghost use Rattle.wopi_program.specs.Asking.{HasLogs, IsEditAt, IsKept, IsOnceOver, IsServeOver, second_of};
ghost use Rattle.wopi_program.specs.EditWords.{IsEditRow};
ghost use Rattle.wopi_program.specs.ServeWords.{IsServe, IsServeRow, logs_told};
ghost use Rattle.wopi_program.specs.Words.{IsOnceRow, IsRow};
ghost use Rattle.access_tokens.specs.declared.keys.Keys.{Keys};

use crate::command::{is_edit, is_once};
use crate::serve_words::logs_named;
use crate::{Command, ServeAsk, serve_ask};

/// What has to be made of the outside world for a command.
#[derive(Clone, Copy, Debug, PartialEq, Eq)]
pub enum Asked<'a> {
    /// This folder and a clock, for `once`.
    Once {
        folder: &'a str,
    },
    /// This folder for each shard, and for each worker of `serve` a listener and a clock; where logs are kept, a log for
    /// each shard in this folder of logs.
    Serve {
        folder: &'a str,
        numbers: ServeAsk,
        logs: Option<&'a str>,
    },
    /// A dialer to this host, for `edit`.
    Edit {
        authority: &'a str,
    },
    /// No folder, listener, clock or host, for each other command and for words that are none.
    Nothing,
}

/// The word behind the first, if there is one.
fn second(words: &[String]) -> &str
    ensures { result.now ≡ second_of (map string_bytes words.now) }
{
    match words {
        [_, word, ..] => word.as_str(),
        _ => "",
    }
}

/// What the words ask for.
pub fn asked_by(words: &[String]) -> Asked<'_>
    ensures once { (keys : Keys) (base : List ℕ) (editor : Bool) (row : IsOnceRow (map string_bytes words.now) keys base editor) → IsOnceOver row.folder result }
    ensures serve { (keys : Keys) (base : List ℕ) (ask : ServeAsk) (row : IsServeRow (map string_bytes words.now) keys base ask) → IsServeOver row.folder ask result }
    ensures logs { (keys : Keys) (base : List ℕ) (ask : ServeAsk) (row : IsServeRow (map string_bytes words.now) keys base ask) → HasLogs (logs_told row.options) result }
    ensures kept { IsKept result }
    ensures edit { (authority : List ℕ) (file : List ℕ) (token : List ℕ) (nonce : List ℕ) → IsEditRow (map string_bytes words.now) authority file token nonce
        → IsEditAt authority result }
    ensures nothing { ¬ IsRow (map string_bytes words.now) Command.Once → ¬ IsServe (map string_bytes words.now) → ¬ IsRow (map string_bytes words.now) Command.Edit
        → result ≡ Asked.Nothing }
{
    if is_once(words) {
        return Asked::Once {
            folder: second(words),
        };
    }
    if is_edit(words) {
        return Asked::Edit {
            authority: second(words),
        };
    }
    match serve_ask(words) {
        Some(numbers) => Asked::Serve {
            folder: second(words),
            numbers,
            logs: logs_named(words),
        },
        None => Asked::Nothing,
    }
}
