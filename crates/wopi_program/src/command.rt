//! Which command the words of the command line are.
ghost use Rattle.std.specs.Prelude.{◌≡◌, ◌↔◌, [], ◌∷◌, map, string_bytes, IsTrue, Some};
ghost use Rattle.wopi_program.specs.Words.{IsRow};

use crate::contents_words::contents_words;
use crate::ctoken_words::ctoken_words;
use crate::edit_words::edit_words;
use crate::once_words::once_words;
use crate::replay_words::replay_words;
use crate::serve_words::serve_words;
use crate::token_words::token_words;

/// What the words ask for.
#[derive(Clone, Copy, Debug, PartialEq, Eq)]
pub enum Command {
    /// The words that the program knows, on its output.
    Help,
    /// The program's name and version, on its output.
    Version,
    /// The requests of the input answered on the output.
    Once,
    /// The requests of many connections answered by a host, and its journal on the output.
    Serve,
    /// The script of the input run over a sheet at a host.
    Edit,
    /// A schedule run in memory, and what it shows on the output.
    Replay,
    /// The text of an access token, on the output.
    Token,
    /// The text of a token of the container, on the output.
    Ctoken,
    /// The journal of the input, in the second form on the output.
    Upgrade,
    /// Whether the journal of the input is legal, on the output.
    Audit,
    /// The contents that a file of the input's journal had at a version, on the output.
    Contents,
}

/// Whether the words are this one alone.
pub(crate) fn is_word(words: &[String], wanted: &str) -> bool
    ensures { IsTrue result ↔ (map string_bytes words.now ≡ wanted.now ∷ []) }
{
    match words {
        [word] => word.as_str() == wanted,
        _ => false,
    }
}

pub(crate) fn is_once(words: &[String]) -> bool
    ensures { IsTrue result ↔ IsRow (map string_bytes words.now) Command.Once }
{
    match once_words(words) {
        Some(_) => true,
        None => false,
    }
}

fn is_serve(words: &[String]) -> bool
    ensures { IsTrue result ↔ IsRow (map string_bytes words.now) Command.Serve }
{
    match serve_words(words) {
        Some(_) => true,
        None => false,
    }
}

pub(crate) fn is_edit(words: &[String]) -> bool
    ensures { IsTrue result ↔ IsRow (map string_bytes words.now) Command.Edit }
{
    match edit_words(words) {
        Some(_) => true,
        None => false,
    }
}

fn is_replay(words: &[String]) -> bool
    ensures { IsTrue result ↔ IsRow (map string_bytes words.now) Command.Replay }
{
    match replay_words(words) {
        Some(_) => true,
        None => false,
    }
}

fn is_contents(words: &[String]) -> bool
    ensures { IsTrue result ↔ IsRow (map string_bytes words.now) Command.Contents }
{
    match contents_words(words) {
        Some(_) => true,
        None => false,
    }
}

fn is_token(words: &[String]) -> bool
    ensures { IsTrue result ↔ IsRow (map string_bytes words.now) Command.Token }
{
    match token_words(words) {
        Some(_) => true,
        None => false,
    }
}

fn is_ctoken(words: &[String]) -> bool
    ensures { IsTrue result ↔ IsRow (map string_bytes words.now) Command.Ctoken }
{
    match ctoken_words(words) {
        Some(_) => true,
        None => false,
    }
}

/// The command whose row these words are, if they are one.
pub fn read_words(words: &[String]) -> Option<Command>
    ensures { (command : Command) → (result ≡ Some command) ↔ IsRow (map string_bytes words.now) command }
{
    if is_word(words, "--help") {
        Some(Command::Help)
    } else if is_word(words, "--version") {
        Some(Command::Version)
    } else if is_once(words) {
        Some(Command::Once)
    } else if is_serve(words) {
        Some(Command::Serve)
    } else if is_edit(words) {
        Some(Command::Edit)
    } else if is_replay(words) {
        Some(Command::Replay)
    } else if is_token(words) {
        Some(Command::Token)
    } else if is_ctoken(words) {
        Some(Command::Ctoken)
    } else if is_word(words, "upgrade") {
        Some(Command::Upgrade)
    } else if is_word(words, "audit") {
        Some(Command::Audit)
    } else if is_contents(words) {
        Some(Command::Contents)
    } else {
        None
    }
}
