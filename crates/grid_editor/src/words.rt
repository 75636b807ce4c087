//! Lines of a script, read as commands.
ghost use Rattle.std.specs.Prelude.{◌≡◌, ◌≢◌, ◌∷◌, ◌++◌, ◌<◌, ◌^◌, ℕ, List, IfOk, IfSome, IfNone, decimal, position, ◌==◌};
ghost use Rattle.grid_editor.specs.Commands.{Says};
ghost use Rattle.grid_editor.specs.Kinds.{IsBare, IsNumbered, SaysSet, SaysName};

use crate::command::Command;
use std::alloc::Global;
use wopi_text::{Bytes, FileName, Memory, decimal_read};

/// The command that the line says, if it says one.
pub(crate) fn command_in(alloc: Global, line: &[u8]) -> Result<Option<Command>, Memory>
    ensures some { IfOk result (λ found. IfSome found (Says line.now)) }
    ensures none { IfOk result (λ found. IfNone found ((command : Command) → ¬ Says line.now command)) }
{
    if let Some(command) = bare(line) {
        return Ok(Some(command));
    }
    if let Some(command) = numbered(line) {
        return Ok(Some(command));
    }
    if let Some(name) = save_as(line) {
        return Ok(Some(Command::SaveAs { name }));
    }
    let Some((row, column, text)) = set(line) else {
        return Ok(None);
    };
    let text = Bytes::from_slice(alloc, text)?;
    Ok(Some(Command::Set { row, column, text }))
}

/// The command without arguments that the line is.
fn bare(line: &[u8]) -> Option<Command>
    ensures some { IfSome result (Says line.now) }
    ensures none { IfNone result ((command : Command) → IsBare command → ¬ Says line.now command) }
{
    if line == b"open".as_slice() {
        return Some(Command::Open);
    }
    if line == b"show".as_slice() {
        return Some(Command::Show);
    }
    if line == b"values".as_slice() {
        return Some(Command::Values);
    }
    if line == b"undo".as_slice() {
        return Some(Command::Undo);
    }
    if line == b"save".as_slice() {
        return Some(Command::Save);
    }
    if line == b"refresh".as_slice() {
        return Some(Command::Refresh);
    }
    if line == b"close".as_slice() {
        return Some(Command::Close);
    }
    None
}

/// The command with one number that the line says.
fn numbered(line: &[u8]) -> Option<Command>
    ensures some { IfSome result (Says line.now) }
    ensures none { IfNone result ((command : Command) → IsNumbered command → ¬ Says line.now command) }
{
    if let Some(row) = number_after(line, b"insrow ") {
        return Some(Command::InsRow { row });
    }
    if let Some(row) = number_after(line, b"delrow ") {
        return Some(Command::DelRow { row });
    }
    if let Some(column) = number_after(line, b"inscol ") {
        return Some(Command::InsCol { column });
    }
    if let Some(column) = number_after(line, b"delcol ") {
        return Some(Command::DelCol { column });
    }
    None
}

/// The name of a `saveas` line.
fn save_as(line: &[u8]) -> Option<FileName>
    ensures some { IfSome result (SaysName line.now) }
    ensures none { IfNone result ((name : List ℕ) → ¬ SaysName line.now name) }
{
    let Some(rest) = after(line, b"saveas ") else {
        return None;
    };
    match FileName::read(rest) {
        Ok(name) => return Some(name),
        Err(_) => return None,
    }
}

/// The row, the column and the text of a `set` line.
fn set(line: &[u8]) -> Option<(u64, u64, &[u8])>
    ensures some { IfSome result (λ words. SaysSet line.now words.0 words.1 words.2.now) }
    ensures none { IfNone result ((row column : ℕ) (text : List ℕ) → ¬ SaysSet line.now row column text) }
{
    let Some(rest) = after(line, b"set ") else {
        return None;
    };
    let Some((row, rest)) = number_before_space(rest) else {
        return None;
    };
    let Some((column, text)) = number_before_space(rest) else {
        return None;
    };
    Some((row, column, text))
}

/// The number that a word leads to, at the end of the line.
fn number_after(line: &[u8], word: &[u8]) -> Option<u64>
    ensures some { IfSome result (λ number. (number < 2 ^ 64) × (line.now ≡ word.now ++ decimal number)) }
    ensures none { IfNone result ((number : ℕ) → number < 2 ^ 64 → line.now ≢ word.now ++ decimal number) }
{
    let Some(rest) = after(line, word) else {
        return None;
    };
    decimal_read(rest)
}

/// The number before the first space, and what stands behind that.
fn number_before_space(text: &[u8]) -> Option<(u64, &[u8])>
    ensures some { IfSome result (λ found. (found.0 < 2 ^ 64) × (text.now ≡ decimal found.0 ++ 32 ∷ found.1.now)) }
    ensures none { IfNone result ((number : ℕ) (rest : List ℕ) → number < 2 ^ 64 → text.now ≢ decimal number ++ 32 ∷ rest) }
{
    let Some(at) = first_space(text) else {
        return None;
    };
    let Some(number) = decimal_read(&text[..at]) else {
        return None;
    };
    Some((number, &text[at + 1..]))
}

/// The place of the first space.
fn first_space(text: &[u8]) -> Option<usize>
    ensures { result ≡ position (λ byte. byte == 32) text.now }
{
    text.iter().position(|byte| *byte == b' ')
}

/// What stands behind a word that begins the line.
fn after<'a>(line: &'a [u8], word: &[u8]) -> Option<&'a [u8]>
    ensures some { IfSome result (λ rest. line.now ≡ word.now ++ rest.now) }
    ensures none { IfNone result ((rest : List ℕ) → line.now ≢ word.now ++ rest) }
{
    line.strip_prefix(word)
}
