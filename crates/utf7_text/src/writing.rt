//! How UTF-7 is written.
ghost use Rattle.std.specs.Prelude.{◌≡◌, ◌==◌, ◌++◌, if◌then◌else◌, true, [], length, string_bytes, IfOk, OnOk};
ghost use Rattle.std.specs.Char.Escape.{encode_utf16};
ghost use Rattle.utf7_text.specs.Pieces.{Shift, bytes_of};
ghost use Rattle.utf7_text.specs.Readings.{IsReading};
ghost use Rattle.utf7_text.specs.Writing.{is_plain, written};

use crate::shift::write_shift;
use std::alloc::Global;
use wopi_text::{Bytes, Memory};

/// The one form in which a text is written: letters and digits of ASCII, the space and `'(),-./:?`
/// as they are, and each longest run of other characters as one shift with a `-` after it.
pub fn utf7_write(alloc: Global, text: &str) -> Result<Bytes, Memory>
    ensures text { IfOk result (λ bytes. bytes ≡ written text.now) }
    ensures reads_back { IfOk result (λ bytes. IsReading bytes text.now) }
{
    let mut out = String::new(alloc);
    let mut held = Vec::new(alloc);
    for character in text.chars() {
        if is_plain(character) {
            close(alloc, &mut out, &mut held)?;
            out.push(character)?;
        } else {
            hold(&mut held, character)?;
        }
    }
    close(alloc, &mut out, &mut held)?;
    Ok(Bytes::from_vec(out.into_bytes()))
}

/// Whether the character is written as itself.
fn is_plain(character: char) -> bool
    ensures { result ≡ is_plain character }
{
    character.is_ascii_alphanumeric()
        || matches!(
            character,
            ' ' | '\'' | '(' | ')' | ',' | '-' | '.' | '/' | ':' | '?'
        )
}

/// Appends the character's units.
fn hold(held: &mut Vec<u16>, character: char) -> Result<(), Memory>
    ensures { OnOk result (held.new.items ≡ held.old.items ++ encode_utf16 character) }
{
    let mut room = [0; 2];
    held.extend_from_slice(character.encode_utf16(&mut room))?;
    Ok(())
}

/// Appends the shift of the units that are held, if there are any, and lets them go.
fn close(alloc: Global, out: &mut String, held: &mut Vec<u16>) -> Result<(), Memory>
    ensures written { OnOk result (string_bytes out.new ≡ string_bytes out.old ++ (if length held.old.items == 0 then [] else bytes_of (Shift held.old.items true))) }
    ensures empty { OnOk result (held.new.items ≡ []) }
{
    if held.is_empty() {
        return Ok(());
    }
    write_shift(alloc, out, held)?;
    held.clear();
    Ok(())
}
