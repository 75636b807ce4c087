//! How UTF-7 is read.
ghost use Rattle.std.specs.Prelude.{◌≡◌, ◌≢◌, ◌<◌, Some, slice_get, length, string_bytes, IfOk, IfErr, IsUtf8, List, ℕ};
ghost use Rattle.utf7_text.specs.Pieces.{is_direct};
ghost use Rattle.utf7_text.specs.Readings.{IsUtf7FaultOf, IsReading, TakesPiece};

use crate::Utf7Fault;
use crate::shift::{digits_len, shift_text};
use std::alloc::Global;
use wopi_text::{Bytes, Memory};

/// The text, in UTF-8, that the bytes stand for (RFC 2152). Forms that [`crate::utf7_write`] doesn't
/// write are read too: `+-`, a shift without a `-` after it, and a shift of characters that could
/// stand for themselves.
pub fn utf7_read(alloc: Global, bytes: &[u8]) -> Result<Bytes, Utf7Fault>
    ensures ok { IfOk result (IsReading bytes.now) }
    ensures utf8 { IfOk result IsUtf8 }
    ensures fault { IfErr result (IsUtf7FaultOf bytes.now) }
    ensures no_reading { IfErr result (λ fault. fault ≢ Utf7Fault.Memory → (text : List ℕ) → ¬ IsReading bytes.now text) }
{
    let mut text = String::new(alloc);
    let mut at = 0;
    'pieces: while at < bytes.len() {
        let Some(len) = take_piece(alloc, &mut text, &bytes[at..])? else {
            return Err(Utf7Fault::Bad { at });
        };
        at += len;
    }
    Ok(Bytes::from_vec(text.into_bytes()))
}

/// Appends what the piece at the front stands for, and answers how many bytes it takes; nothing
/// where no piece begins the bytes.
fn take_piece(alloc: Global, text: &mut String, bytes: &[u8]) -> Result<Option<usize>, Memory>
    requires { 0 < length bytes.now }
    ensures { IfOk result (TakesPiece bytes.now (string_bytes text.old) (string_bytes text.new)) }
{
    if bytes[0] == b'+' {
        if bytes.len() > 1 && bytes[1] == b'-' {
            text.push('+')?;
            return Ok(Some(2));
        }
        return take_shift(alloc, text, bytes);
    }
    if is_direct(bytes[0]) {
        text.push(char::from(bytes[0]))?;
        return Ok(Some(1));
    }
    Ok(None)
}

/// The same where a `+` is the first byte, and no `-` the second.
fn take_shift(alloc: Global, text: &mut String, bytes: &[u8]) -> Result<Option<usize>, Memory>
    requires plus { slice_get bytes.now 0 ≡ Some 43 }
    requires no_dash { slice_get bytes.now 1 ≢ Some 45 }
    ensures { IfOk result (TakesPiece bytes.now (string_bytes text.old) (string_bytes text.new)) }
{
    let rest = &bytes[1..];
    let len = digits_len(rest);
    let Some(shifted) = shift_text(alloc, &rest[..len])? else {
        return Ok(None);
    };
    text.push_str(&shifted)?;
    if len < rest.len() && rest[len] == b'-' {
        return Ok(Some(len + 2));
    }
    Ok(Some(len + 1))
}

/// Whether the byte stands for itself.
fn is_direct(byte: u8) -> bool
    ensures { result ≡ is_direct byte }
{
    (b' '..=b'~').contains(&byte) && byte != b'+'
}
