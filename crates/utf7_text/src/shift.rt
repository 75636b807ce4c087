//! What a shift holds: base64 of UTF-16.
ghost use Rattle.std.specs.Prelude.{◌≡◌, ◌≢◌, ◌++◌, ◌<◌, ◌%◌, ◌^◌, length, take_while, flat_map, string_bytes, true, IfOk, OnOk, IfSome, IfNone, List, ℕ};
ghost use Rattle.std.specs.Int.{w16, to_be_bytes};
ghost use Rattle.std.specs.List.{AllByRecursion};
ghost use Rattle.utf7_text.specs.Pieces.{AreUnits, Shift, bytes_of, base64_of, is_base64};
ghost use Rattle.utf7_text.specs.Readings.{IsShifted};

use base64::DecodeAllocError;
use base64::engine::general_purpose::STANDARD_NO_PAD;
use std::alloc::Global;
use wopi_text::Memory;

/// Whether the byte is a character of the base64 alphabet, a digit.
fn is_base64(byte: u8) -> bool
    ensures { result ≡ is_base64 byte }
{
    byte.is_ascii_alphanumeric() || byte == b'+' || byte == b'/'
}

/// How many digits stand at the front.
pub(crate) fn digits_len(bytes: &[u8]) -> usize
    ensures { result ≡ length (take_while is_base64 bytes.now) }
{
    bytes.iter().take_while(|byte| is_base64(**byte)).count()
}

/// The text of the shift that has these digits; nothing where no shift has them.
pub(crate) fn shift_text(alloc: Global, digits: &[u8]) -> Result<Option<String>, Memory>
    ensures some { IfOk result (λ found. IfSome found (λ text. IsShifted digits.now (string_bytes text))) }
    ensures none { IfOk result (λ found. IfNone found ((units : List ℕ) → AreUnits units → digits.now ≢ base64_of units)) }
{
    let Some(units) = units_of(alloc, digits)? else {
        return Ok(None);
    };
    if units.is_empty() {
        return Ok(None);
    }
    match String::from_utf16(alloc, &units)? {
        Ok(text) => Ok(Some(text)),
        Err(_) => Ok(None),
    }
}

/// The units that have these digits, if there are such.
fn units_of(alloc: Global, digits: &[u8]) -> Result<Option<Vec<u16>>, Memory>
    ensures some { IfOk result (λ found. IfSome found (λ units. (digits.now ≡ base64_of units.items) × AllByRecursion (λ unit. unit < 2 ^ 16) units.items)) }
    ensures none { IfOk result (λ found. IfNone found ((units : List ℕ) → AllByRecursion (λ unit. unit < 2 ^ 16) units → digits.now ≢ base64_of units)) }
{
    let bytes = match STANDARD_NO_PAD.decode(alloc, digits) {
        Ok(bytes) => bytes,
        Err(DecodeAllocError::OutOfMemory) => return Err(Memory),
        Err(DecodeAllocError::DecodeError(_)) => return Ok(None),
    };
    if bytes.len() % 2 != 0 {
        return Ok(None);
    }
    Ok(Some(units_of_bytes(alloc, &bytes)?))
}

/// The units of two bytes each, the high one first.
fn units_of_bytes(alloc: Global, bytes: &[u8]) -> Result<Vec<u16>, Memory>
    requires { length bytes.now % 2 ≡ 0 }
    ensures bytes { IfOk result (λ units. bytes.now ≡ flat_map (to_be_bytes w16) units.items) }
    ensures small { IfOk result (λ units. AllByRecursion (λ unit. unit < 2 ^ 16) units.items) }
{
    let mut units = Vec::with_capacity(alloc, bytes.len() / 2)?;
    for pair in bytes.chunks_exact(2) {
        units.push(u16::from_be_bytes([pair[0], pair[1]]))?;
    }
    Ok(units)
}

/// Appends the shift of the units, with a `-` after it.
pub(crate) fn write_shift(alloc: Global, out: &mut String, units: &[u16]) -> Result<(), Memory>
    ensures { OnOk result (string_bytes out.new ≡ string_bytes out.old ++ bytes_of (Shift units.now true)) }
{
    let bytes = bytes_of_units(alloc, units)?;
    out.push('+')?;
    STANDARD_NO_PAD.encode_string(&bytes, out)?;
    out.push('-')?;
    Ok(())
}

/// Two bytes of each unit, the high one first.
fn bytes_of_units(alloc: Global, units: &[u16]) -> Result<Vec<u8>, Memory>
    ensures { IfOk result (λ bytes. bytes.items ≡ flat_map (to_be_bytes w16) units.now) }
{
    let mut bytes = Vec::new(alloc);
    for unit in units {
        bytes.extend_from_slice(&unit.to_be_bytes())?;
    }
    Ok(bytes)
}
