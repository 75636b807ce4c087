//! Bytes in hex digits.
ghost use Rattle.std.specs.Prelude.{true, false, ◌≡◌, ◌≢◌, Ok, List, ℕ, length, IfOk, IfSome, IfNone};
ghost use Rattle.hex.specs.Hex.{decode_of, decode_sized};

use crate::Memory;
use hex::FromHexError;
use std::alloc::Global;

/// Writes the bytes of hex digits, of either case, into room for just so many, and says whether it
/// did: where it did not, the digits are no hex, or they write more or fewer bytes. It takes no
/// memory.
pub fn decode_hex(digits: &[u8], into: &mut [u8]) -> bool
    ensures some { result ≡ true → decode_sized digits.now (length into.old) ≡ Ok into.new }
    ensures none { result ≡ false → (bytes : List ℕ) → decode_sized digits.now (length into.old) ≢ Ok bytes }
{
    match hex::decode_to_slice(digits, into) {
        Ok(()) => true,
        Err(_) => false,
    }
}

/// The bytes that hex digits, of either case, write, if they are such digits.
pub fn hex_decoded(alloc: Global, digits: &[u8]) -> Result<Option<Vec<u8>>, Memory>
    ensures some { IfOk result (λ read. IfSome read (λ bytes. decode_of digits.now ≡ Ok bytes.items)) }
    ensures none { IfOk result (λ read. IfNone read ((bytes : List ℕ) → decode_of digits.now ≢ Ok bytes)) }
{
    match hex::decode(alloc, digits) {
        Ok(bytes) => Ok(Some(bytes)),
        Err(error) => {
            if error == FromHexError::OutOfMemory {
                Err(Memory)
            } else {
                Ok(None)
            }
        }
    }
}
