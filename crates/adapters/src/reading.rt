//! Reading a whole file.
use std::alloc::Global;
use std::io::{self, Read};

// How much the buffer grows by where there is more than was expected.
const PIECE: usize = 65_536;

// What a reader gives up to its end; none where that is more than `most` bytes. `expected` is how
// many they may be: so many are read in one piece.
pub(crate) fn read_up_to<F: Read>(
    alloc: Global,
    reader: &mut F,
    expected: usize,
    most: usize,
) -> io::Result<Option<Vec<u8>>> {
    let mut bytes = Vec::new(alloc);
    bytes.resize(expected.saturating_add(1), 0u8)?;
    let mut filled = 0;
    while filled <= most {
        if filled == bytes.len() {
            bytes.resize(filled.saturating_add(PIECE), 0u8)?;
        }
        let count = reader.read(&mut bytes[filled..])?;
        if count == 0 {
            bytes.truncate(filled);
            return Ok(Some(bytes));
        }
        filled += count;
    }
    Ok(None)
}
