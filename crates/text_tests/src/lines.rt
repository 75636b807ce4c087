//! Texts in lines.
use line_text::{
    InputFault, TakesText, five_words, four_words, has_mark, has_more, hex_read, is_word,
    moment_read, number_read, read_text, split_at_mark, split_row, split_word, three_words,
    two_words, yes_or_no_read,
};
use outside::{MemSource, piece_room};
use std::alloc::Global;
use std::test::Fail;
use wopi_text::Bytes;

/// Takes so many bytes more, two at a time.
#[derive(Drop)]
struct Room {
    left: usize,
}

/// There was no room.
#[derive(Clone, Copy, Debug, PartialEq, Eq)]
struct Full;

impl TakesText for Room {
    ghost use Rattle.std.specs.Prelude.{⊤};

    type Fault = Full;

    ghost has_come = { λ _ _. ⊤ };

    ghost refuses = { λ _ _. ⊤ };

    ghost portion = { λ _. 2 };

    ghost room = { λ room. room.left };

    fn portion(&self) -> usize {
        2
    }

    fn take(&mut self, piece: &[u8]) -> Result<(), Full> {
        if piece.len() > self.left {
            return Err(Full);
        }
        self.left -= piece.len();
        Ok(())
    }
}

/// Eight bytes, of which the read with that number fails.
fn input(alloc: Global, failing: u64) -> Result<MemSource, Fail> {
    let bytes = Bytes::from_slice(alloc, b"12345678")?;
    let mut fails = Vec::new(alloc);
    fails.push(failing)?;
    Ok(MemSource::new(bytes, 3, fails))
}

#[test]
fn a_text_is_taken_to_its_end(rt: HostRuntime) -> Result<(), Fail> {
    let alloc = rt.alloc();
    let mut source = input(alloc, 0)?;
    let mut piece = piece_room(alloc)?;
    let mut room = Room { left: 9 };
    assert!(rt; read_text(&mut source, &mut piece[0..], &mut room) == Ok(()));
    assert!(rt; room.left == 1);
    Ok(())
}
