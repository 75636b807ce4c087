//! Contents that a word writes in hex.
ghost use Rattle.std.specs.Prelude.{◌≡◌, ◌≢◌, ◌↔◌, ℕ, List, Option, None, Ok, IfOk, IfSome, IfNone, IsTrue, length};
ghost use Rattle.hex.specs.Hex.{IsBytes, decode_of};
ghost use Rattle.host_table.specs.Text.{hex_text, optional_hex};
ghost use Rattle.journal_text.specs.Lines.{AreSized};

use line_text::{hex_read, is_word};
use std::alloc::Global;
use wopi_text::{Bytes, Memory};

/// The contents that a word tells, where they are to be of that size: `-` alone where there are to be none.
pub(crate) fn contents_read(
    alloc: Global,
    word: &[u8],
    size: Option<u64>,
) -> Result<Option<Option<Bytes>>, Memory>
    ensures some { IfOk result (λ read. IfSome read (λ contents. AreSized size contents × (word.now ≡ optional_hex contents))) }
    ensures none { IfOk result (λ read. IfNone read ((contents : Option (List ℕ)) → AreSized size contents → word.now ≢ optional_hex contents)) }
{
    let Some(size) = size else {
        return Ok(none_read(word));
    };
    let Some(contents) = hex_read(alloc, word)? else {
        return Ok(None);
    };
    if contents.as_slice().len() as u64 == size {
        return Ok(Some(Some(contents)));
    }
    Ok(None)
}

/// No contents, where a word tells none.
fn none_read(word: &[u8]) -> Option<Option<Bytes>>
    ensures some { IfSome result (λ contents. AreSized None contents × (word.now ≡ optional_hex contents)) }
    ensures none { IfNone result ((contents : Option (List ℕ)) → AreSized None contents → word.now ≢ optional_hex contents) }
{
    if is_word(word, b"-".as_slice()) {
        return Some(None);
    }
    None
}
