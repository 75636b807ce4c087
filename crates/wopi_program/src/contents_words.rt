//! The words of the command `contents`.
ghost use Rattle.std.specs.Prelude.{map, string_bytes, IfSome, IfNone};
ghost use Rattle.wopi_program.specs.ContentsWords.{IsContentsRow};
ghost use Rattle.wopi_program.specs.Words.{IsRow};

use crate::Command;
use wopi_text::{FileName, decimal_read, id_read};

/// The file and the version in the words of `contents`, if the words are that command's.
pub(crate) fn contents_words(words: &[String]) -> Option<(FileName, u64)>
    ensures some { IfSome result (λ ask. IsContentsRow (map string_bytes words.now) ask.0 ask.1) }
    ensures none { IfNone result (¬ IsRow (map string_bytes words.now) Command.Contents) }
{
    match words {
        [word, id, version] => {
            if word.as_str() != "contents" {
                return None;
            }
            let Ok(name) = id_read(id.as_bytes()) else {
                return None;
            };
            let Some(version) = decimal_read(version.as_bytes()) else {
                return None;
            };
            Some((name, version))
        }
        _ => None,
    }
}
