//! The command `ctoken`: the text of a container's token, on the output.
ghost use Rattle.std.specs.Prelude.{◌≡◌, map, string_bytes, IfOk};
ghost use Rattle.wopi_program.specs.Words.{IsRow};
ghost use Rattle.wopi_program.specs.Ctoken.{CtokenEnds, container_line};

use crate::ctoken_words::ctoken_words;
use crate::telling::{tell, want};
use crate::{Command, Meant, Outside};
use access_tokens::Keys;
use containers::{ContainerToken, container_mint};
use outside::{Clock, Dialer, Folder, Listener, Log, Sink, Source};
use std::alloc::Global;
use wopi_text::Memory;

/// The token's text under the current key, and a line feed.
fn container_line(alloc: Global, keys: &Keys, token: &ContainerToken) -> Result<Vec<u8>, Memory>
    ensures { IfOk result (λ line. line.items ≡ container_line keys.now token.now) }
{
    let mut line = container_mint(alloc, keys, token)?.into_vec(alloc)?;
    line.push(b'\n')?;
    Ok(line)
}

/// Writes the text of the words' token of the container under the current one of their keys, and a line feed, to the
/// output.
pub fn run_ctoken<S: Source, K: Sink, F: Folder, N: Listener, D: Dialer, C: Clock, G: Log>(
    alloc: Global,
    words: &[String],
    outside: &mut Outside<S, K, F, N, D, C, G>,
) -> u8
    requires { IsRow (map string_bytes words.now) Command.Ctoken }
    ensures { CtokenEnds ⟦<Outside<S, K, F, N, D, C, G> as Meant<S, K, F, N, D, C, G, N::Link>>⟧.meanings (map string_bytes words.now) result outside.old outside.new }
{
    let Some((keys, token)) = ctoken_words(words) else {
        unreachable!()
    };
    match container_line(alloc, &keys, &token) {
        Ok(line) => tell(outside, &line),
        Err(Memory) => want(outside),
    }
}
