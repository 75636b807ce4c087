//! The texts that a run leaves: its trace, and its summary.
ghost use Rattle.std.specs.Prelude.{◌≡◌, ◌++◌, ◌≤◌, ℕ, List, IfOk, OnOk};
ghost use Rattle.std.specs.List.{Contains};
ghost use Rattle.replay_cmd.specs.Ends.{ends_in, count_text, counts_in, TellsEnds};
ghost use Rattle.replay_cmd.specs.Replying.{file_in};
ghost use Rattle.schedule_text.specs.Schedules.{Lines};
ghost use Rattle.replay_cmd.specs.Trace.{trace_text, summary_text};
ghost use Rattle.replay_cmd.specs.Worlds.{IsRunOf, IsTextOf};

use crate::counting::{conflicts, saved};
use crate::showing::file_words;
use crate::stage::Stage;
use crate::watched::Watched;
use crate::words::push_line;
use crate::world::World;
use host_core::NameList;
use itoa::Buffer;
use std::alloc::Global;
use wopi_text::{Bytes, Memory};

/// Appends a line for each of these files.
fn push_files(
    alloc: Global,
    host: &Watched,
    names: &NameList,
    text: &mut Vec<u8>,
) -> Result<(), Memory>
    requires { (name : List ℕ) → Contains names.now name → host.now.shard.begin.first ≤ (file_in host.now.shard name).version }
    ensures { OnOk result (text.new.items ≡ text.old.items ++ ends_in host.now.shard names.now) }
{
    for place in 0..names.len() {
        let Some(name) = names.get(place) else {
            unreachable!()
        };
        let words = file_words(alloc, host, name)?;
        push_line(text, &words)?;
    }
    Ok(())
}

/// Appends a line for each file that was met, by the bytes of their names.
fn push_ends(alloc: Global, host: &Watched, text: &mut Vec<u8>) -> Result<(), Memory>
    ensures { OnOk result (TellsEnds host.now.shard text.old.items text.new.items) }
{
    let names = host.names()?;
    push_files(alloc, host, &names, text)?;
    Ok(())
}

/// Appends the line of a count.
fn push_count(text: &mut Vec<u8>, word: &[u8], count: u128) -> Result<(), Memory>
    ensures { OnOk result (text.new.items ≡ text.old.items ++ count_text word.now count) }
{
    let mut digits = Buffer::new();
    text.extend_from_slice(word)?;
    text.push(b' ')?;
    text.extend_from_slice(digits.format(count).as_bytes())?;
    text.push(b'\n')?;
    Ok(())
}

/// Appends what is counted.
fn push_counts(text: &mut Vec<u8>, stage: &Stage) -> Result<(), Memory>
    ensures { OnOk result (text.new.items ≡ text.old.items ++ counts_in stage.now.requests.items stage.now.replies.items stage.now.members.items) }
{
    push_count(text, b"requests", stage.requests.len() as u128)?;
    push_count(text, b"replies", stage.replies.len() as u128)?;
    push_count(text, b"conflicts", conflicts(&stage.replies) as u128)?;
    push_count(text, b"saved", saved(&stage.members))?;
    Ok(())
}

/// The trace of a run: a line for each event, and then one for each file that has a version, by the
/// bytes of their names.
pub fn trace_text(alloc: Global, world: &World) -> Result<Bytes, Memory>
    ensures { IfOk result (λ text. (lines : Lines) → IsRunOf lines world.now → IsTextOf trace_text lines text) }
{
    let mut text = world.trace.as_slice().to_vec(alloc)?;
    push_ends(alloc, &world.stage.host, &mut text)?;
    Ok(Bytes::from_vec(text))
}

/// The summary of a run: how many requests were sent, replies made, replies that are conflicts, and
/// saves told as saved, and then a line for each file, as in the trace.
pub fn summary_text(alloc: Global, world: &World) -> Result<Bytes, Memory>
    ensures { IfOk result (λ text. (lines : Lines) → IsRunOf lines world.now → IsTextOf summary_text lines text) }
{
    let mut text = Vec::new(alloc);
    push_counts(&mut text, &world.stage)?;
    push_ends(alloc, &world.stage.host, &mut text)?;
    Ok(Bytes::from_vec(text))
}
