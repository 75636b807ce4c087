//! The words of the command `replay`.
ghost use Rattle.std.specs.Prelude.{◌≡◌, ◌≤◌, ℕ, map, string_bytes, decimal, IfSome, IfNone};
ghost use Rattle.wopi_program.specs.ReplayWords.{IsGeneratedRow, IsReplayRow};
ghost use Rattle.wopi_program.specs.Words.{IsRow};

use crate::Command;
use crate::command::is_word;
use wopi_text::decimal_read;

/// The most events of a schedule that is made from two numbers.
const MOST_EVENTS: u64 = 10_000;

/// Which schedule the words of `replay` ask for.
#[derive(Clone, Copy, Debug, PartialEq, Eq)]
pub enum ReplayAsk {
    /// The one that the input is.
    Input,
    /// The one that is made from these numbers.
    Generated { seed: u64, count: u32 },
}

/// The number of events that the word writes, if it is one.
fn count_of(word: &str) -> Option<u32>
    ensures some { IfSome result (λ count. (word.now ≡ decimal count) × (count ≤ 10000)) }
    ensures none { IfNone result ((count : ℕ) → count ≤ 10000 → ¬ (word.now ≡ decimal count)) }
{
    let Some(count) = decimal_read(word.as_bytes()) else {
        return None;
    };
    if count > MOST_EVENTS {
        return None;
    }
    Some(count as u32)
}

/// The two numbers in the words, if they are those of a schedule that is made from them.
fn generated_words(words: &[String]) -> Option<(u64, u32)>
    ensures some { IfSome result (λ ask. IsGeneratedRow (map string_bytes words.now) ask.0 ask.1) }
    ensures none { IfNone result ((seed : ℕ) (count : ℕ) → ¬ IsGeneratedRow (map string_bytes words.now) seed count) }
{
    match words {
        [word, seed, count] => {
            if word.as_str() != "replay" {
                return None;
            }
            let Some(seed) = decimal_read(seed.as_bytes()) else {
                return None;
            };
            let Some(count) = count_of(count.as_str()) else {
                return None;
            };
            Some((seed, count))
        }
        _ => None,
    }
}

/// Which schedule the words ask for, if they are those of `replay`.
#[tactic(auto, using(crate::proofs::ReplayRows::no_replay))]
pub(crate) fn replay_words(words: &[String]) -> Option<ReplayAsk>
    ensures some { IfSome result (IsReplayRow (map string_bytes words.now)) }
    ensures none { IfNone result (¬ IsRow (map string_bytes words.now) Command.Replay) }
{
    if is_word(words, "replay") {
        return Some(ReplayAsk::Input);
    }
    match generated_words(words) {
        Some((seed, count)) => return Some(ReplayAsk::Generated { seed, count }),
        None => return None,
    }
}
