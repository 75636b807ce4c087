//! Which of a command's words is wrong.
ghost use Rattle.std.specs.Prelude.{◌≡◌, ◌<◌, ℕ, IfNone, IfSome, Some, length, map, slice_get, string_bytes, take};
ghost use Rattle.command_words.specs.Explaining.{HidesSecretOf, Stands};
ghost use Rattle.command_words.specs.Lines.{Breaks, Fits, IsFirstWrong, IsLine, IsWrongAt, next_of};
ghost use Rattle.command_words.specs.Names.{name_of};
ghost use Rattle.command_words.specs.Secrets.{secret_place_of};

use crate::lines::{Next, may_end, next_of};
use crate::secret::place_of;
use crate::wrong::{How, Wrong};

/// Where the secret of the command stands among its words.
fn secret_place_of(words: &[String]) -> Option<usize>
    ensures { result ≡ secret_place_of (map string_bytes words.now) }
{
    match words {
        [name, ..] => place_of(name.as_str()),
        [] => None,
    }
}

/// How the word at that place is told: the secret isn't shown.
fn told_at(words: &[String], place: usize) -> How
    ensures secret { HidesSecretOf (map string_bytes words.now) result }
    ensures stands { place < length words.now → Stands (length words.now) result }
    ensures told { Breaks (map string_bytes words.now) place → IsWrongAt (map string_bytes words.now) place result }
{
    let Some(secret) = secret_place_of(words) else {
        return How::Shown(place);
    };
    if secret == place {
        return How::Hidden;
    }
    How::Shown(place)
}

/// The words before that place.
fn front_of(words: &[String], place: usize) -> &[String]
    requires { place < length words.now }
    ensures { map string_bytes result.now ≡ take place (map string_bytes words.now) }
{
    &words[..place]
}

/// The word at that place.
fn word_at(words: &[String], place: usize) -> &str
    requires { place < length words.now }
    ensures { slice_get (map string_bytes words.now) place ≡ Some result.now }
{
    words[place].as_str()
}

/// What the word at that place had to be, where it may not stand behind those before it.
#[tactic(auto, using(crate::proofs::LineLemmas::fits_there, crate::proofs::LineLemmas::breaks_there))]
fn broken_at(words: &[String], place: usize) -> Option<Next>
    requires { place < length words.now }
    ensures some { IfSome result (λ next. (next ≡ next_of (take place (map string_bytes words.now))) × Breaks (map string_bytes words.now) place) }
    ensures none { IfNone result (Fits (map string_bytes words.now) place) }
{
    let front = front_of(words, place);
    let next = next_of(front);
    if next.allows(front, word_at(words, place)) {
        return None;
    }
    Some(next)
}

/// The word that has to be this one, and is told so.
fn wrong(next: Next, how: How) -> Wrong
    ensures how { result.how ≡ how }
    ensures name { result.name.now ≡ name_of next }
{
    Wrong {
        name: next.name(),
        rule: next.text(),
        how,
    }
}

/// What is wrong with words that are no command: the first word that may not stand where it does, or that is missing.
///
/// A secret is never shown: not the word at the place of the command's KEY, nor that at the TOKEN of `edit`
/// ([`crate::secret_place`]).
#[tactic(auto, using(crate::proofs::LineLemmas::none_yet, crate::proofs::LineLemmas::one_more, crate::proofs::LineLemmas::first_wrong, crate::proofs::LineLemmas::missing_last, crate::proofs::LineLemmas::whole_line))]
pub fn explain(words: &[String]) -> Option<Wrong>
    ensures first { IfSome result (IsFirstWrong (map string_bytes words.now)) }
    ensures none { IfNone result (IsLine (map string_bytes words.now)) }
    ensures secret { IfSome result (λ wrong. HidesSecretOf (map string_bytes words.now) wrong.how) }
    ensures stands { IfSome result (λ wrong. Stands (length words.now) wrong.how) }
{
    'places: for place in 0..words.len() {
        match broken_at(words, place) {
            Some(next) => return Some(wrong(next, told_at(words, place))),
            None => {}
        }
    }
    if may_end(words) {
        return None;
    }
    Some(wrong(next_of(words), How::Missing))
}
