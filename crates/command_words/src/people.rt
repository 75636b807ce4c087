//! The commands whose words are made of options: tokens that are issued now, and an edit with a nonce of its own.
ghost use Rattle.std.specs.Prelude.{◌≡◌, ◌++◌, ◌∷◌, [], ◌+◌, ◌<◌, ◌≤◌, ℕ, List, IfErr, IfOk, OnOk, true, false, codes, decimal, map, string_bytes};
ghost use Rattle.std.specs.List.{list_any};
ghost use Rattle.std.specs.Str.{bytes_eq};
ghost use Rattle.wopi_text.specs.Moments.{moments_end};
ghost use Rattle.wopi_text.specs.FileName.{IsFileName};
ghost use Rattle.wopi_text.specs.Ids.{id_of};
ghost use Rattle.command_words.specs.Meaning.{IsWithFile, IsWithNonce, MeansCtoken, MeansPlaces, MeansToken, has_both, rights_of, serial_and_life};
ghost use Rattle.command_words.specs.Parts.{parts_of};
ghost use Rattle.command_words.specs.Refusals.{IsFor};
ghost use Rattle.command_words.specs.Spans.{IsSpan};
ghost use Rattle.command_words.specs.Values.{AreValues, IsNotOne, values_of};

use crate::parting::{Parted, push_word};
use crate::span::span_of;
use crate::values::{Values, told, values_told};
use crate::wrong::{Refused, hidden, missing};
use itoa::Buffer;
use std::alloc::Global;
use wopi_text::{FileName, MOMENTS_END, Memory};

/// What is at hand where the words leave something to the program.
#[derive(Clone, Copy)]
pub struct Chance {
    /// The moment, in milliseconds since 1970.
    pub moment: u64,
    /// Random bytes, for a nonce.
    pub random: [u8; 16],
}

/// The rule of FILE.
const FILE: &str = "the name of a file in the folder, once, as a.csv";

/// The rule of KEY beside options.
const KEY: &str = "it stands once beside the options: the keys of the tokens, or @PATH";

/// The one word that has a place beside the options.
fn only_key(places: &[String]) -> Result<&str, Refused>
    ensures told { IfOk result (λ key. map string_bytes places.now ≡ key.now ∷ []) }
    ensures refused { IfErr result (λ _. IsNotOne (map string_bytes places.now)) }
{
    match places {
        [key] => Ok(key.as_str()),
        [] => Err(missing("KEY", KEY)),
        _ => Err(hidden("KEY", KEY)),
    }
}

/// The user that the options tell.
fn user_told(options: &[String]) -> Result<&str, Refused>
    ensures told { IfOk result (λ text. values_of (codes "--user") (map string_bytes options.now) ≡ text.now ∷ []) }
    ensures refused { IfErr result (λ _. IsNotOne (values_of (codes "--user") (map string_bytes options.now))) }
{
    told(
        options,
        "--user",
        hidden(
            "--user USER",
            "it stands once: 1 to 64 ASCII letters, digits, _ and -",
        ),
    )
}

/// The file that the options tell.
fn file_told(options: &[String]) -> Result<&str, Refused>
    ensures told { IfOk result (λ text. values_of (codes "--file") (map string_bytes options.now) ≡ text.now ∷ []) }
    ensures refused { IfErr result (λ _. IsNotOne (values_of (codes "--file") (map string_bytes options.now))) }
{
    told(options, "--file", hidden("--file NAME", FILE))
}

/// The length of time that the options tell.
fn time_told(options: &[String]) -> Result<&str, Refused>
    ensures told { IfOk result (λ text. values_of (codes "--for") (map string_bytes options.now) ≡ text.now ∷ []) }
    ensures refused { IfErr result (λ _. IsNotOne (values_of (codes "--for") (map string_bytes options.now))) }
{
    told(options, "--for", hidden("--for TIME", TIME))
}

/// The rule of TIME.
const TIME: &str =
    "it stands once: a number and s, m, h or d, as 10h; its end lies before the year 10000";

/// The time in milliseconds, where its end is a moment.
fn span_told(time: &str, now: u64) -> Result<u64, Refused>
    ensures span { IfOk result (IsSpan time.now) }
    ensures end { IfOk result (λ span. now + span < moments_end) }
    ensures refused { IfErr result (λ _. (span : ℕ) → IsSpan time.now span → moments_end ≤ now + span) }
{
    let Some(span) = span_of(time) else {
        return Err(hidden("--for TIME", TIME));
    };
    if MOMENTS_END <= now || MOMENTS_END - now <= span {
        return Err(hidden("--for TIME", TIME));
    }
    Ok(span)
}

/// Whether one of the words is this one.
pub(crate) fn has(words: &[String], wanted: &str) -> bool
    ensures { result ≡ list_any (λ word. bytes_eq word wanted.now) (map string_bytes words.now) }
{
    for word in words {
        if word.as_str() == wanted {
            return true;
        }
    }
    false
}

/// How the rights are written. A token that may only read is the default; both flags together are refused.
fn rights_told(flags: &[String]) -> Result<&'static str, Refused>
    ensures told { IfOk result (λ rights. rights.now ≡ rights_of (map string_bytes flags.now)) }
    ensures one { IfOk result (λ _. has_both (map string_bytes flags.now) ≡ false) }
    ensures refused { IfErr result (λ _. has_both (map string_bytes flags.now) ≡ true) }
{
    let write = has(flags, "--write");
    if write && has(flags, "--read") {
        return Err(hidden("--read, --write", "one of them, or neither for --read"));
    }
    if write { Ok("w") } else { Ok("r") }
}

/// Puts a number behind the words.
fn push_number(alloc: Global, words: &mut Vec<String>, number: u64) -> Result<(), Memory>
    ensures { OnOk result (map string_bytes words.new.items ≡ map string_bytes words.old.items ++ decimal number ∷ []) }
{
    let mut digits = Buffer::new();
    push_word(alloc, words, digits.format(number))
}

/// Puts the serial number and the two moments of a token behind the words.
fn push_life(alloc: Global, words: &mut Vec<String>, now: u64, span: u64) -> Result<(), Memory>
    requires { now + span < moments_end }
    ensures { OnOk result (map string_bytes words.new.items ≡ map string_bytes words.old.items ++ serial_and_life now span) }
{
    push_number(alloc, words, now)?;
    push_number(alloc, words, now)?;
    push_number(alloc, words, now + span)
}

/// The words of a token that is issued now.
#[tactic(auto, using(crate::proofs::RefusalLemmas::token_no_key, crate::proofs::RefusalLemmas::token_no_user, crate::proofs::RefusalLemmas::token_no_file, crate::proofs::RefusalLemmas::token_no_time, crate::proofs::RefusalLemmas::token_both, crate::proofs::RefusalLemmas::token_too_long, crate::proofs::RefusalLemmas::for_memory))]
pub(crate) fn token_words(alloc: Global, parted: &Parted, now: u64) -> Result<Vec<String>, Refused>
    ensures told { IfOk result (λ words. MeansToken now (parts_of parted.now) (map string_bytes words.items)) }
    ensures refused { IfErr result (IsFor ((words : List (List ℕ)) → ¬ MeansToken now (parts_of parted.now) words)) }
{
    let key = only_key(&parted.places)?;
    let user = user_told(&parted.options)?;
    let file = file_told(&parted.options)?;
    let time = time_told(&parted.options)?;
    let rights = rights_told(&parted.flags)?;
    let span = span_told(time, now)?;
    let mut words = Vec::new(alloc);
    push_word(alloc, &mut words, "token")?;
    push_word(alloc, &mut words, key)?;
    push_word(alloc, &mut words, user)?;
    push_word(alloc, &mut words, file)?;
    push_word(alloc, &mut words, rights)?;
    push_life(alloc, &mut words, now, span)?;
    Ok(words)
}

/// The words of a token of the container that is issued now.
#[tactic(auto, using(crate::proofs::RefusalLemmas::ctoken_no_key, crate::proofs::RefusalLemmas::ctoken_no_user, crate::proofs::RefusalLemmas::ctoken_no_time, crate::proofs::RefusalLemmas::ctoken_both, crate::proofs::RefusalLemmas::ctoken_too_long, crate::proofs::RefusalLemmas::for_memory))]
pub(crate) fn ctoken_words(alloc: Global, parted: &Parted, now: u64) -> Result<Vec<String>, Refused>
    ensures told { IfOk result (λ words. MeansCtoken now (parts_of parted.now) (map string_bytes words.items)) }
    ensures refused { IfErr result (IsFor ((words : List (List ℕ)) → ¬ MeansCtoken now (parts_of parted.now) words)) }
{
    let key = only_key(&parted.places)?;
    let user = user_told(&parted.options)?;
    let time = time_told(&parted.options)?;
    let rights = rights_told(&parted.flags)?;
    let span = span_told(time, now)?;
    let mut words = Vec::new(alloc);
    push_word(alloc, &mut words, "ctoken")?;
    push_word(alloc, &mut words, key)?;
    push_word(alloc, &mut words, user)?;
    push_word(alloc, &mut words, rights)?;
    push_life(alloc, &mut words, now, span)?;
    Ok(words)
}

/// Puts copies of words behind the others.
pub(crate) fn push_words(
    alloc: Global,
    words: &mut Vec<String>,
    more: &[String],
) -> Result<(), Memory>
    ensures { OnOk result (map string_bytes words.new.items ≡ map string_bytes words.old.items ++ map string_bytes more.now) }
{
    for word in more {
        push_word(alloc, words, word.as_str())?;
    }
    Ok(())
}

/// Puts the id of a file of that name behind the words.
#[tactic(auto, using(crate::proofs::RefusalLemmas::for_any, crate::proofs::RefusalLemmas::for_memory))]
fn push_id(alloc: Global, words: &mut Vec<String>, file: &str) -> Result<(), Refused>
    ensures put { OnOk result (IsFileName file.now × (map string_bytes words.new.items ≡ map string_bytes words.old.items ++ id_of file.now ∷ [])) }
    ensures refused { IfErr result (IsFor (¬ IsFileName file.now)) }
{
    let Ok(name) = FileName::read(file.as_bytes()) else {
        return Err(hidden("--file NAME", FILE));
    };
    let Ok(id) = hex::encode(alloc, name.as_slice()) else {
        return Err(Refused::Memory);
    };
    push_word(alloc, words, id.as_str())?;
    Ok(())
}

/// The places of `edit` with the id of the file that `--file` names behind the first.
#[tactic(auto, using(crate::proofs::RefusalLemmas::many_files, crate::proofs::RefusalLemmas::no_authority, crate::proofs::RefusalLemmas::no_name, crate::proofs::RefusalLemmas::for_memory))]
fn with_file(alloc: Global, places: &[String], file: Values<'_>) -> Result<Vec<String>, Refused>
    ensures put { (files : List (List ℕ)) → AreValues files file.entry → IfOk result (λ words. IsWithFile (map string_bytes places.now) files (map string_bytes words.items)) }
    ensures refused { (files : List (List ℕ)) → AreValues files file.entry
        → IfErr result (IsFor ((words : List (List ℕ)) → ¬ IsWithFile (map string_bytes places.now) files words)) }
{
    let mut words = Vec::new(alloc);
    match file {
        Values::Missing => {
            push_words(alloc, &mut words, places)?;
            Ok(words)
        }
        Values::Many => Err(hidden("--file NAME", FILE)),
        Values::One(file) => match places {
            [] => Err(missing("AUTHORITY", "the host's name, a colon and a port")),
            [authority, rest @ ..] => {
                push_word(alloc, &mut words, authority.as_str())?;
                push_id(alloc, &mut words, file)?;
                push_words(alloc, &mut words, rest)?;
                Ok(words)
            }
        },
    }
}

/// The rule of NONCE.
const NONCE: &str = "1 to 32 ASCII letters and digits, once";

/// Puts the nonce behind the words, or one that was made where it alone is missing.
#[tactic(auto, using(crate::proofs::RefusalLemmas::many_nonces, crate::proofs::RefusalLemmas::for_memory))]
fn push_nonce(
    alloc: Global,
    words: &mut Vec<String>,
    nonce: Values<'_>,
    own: &str,
) -> Result<(), Refused>
    ensures put { (nonces : List (List ℕ)) → AreValues nonces nonce.entry → OnOk result (IsWithNonce (map string_bytes words.old.items) nonces own.now (map string_bytes words.new.items)) }
    ensures refused { (nonces : List (List ℕ)) → AreValues nonces nonce.entry
        → IfErr result (IsFor ((all : List (List ℕ)) → ¬ IsWithNonce (map string_bytes words.old.items) nonces own.now all)) }
{
    match nonce {
        Values::One(nonce) => push_word(alloc, words, nonce)?,
        Values::Many => return Err(hidden("--nonce NONCE", NONCE)),
        Values::Missing => {
            if words.len() == 3 {
                push_word(alloc, words, own)?;
            }
        }
    }
    Ok(())
}

/// The words of `edit` behind its name.
pub(crate) fn edit_words(alloc: Global, parted: &Parted, own: &str) -> Result<Vec<String>, Refused>
    ensures told { IfOk result (λ words. MeansPlaces own.now (parts_of parted.now) (map string_bytes words.items)) }
    ensures refused { IfErr result (IsFor ((words : List (List ℕ)) → ¬ MeansPlaces own.now (parts_of parted.now) words)) }
{
    let file = values_told(&parted.options, "--file");
    let nonce = values_told(&parted.options, "--nonce");
    let mut words = with_file(alloc, &parted.places, file)?;
    push_nonce(alloc, &mut words, nonce, own)?;
    Ok(words)
}
