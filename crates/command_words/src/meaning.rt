//! What words mean, as people write them.
ghost use Rattle.std.specs.Prelude.{◌≡◌, ◌++◌, ◌∷◌, [], ℕ, List, IfErr, IfOk, IfSome, IfNone, None, OnOk, Some, codes, false, map, string_bytes};
ghost use Rattle.hex.specs.Hex.{encode_lower};
ghost use Rattle.command_words.specs.Meaning.{IsDefault, Means, MeansCtoken, MeansEdit, MeansOf, MeansServe, editor_words, kind_of, front_words, option_words, run_options_of, short_for};
ghost use Rattle.command_words.specs.Parts.{halved, lacks_value, parted_of, parts_of};
ghost use Rattle.command_words.specs.Refusals.{IsFor, MeansNothing};

use crate::around::Around;
use crate::options::{Kind, is_run_option};
use crate::parting::{Parted, halve, part, push_word};
use crate::people::{Chance, ctoken_words, edit_words, has, push_words, token_words};
use crate::wrong::{Refused, hidden};
use std::alloc::Global;
use wopi_text::Memory;

/// What words mean.
#[derive(Drop)]
pub struct Given {
    /// The words that the program reads.
    pub words: Vec<String>,
    /// What its adapters take.
    pub around: Around,
}

/// The word that stands for these, where they are short for one.
#[tactic(auto, unfolding(crate::specs::Meaning::short_for))]
fn short_for(words: &[String]) -> Option<&'static str>
    ensures some { IfSome result (λ word. short_for (map string_bytes words.now) ≡ Some word.now) }
    ensures none { IfNone result (short_for (map string_bytes words.now) ≡ None) }
{
    match words {
        [word] => {
            if word.as_str() == "-h" || word.as_str() == "help" {
                return Some("--help");
            }
            if word.as_str() == "-V" {
                return Some("--version");
            }
            None
        }
        [_, word] => {
            if word.as_str() == "--help" || word.as_str() == "-h" {
                return Some("--help");
            }
            None
        }
        _ => None,
    }
}

/// The command of that name, where it has options.
#[tactic(auto, unfolding(crate::specs::Meaning::kind_of))]
fn kind_of(name: &str) -> Option<Kind>
    ensures { result ≡ kind_of name.now }
{
    if name == "serve" {
        Some(Kind::Serve)
    } else if name == "edit" {
        Some(Kind::Edit)
    } else if name == "token" {
        Some(Kind::Token)
    } else if name == "ctoken" {
        Some(Kind::Ctoken)
    } else {
        None
    }
}

/// Puts those options behind the words that the program reads itself.
fn push_run_options(
    alloc: Global,
    words: &mut Vec<String>,
    options: &[String],
) -> Result<(), Memory>
    ensures { OnOk result (map string_bytes words.new.items ≡ map string_bytes words.old.items ++ run_options_of (map string_bytes options.now)) }
{
    match options {
        [option, value, rest @ ..] => {
            if is_run_option(option.as_str()) {
                push_word(alloc, words, option.as_str())?;
                push_word(alloc, words, value.as_str())?;
            }
            push_run_options(alloc, words, rest)
        }
        _ => Ok(()),
    }
}

/// Puts `--editor` behind the words that the program reads itself, where it stands among those that stand alone.
fn push_editor(alloc: Global, words: &mut Vec<String>, flags: &[String]) -> Result<(), Memory>
    ensures { OnOk result (map string_bytes words.new.items ≡ map string_bytes words.old.items ++ editor_words (map string_bytes flags.now)) }
{
    if has(flags, "--editor") {
        return push_word(alloc, words, "--editor");
    }
    Ok(())
}

/// Puts the option of that name and its value behind the words that the program reads itself, as often as it stands among
/// the options.
fn push_option(
    alloc: Global,
    words: &mut Vec<String>,
    name: &str,
    options: &[String],
) -> Result<(), Memory>
    ensures { OnOk result (map string_bytes words.new.items ≡ map string_bytes words.old.items ++ option_words name.now (map string_bytes options.now)) }
{
    match options {
        [option, value, rest @ ..] => {
            if option.as_str() == name {
                push_word(alloc, words, option.as_str())?;
                push_word(alloc, words, value.as_str())?;
            }
            push_option(alloc, words, name, rest)
        }
        _ => Ok(()),
    }
}

/// Puts those there that stand in front of the others.
fn push_front(alloc: Global, words: &mut Vec<String>, options: &[String]) -> Result<(), Memory>
    ensures { OnOk result (map string_bytes words.new.items ≡ map string_bytes words.old.items ++ front_words (map string_bytes options.now)) }
{
    push_option(alloc, words, "--origin", options)?;
    push_option(alloc, words, "--keep", options)
}

/// What the words of `serve` mean.
#[tactic(auto, using(crate::proofs::RefusalLemmas::serve_no_around, crate::proofs::RefusalLemmas::for_memory))]
fn serve_meant(alloc: Global, parted: &Parted) -> Result<Given, Refused>
    ensures told { IfOk result (λ given. MeansServe (parts_of parted.now) (map string_bytes given.words.items) given.around) }
    ensures refused { IfErr result (IsFor ((words : List (List ℕ)) (around : Around) → ¬ MeansServe (parts_of parted.now) words around)) }
{
    let around = Around::told(alloc, &parted.options, has(&parted.flags, "--verbose"))?;
    let mut words = Vec::new(alloc);
    push_word(alloc, &mut words, "serve")?;
    push_words(alloc, &mut words, &parted.places)?;
    push_editor(alloc, &mut words, &parted.flags)?;
    push_front(alloc, &mut words, &parted.options)?;
    push_run_options(alloc, &mut words, &parted.options)?;
    Ok(Given { words, around })
}

/// What those of `edit` mean.
#[tactic(auto, using(crate::proofs::RefusalLemmas::edit_no_around, crate::proofs::RefusalLemmas::edit_no_places, crate::proofs::RefusalLemmas::for_memory))]
fn edit_meant(alloc: Global, parted: &Parted, chance: &Chance) -> Result<Given, Refused>
    ensures told { IfOk result (λ given. MeansEdit (encode_lower chance.now.random) (parts_of parted.now) (map string_bytes given.words.items) given.around) }
    ensures refused { IfErr result (IsFor ((words : List (List ℕ)) (around : Around) → ¬ MeansEdit (encode_lower chance.now.random) (parts_of parted.now) words around)) }
{
    let Ok(own) = hex::encode(alloc, chance.random.as_slice()) else {
        return Err(Refused::Memory);
    };
    let around = Around::told(alloc, &parted.options, false)?;
    let places = edit_words(alloc, parted, own.as_str())?;
    let mut words = Vec::new(alloc);
    push_word(alloc, &mut words, "edit")?;
    push_words(alloc, &mut words, &places)?;
    Ok(Given { words, around })
}

/// Words that are a command's name and these.
fn plain_meant(alloc: Global, name: &str, rest: &[String]) -> Result<Given, Refused>
    ensures words { IfOk result (λ given. map string_bytes given.words.items ≡ name.now ∷ map string_bytes rest.now) }
    ensures around { IfOk result (λ given. IsDefault given.around) }
    ensures refused { IfErr result (λ refused. refused ≡ Refused.Memory) }
{
    let mut words = Vec::new(alloc);
    push_word(alloc, &mut words, name)?;
    push_words(alloc, &mut words, rest)?;
    let around = Around::new(alloc)?;
    Ok(Given { words, around })
}

/// What those of `token` mean.
#[tactic(auto, using(crate::proofs::RefusalLemmas::no_token, crate::proofs::RefusalLemmas::for_memory))]
fn token_meant(alloc: Global, parted: &Parted, now: u64) -> Result<Given, Refused>
    ensures told { IfOk result (λ given. MeansOf now [] Kind.Token (parts_of parted.now) (map string_bytes given.words.items) given.around) }
    ensures refused { IfErr result (IsFor ((words : List (List ℕ)) (around : Around) → ¬ MeansOf now [] Kind.Token (parts_of parted.now) words around)) }
{
    if parted.options.is_empty() && parted.flags.is_empty() {
        return plain_meant(alloc, "token", &parted.places);
    }
    let words = token_words(alloc, parted, now)?;
    let around = Around::new(alloc)?;
    Ok(Given { words, around })
}

/// What those of `ctoken` mean.
#[tactic(auto, using(crate::proofs::RefusalLemmas::no_ctoken, crate::proofs::RefusalLemmas::for_memory))]
fn ctoken_meant(alloc: Global, parted: &Parted, now: u64) -> Result<Given, Refused>
    ensures told { IfOk result (λ given. MeansOf now [] Kind.Ctoken (parts_of parted.now) (map string_bytes given.words.items) given.around) }
    ensures refused { IfErr result (IsFor ((words : List (List ℕ)) (around : Around) → ¬ MeansOf now [] Kind.Ctoken (parts_of parted.now) words around)) }
{
    if parted.options.is_empty() && parted.flags.is_empty() {
        return plain_meant(alloc, "ctoken", &parted.places);
    }
    let words = ctoken_words(alloc, parted, now)?;
    let around = Around::new(alloc)?;
    Ok(Given { words, around })
}

/// What the words of a command with options mean.
fn meant_of(alloc: Global, kind: Kind, rest: &[String], chance: &Chance) -> Result<Given, Refused>
    ensures told { IfOk result (λ given. MeansOf chance.now.moment (encode_lower chance.now.random) kind (parted_of kind (halved kind (map string_bytes rest.now))) (map string_bytes given.words.items) given.around) }
    ensures whole { IfOk result (λ _. lacks_value kind (halved kind (map string_bytes rest.now)) ≡ false) }
    ensures refused { IfErr result (IsFor ((words : List (List ℕ)) (around : Around) → lacks_value kind (halved kind (map string_bytes rest.now)) ≡ false
        → ¬ MeansOf chance.now.moment (encode_lower chance.now.random) kind (parted_of kind (halved kind (map string_bytes rest.now))) words around)) }
{
    let halves = halve(alloc, kind, rest)?;
    let parted = part(alloc, kind, &halves)?;
    match kind {
        Kind::Serve => serve_meant(alloc, &parted),
        Kind::Edit => edit_meant(alloc, &parted, chance),
        Kind::Token => token_meant(alloc, &parted, chance.moment),
        Kind::Ctoken => ctoken_meant(alloc, &parted, chance.moment),
    }
}

/// The most words of a command line.
const MOST_WORDS: usize = 100;

/// What the words mean, at this moment and with these random bytes. Words are refused only where they mean nothing.
pub fn meant(alloc: Global, words: &[String], chance: &Chance) -> Result<Given, Refused>
    ensures refused { IfErr result (IsFor (MeansNothing chance.now.moment (encode_lower chance.now.random) (map string_bytes words.now))) }
    ensures meant { IfOk result (λ given. Means chance.now.moment (encode_lower chance.now.random) (map string_bytes words.now) (map string_bytes given.words.items) given.around) }
{
    if words.len() > MOST_WORDS {
        return Err(hidden("the words", "at most 100 of them"));
    }
    if let Some(word) = short_for(words) {
        return plain_meant(alloc, word, &[]);
    }
    match words {
        [name, rest @ ..] => match kind_of(name.as_str()) {
            Some(kind) => meant_of(alloc, kind, rest, chance),
            None => plain_meant(alloc, name.as_str(), rest),
        },
        [] => Ok(Given {
            words: Vec::new(alloc),
            around: Around::new(alloc)?,
        }),
    }
}
