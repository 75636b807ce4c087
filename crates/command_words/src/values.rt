//! The values of options.
ghost use Rattle.std.specs.Prelude.{◌≡◌, ◌∷◌, [], IfErr, IfOk, None, Some, map, string_bytes};
ghost use Rattle.command_words.specs.Values.{AreValues, IsNotOne, number_of, text_of, values_of};

use crate::wrong::Refused;
use wopi_text::decimal_read;

/// The values of one option.
#[derive(Clone, Copy, Debug, PartialEq, Eq)]
pub(crate) enum Values<'a> {
    Missing,
    One(&'a str),
    /// The option stands more than once.
    Many,
}

/// Those of the option of that name.
pub(crate) fn values_told<'a>(options: &'a [String], name: &str) -> Values<'a>
    ensures { AreValues (values_of name.now (map string_bytes options.now)) result }
{
    match options {
        [option, value, rest @ ..] => {
            let others = values_told(rest, name);
            if option.as_str() != name {
                return others;
            }
            match others {
                Values::Missing => Values::One(value.as_str()),
                Values::One(_) => Values::Many,
                Values::Many => Values::Many,
            }
        }
        _ => Values::Missing,
    }
}

/// The most that a number of seconds may be.
const MOST_SECONDS: u64 = 1_000_000;

/// The seconds that an option tells, or those that stand for it where it is missing.
#[tactic(auto, using(crate::proofs::RefusalLemmas::many_no_number))]
pub(crate) fn seconds(
    options: &[String],
    name: &str,
    default: u32,
    wrong: Refused,
) -> Result<u32, Refused>
    ensures told { IfOk result (λ number. number_of default (values_of name.now (map string_bytes options.now)) ≡ Some number) }
    ensures refused { IfErr result (λ _. number_of default (values_of name.now (map string_bytes options.now)) ≡ None) }
{
    match values_told(options, name) {
        Values::Missing => return Ok(default),
        Values::Many => return Err(wrong),
        Values::One(word) => match decimal_read(word.as_bytes()) {
            Some(number) => {
                if number <= MOST_SECONDS {
                    return Ok(number as u32);
                }
                return Err(wrong);
            }
            None => return Err(wrong),
        },
    }
}

/// The text of an option, or that which stands for it where it is missing.
#[tactic(auto, using(crate::proofs::RefusalLemmas::many_no_text))]
pub(crate) fn text<'a>(
    options: &'a [String],
    name: &str,
    default: &'a str,
    wrong: Refused,
) -> Result<&'a str, Refused>
    ensures told { IfOk result (λ text. text_of default.now (values_of name.now (map string_bytes options.now)) ≡ Some text.now) }
    ensures refused { IfErr result (λ _. text_of default.now (values_of name.now (map string_bytes options.now)) ≡ None) }
{
    match values_told(options, name) {
        Values::Missing => return Ok(default),
        Values::Many => return Err(wrong),
        Values::One(word) => return Ok(word),
    }
}

/// The text of an option that has to stand there.
#[tactic(auto, using(crate::proofs::RefusalLemmas::none_not_one, crate::proofs::RefusalLemmas::many_not_one))]
pub(crate) fn told<'a>(
    options: &'a [String],
    name: &str,
    wrong: Refused,
) -> Result<&'a str, Refused>
    ensures told { IfOk result (λ text. values_of name.now (map string_bytes options.now) ≡ text.now ∷ []) }
    ensures refused { IfErr result (λ _. IsNotOne (values_of name.now (map string_bytes options.now))) }
{
    match values_told(options, name) {
        Values::One(word) => return Ok(word),
        Values::Missing => return Err(wrong),
        Values::Many => return Err(wrong),
    }
}
