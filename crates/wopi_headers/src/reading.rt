//! What the header fields of a request say.
ghost use Rattle.std.specs.Prelude.{ℕ, Bool, List, Option, ◌≡◌, ◌↔◌, IsTrue, IfOk, MatchOption, position};
ghost use Rattle.std.specs.Option.{option_copied};
ghost use Rattle.wopi_http.specs.Fields.{is_named, count_named};
ghost use Rattle.wopi_headers.specs.Readings.{value_named, most_name, IsMissing, IsLock, IsSize, IsMost, IsText, IsWordOf, IsOverwrite};
ghost use Rattle.utf7_text.specs.Readings.{IsReading};
ghost use Rattle.wopi_headers.specs.Values.{IsFirst, IsValue};

use std::alloc::Global;
use utf7_text::{Utf7Fault, utf7_read};
use wopi_http::{Field, count_named, first_named, is_named};
use wopi_text::{Bytes, LockId, Memory, digits_read};

/// The most digits of a size.
const MOST_DIGITS: usize = 19;

/// What the fields of a name say.
#[derive(Clone, Copy)]
pub enum Value<'a> {
    Missing,
    Once(&'a [u8]),
    Several,
}

/// The value of the first field of the name.
pub fn value_named<'a>(fields: &'a [Field], name: &[u8]) -> Option<&'a [u8]>
    ensures { option_copied result ≡ value_named name.now fields.now }
{
    let field = first_named(fields, name)?;
    Some(field.value.as_slice())
}

/// Where the first field of the name stands.
fn place_named(fields: &[Field], name: &[u8]) -> Option<usize>
    ensures { result ≡ position (is_named name.now) fields.now }
{
    fields.iter().position(|f| is_named(f, name))
}

/// The value of the first field of the name, and the fields behind that one.
fn first_and_rest<'a>(fields: &'a [Field], name: &[u8]) -> Option<(&'a [u8], &'a [Field])>
    ensures { MatchOption result (count_named name.now fields.now ≡ 0) (λ found. IsFirst name.now fields.now found.0.now found.1.now) }
{
    let Some(place) = place_named(fields, name) else {
        return None;
    };
    Some((fields[place].value.as_slice(), &fields[place + 1..]))
}

/// What the fields of the name say. Inlined into each reader of a lock id, its loops would keep that
/// from being built in the place where it stays.
#[inline(never)]
fn value_of<'a>(fields: &'a [Field], name: &[u8]) -> Value<'a>
    ensures { IsValue name.now fields.now result }
{
    let Some((value, rest)) = first_and_rest(fields, name) else {
        return Value::Missing;
    };
    if count_named(rest, name) == 0 {
        Value::Once(value)
    } else {
        Value::Several
    }
}

/// Whether the field is missing or empty.
pub fn is_missing(fields: &[Field], name: &[u8]) -> bool
    ensures { IsTrue result ↔ IsMissing name.now fields.now }
{
    match value_of(fields, name) {
        Value::Missing => true,
        Value::Once(value) => value.is_empty(),
        Value::Several => false,
    }
}

/// The lock id that the field has.
pub fn lock_named(fields: &[Field], name: &[u8]) -> Option<LockId>
    ensures { MatchOption result ((id : List ℕ) → ¬ (IsLock name.now fields.now id)) (IsLock name.now fields.now) }
{
    let Value::Once(value) = value_of(fields, name) else {
        return None;
    };
    LockId::read(value)
}

/// The number of 1 to 19 digits.
#[tactic(auto, using(crate::proofs::Sizes::size_is))]
fn size_of(digits: &[u8]) -> Option<u64>
    ensures { MatchOption result ((n : ℕ) → ¬ (IsSize digits.now n)) (IsSize digits.now) }
{
    if digits.len() > MOST_DIGITS {
        return None;
    }
    digits_read(digits)
}

/// The greatest size that is expected, or none where the field is missing.
pub fn most_named(fields: &[Field]) -> Option<Option<u64>>
    ensures { MatchOption result ((most : Option ℕ) → ¬ (IsMost fields.now most)) (IsMost fields.now) }
{
    match value_of(fields, b"X-WOPI-MaxExpectedSize") {
        Value::Missing => Some(None),
        Value::Once(value) => match size_of(value) {
            Some(size) => Some(Some(size)),
            None => None,
        },
        Value::Several => None,
    }
}

/// The text that a value stands for.
fn text_of(alloc: Global, value: &[u8]) -> Result<Option<Bytes>, Memory>
    ensures { IfOk result (λ found. MatchOption found ((text : List ℕ) → ¬ (IsReading value.now text)) (IsReading value.now)) }
{
    match utf7_read(alloc, value) {
        Ok(text) => Ok(Some(text)),
        Err(Utf7Fault::Bad { .. }) => Ok(None),
        Err(Utf7Fault::Memory) => Err(Memory),
    }
}

/// The text that the field has, which is written in UTF-7.
pub fn text_named(alloc: Global, fields: &[Field], name: &[u8]) -> Result<Option<Bytes>, Memory>
    ensures { IfOk result (λ found. MatchOption found ((text : List ℕ) → ¬ (IsText name.now fields.now text)) (IsText name.now fields.now)) }
{
    match value_of(fields, name) {
        Value::Once(value) => {
            if value.is_empty() {
                return Ok(None);
            }
            text_of(alloc, value)
        }
        _ => Ok(None),
    }
}

/// The choice that a word stands for.
fn choice_of(value: &[u8]) -> Option<bool>
    ensures { MatchOption result ((choice : Bool) → ¬ (IsWordOf value.now choice)) (IsWordOf value.now) }
{
    if value.eq_ignore_ascii_case(b"true") {
        return Some(true);
    }
    if value.eq_ignore_ascii_case(b"false") {
        return Some(false);
    }
    None
}

/// Whether a file that has the name may be replaced: no, where the field is missing.
pub fn overwrite_named(fields: &[Field]) -> Option<bool>
    ensures { MatchOption result ((choice : Bool) → ¬ (IsOverwrite fields.now choice)) (IsOverwrite fields.now) }
{
    match value_of(fields, b"X-WOPI-OverwriteRelativeTarget") {
        Value::Missing => Some(false),
        Value::Once(value) => choice_of(value),
        Value::Several => None,
    }
}
