//! Reading formulas.
ghost use Rattle.std.specs.Prelude.{◌≡◌, ◌≤◌, ◌++◌, ◌∷◌, [], ℕ, List, option_map, IfOk, slice_index};
ghost use Rattle.std.specs.Char.{is_ascii_digit};
ghost use Rattle.grid_formulas.specs.Reading.{Found, Reader, atom_at, digits_or_cell, formula_of, is_formula, negative_at, parentheses_at, plain_at, product_at, sum_at, sign_at, star_at, unary_at, Adds};

use crate::Step;
use crate::reference::{behind, behind_sum, natural_at, reference_at, span_at};
use std::alloc::{AllocError, Global};

/// The most bytes of a formula.
const MOST_BYTES: usize = 1024;

/// How deep parentheses and unary signs may nest.
const DEEPEST: usize = 64;

/// The greatest number in digits.
const MOST_DIGITS: u128 = 170_141_183_460_469_231_731_687_303_715_884_105_727;

/// Whether a cell of these bytes is a formula.
pub fn is_formula(text: &[u8]) -> bool
    ensures { result ≡ is_formula text.now }
{
    text.first() == Some(&b'=')
}

/// The formula of a cell, if the grammar has it.
#[tactic(auto, unfolding(crate::specs::Reading::formula_of))]
pub fn formula(alloc: Global, text: &[u8]) -> Result<Option<Vec<Step>>, AllocError>
    ensures { IfOk result (λ found. option_map (λ steps. steps.items) found ≡ formula_of text.now) }
{
    if !is_formula(text) || text.len() > MOST_BYTES {
        return Ok(None);
    }
    let mut steps = Vec::new(alloc);
    match sum(&mut steps, &text[1..], DEEPEST)? {
        Some([]) => Ok(Some(steps)),
        _ => Ok(None),
    }
}

// Each of the readers below adds the steps of what it reads, and gives the text behind it. Where
// it finds nothing that it knows, it leaves any steps.

#[cycle(readers)]
#[tactic(auto, unfolding(crate::specs::Reading::sum_at))]
fn sum<'a>(
    steps: &mut Vec<Step>,
    text: &'a [u8],
    depth: usize,
) -> Result<Option<&'a [u8]>, AllocError>
    ensures { IfOk result (λ rest. Adds steps.old.items steps.new.items (option_map (λ s. s.now) rest) (sum_at (unary_at depth) text.now)) }
{
    let Some(mut rest) = product(steps, text, depth)? else {
        return Ok(None);
    };
    'products: for _ in 0..rest.len() {
        let Some((operation, operand)) = sign(rest) else {
            return Ok(Some(rest));
        };
        let Some(behind) = product(steps, operand, depth)? else {
            return Ok(None);
        };
        steps.push(operation)?;
        rest = behind;
    }
    Ok(Some(rest))
}

#[cycle(readers)]
#[tactic(auto, unfolding(crate::specs::Reading::product_at))]
fn product<'a>(
    steps: &mut Vec<Step>,
    text: &'a [u8],
    depth: usize,
) -> Result<Option<&'a [u8]>, AllocError>
    ensures { IfOk result (λ rest. Adds steps.old.items steps.new.items (option_map (λ s. s.now) rest) (product_at (unary_at depth) text.now)) }
{
    let Some(mut rest) = unary(steps, text, depth)? else {
        return Ok(None);
    };
    'unaries: for _ in 0..rest.len() {
        let Some((operation, operand)) = star(rest) else {
            return Ok(Some(rest));
        };
        let Some(behind) = unary(steps, operand, depth)? else {
            return Ok(None);
        };
        steps.push(operation)?;
        rest = behind;
    }
    Ok(Some(rest))
}

#[cycle(readers)]
#[tactic(auto, unfolding(crate::specs::Reading::unary_at))]
fn unary<'a>(
    steps: &mut Vec<Step>,
    text: &'a [u8],
    depth: usize,
) -> Result<Option<&'a [u8]>, AllocError>
    ensures { IfOk result (λ rest. Adds steps.old.items steps.new.items (option_map (λ s. s.now) rest) (unary_at depth text.now)) }
{
    if depth == 0 {
        return plain(steps, text);
    }
    if let Some(operand) = behind(text, b'-') {
        return negative(steps, operand, depth - 1);
    }
    if let Some(inner) = behind(text, b'(') {
        return parentheses(steps, inner, depth - 1);
    }
    plain(steps, text)
}

#[cycle(readers)]
fn negative<'a>(
    steps: &mut Vec<Step>,
    text: &'a [u8],
    depth: usize,
) -> Result<Option<&'a [u8]>, AllocError>
    ensures { IfOk result (λ rest. Adds steps.old.items steps.new.items (option_map (λ s. s.now) rest) (negative_at (unary_at depth) text.now)) }
{
    match unary(steps, text, depth)? {
        None => Ok(None),
        Some(rest) => {
            steps.push(Step::Negative)?;
            Ok(Some(rest))
        }
    }
}

#[cycle(readers)]
fn parentheses<'a>(
    steps: &mut Vec<Step>,
    text: &'a [u8],
    depth: usize,
) -> Result<Option<&'a [u8]>, AllocError>
    ensures { IfOk result (λ rest. Adds steps.old.items steps.new.items (option_map (λ s. s.now) rest) (parentheses_at (unary_at depth) text.now)) }
{
    match sum(steps, text, depth)? {
        None => Ok(None),
        Some(rest) => Ok(behind(rest, b')')),
    }
}

// The step of an operator between the parts of a sum, and the text behind it.
fn sign(text: &[u8]) -> Option<(Step, &[u8])>
    ensures { option_map (λ f. (f.0, f.1.now)) result ≡ sign_at text.now }
{
    if let Some(rest) = behind(text, b'+') {
        return Some((Step::Plus, rest));
    }
    match behind(text, b'-') {
        None => None,
        Some(rest) => Some((Step::Minus, rest)),
    }
}

// The step of an operator between the parts of a product, and the text behind it.
fn star(text: &[u8]) -> Option<(Step, &[u8])>
    ensures { option_map (λ f. (f.0, f.1.now)) result ≡ star_at text.now }
{
    match behind(text, b'*') {
        None => None,
        Some(rest) => Some((Step::Product, rest)),
    }
}

fn plain<'a>(steps: &mut Vec<Step>, text: &'a [u8]) -> Result<Option<&'a [u8]>, AllocError>
    ensures { IfOk result (λ rest. Adds steps.old.items steps.new.items (option_map (λ s. s.now) rest) (plain_at text.now)) }
{
    match atom(text) {
        None => Ok(None),
        Some((step, rest)) => {
            steps.push(step)?;
            Ok(Some(rest))
        }
    }
}

// Digits, a cell, or the sum of a range.
fn atom(text: &[u8]) -> Option<(Step, &[u8])>
    ensures { option_map (λ f. (f.0, f.1.now)) result ≡ atom_at text.now }
{
    match behind_sum(text) {
        None => digits_or_cell(text),
        Some(range) => match span_at(range) {
            None => None,
            Some((span, rest)) => Some((Step::Sum(span), rest)),
        },
    }
}

fn digits_or_cell(text: &[u8]) -> Option<(Step, &[u8])>
    ensures { option_map (λ f. (f.0, f.1.now)) result ≡ digits_or_cell text.now }
{
    if begins_with_digit(text) {
        return match natural_at(text, MOST_DIGITS) {
            None => None,
            Some((number, rest)) => Some((Step::Digits(number as i128), rest)),
        };
    }
    match reference_at(text) {
        None => None,
        Some((cell, rest)) => Some((Step::Cell(cell.place()), rest)),
    }
}

fn begins_with_digit(text: &[u8]) -> bool
    ensures { result ≡ is_ascii_digit (slice_index text.now 0) }
{
    match text {
        [] => false,
        [first, ..] => first.is_ascii_digit(),
    }
}
