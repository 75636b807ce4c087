//! The cells that a formula names, as they are written.
ghost use Rattle.std.specs.Prelude.{◌≡◌, ◌≤◌, ◌<◌, ◌+◌, ◌-◌, ◌^◌, option_map, length, IfSome};
ghost use Rattle.std.specs.List.{prefix_len};
ghost use Rattle.std.specs.Char.{is_ascii_digit, is_ascii_uppercase};
ghost use Rattle.grid_formulas.specs.Places.{place_of};
ghost use Rattle.grid_formulas.specs.Reading.{behind, behind_sum, column_at, column_number, column_of, letter_of, natural_at, reference_at, reference_of, span_at, span_of};

use crate::Span;
use crate::number::natural;
use grid_sheet::{MOST_CELLS, MOST_ROWS};

/// The most cells of a range.
const MOST_IN_SPAN: usize = 100_000;

/// A cell by its row and column, numbered from 1.
#[derive(Clone, Copy, Debug, PartialEq, Eq)]
pub struct Reference {
    /// From 1 to 100,000.
    pub row: usize,
    /// From 1 to 1,024.
    pub column: usize,
}

/// The text behind this byte.
pub fn behind(text: &[u8], byte: u8) -> Option<&[u8]>
    ensures { option_map (λ s. s.now) result ≡ behind byte text.now }
{
    match text {
        [] => None,
        [first, rest @ ..] => { if *first == byte { Some(rest) } else { None } }
    }
}

/// The text behind `SUM(`.
pub fn behind_sum(text: &[u8]) -> Option<&[u8]>
    ensures { option_map (λ s. s.now) result ≡ behind_sum text.now }
{
    let s = behind(text, b'S')?;
    let u = behind(s, b'U')?;
    let m = behind(u, b'M')?;
    behind(m, b'(')
}

fn digits_len(text: &[u8]) -> usize
    ensures { result ≡ prefix_len is_ascii_digit text.now }
{
    text.iter().take_while(|b| b.is_ascii_digit()).count()
}

fn letters_len(text: &[u8]) -> usize
    ensures { result ≡ prefix_len is_ascii_uppercase text.now }
{
    text.iter().take_while(|b| b.is_ascii_uppercase()).count()
}

/// A canonical decimal at the front, and the rest.
pub fn natural_at(text: &[u8], limit: u128) -> Option<(u128, &[u8])>
    requires { limit < 2 ^ 128 - 1 }
    ensures value { option_map (λ f. (f.0, f.1.now)) result ≡ natural_at limit text.now }
    ensures most { IfSome result (λ f. f.0 ≤ limit) }
{
    let end = digits_len(text);
    match natural(&text[..end], limit) {
        None => None,
        Some(number) => Some((number, &text[end..])),
    }
}

fn letter(byte: u8) -> usize
    ensures value { result ≡ letter_of byte }
    ensures small { result < 256 }
{
    usize::from(byte.saturating_sub(64))
}

fn column_number(letters: &[u8]) -> usize
    ensures { result ≡ column_number letters.now }
{
    match letters {
        [a] => letter(*a),
        [a, b] => 26 * letter(*a) + letter(*b),
        [a, b, c] => 676 * letter(*a) + 26 * letter(*b) + letter(*c),
        _ => 0,
    }
}

fn column(letters: &[u8]) -> Option<usize>
    ensures value { result ≡ column_of letters.now }
    ensures most { IfSome result (λ n. n ≤ 1024) }
{
    let number = column_number(letters);
    if 0 < number && number <= MOST_CELLS {
        Some(number)
    } else {
        None
    }
}

fn column_at(text: &[u8]) -> Option<(usize, &[u8])>
    ensures value { option_map (λ f. (f.0, f.1.now)) result ≡ column_at text.now }
    ensures most { IfSome result (λ f. f.0 ≤ 1024) }
{
    let end = letters_len(text);
    match column(&text[..end]) {
        None => None,
        Some(number) => Some((number, &text[end..])),
    }
}

fn from_row(row: usize, column: usize) -> Option<Reference>
    ensures { result ≡ reference_of row column }
{
    if 0 < row {
        Some(Reference { row, column })
    } else {
        None
    }
}

/// A cell at the front, and the rest.
pub fn reference_at(text: &[u8]) -> Option<(Reference, &[u8])>
    ensures value { option_map (λ f. (f.0, f.1.now)) result ≡ reference_at text.now }
    ensures rows { IfSome result (λ f. f.0.row ≤ 100000) }
    ensures columns { IfSome result (λ f. f.0.column ≤ 1024) }
{
    let (column, rest) = column_at(text)?;
    let (row, rest) = natural_at(rest, MOST_ROWS as u128)?;
    match from_row(row as usize, column) {
        None => None,
        Some(found) => Some((found, rest)),
    }
}

impl Reference {
    /// The place of the cell.
    pub fn place(&self) -> u32
        requires rows { self.now.row ≤ 100000 }
        requires columns { self.now.column ≤ 1024 }
        ensures { result ≡ place_of self.now.row self.now.column }
    {
        (self.row.saturating_sub(1) * MOST_CELLS + self.column.saturating_sub(1)) as u32
    }
}

fn span(a: &Reference, b: &Reference) -> Option<Span>
    requires row_a { a.now.row ≤ 100000 }
    requires column_a { a.now.column ≤ 1024 }
    requires row_b { b.now.row ≤ 100000 }
    requires column_b { b.now.column ≤ 1024 }
    ensures { result ≡ span_of a.now b.now }
{
    if b.row < a.row || b.column < a.column {
        return None;
    }
    let columns = b.column + 1 - a.column;
    let size = (b.row + 1 - a.row) * columns;
    if size > MOST_IN_SPAN {
        return None;
    }
    Some(Span {
        first: a.place(),
        last_column: (b.column - a.column) as u32,
        size: size as u32,
    })
}

/// The cells of a range behind `SUM(`, and the text behind its `)`.
pub fn span_at(text: &[u8]) -> Option<(Span, &[u8])>
    ensures { option_map (λ f. (f.0, f.1.now)) result ≡ span_at text.now }
{
    let (a, rest) = reference_at(text)?;
    let rest = behind(rest, b':')?;
    let (b, rest) = reference_at(rest)?;
    let rest = behind(rest, b')')?;
    match span(&a, &b) {
        None => None,
        Some(span) => Some((span, rest)),
    }
}
