//! Texts in lines, as scripts, schedules and journals are.
//!
//! [`read_text`] reads one from an input piece by piece, into whatever takes such pieces
//! ([`TakesText`]); it reads no further than the piece behind which no more is taken. [`split_row`] and
//! [`split_word`] take a line off a text and a word off a line; the readers of words are exact: each
//! says which words it reads, and that it reads no other.
#![tactic(auto)]

mod input;
mod splitting;
mod values;

pub use input::{InputFault, TakesText, read_text};
pub use splitting::{
    five_words, four_words, has_mark, has_more, split_at_mark, split_row, split_word, three_words,
    two_words,
};
pub use values::{hex_read, is_word, moment_read, number_read, yes_or_no_read};
