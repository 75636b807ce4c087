//! UTF-7 (RFC 2152), in which the names of new files come in a header.
//!
//! Bytes of printable ASCII stand for themselves, save `+`, which begins a shift: characters of the
//! base64 alphabet that give the UTF-16 units of other characters, mostly with a `-` after them.
//! `+-` is a `+`. [`utf7_read`] gives the text in UTF-8, or the place of the first fault, and
//! [`utf7_write`] the one form in which this project writes a text. A list of bytes has one reading
//! at most or one place of a fault, and what is written reads back (the functions of [`laws`]).
#![tactic(auto)]

mod fault;
pub mod laws;
mod reading;
mod shift;
mod writing;

pub use fault::Utf7Fault;
pub use reading::utf7_read;
pub use writing::utf7_write;
