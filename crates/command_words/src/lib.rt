//! The words of the command line as people write them.
//!
//! [`meant`] reads them, and makes of them the words that the program reads, with what its adapters to the
//! outside world take ([`Around`]). Options stand anywhere behind a command, as `--name value` or `--name=value`.
//! Words in which nothing of this stands come out as they are ([`laws`]). [`secret_place`] says which word may be the
//! path of a file with a secret, and [`explain`] tells of words that are no command which is the first that is wrong, and
//! its rule.
#![tactic(auto)]

mod around;
mod explaining;
pub mod laws;
mod lines;
mod meaning;
mod options;
mod parting;
mod people;
mod rules;
mod secret;
mod span;
mod values;
mod wrong;

pub use around::Around;
pub use explaining::explain;
pub use meaning::{Given, meant};
pub use options::Kind;
pub use people::Chance;
pub use secret::{secret_of, secret_place};
pub use span::span_of;
pub use wrong::{How, Refused, Wrong, wrong_line};
