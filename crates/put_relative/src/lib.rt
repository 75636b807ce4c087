//! Names for the file that PutRelativeFile makes.
//!
//! A request suggests a name, or, with a period at its start, an ending for the name of the file
//! that it is made from. [`tidy`] makes a name of the suggestion where it can, and [`candidate`]
//! numbers that name, so that a host can take the first that no file has: the name itself, then
//! `stem (1).ending`, up to `stem (99).ending`. Every tidied name has all of these. [`ending`] is the ending of a
//! name.
#![tactic(auto)]

mod copies;
pub mod laws;
mod stem;
mod tidying;

pub use copies::candidate;
pub use stem::ending;
pub use tidying::{TidyFault, tidy};
