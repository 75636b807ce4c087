//! The tests of the store that appends the entries to a log.
//!
//! They stand in a crate of their own over the library, so that it is proved once.
#![tactic(auto)]

#[cfg(test)]
mod logs;
#[cfg(test)]
mod reopened;
