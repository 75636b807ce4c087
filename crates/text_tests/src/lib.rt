//! The tests of the crates of texts and messages.
//!
//! They stand in a crate of their own over the libraries, so that each library is proved once.
#![tactic(auto)]

#[cfg(test)]
mod commands;
#[cfg(test)]
mod headers;
#[cfg(test)]
mod infos;
#[cfg(test)]
mod lines;
#[cfg(test)]
mod messages;
#[cfg(test)]
mod moments;
#[cfg(test)]
mod names;
#[cfg(test)]
mod outsides;
#[cfg(test)]
mod texts;
#[cfg(test)]
mod utf7;
