//! The tests of `replay`: schedules, wires and traces.
//!
//! They stand in a crate of their own over the libraries, so that each library is proved once.
#![tactic(auto)]

#[cfg(test)]
mod replays;
