//! The tests of the program: each command over folders, links and clocks in memory.
//!
//! They stand in a crate of their own over the libraries, so that each library is proved once.
#![tactic(auto)]

#[cfg(test)]
mod program;
