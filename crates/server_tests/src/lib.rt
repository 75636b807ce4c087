//! The tests of a host over many shards: turns, tables, journals and connections.
//!
//! They stand in a crate of their own over the libraries, so that each library is proved once.
#![tactic(auto)]

#[cfg(test)]
mod audits;
#[cfg(test)]
mod journals;
#[cfg(test)]
mod servers;
#[cfg(test)]
mod tables;
#[cfg(test)]
mod turns;
