//! Both ends of a connection, as definitions: what a client's session sends, and what a host makes of
//! it.
//!
//! Nothing here runs: [`laws`] has what holds of both.
#![tactic(auto)]

pub mod laws;
