//! The tests of the client: sessions, sheets and the editor.
//!
//! They stand in a crate of their own over the libraries, so that each library is proved once.
#![tactic(auto)]

#[cfg(test)]
mod clients;
#[cfg(test)]
mod editors;
#[cfg(test)]
mod formulas;
#[cfg(test)]
mod sessions;
#[cfg(test)]
mod sheets;
