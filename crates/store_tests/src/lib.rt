//! The tests of what a host keeps: locks, tokens, a shard and the list of its folder.
//!
//! They stand in a crate of their own over the libraries, so that each library is proved once.
#![tactic(auto)]

#[cfg(test)]
mod expiries;
#[cfg(test)]
mod folder;
#[cfg(test)]
mod index;
#[cfg(test)]
mod kept;
#[cfg(test)]
mod locks;
#[cfg(test)]
mod shards;
#[cfg(test)]
mod tokens;
