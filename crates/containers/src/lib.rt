//! The container: the folder as a client of WOPI lists it.
//!
//! A host has one container, named `root`, which is its folder. A client asks two things of it:
//! CheckContainerInfo tells its name, and EnumerateChildren lists its files. [`container_answer`]
//! answers both at a moment, over whatever lists its shards (`Lister`).
//!
//! **Tokens.** Who asks shows a token of the container ([`ContainerToken`]), written as
//! `c1.{key}.{user}.{rights}.{serial}.{issued}.{expires}.{mac}` in the fields and under the keys of
//! access_tokens ([`container_mint`], [`container_read`]). It counts from the opening of the host, where it was
//! issued at or behind it, until it expires; one that doesn't count is 401. No text is a token both of the
//! container and of a file. Such a token opens every file of the folder: each file is listed with an address that
//! carries a token for it, with the user, the right, the serial number and the expiry of the container's token,
//! issued at the moment of the list.
//!
//! **Lists.** A list is made of one listing of each shard, in their order. Each listing shows its shard after all
//! that the caller has then seen of it, so that its own saves are there; not all shards are shown as they stood at
//! one time. The files come in the order of their names' bytes, with name, size, address and version. No entry is
//! made.
//!
//! **What it costs.** Each shard gives its files by its index, and no history is walked. They are sorted once, by
//! their names. The JSON is made in one piece of memory, whose size is reckoned before (`sizes`), by the writer on
//! which serde_json stands; addresses are made in one room, and tokens are signed by the two hashers that a key
//! has ready.
//!
//! **What is proved.** What is answered is [Listed.antt](../specs/Listed.antt)'s text over the listings that
//! were made, which show what is then seen of each shard, or 401 exactly where no token with that text counts
//! (`ContainerAnswered`, `AreShown`). No body is longer than a client reads; a list that would be is answered
//! with `Memory`, and so is want of memory. Whatever is answered, no entry was made, and what is seen only grew.
//! A token is read exactly where its text has the form, its key is in force and its code is right, and what is
//! minted reads back ([`what_is_minted_for_the_container_is_read`]). That the size is reckoned to the byte no
//! clause says.
#![tactic(auto)]

mod answering;
mod laws;
mod listed;
mod looking;
mod merging;
mod minting;
mod reading;
mod sizes;
mod terms;
mod token;

pub use answering::container_answer;
pub use laws::{a_container_text_has_one_reading, what_is_minted_for_the_container_is_read};
pub use minting::container_mint;
pub use reading::container_read;
pub use token::ContainerToken;
