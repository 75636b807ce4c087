//! Access tokens: signed texts that say who may do what with which file, and how long.
//!
//! A token is written as `v2.{key}.{user}.{id}.{rights}.{serial}.{issued}.{expires}.{mac}`. The key
//! is told by its number, 0 to 255. The user is 1 to 64 ASCII letters, digits, `_` and `-`; the id is
//! that of a file; the rights are `r` or `w`; the serial number and the two moments are decimals
//! without leading zeros, as the key's number is, and the moments, in milliseconds, lie below
//! 253,402,300,800,000. The mac is HMAC-SHA256 (RFC 2104) of all that stands before the last period,
//! in 64 digits of lower-case hex. Version 1 has no field for the key and begins with `v1`; the number
//! of its key is 0.
//!
//! [`Keys`] are the key that signs and, while it is new, the one that signed before it. [`mint`] writes
//! a token of version 2 under the current key. [`read`] reads a token of either version under the key
//! whose number it has, where its text has the form, that key is in force and its code is right.
//! [`live`] says whether a token that was read counts at a moment: what it allows is for the caller to
//! judge. A text has one reading at most, and what is minted of a token with legal moments is read back
//! (the functions of [`laws`]). [`RecentTokens`] spares a text its code that was read before.
//! [`may_write`] and [`moment_read`] read single fields. [`mint`] takes memory, and
//! [`RecentTokens::read`] does where there is some: without it a text is read and not remembered.
//!
//! [`push_address`] appends the address of a file, which carries a token for it, and [`mint_into`] a token alone.
//! [`is_origin`] tells whether a text is the origin of a page.
//! Other signed texts with the same fields at their end are made and read of the pieces that stand here:
//! [`split_field`], [`tail_of`], [`claims_of`] and [`check_code`] read them, [`push_field`], [`push_number`],
//! [`push_claims`] and [`push_code`] write them.
#![tactic(auto)]

mod address;
mod checking;
mod claims;
mod fields;
mod form;
mod key;
mod key_words;
mod keys;
pub mod laws;
mod life;
mod mac;
mod marks;
mod minting;
mod numbers;
mod origin;
mod pushing;
mod reading;
mod remembering;

pub use address::push_address;
pub use checking::{TokenFault, check_code};
pub use claims::{Claims, claims_of, push_claims};
pub use fields::{Tail, split_field, tail_of};
pub use form::may_write;
pub use key::Key;
pub use keys::{KeyEntry, Keys};
pub use life::live;
pub use mac::hmac;
pub use minting::{mint, mint_into};
pub use numbers::{key_number_read, moment_read};
pub use origin::is_origin;
pub use pushing::{push_code, push_field, push_number};
pub use reading::read;
pub use remembering::RecentTokens;
pub use wopi_model::{Token, User};
