//! The small texts of the protocol, each a type of its own: contents, lock ids, file names and the
//! reasons of a refusal, how the ids of files and decimal numbers are written, and where moments
//! end. What holds of ids and decimals stands in [`laws`].
//!
//! Lock ids and file names stand inline, so that a lock table and a journal take no memory for
//! them. A contract sees each of these types as the list of its bytes, and the type keeps the form
//! that its definition in `specs/` states. Every crate stands on this one.
#![tactic(auto)]

mod bytes;
mod decimal;
mod equal;
mod faults;
mod file_name;
mod hex_digits;
mod id;
mod inline;
pub mod laws;
mod lock_field;
mod lock_id;
mod moment;
mod reason;

pub use bytes::Bytes;
pub use decimal::{are_digits, decimal_read, digits_read, digits_up_to};
pub use equal::are_equal;
pub use faults::{BadId, BadName, Memory};
pub use file_name::{FileName, NAME_LIMIT, is_name_char};
pub use hex_digits::{decode_hex, hex_decoded};
pub use id::{id_read, id_text};
pub use inline::Inline;
pub use lock_field::LockField;
pub use lock_id::LockId;
pub use moment::MOMENTS_END;
pub use reason::Reason;
