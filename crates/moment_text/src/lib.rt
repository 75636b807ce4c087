//! The texts of moments: a date and a time in UTC, with seven digits of the second, as
//! `2026-11-30T18:05:09.1230000Z`, and how they are read.
//!
//! A moment has one text, which reads back as the moment but in the last 26 hours before moments end. What is read is a
//! date, a time and an offset or `Z` of ISO 8601 that tell a whole millisecond. Some texts stand in [`laws`].
#![tactic(auto)]

pub mod laws;
mod reading;
mod text;

pub use reading::moment_read;
pub use text::moment_text;
