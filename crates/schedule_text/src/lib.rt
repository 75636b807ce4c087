//! The text of a schedule: some sessions over files, and what happens between them.
//!
//! A [`Schedule`] has the files and the sessions at the opening, and the events in their order. [`Schedule::read`] reads one
//! from a text, and [`read_schedule`] from a source, once, piece by piece: the schedule exactly, or the number of the first
//! line that can't stand where it does. [`generate`] makes a large one from two numbers.
//!
//! A text is one schedule at most, has one first bad line at most, and none where it is a schedule: these are the laws
//! [`a_text_is_one_schedule`], [`a_text_has_one_bad_line`] and [`a_schedule_has_no_bad_line`]. What a schedule leads to is
//! the matter of the crate that runs it.
#![tactic(auto)]

mod drawing;
mod event_rows;
mod fitting;
mod foreign_rows;
mod generating;
mod input;
mod one_line;
mod opening_rows;
mod pieces;
mod reading;
mod reading_laws;
mod schedule;
mod values;

pub use generating::generate;
pub use input::read_schedule;
pub use reading::ScheduleFault;
pub use reading_laws::{
    a_schedule_has_no_bad_line, a_text_has_one_bad_line, a_text_is_one_schedule,
};
pub use schedule::{EventLine, FileLine, ForeignAsk, Reference, Schedule, SessionLine, Wish};
