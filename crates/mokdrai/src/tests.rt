//! Tests of what the program makes of its words.
mod kept;
mod typed;
