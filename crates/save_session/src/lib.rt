//! The client's side of WOPI as a machine without memory or clock: it takes a lock, reads, saves,
//! refreshes and closes, says which operation to send next, and what came of each wish.
//!
//! A session locks its file under ids of its own, the nonce, a dash and a number from 1 on. Each id
//! carries one save: before a second save the session relocks to the next id, so that a late repeat
//! of the first save names an id that has ended. A request that gets no answer is sent three times
//! in all. A wish that the session can't follow is handed back, and nothing changes.
//!
//! What each input does is the definition `stepped` of `specs/Session.antt`, and `Session::step` is
//! that definition exactly. Inside, an operation names its lock id by the number; `op_of` gives it
//! the ids.
#![tactic(auto)]

mod ids;
mod input;
mod laws;
mod nonce;
mod output;
mod replies;
mod sending;
mod session;
mod state;
mod wishes;

pub use input::Input;
pub use laws::{an_awaited_answer_is_heard, an_ignored_input_changes_nothing, ids_differ};
pub use nonce::Nonce;
pub use output::{Outcome, Output};
pub use session::Session;
pub use state::{Effect, Goal, Phase, SessionOp, State, Turn, Waiting};
