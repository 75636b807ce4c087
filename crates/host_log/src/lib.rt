//! A store that appends the line of each entry to a log, and keeps none.
//!
//! A [`Logged`] is a folder beside a [`Log`](outside::Log). As a shard opens over it, or goes on there, the beginning of a
//! segment is appended and synced: whose shard it is, and what that begins with. Of a call that was begun it keeps what its line tells; once the
//! entry is ended its line stands in the log, and what contracts see of it is a [`Story`](story::Story).
//!
//! Where a call changes the folder, its line as accepted is appended and synced first. Where the folder then fails, the
//! line `off` behind it takes it back, and is synced too.
//!
//! Once a call of the log failed it's lost. Behind the entries that were told then stands at most a front of one line and
//! of what takes it back, or of the beginning, and entries that are ended from there on are missing.
#![tactic(auto)]

mod begun;
mod head;
mod lines;
mod logged;
mod note;
mod origin;
mod start;
mod writing;

pub use begun::Begun;
pub use head::Head;
pub use lines::Lines;
pub use logged::Logged;
pub use note::Note;
pub use origin::Origin;
pub use start::Start;
