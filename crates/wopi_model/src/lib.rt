//! What the host does, as definitions that the contracts of the other crates cite, and the plain
//! data that these definitions speak of.
//!
//! The definitions stand in `specs/`: a file as the host keeps it (`File`), what the passing of time
//! does to it (`Settle`), which acts a lock lets through (`LockTable`), what one act on one file is
//! answered and leaves (`Step`), the files of one shard and the histories that it may have
//! (`Shard`), sixteen shards with one journal, and when a shard is full (`Host`). What no history
//! may do stands in `Safety`. The laws that tie them are the functions of [`laws`].
//!
//! A shard's life begins over an opening, or goes on from what a part of it left (`Begin`, `Lives`): the laws say that
//! a history goes on from there as if it had never been cut. A shard over a store that keeps all its calls is full by
//! what was kept (`FullAt`), and any shard by what is live (`FullFrom`): the bytes of its files, its locks and the ids
//! that are refused. One law says of a shard that was opened anew that the second never comes before the first.
//!
//! The files of an opening have one version, the shard's `first`, and a name that was never met has
//! the version below it. So a host that opens again with a number above all its versions goes on with
//! versions that were never told. A history is of one run of the host; what a restart does stands in
//! wopi_world.
//!
//! A moment is a number of milliseconds. What happens to a lock follows MS-WOPI's pages on the
//! operations Lock, RefreshLock, Unlock, UnlockAndRelock, PutFile, PutRelativeFile and DeleteFile;
//! that an id which has ended is refused for a while, and what a token has to be, are this
//! project's own rules.
#![tactic(auto)]

mod calls;
pub mod laws;
mod locks;
mod token;
mod user;

pub use calls::{Act, Call, Ruling};
pub use locks::{Judged, Lock, LockAct, Spent, Verdict};
pub use token::Token;
pub use user::User;
