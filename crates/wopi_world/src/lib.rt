//! The world of one host and its sessions, as definitions, and the law that it is safe: what was
//! acknowledged to a session is replaced only by its own later save or after its lock has ended.
//!
//! A world (`specs/World.antt`) has one shard of a host with its history, any number of sessions,
//! and all that was ever sent between them. Events come in any order: a session is asked for
//! something, a request is delivered, once, late, again or never, an answer comes or is lost, time
//! goes on, somebody else asks, the store fails, the host restarts. What is safe stands in
//! `specs/Safe.antt`, and under which premises in `specs/Valid.antt`: on one file nonces differ and
//! nobody else presents a session's ids, and at a restart the clock is later than before and no token
//! under which anything was accepted before is issued at it or after.
//!
//! The induction needs no world (`specs/Talks.antt`): one session hears its inputs, a shard has its
//! history, and of the two it is known only that what came of a request stands behind the request and
//! before the answer that tells it. So are the sessions of a world, and so is a client's session
//! beside the journal of a host. What a journal says of those who use no session stands in
//! `specs/Foreign.antt`.
//!
//! A history (`specs/History.antt`) has the runs of the host with the restarts between them. At a
//! restart the contents stay; locks and spent ids go, the files that are there begin at a version
//! above all before, and requests, replies and sessions stay. A session's ids don't come again,
//! though they are spent no more, since its token was issued before the host opened
//! (`specs/Sessions.antt`).
//!
//! Nothing here runs: [`laws`] has the theorem and what ties a running host to it.
#![tactic(auto)]

pub mod laws;
