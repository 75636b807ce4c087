//! What an operation of WOPI is for a host, and how a host tells what it ruled, as definitions.
//!
//! A request asks for an operation (wopi_headers), and a host acts on files (wopi_model). Which act an
//! operation is stands in `specs/Acts.antt`: each operation is one act but PutRelativeFile, which
//! begins with a look. How a ruling becomes an answer stands in `specs/Answers.antt`. The server and
//! the world of its sessions both speak of these.
//!
//! Nothing here runs: [`laws`] has what holds of both.
#![tactic(auto)]

pub mod laws;
