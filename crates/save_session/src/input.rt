//! What comes to a session.
use wopi_headers::Answer;
use wopi_text::Bytes;

/// What a session is asked for, or what came of the operation that it sent.
#[derive(Drop)]
pub enum Input {
    /// Take the lock and read the file.
    Start,
    /// Read the file again.
    Read,
    /// Replace the file's contents.
    Save(Bytes),
    /// Begin the 30 minutes of the lock anew.
    Refresh,
    /// Give the lock back.
    Close,
    /// The answer to the operation that was sent last.
    Reply(Answer),
    /// No answer came to the operation that was sent last.
    NoAnswer,
}
