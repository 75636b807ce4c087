//! What an access token says.
ghost use Rattle.std.specs.Prelude.{◌≡◌};

use crate::User;
use wopi_text::FileName;

/// What an access token says: who may do what with which file, and how long.
#[derive(Drop)]
pub struct Token {
    pub user: User,
    pub file: FileName,
    /// Whether it may write.
    pub write: bool,
    /// A number that tells one token from another.
    pub serial: u64,
    /// The moment at which it was issued, in milliseconds.
    pub issued: u64,
    /// The moment from which it is dead, in milliseconds.
    pub expires: u64,
}

impl Token {
    /// An equal token. It takes no memory.
    pub fn copy(&self) -> Token
        ensures { result ≡ self.now }
    {
        Token {
            user: self.user.copy(),
            file: self.file.copy(),
            write: self.write,
            serial: self.serial,
            issued: self.issued,
            expires: self.expires,
        }
    }
}
