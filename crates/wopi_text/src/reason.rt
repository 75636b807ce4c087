//! Why a request was answered 409.
ghost use Rattle.std.specs.Prelude.{◌≡◌};
ghost use Rattle.wopi_text.specs.Reasons.{reason_text, reason_of};

/// Why a request was answered 409: the value of `X-WOPI-LockFailureReason`.
#[derive(Clone, Copy, Debug, PartialEq, Eq)]
pub enum Reason {
    /// A lock stands, and the request doesn't present it.
    Locked,
    /// No lock stands.
    NotLocked,
    /// A presented id ended before, and may not be used again yet.
    Spent,
    /// The name is in use, and the request doesn't ask to overwrite it.
    Taken,
    /// The file was saved since the moment that the request knows of.
    Changed,
}

impl Reason {
    /// The text of the header.
    pub fn text(self) -> &'static str
        ensures { result.now ≡ reason_text self }
    {
        match self {
            Reason::Locked => "locked",
            Reason::NotLocked => "not locked",
            Reason::Spent => "lock id spent",
            Reason::Taken => "name taken",
            Reason::Changed => "file changed since",
        }
    }

    /// The reason with this text, if there is one.
    pub fn read(bytes: &[u8]) -> Option<Reason>
        ensures { result ≡ reason_of bytes.now }
    {
        if bytes == b"locked".as_slice() {
            Some(Reason::Locked)
        } else if bytes == b"not locked".as_slice() {
            Some(Reason::NotLocked)
        } else if bytes == b"lock id spent".as_slice() {
            Some(Reason::Spent)
        } else if bytes == b"name taken".as_slice() {
            Some(Reason::Taken)
        } else if bytes == b"file changed since".as_slice() {
            Some(Reason::Changed)
        } else {
            None
        }
    }
}
