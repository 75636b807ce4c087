//! What a command has around it beside its words: where it listens, and how long it waits for others.
ghost use Rattle.std.specs.Prelude.{◌≡◌, string_bytes};

use adapters::Limits;

/// The address of a `serve`, and the limits of time of its connections and of an `edit`'s, in seconds.
#[derive(Clone, Copy, Debug, PartialEq, Eq)]
pub(crate) struct Around<'a> {
    /// The address that it listens at, without its port.
    pub(crate) listen: &'a str,
    /// So long a connection may be silent; 0 is for ever.
    pub(crate) idle: u32,
    /// So long a message may be on its way at less than 1,024 bytes a second; 0 is for ever.
    pub(crate) patience: u32,
    /// So long after the end was asked for all connections are closed.
    pub(crate) grace: u32,
}

/// Where nothing else is said: only this machine reaches it.
#[cfg(test)]
pub(crate) const USUAL: Around<'static> = Around {
    listen: "127.0.0.1",
    idle: 60,
    patience: 120,
    grace: 30,
};

impl<'a> Around<'a> {
    /// What the words tell.
    pub(crate) fn of(told: &'a command_words::Around) -> Around<'a>
        ensures listen { result.listen.now ≡ string_bytes told.now.listen }
        ensures waits { (result.idle ≡ told.now.idle) × (result.patience ≡ told.now.patience) × (result.grace ≡ told.now.grace) }
    {
        Around {
            listen: told.listen.as_str(),
            idle: told.idle,
            patience: told.patience,
            grace: told.grace,
        }
    }

    /// Those of its connections.
    pub(crate) fn limits(&self) -> Limits
        ensures { (result.idle ≡ self.now.idle) × (result.patience ≡ self.now.patience) }
    {
        Limits {
            idle: self.idle,
            patience: self.patience,
        }
    }
}
