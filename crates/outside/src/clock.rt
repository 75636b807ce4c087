ghost use Rattle.std.specs.Prelude.{◌≡◌, ◌<◌, ℕ, List, Option};
ghost use Rattle.wopi_text.specs.Moments.{moments_end};
ghost use Rattle.outside.specs.Clock.{Gives};

/// Where the time comes from.
pub trait Clock: Drop {
    /// The moments that it gave, where the object tells them.
    ghost moments: { Self → Option (List ℕ) };

    /// Milliseconds since 1970. It takes no memory and never fails.
    fn now(&mut self) -> u64
        ensures moment { result < moments_end }
        ensures told { Gives (moments self.old) (moments self.new) result };
}
