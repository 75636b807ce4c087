//! What lies in a lock.
ghost use Rattle.std.specs.Prelude.{◌≡◌, List, length};

/// A value that stands for a list of entries, which only grows, and for a base, which never
/// changes. Both are plain data that contracts alone see: no value of the two types is made.
pub trait Grown {
    type Entry;

    type Base;

    ghost entries: { Self → List Self.Entry };

    ghost base: { Self → Self.Base };

    /// The number of entries.
    fn grown(&self) -> u64
        ensures { result ≡ length (entries self.now) };
}
