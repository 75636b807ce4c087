//! Whatever lists the files of its shards.
ghost use Rattle.std.specs.Prelude.{◌≡◌, ◌<◌, ℕ, List, IfOk};
ghost use Rattle.host_core.specs.Caller.{KeepsTelling};
ghost use Rattle.host_core.specs.Listing.{Lists, LooksAt};

use crate::caller::Caller;
use crate::children::Children;
use wopi_text::Memory;

/// The files of one shard that exist at one place of its history.
#[derive(Drop)]
pub struct Listing {
    /// The number of the shard.
    pub shard: u8,
    /// How many entries of the shard's history stand before.
    pub place: u64,
    /// In the order of their names' bytes.
    pub children: Children,
}

/// A caller that also lists the files of its shards.
///
/// A listing shows a shard after all that the caller has then seen of it, which begins with what it had seen before.
/// So the caller's own writes are in it.
pub trait Lister: Caller {
    /// The number of shards, which is one for all callers of this type.
    ghost shard_count: { ℕ };

    /// How many shards there are.
    fn shards(&self) -> u8
        ensures { result ≡ shard_count };

    /// The files of a shard. No entry is made. Also where there is no memory for them, more of the shard's history may
    /// have been seen. A listing that finds the shard's store lost may not be told, as a call's answer.
    fn list(&mut self, shard: u8) -> Result<Listing, Memory>
        requires { shard < shard_count }
        ensures listed { IfOk result (Lists (Self.sight self.new) shard) }
        ensures looks { LooksAt (Self.sight self.old) (Self.sight self.new) shard }
        ensures telling { KeepsTelling (Self.telling self.old) (Self.telling self.new) Self.loses }
        ensures basis { Self.basis self.new ≡ Self.basis self.old }
        ensures references { Self.references self.new ≡ Self.references self.old };

    /// Each name's shard is one of these.
    ghost homes: { (caller : Self) → (name : List ℕ) → (Self.sight caller).home name < shard_count };

    /// Each of them is some name's.
    ghost reaches: { (caller : Self) → (shard : ℕ) → shard < shard_count → (name : List ℕ) × ((Self.sight caller).home name ≡ shard) };
}
