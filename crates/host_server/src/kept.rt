//! What a connection keeps from one message to the next.
ghost use Rattle.std.specs.Prelude.{◌≡◌, None};
ghost use Rattle.access_tokens.specs.Remembering.{Remembers};
ghost use Rattle.access_tokens.specs.declared.keys.Keys.{Keys};

use access_tokens::RecentTokens;
use std::alloc::Global;
use wopi_headers::Ask;

/// What a connection keeps from one message to the next: the tokens that were read of late, and the place
/// of what is asked, which is too large to be moved about for each message.
#[derive(Drop)]
pub struct Kept {
    pub recent: RecentTokens,
    pub ask: Option<Ask>,
}

impl Kept {
    /// Nothing was read yet. It takes no memory.
    pub fn new(alloc: Global) -> Kept
        ensures recent { (keys : Keys) → Remembers keys result.recent }
        ensures ask { result.ask ≡ None }
    {
        Kept {
            recent: RecentTokens::new(alloc),
            ask: None,
        }
    }
}
