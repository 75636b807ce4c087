//! What sees the lines of a segment while they come.
ghost use Rattle.journal_segments.specs.declared.rows.Head.{Head};
ghost use Rattle.journal_segments.specs.declared.rows.Row.{Row};

use crate::state::State;

/// What sees the lines of a segment behind the first, one after another, whatever is read of them beside.
pub trait Watcher: Drop {
    ghost use Rattle.std.specs.Prelude.{◌∷◌, ◌++◌, [], ℕ, List};
    ghost use Rattle.journal_segments.specs.declared.rows.Head.{Head};
    ghost use Rattle.journal_segments.specs.declared.rows.Row.{Row};
    ghost use Rattle.journal_segments.specs.Seen.{IsNext};

    /// Behind that first line it has seen these.
    ghost has_seen: { Self → Head → List Row → Type 0 };

    /// A line has come, which has that number, counted from 1, and takes back the one before it or doesn't. The state
    /// is the one behind it: what was told before it, and what it tells.
    fn see(&mut self, number: u64, back: bool, state: &State)
        ensures { (head : Head) (rows : List Row) (one : Row) → IsNext head rows one number back state.now → has_seen self.old head rows → has_seen self.new head (rows ++ one ∷ []) };
}

/// It looks away.
#[derive(Drop)]
pub(crate) struct Nothing;

impl Watcher for Nothing {
    ghost use Rattle.std.specs.Prelude.{⊤};

    ghost has_seen = { λ nothing head rows. ⊤ };

    fn see(&mut self, _number: u64, _back: bool, state: &State) {
        let _state = state;
    }
}
