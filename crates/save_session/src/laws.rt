//! What holds of sessions and their lock ids.
ghost use Rattle.std.specs.Prelude.{◌≡◌, ℕ, List, None, IsTrue};
ghost use Rattle.wopi_headers.specs.declared.answer.Answer.{Answer};
ghost use Rattle.save_session.specs.declared.input.Input.{Input};
ghost use Rattle.save_session.specs.declared.state.Effect.TheVariants.{Ignores};
ghost use Rattle.save_session.specs.declared.state.State.{State};
ghost use Rattle.save_session.specs.LockIds.{lock_id};
ghost use Rattle.save_session.specs.Relocking.{is_sound};
ghost use Rattle.save_session.specs.Session.{stepped};

/// Lock ids of different numbers are different.
pub fn ids_differ()
    ensures { (nonce : List ℕ) (first second : ℕ) → lock_id nonce first ≡ lock_id nonce second → first ≡ second }
{}

/// An input that is ignored is handed back, and leaves the session as it was.
pub fn an_ignored_input_changes_nothing()
    ensures back { (nonce : List ℕ) (session : State) (input other : Input) → (stepped nonce session input).effect ≡ Ignores other → other ≡ input }
    ensures unchanged { (nonce : List ℕ) (session : State) (input other : Input) → (stepped nonce session input).effect ≡ Ignores other →
        (stepped nonce session input).session ≡ session }
{}

/// A session stays sound. Of a sound one an answer is handed back only where it waits for none.
pub fn an_awaited_answer_is_heard()
    ensures sound { (nonce : List ℕ) (session : State) (input : Input) → IsTrue (is_sound session) → IsTrue (is_sound (stepped nonce session input).session) }
    ensures heard { (nonce : List ℕ) (session : State) (reply : Answer) (other : Input) → IsTrue (is_sound session) →
        (stepped nonce session (Input.Reply reply)).effect ≡ Ignores other → session.waits ≡ None }
    ensures lost { (nonce : List ℕ) (session : State) (other : Input) → (stepped nonce session Input.NoAnswer).effect ≡ Ignores other → session.waits ≡ None }
{}
