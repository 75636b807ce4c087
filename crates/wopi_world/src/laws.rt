//! What holds of every world, as contracts of functions that do nothing.
ghost use Rattle.std.specs.List.{slice_get};
ghost use Rattle.std.specs.Prelude.{◌≡◌, ◌≢◌, ℕ, ◌<◌, List, map, Some};
ghost use Rattle.wopi_model.specs.Shard.{Shard, Opening, Item, Step, Entry, Legal, opening_file, opened_shard, entries};
ghost use Rattle.wopi_model.specs.Host.{LegalHost, part_of, opening_of};
ghost use Rattle.save_session.specs.declared.input.Input.{Input};
ghost use Rattle.wopi_world.specs.Foreign.{SavesStand};
ghost use Rattle.wopi_world.specs.History.{Ran, IsNextFirst, restarted, after};
ghost use Rattle.wopi_world.specs.History as world;
ghost use Rattle.wopi_world.specs.Journals.{events_of, AreSameItems, AreCounted};
ghost use Rattle.wopi_world.specs.Requests.{Client, Sent, PresentsNone, call_of};
ghost use Rattle.wopi_world.specs.World.{Setting, World, Event, IsSameHistory, comes, first_shard, next_first, run};
ghost use Rattle.wopi_world.specs.World as event;
ghost use Rattle.wopi_world.specs.Valid.{IsValid};
ghost use Rattle.wopi_world.specs.Safe.{IsSafe};
ghost use Rattle.wopi_world.specs.Sessions.{KeepsIds, StandsInOneRun};
ghost use Rattle.wopi_world.specs.Talks.{IsTalkOver, RestartsLater, IsSafeFor, told_by};

/// In a valid world, whatever is delivered, lost, repeated, delayed or expires, non-empty contents
/// change only under the lock that is held or, where none is, by a Create that overwrites or a
/// Delete; and what was acknowledged to a session is replaced only by its later save, or after its
/// lock has ended. What was told as saved was accepted with the contents that its Put carried.
pub fn safe_always()
    ensures { (setting : Setting) (events : List Event) → IsValid setting events → IsSafe setting (run setting events) }
{}

/// The history of a valid world is one that a shard may have over restarts. A world's history leaves
/// its shard, and its next first version is one more than the greatest of all its versions.
pub fn worlds_are_legal()
    ensures legal { (setting : Setting) (events : List Event) → IsValid setting events →
        world.Legal setting.opening setting.opened setting.first (run setting events).history }
    ensures leaves { (setting : Setting) (events : List Event) →
        after (first_shard setting) (run setting events).history ≡ (run setting events).shard }
    ensures next { (setting : Setting) (events : List Event) →
        IsNextFirst (run setting events).shard (next_first setting (run setting events)) }
{}

/// A restart leaves the shard that opens then with the contents that are there: each file begins
/// again, without a lock, and each other name is as one that was never met.
pub fn restarts_open_anew()
    ensures { (shard : Shard) (opening : Opening) (moment first : ℕ) →
        ((name : List ℕ) → (opening_file first opening name).contents ≡ (shard.files name).contents) →
        restarted shard moment first ≡ opened_shard opening moment first }
{}

/// In a valid world a session's lock leaves its id spent for as long as the session's token lives,
/// and an id that was held is held still or spent as long, unless a restart has ended the token.
pub fn ended_is_spent()
    ensures { (setting : Setting) (events : List Event) (s : ℕ) (client : Client) → IsValid setting events → slice_get setting.clients s ≡ Some client →
        KeepsIds client (first_shard setting) (run setting events).history }
{}

/// In a valid world all accepted requests of a session stand between the same two restarts.
pub fn between_restarts()
    ensures { (setting : Setting) (events : List Event) (s : ℕ) (client : Client) → IsValid setting events → slice_get setting.clients s ≡ Some client →
        StandsInOneRun client (run setting events).history }
{}

/// A delivery of a session's request leaves what the entry of its one call leaves.
pub fn deliver_is_entry()
    ensures { (setting : Setting) (world : World) (place moment s : ℕ) (sent : Sent) (client : Client) →
        slice_get world.requests place ≡ Some (record { sender = s; op = sent }) → slice_get setting.clients s ≡ Some client →
        IsSameHistory (comes setting world (event.Deliver place moment)) (comes setting world (event.Entry (call_of client sent) moment)) }
{}

/// A legal history of one shard is, but for stamps and the numbers of passes, that of the world
/// whose events are its ticks and entries. So each shard's part of a journal is one of a world.
pub fn entries_run()
    ensures { (setting : Setting) (history : List Item) → Legal setting.opening setting.opened setting.first history →
        AreSameItems history (run setting (events_of history)).history }
{}

/// A legal history whose stamps count its entries, and which has no other pass than 0, is that
/// world's history to the last field.
pub fn counted_entries_run()
    ensures { (setting : Setting) (history : List Item) → Legal setting.opening setting.opened setting.first history → AreCounted 0 (entries history) →
        map Ran history ≡ (run setting (events_of history)).history }
{}

/// Where the inputs that a session heard and the items of a legal history stand in an order that is
/// true of time, the history is safe for the session: what it told as saved was accepted with the
/// contents that its Put carried and that version, and these contents are replaced only by its later
/// save or after its lock ended, never by its earlier one.
pub fn talks_are_safe()
    ensures { (opening : Opening) (opened first : ℕ) (client : Client) (heard : List Input) (history : List world.Item) →
        world.Legal opening opened first history → RestartsLater client history → IsTalkOver client heard history →
        IsSafeFor client (told_by client heard) (opened_shard opening opened first) history }
{}

/// The same of a history of one shard in which no host restarts, and of each shard's part of a
/// journal.
pub fn talks_over_journals_are_safe()
    ensures shard { (opening : Opening) (opened first : ℕ) (history : List Item) (client : Client) (heard : List Input) → Legal opening opened first history →
        IsTalkOver client heard (map Ran history) → IsSafeFor client (told_by client heard) (opened_shard opening opened first) (map Ran history) }
    ensures host { (opening : Opening) (opened first : ℕ) (merge : List Entry) (shard : ℕ) (client : Client) (heard : List Input) → shard < 16 →
        LegalHost opening opened first merge → IsTalkOver client heard (map Ran (part_of shard merge)) →
        IsSafeFor client (told_by client heard) (opened_shard (opening_of shard opening) opened first) (map Ran (part_of shard merge)) }
{}

/// Each session of a valid world is a talk over the world's history: it heard some inputs, told just
/// what a session tells that heard them, and the order of the two is true of time.
pub fn sessions_are_talks()
    ensures { (setting : Setting) (events : List Event) (s : ℕ) (client : Client) → IsValid setting events → slice_get setting.clients s ≡ Some client →
        (heard : List Input) × IsTalkOver client heard (run setting events).history × (told_by client heard ≡ ((run setting events).members s).told) }
{}

/// What comes of one session's requests presents none of another's ids on the other's file, where
/// sessions of one file have different nonces.
pub fn sessions_are_apart()
    ensures { (client other : Client) (sent : Sent) → (client.token.file ≡ other.token.file → client.nonce ≢ other.nonce) → PresentsNone client (call_of other sent) }
{}

/// In each shard's part of a journal, whoever asked: what was saved under a lock id while it was held
/// stands until the next save under that id or until it isn't held any more; and from then on no act
/// that presents the id is accepted, under the save's token or one that expires earlier. So one who
/// alone presents an id, and saves under it only while it is held, has these saves in their order.
pub fn saves_stand_under_any_id()
    ensures { (opening : Opening) (opened first : ℕ) (merge : List Entry) (shard : ℕ) (name id : List ℕ) → shard < 16 → LegalHost opening opened first merge →
        SavesStand name id (opened_shard (opening_of shard opening) opened first) (part_of shard merge) }
{}
