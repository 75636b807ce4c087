//! What holds of both ends, as contracts of functions that do nothing.
ghost use Rattle.std.specs.List.{AllByRecursion};
ghost use Rattle.std.specs.Prelude.{◌≡◌, ◌++◌, ◌∷◌, ◌<◌, ◌≤◌, ℕ, Bool, List, length, map, None, Option, Result, Some};
ghost use Rattle.outside.specs.declared.dialer.Exchange.{Exchange};
ghost use Rattle.wopi_http.specs.Limits.{body_limit};
ghost use Rattle.wopi_http.specs.Replies.{phrase_of};
ghost use Rattle.wopi_headers.specs.declared.answer.Answer.{Answer};
ghost use Rattle.wopi_headers.specs.declared.ask.Op.{Op};
ghost use Rattle.wopi_headers.specs.AnswerReads.{IsAnswer, told};
ghost use Rattle.wopi_headers.specs.Known.{known_in};
ghost use Rattle.wopi_headers.specs.Operations.{AsksFor};
ghost use Rattle.wopi_headers.specs.Requests.{IsReadable};
ghost use Rattle.save_session.specs.declared.input.Input.{Input};
ghost use Rattle.save_session.specs.declared.output.Outcome.{Outcome};
ghost use Rattle.save_session.specs.declared.state.SessionOp.{SessionOp};
ghost use Rattle.save_session.specs.declared.state.State.{State};
ghost use Rattle.wopi_client.specs.declared.desktop.Desktop.{Desktop};
ghost use Rattle.wopi_client.specs.declared.driving.DriveFault.{DriveFault};
ghost use Rattle.wopi_client.specs.Asking.{TellsAnswer};
ghost use Rattle.wopi_client.specs.Talk.{Talk, Drive};
ghost use Rattle.grid_editor.specs.declared.command.Command.{Command};
ghost use Rattle.grid_editor.specs.declared.editor.Editor.{Editor};
ghost use Rattle.grid_editor.specs.declared.turns.EditFault.{EditFault};
ghost use Rattle.grid_editor.specs.declared.turns.Went.{Went};
ghost use Rattle.grid_editor.specs.Runs.{Runs};
ghost use Rattle.host_server.specs.declared.connection.ConnEnd.{ConnEnd};
ghost use Rattle.host_server.specs.declared.desk.Desk.{Desk};
ghost use Rattle.host_server.specs.Connection.{IsConnEnd};
ghost use Rattle.host_server.specs.Deeds.{Deed, made};
ghost use Rattle.host_server.specs.Texts.{answer_text};
ghost use Rattle.host_server.specs.Turns.{Turn, IsTurn};
ghost use Rattle.wopi_model.specs.Host.{LegalHost, part_of, opening_of};
ghost use Rattle.wopi_model.specs.Shard as shard;
ghost use Rattle.wopi_model.specs.Shard.{Opening, Entry, Legal, opened_shard};
ghost use Rattle.wopi_world.specs.History.{Item, Ran, Along, IsAllowed};
ghost use Rattle.wopi_world.specs.Requests.{Client, Sent, body};
ghost use Rattle.wopi_world.specs.Safe.{KeepsAll, TellsAll};
ghost use Rattle.wopi_world.specs.Talks.{Speaker, IsNoReply, LooksSame, IsTalkOver, RestartsLater, IsSafeFor, first_speaker, told_by};
ghost use Rattle.wopi_ends.specs.Crossing.{AreExchangedOver};
ghost use Rattle.wopi_ends.specs.Hearing.{Spoken, Ending, behind_all, Hears, IsReplyHeard, IsTalkHeard, IsDriveHeard, IsEditorOf, IsScriptHeard};
ghost use Rattle.wopi_ends.specs.Messages.{IsAt, ask_of, bytes_of, IsOwnTurn};
ghost use Rattle.wopi_ends.specs.Restarts.{Journal, IsLegal, OpenInTurn, start_in, history_over};
ghost use Rattle.wopi_ends.specs.Sources.{IsOfMessage};

use access_tokens::laws::a_text_has_one_reading;
use wopi_headers::{
    a_refused_request_asks_for_nothing, a_request_asks_for_one_thing,
    a_request_for_a_file_is_not_for_the_container, an_answer_comes_back, what_is_asked_is_read,
    what_is_replied_is_read,
};
use wopi_http::{bytes_begin_with_one_reply, no_message_begins_another};
use wopi_world::laws::talks_over_journals_are_safe;

/// A talk of a client is heard by its session: each exchange has the bytes of the request that the
/// session sends then, what is read of its reply is the session's next input, and the talk's outcome
/// is the one that the session tells.
pub fn a_talk_is_heard()
    ensures { (desktop : Desktop) (client : Client) (speaker : Speaker) (input : Input) (exchanges : List Exchange) (left : State) (result : Result Outcome DriveFault) →
        IsNoReply input → Talk desktop client.nonce speaker.session input exchanges left result → IsTalkHeard desktop client speaker exchanges left result }
{}

/// The same of a drive, which is one talk or two.
pub fn a_drive_is_heard()
    ensures { (desktop : Desktop) (client : Client) (speaker : Speaker) (input : Input) (left : State) (result : Result Outcome DriveFault) (exchanges : List Exchange) →
        IsNoReply input → Drive desktop client.nonce speaker.session input left result exchanges → IsDriveHeard desktop client speaker exchanges left result }
{}

/// What an editor's script exchanges with a host is heard by its session, drive after drive, while of
/// a copy it hears nothing; each command's line tells what the session told of that command's
/// exchanges. Where the script ended well, or with a fault of writing, no reply is passed over.
pub fn a_script_is_heard()
    ensures heard { (desktop : Desktop) (client : Client) (speaker : Speaker) (old : Editor) (asked : List Command) (new : Editor) (result : Result Went EditFault) (written : List ℕ)
        (exchanges : List Exchange) → IsEditorOf desktop client speaker old → Runs old asked new result written exchanges →
        IsScriptHeard desktop client speaker old asked new result written exchanges }
    ensures none_is_passed_over { (desktop : Desktop) (client : Client) (speaker : Speaker) (spoken : List Spoken) (heard : List Input) →
        Hears desktop client behind_all speaker spoken heard → AllByRecursion (IsReplyHeard client heard) spoken }
{}

/// A message of just the bytes of a session's request, within the limits of a host, asks for what the
/// request asks for, with its body; and it doesn't say when the file was last saved.
pub fn own_bytes_ask_the_same()
    ensures asks { (desk : Desk) (desktop : Desktop) (client : Client) (sent : Sent) (t : Turn) → IsReadable (ask_of desktop client sent) desktop.authority (body sent) →
        IsTurn desk t → t.bytes ≡ bytes_of desktop client sent → AsksFor t.request (ask_of desktop client sent) × (t.request.body ≡ body sent) }
    ensures says_no_moment { (desk : Desk) (desktop : Desktop) (client : Client) (sent : Sent) (t : Turn) → IsReadable (ask_of desktop client sent) desktop.authority (body sent) →
        IsTurn desk t → t.bytes ≡ bytes_of desktop client sent → known_in t.request.fields ≡ Some None }
{
    what_is_asked_is_read();
    no_message_begins_another();
}

/// A message that a host answers, and that asks for what a session's request asks for, with its body,
/// makes no entry, or the one of the session's call; and the answer looks to the session like what
/// tells that entry, or is neither 200 nor 409 where there is none. Only where the request is a Put, and the
/// message says when the file was last saved, may it make a look at the file's lock in place of that
/// entry; and then the answer tells that the file was changed, and of the lock.
pub fn own_messages_make_own_entries()
    ensures { (desk : Desk) (desktop : Desktop) (client : Client) (sent : Sent) (t : Turn) → IsAt desk.keys desktop client →
        AsksFor t.request (ask_of desktop client sent) → t.request.body ≡ body sent → IsTurn desk t → IsOwnTurn client sent t }
{
    a_request_asks_for_one_thing();
    a_refused_request_asks_for_nothing();
    a_request_for_a_file_is_not_for_the_container();
    a_text_has_one_reading();
}

/// Each entry that a host made on a connection was made for a message of that connection, and is
/// among the deeds that were done for it.
pub fn entries_come_of_messages()
    ensures { (desk : Desk) (end : ConnEnd) (input : List ℕ) (left : Option (List ℕ)) (moments : List ℕ) (deeds : List Deed) (output : List ℕ) →
        IsConnEnd desk end input left moments deeds output →
        AllByRecursion (IsOfMessage desk input deeds) (made deeds) }
{}

/// Of the bytes that a host wrote for an answer a client reads just that answer, whatever follows; so
/// a session sees of it what was said.
pub fn what_was_said_is_read()
    ensures told { (op : Op) (a got : Answer) (close : Bool) (more : List ℕ) → IsAnswer a → 0 < length (phrase_of a.status) → length a.body ≤ body_limit →
        TellsAnswer op (answer_text a close ++ more) got → got ≡ told a }
    ensures looks { (op : Op) (a got : Answer) (close : Bool) (more : List ℕ) (asked : SessionOp) → IsAnswer a → 0 < length (phrase_of a.status) → length a.body ≤ body_limit →
        TellsAnswer op (answer_text a close ++ more) got → LooksSame asked got a }
{
    an_answer_comes_back();
    what_is_replied_is_read();
    bytes_begin_with_one_reply();
}

/// Where a client's exchanges and a shard's history stand in an order that is true of time, with the
/// messages of the requests behind them and before the replies that were taken of them, what the
/// client's session heard is a talk over that history. So it is safe for the session: what it told as
/// saved was accepted with the contents that its Put carried and that version, and these contents are
/// replaced only by its later save or after its lock ended, never by its earlier one.
pub fn both_ends_are_safe()
    ensures talk { (desktop : Desktop) (client : Client) (ending : Ending) (spoken : List Spoken) (heard : List Input) (history : List Item) →
        Hears desktop client ending first_speaker spoken heard → AreExchangedOver desktop client spoken history → IsTalkOver client heard history }
    ensures shard { (desktop : Desktop) (client : Client) (ending : Ending) (spoken : List Spoken) (heard : List Input) (opening : Opening) (opened first : ℕ) (history : List shard.Item) →
        Legal opening opened first history → Hears desktop client ending first_speaker spoken heard → AreExchangedOver desktop client spoken (map Ran history) →
        IsSafeFor client (told_by client heard) (opened_shard opening opened first) (map Ran history) }
    ensures host { (desktop : Desktop) (client : Client) (ending : Ending) (spoken : List Spoken) (heard : List Input) (opening : Opening) (opened first : ℕ) (merge : List Entry) (shard : ℕ) →
        shard < 16 → LegalHost opening opened first merge → Hears desktop client ending first_speaker spoken heard → AreExchangedOver desktop client spoken (map Ran (part_of shard merge)) →
        IsSafeFor client (told_by client heard) (opened_shard (opening_of shard opening) opened first) (map Ran (part_of shard merge)) }
{
    own_messages_make_own_entries();
    talks_over_journals_are_safe();
}

/// All this holds over restarts of the host too, whatever version each begins with: the next one, or one
/// above it, as an operator gives who leaves some out. It holds of each history of a shard whose rulings
/// are outcomes of their steps and whose restarts are later than all before: contents change and
/// conflicts are told as in one run, and a restart changes none; and a talk over it is safe. So it holds
/// of the journals of hosts that had a folder one after another, of which each opened later than all
/// that happened before, over the contents that the one before had left.
pub fn restarts_begin_at_any_version()
    ensures items { (opening : Opening) (opened first : ℕ) (history : List Item) → Along IsAllowed (opened_shard opening opened first) history →
        Along KeepsAll (opened_shard opening opened first) history × Along TellsAll (opened_shard opening opened first) history }
    ensures talk { (opening : Opening) (opened first : ℕ) (client : Client) (heard : List Input) (history : List Item) →
        Along IsAllowed (opened_shard opening opened first) history → RestartsLater client history → IsTalkOver client heard history →
        IsSafeFor client (told_by client heard) (opened_shard opening opened first) history }
    ensures journals { (desktop : Desktop) (client : Client) (ending : Ending) (spoken : List Spoken) (heard : List Input) (journal : Journal) (later : List Journal) (shard : ℕ) →
        shard < 16 → AllByRecursion IsLegal (journal ∷ later) → OpenInTurn shard journal later → RestartsLater client (history_over shard journal later) →
        Hears desktop client ending first_speaker spoken heard → AreExchangedOver desktop client spoken (history_over shard journal later) →
        IsSafeFor client (told_by client heard) (start_in shard journal) (history_over shard journal later) }
{
    both_ends_are_safe();
}
