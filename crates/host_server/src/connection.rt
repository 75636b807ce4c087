//! A connection served to its end.
ghost use Rattle.std.specs.Prelude.{◌≡◌, ◌≢◌, ◌≤◌, ◌<◌, ◌+◌, ◌==◌, Err, true, false};
ghost use Rattle.host_core.specs.Caller.{Extends};
ghost use Rattle.std.specs.Io.KnownBytes.{prepend_known};
ghost use Rattle.outside.specs.Faults.{Rose};
ghost use Rattle.wopi_model.specs.Moment.{IsMoment};
ghost use Rattle.access_tokens.specs.Remembering.{Remembers};
ghost use Rattle.wopi_http.specs.Cuts.{IsPrompt};
ghost use Rattle.host_server.specs.Connection.{message_limit, is_last, Serves};
ghost use Rattle.host_server.specs.Editing.{asks_options};
ghost use Rattle.host_server.specs.Keeping.{AreTold, KeepsTold};
ghost use Rattle.host_server.specs.Steps.{Prepares, Replies, Steps, as_unsent, broken};
ghost use Rattle.host_server.specs.Texts.{shown};

use crate::answering::answer_again;
use crate::desk::Desk;
use crate::editing::{asks_head, asks_options, judged_as};
use crate::kept::Kept;
use crate::sending::{send, send_bare, send_options};
use host_core::Lister;
use outside::{Clock, Failed, Link};
use std::alloc::Global;
use wopi_headers::take_reply;
use wopi_http::{Buffer, Got, Reply, Request, closes, read_request};
use wopi_text::{Bytes, Memory};

/// The most messages of a connection.
pub const MESSAGE_LIMIT: usize = 10_000;

/// How a connection ended.
#[derive(Clone, Copy, Debug, PartialEq, Eq)]
pub enum ConnEnd {
    /// The input was read to its end, or a refusal or a closing reply was written.
    Done,
    ReadFault,
    WriteFault,
    /// A store was lost, so that what was made may not be told. Of the last reply nothing was written.
    Lost,
    /// There was no memory to begin.
    Memory,
}

/// Why a reply wasn't written whole.
#[derive(Clone, Copy, Debug, PartialEq, Eq)]
enum Unsent {
    Fault,
    /// What was made may not be told. Nothing of it was written.
    Lost,
}

/// Whether a connection goes on after a message.
#[derive(Clone, Copy, Debug, PartialEq, Eq)]
pub enum Progress {
    On,
    Over(ConnEnd),
}

/// Whether the message behind so many others closes.
fn is_last(count: usize, request: &Request) -> bool
    requires { count < message_limit }
    ensures { result ≡ is_last count request.now }
{
    closes(request) || count + 1 == MESSAGE_LIMIT
}

/// A reply, by whether its body is left out.
fn shown(alloc: Global, head: bool, reply: Reply) -> Reply
    ensures { result ≡ shown head reply }
{
    if head {
        Reply {
            status: reply.status,
            fields: reply.fields,
            body: Bytes::from_vec(Vec::new(alloc)),
        }
    } else {
        reply
    }
}

/// The reply to a message that asks for no methods, or none where there is no memory for one.
fn reply_to<C: Lister>(
    alloc: Global,
    caller: &mut C,
    desk: &Desk,
    kept: &mut Kept,
    request: Request,
    moment: u64,
    close: bool,
) -> Option<Reply>
    requires moment { IsMoment moment }
    requires asked { asks_options desk.now.editor request ≡ false }
    requires remembers { Remembers desk.now.keys kept.old.recent }
    ensures telling { KeepsTold C.loses (C.telling caller.old) (C.telling caller.new) (C.sight caller.old) (C.sight caller.new) }
    ensures basis { C.basis caller.new ≡ C.basis caller.old }
    ensures lent { C.references caller.new ≡ C.references caller.old }
    ensures makes { Prepares desk.now C.always request moment close (C.sight caller.old) (C.sight caller.new) result }
    ensures remembers { Remembers desk.now.keys kept.new.recent }
{
    let head = asks_head(desk.editor, &request);
    let judged = judged_as(desk.editor, request);
    let mut told = answer_again(alloc, caller, desk, desk.editor, kept, judged, moment);
    match &mut told {
        Ok(answer) => match take_reply(alloc, answer, close) {
            Ok(reply) => Some(shown(alloc, head, reply)),
            Err(Memory) => None,
        },
        Err(Memory) => None,
    }
}

/// What came of sending a reply.
fn as_unsent(sent: Result<(), Failed>) -> Result<(), Unsent>
    ensures { result ≡ as_unsent sent }
{
    match sent {
        Ok(()) => Ok(()),
        Err(Failed) => Err(Unsent::Fault),
    }
}

/// How a connection ends where a reply wasn't written whole.
fn broken(unsent: Unsent) -> ConnEnd
    ensures { result ≡ broken unsent }
{
    match unsent {
        Unsent::Fault => ConnEnd::WriteFault,
        Unsent::Lost => ConnEnd::Lost,
    }
}

/// Answers a message.
fn answer_message<C: Lister, L: Link, K: Clock>(
    alloc: Global,
    caller: &mut C,
    desk: &Desk,
    kept: &mut Kept,
    link: &mut L,
    clock: &mut K,
    request: Request,
    close: bool,
) -> Result<(), Unsent>
    requires { Remembers desk.now.keys kept.old.recent }
    ensures extends { Extends (C.sight caller.old).told (C.sight caller.new).told }
    ensures sure { result ≢ Err Unsent.Lost → AreTold (C.sight caller.old) → AreTold (C.sight caller.new) }
    ensures telling { result ≢ Err Unsent.Lost → C.telling caller.old ≡ true → C.telling caller.new ≡ true }
    ensures lost { result ≡ Err Unsent.Lost → (C.telling caller.new ≡ false) × (L.held link.new ≡ L.held link.old) }
    ensures cause { result ≡ Err Unsent.Lost → C.telling caller.old ≡ true → C.loses ≡ true }
    ensures basis { C.basis caller.new ≡ C.basis caller.old }
    ensures lent { C.references caller.new ≡ C.references caller.old }
    ensures replies { Replies desk.now C.always request close (K.moments clock.old) (K.moments clock.new)
        (C.sight caller.old) (C.sight caller.new) (L.held link.old) (L.held link.new) result }
    ensures left { L.left link.new ≡ L.left link.old }
    ensures read_faults { L.read_faults link.new ≡ L.read_faults link.old }
    ensures references { L.references link.new ≡ L.references link.old }
    ensures never_falls { L.write_faults link.old ≤ L.write_faults link.new }
    ensures failed { result ≡ Err Unsent.Fault → Rose (L.write_faults link.old) (L.write_faults link.new) }
    ensures remembers { Remembers desk.now.keys kept.new.recent }
{
    let moment = clock.now();
    if asks_options(desk.editor, &request) {
        return as_unsent(send_options(link, close));
    }
    let reply = reply_to(alloc, caller, desk, kept, request, moment, close);
    if caller.is_telling() {
        return as_unsent(send(link, reply, close));
    }
    Err(Unsent::Lost)
}

/// Reads a message behind so many others, and answers it.
fn serve_one<C: Lister, L: Link, K: Clock>(
    alloc: Global,
    caller: &mut C,
    desk: &Desk,
    kept: &mut Kept,
    link: &mut L,
    clock: &mut K,
    buffer: &mut Buffer,
    count: usize,
) -> Progress
    requires count { count < message_limit }
    requires remembers { Remembers desk.now.keys kept.old.recent }
    ensures basis { C.basis caller.new ≡ C.basis caller.old }
    ensures lent { C.references caller.new ≡ C.references caller.old }
    ensures steps { Steps desk.now C.always count (prepend_known buffer.old (L.left link.old)) (prepend_known buffer.new (L.left link.new))
        (K.moments clock.old) (K.moments clock.new) (C.sight caller.old) (C.sight caller.new) (L.held link.old) (L.held link.new) result }
    ensures prompt { result ≡ Progress.Over ConnEnd.ReadFault
        → IsPrompt (prepend_known buffer.old (L.left link.old)) (L.left link.new) (L.held link.old) (L.held link.new) }
    ensures fine { result ≢ Progress.Over ConnEnd.ReadFault → L.read_faults link.new ≡ L.read_faults link.old }
    ensures references { L.references link.new ≡ L.references link.old }
    ensures reads_count { L.read_faults link.old ≤ L.read_faults link.new }
    ensures writes_count { L.write_faults link.old ≤ L.write_faults link.new }
    ensures extends { Extends (C.sight caller.old).told (C.sight caller.new).told }
    ensures sure { result ≢ Progress.Over ConnEnd.Lost → AreTold (C.sight caller.old) → AreTold (C.sight caller.new) }
    ensures telling { result ≢ Progress.Over ConnEnd.Lost → C.telling caller.old ≡ true → C.telling caller.new ≡ true }
    ensures lost { result ≡ Progress.Over ConnEnd.Lost → C.telling caller.new ≡ false }
    ensures cause { result ≡ Progress.Over ConnEnd.Lost → C.telling caller.old ≡ true → C.loses ≡ true }
    ensures read_fault { result ≡ Progress.Over ConnEnd.ReadFault → Rose (L.read_faults link.old) (L.read_faults link.new) }
    ensures write_fault { result ≡ Progress.Over ConnEnd.WriteFault → Rose (L.write_faults link.old) (L.write_faults link.new) }
    ensures remembers { Remembers desk.now.keys kept.new.recent }
{
    match read_request(link, buffer) {
        Got::Message(request) => {
            let close = is_last(count, &request);
            match answer_message(alloc, caller, desk, kept, link, clock, request, close) {
                Ok(()) => {
                    if close {
                        Progress::Over(ConnEnd::Done)
                    } else {
                        Progress::On
                    }
                }
                Err(unsent) => Progress::Over(broken(unsent)),
            }
        }
        Got::End => Progress::Over(ConnEnd::Done),
        Got::Refused { status, at: _ } => match send_bare(link, status, true) {
            Ok(()) => Progress::Over(ConnEnd::Done),
            Err(Failed) => Progress::Over(ConnEnd::WriteFault),
        },
        Got::ReadFault => Progress::Over(ConnEnd::ReadFault),
        Got::WriteFault => Progress::Over(ConnEnd::WriteFault),
        Got::Memory => match send_bare(link, 503, true) {
            Ok(()) => Progress::Over(ConnEnd::Done),
            Err(Failed) => Progress::Over(ConnEnd::WriteFault),
        },
    }
}

/// Answers the messages of a link in their order. Where a store is lost, no reply to the message at hand is written. To save computing its code, a token whose text is
/// remembered isn't read anew.
pub fn serve_connection<C: Lister, L: Link, K: Clock>(
    alloc: Global,
    caller: &mut C,
    desk: &Desk,
    link: &mut L,
    clock: &mut K,
) -> ConnEnd
    // What was read, written and done is a connection that ended so. At a read that fails, and so at each read,
    // every message that was read was answered, none of them closes, and nothing is owed for the rest.
    ensures serves { Serves desk.now C.always result (L.left link.old) (L.left link.new) (K.moments clock.old) (K.moments clock.new)
        (C.sight caller.old) (C.sight caller.new) (L.held link.old) (L.held link.new) }

    // No read that failed is passed over.
    ensures fine { result ≢ ConnEnd.ReadFault → L.read_faults link.new ≡ L.read_faults link.old }

    ensures basis { C.basis caller.new ≡ C.basis caller.old }
    ensures lent { C.references caller.new ≡ C.references caller.old }
    ensures references { L.references link.new ≡ L.references link.old }
    ensures reads_count { L.read_faults link.old ≤ L.read_faults link.new }
    ensures writes_count { L.write_faults link.old ≤ L.write_faults link.new }

    // The causes of the ends.
    ensures read_fault { result ≡ ConnEnd.ReadFault → Rose (L.read_faults link.old) (L.read_faults link.new) }
    ensures write_fault { result ≡ ConnEnd.WriteFault → Rose (L.write_faults link.old) (L.write_faults link.new) }
    ensures nothing_read { result ≡ ConnEnd.Memory → L.left link.new ≡ L.left link.old }
    ensures lost { result ≡ ConnEnd.Lost → C.telling caller.new ≡ false }
    ensures lost_cause { result ≡ ConnEnd.Lost → C.telling caller.old ≡ true → C.loses ≡ true }

    // Where no store was lost, all that was made may be told.
    ensures sure { result ≢ ConnEnd.Lost → AreTold (C.sight caller.old) → AreTold (C.sight caller.new) }
    ensures telling { result ≢ ConnEnd.Lost → C.telling caller.old ≡ true → C.telling caller.new ≡ true }
{
    let Ok(mut buffer) = Buffer::new(alloc) else {
        return ConnEnd::Memory;
    };
    let mut kept = Kept::new(alloc);
    'messages: for count in 0..MESSAGE_LIMIT {
        match serve_one(
            alloc,
            caller,
            desk,
            &mut kept,
            link,
            clock,
            &mut buffer,
            count,
        ) {
            Progress::On => {}
            Progress::Over(end) => return end,
        }
    }
    unreachable!()
}
