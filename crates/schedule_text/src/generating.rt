//! Schedules from two numbers.
ghost use Rattle.std.specs.Prelude.{◌≡◌, ◌<◌, ◌≤◌, ◌*◌, ◌^◌, ◌∷◌, [], length, decimal, IfOk, OnOk, IfSome};
ghost use Rattle.wopi_text.specs.FileName.{IsFileName};
ghost use Rattle.schedule_text.specs.Generator.{next, drawn, pair_at, event_drawn, events_drawn, sessions_from, generated, a_csv};

use crate::drawing::Drawn;
use crate::schedule::{EventLine, FileLine, Reference, Schedule, SessionLine, Wish};
use arrayvec::ArrayVec;
use itoa::Buffer;
use save_session::Nonce;
use std::alloc::Global;
use wopi_text::{Bytes, FileName, Memory};

/// How many sessions there are.
const SESSIONS: u64 = 64;

/// The number that comes after another.
fn next(x: u64) -> u64
    ensures { result ≡ next x }
{
    let product = u128::from(x) * 6_364_136_223_846_793_005 + 1_442_695_040_888_963_407;
    (product % 18_446_744_073_709_551_616) as u64
}

/// What is drawn of a number.
fn drawn(x: u64, below: u64) -> u64
    requires { 0 < below }
    ensures value { result ≡ drawn x below }
    ensures small { result < below }
{
    x / 8_589_934_592 % below
}

fn pair_at(i: u64, count: u64) -> u64
    requires { i < 10000 }
    ensures { result ≡ pair_at i count }
{
    2 * (i / (count / 32 + 1))
}

fn save(alloc: Global, session: u64, byte: u64) -> Result<EventLine, Memory>
    requires { byte < 256 }
    ensures { IfOk result (λ event. event ≡ EventLine.Asks session (Wish.Save (byte ∷ []))) }
{
    let contents = Bytes::from_slice(alloc, &[byte as u8])?;
    Ok(EventLine::Asks {
        session,
        wish: Wish::Save(contents),
    })
}

fn asks(session: u64, wish: Wish) -> EventLine
    ensures { result ≡ EventLine.Asks session wish }
{
    EventLine::Asks { session, wish }
}

/// An event that leaves the moment so, where `x` was drawn last.
fn at(x: u64, moment: u64, event: EventLine) -> Drawn
    ensures { result ≡ record { x = x; moment = moment; event = event } }
{
    Drawn { x, moment, event }
}

/// An event by its draw below 8; `x` is the number that was drawn last.
fn event_drawn(
    alloc: Global,
    i: u64,
    count: u64,
    x: u64,
    moment: u64,
    choice: u64,
) -> Result<Drawn, Memory>
    requires early { i < 10000 }
    requires moment { moment < 2 ^ 63 }
    ensures { IfOk result (λ one. one ≡ event_drawn i count x moment choice) }
{
    let first = next(x);
    let second = next(first);
    let session = pair_at(i, count) + drawn(first, 2);
    if choice == 0 {
        return Ok(at(first, moment, asks(session, Wish::Start)));
    }
    if choice == 1 {
        let event = save(alloc, session, drawn(second, 256))?;
        return Ok(at(second, moment, event));
    }
    if choice == 2 {
        return Ok(at(first, moment, asks(session, Wish::Refresh)));
    }
    if choice == 5 {
        let reply = Reference::Last(1);
        return Ok(at(x, moment, EventLine::Answer { reply }));
    }
    if choice == 6 {
        return Ok(at(first, moment, EventLine::Lose { session }));
    }
    if choice == 7 {
        let moment = moment + drawn(first, 400_000);
        return Ok(at(first, moment, EventLine::Ticks { moment }));
    }
    let moment = moment + drawn(second, 60_000);
    let event = EventLine::Deliver {
        request: Reference::Last(drawn(first, 3) + 1),
        moment,
    };
    Ok(at(second, moment, event))
}

/// So many events.
fn events_of(alloc: Global, seed: u64, count: u64) -> Result<Vec<EventLine>, Memory>
    requires { count ≤ 10000 }
    ensures { IfOk result (λ events. events.items ≡ events_drawn count 0 count seed 0) }
{
    let mut events: Vec<EventLine> = Vec::new(alloc);
    let mut x = seed;
    let mut moment = 0u64;
    let mut i = 0u64;
    'events: while i < count {
        let chosen = next(x);
        let one = event_drawn(alloc, i, count, chosen, moment, drawn(chosen, 8))?;
        x = one.x;
        moment = one.moment;
        events.push(one.event)?;
        i += 1;
    }
    Ok(events)
}

/// The name of the one file.
fn name() -> Result<FileName, Memory>
    ensures name { IfOk result (λ name. name ≡ a_csv) }
    ensures form { OnOk result (IsFileName a_csv) }
{
    match FileName::read(b"a.csv") {
        Ok(name) => Ok(name),
        Err(_) => Err(Memory),
    }
}

/// The nonce of the session with that number.
fn nonce_of(number: u64) -> Option<Nonce>
    ensures { IfSome result (λ nonce. nonce ≡ 110 ∷ decimal number) }
{
    let mut digits = Buffer::new();
    let mut bytes: ArrayVec<u8, 32> = ArrayVec::new();
    bytes.push(b'n');
    let Ok(()) = bytes.try_extend_from_slice(digits.format(number).as_bytes()) else {
        return None;
    };
    Nonce::read(bytes.as_slice())
}

/// The sessions.
#[tactic(auto, unfolding(crate::specs::Generator::sessions_from))]
fn sessions_of(alloc: Global) -> Result<Vec<SessionLine>, Memory>
    ensures { IfOk result (λ sessions. sessions.items ≡ sessions_from 64 1) }
{
    let mut sessions: Vec<SessionLine> = Vec::new(alloc);
    let mut number = 1u64;
    'sessions: while number <= SESSIONS {
        let Some(nonce) = nonce_of(number) else {
            return Err(Memory);
        };
        let file = name()?;
        sessions.push(SessionLine {
            file,
            nonce,
            expires: 9_000_000_000,
            issued: 0,
        })?;
        number += 1;
    }
    Ok(sessions)
}

fn files_of(alloc: Global) -> Result<Vec<FileLine>, Memory>
    ensures files { IfOk result (λ files. files.items ≡ record { name = a_csv; contents = 49 ∷ 44 ∷ 50 ∷ 10 ∷ [] } ∷ []) }
    ensures form { OnOk result (IsFileName a_csv) }
{
    let mut files: Vec<FileLine> = Vec::new(alloc);
    let contents = Bytes::from_slice(alloc, b"1,2\n")?;
    let name = name()?;
    files.push(FileLine { name, contents })?;
    Ok(files)
}

/// A large valid schedule from two numbers.
pub fn generate(alloc: Global, seed: u64, count: u32) -> Result<Schedule, Memory>
    requires { count ≤ 10000 }
    ensures { IfOk result (λ schedule. schedule ≡ generated seed count) }
{
    let files = files_of(alloc)?;
    let sessions = sessions_of(alloc)?;
    let events = events_of(alloc, seed, u64::from(count))?;
    Ok(Schedule::new(files, sessions, events))
}
