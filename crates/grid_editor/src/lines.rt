//! The lines that an editor writes.
ghost use Rattle.std.specs.Prelude.{◌≡◌, ◌++◌, ◌∷◌, [], OnOk, IfOk, codes, decimal};
ghost use Rattle.grid_editor.specs.Lines.{copied_line, lock_line, lock_text, opened_line, outcome_line, refusal_line, version_line, version_text, why_text};

use grid_sheet::GridFault;
use itoa::Buffer;
use save_session::Outcome;
use std::alloc::Global;
use wopi_text::{Bytes, LockField, Memory, Reason};

/// The line of an outcome.
pub(crate) fn outcome_line(alloc: Global, outcome: &Outcome) -> Result<Bytes, Memory>
    ensures { IfOk result (λ line. line ≡ outcome_line outcome.now) }
{
    match outcome {
        Outcome::Opened { version } => version_line(alloc, b"opened ", *version),
        Outcome::Read { version } => version_line(alloc, b"read ", *version),
        Outcome::Saved { version } => version_line(alloc, b"saved ", *version),
        Outcome::Refreshed => Bytes::from_slice(alloc, b"refreshed\n"),
        Outcome::Closed => Bytes::from_slice(alloc, b"closed\n"),
        Outcome::Conflict { lock, reason } => lock_line(alloc, b"conflict ", lock, *reason),
        Outcome::LockLost { lock, reason } => lock_line(alloc, b"lock lost ", lock, *reason),
        Outcome::TooLarge => Bytes::from_slice(alloc, b"too large\n"),
        Outcome::HostFault { status } => host_fault_line(alloc, *status),
        Outcome::TokenDead => Bytes::from_slice(alloc, b"token dead\n"),
        Outcome::Gone => Bytes::from_slice(alloc, b"gone\n"),
        Outcome::NoAnswer => Bytes::from_slice(alloc, b"no answer\n"),
    }
}

/// The line of a sheet that was opened.
pub(crate) fn opened_line(alloc: Global, version: Option<u64>, rows: usize) -> Result<Bytes, Memory>
    ensures { IfOk result (λ line. line ≡ opened_line version rows) }
{
    let mut line = b"opened ".to_vec(alloc)?;
    push_version(&mut line, version)?;
    line.push(b' ')?;
    push_number(&mut line, rows as u64)?;
    line.push(b'\n')?;
    Ok(Bytes::from_vec(line))
}

/// The line of a copy that was saved under this name.
pub(crate) fn copied_line(alloc: Global, name: &[u8]) -> Result<Bytes, Memory>
    ensures { IfOk result (λ line. line ≡ copied_line name.now) }
{
    let mut line = b"saved as ".to_vec(alloc)?;
    line.extend_from_slice(name)?;
    line.push(b'\n')?;
    Ok(Bytes::from_vec(line))
}

/// The line of a refused edit.
pub(crate) fn refusal_line(alloc: Global, fault: GridFault) -> Result<Bytes, Memory>
    ensures { IfOk result (λ line. line ≡ refusal_line fault) }
{
    match fault {
        GridFault::OutOfGrid => Bytes::from_slice(alloc, b"out of grid\n"),
        GridFault::TooMany => Bytes::from_slice(alloc, b"too many\n"),
        GridFault::Memory => Err(Memory),
    }
}

fn version_line(alloc: Global, words: &[u8], version: Option<u64>) -> Result<Bytes, Memory>
    ensures { IfOk result (λ line. line ≡ version_line words.now version) }
{
    let mut line = words.to_vec(alloc)?;
    push_version(&mut line, version)?;
    line.push(b'\n')?;
    Ok(Bytes::from_vec(line))
}

fn lock_line(
    alloc: Global,
    words: &[u8],
    lock: &LockField,
    reason: Option<Reason>,
) -> Result<Bytes, Memory>
    ensures { IfOk result (λ line. line ≡ lock_line words.now lock.now reason) }
{
    let mut line = words.to_vec(alloc)?;
    line.extend_from_slice(lock_text(lock))?;
    line.push(b' ')?;
    line.extend_from_slice(why_text(reason).as_bytes())?;
    line.push(b'\n')?;
    Ok(Bytes::from_vec(line))
}

fn host_fault_line(alloc: Global, status: u16) -> Result<Bytes, Memory>
    ensures { IfOk result (λ line. line ≡ codes "host fault " ++ (decimal status ++ (10 ∷ []))) }
{
    let mut line = b"host fault ".to_vec(alloc)?;
    push_number(&mut line, u64::from(status))?;
    line.push(b'\n')?;
    Ok(Bytes::from_vec(line))
}

fn push_version(line: &mut Vec<u8>, version: Option<u64>) -> Result<(), Memory>
    ensures { OnOk result (line.new.items ≡ line.old.items ++ version_text version) }
{
    match version {
        Some(number) => {
            line.push(b'v')?;
            push_number(line, number)
        }
        None => {
            line.push(b'-')?;
            Ok(())
        }
    }
}

fn push_number(line: &mut Vec<u8>, number: u64) -> Result<(), Memory>
    ensures { OnOk result (line.new.items ≡ line.old.items ++ decimal number) }
{
    let mut buffer = Buffer::new();
    line.extend_from_slice(buffer.format(number).as_bytes())?;
    Ok(())
}

fn lock_text(lock: &LockField) -> &[u8]
    ensures { result.now ≡ lock_text lock.now }
{
    match lock {
        LockField::Held(id) => id.as_slice(),
        LockField::Empty => b"-",
        LockField::Absent => b"-",
    }
}

fn why_text(reason: Option<Reason>) -> &'static str
    ensures { result.now ≡ why_text reason }
{
    match reason {
        Some(reason) => reason.text(),
        None => "-",
    }
}
