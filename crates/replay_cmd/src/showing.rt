//! What the lines of a trace say.
ghost use Rattle.std.specs.Prelude.{◌≡◌, ◌≤◌, ◌∷◌, [], ℕ, List, codes, decimal, length, option_map, unwrap_or, if◌then◌else◌, IfOk};
ghost use Rattle.wopi_model.specs.declared.calls.Ruling.{Ruling};
ghost use Rattle.wopi_model.specs.Step.{lock_field};
ghost use Rattle.replay_cmd.specs.Words.{operation_shown, outcome_shown, version_shown, lock_shown, reason_shown, hex_text, numbered_shown, ruling_shown, accepted_shown, file_shown};
ghost use Rattle.replay_cmd.specs.Replying.{file_in, size_shown, Tells, TellsAccepted};

use crate::watched::Watched;
use crate::words::{
    hex_word, lock_word, number_word, numbered_words, reason_word, version_word, words_of,
};
use host_core::FileView;
use save_session::Outcome;
use std::alloc::Global;
use wopi_headers::{Answer, Op, Target};
use wopi_model::Lock;
use wopi_text::{Bytes, FileName, LockField, Memory, Reason, id_text};

/// An operation as it was sent, with its body.
fn operation_words(alloc: Global, op: &Op, body: &[u8]) -> Result<Vec<Bytes>, Memory>
    ensures { IfOk result (λ words. words.items ≡ operation_shown op.now body.now) }
{
    match op {
        Op::Lock { id } => return words_of(alloc, &[b"lock".as_slice(), id.as_slice()]),
        Op::Get { most: _ } => return words_of(alloc, &[b"get".as_slice()]),
        Op::Put { lock: Some(id) } => {
            let contents = hex_word(alloc, body)?;
            return words_of(
                alloc,
                &[b"put".as_slice(), id.as_slice(), contents.as_slice()],
            );
        }
        Op::Relock { old, id } => {
            return words_of(
                alloc,
                &[b"relock".as_slice(), old.as_slice(), id.as_slice()],
            );
        }
        Op::Refresh { id } => return words_of(alloc, &[b"refresh".as_slice(), id.as_slice()]),
        Op::Unlock { id } => return words_of(alloc, &[b"unlock".as_slice(), id.as_slice()]),
        Op::Info => return words_of(alloc, &[b"info".as_slice()]),
        Op::Put { lock: None } => return words_of(alloc, &[b"info".as_slice()]),
        Op::GetLock => return words_of(alloc, &[b"info".as_slice()]),
        Op::PutRelative { target: _ } => return words_of(alloc, &[b"info".as_slice()]),
        Op::Delete => return words_of(alloc, &[b"info".as_slice()]),
    }
}

/// What a session sends, as the request of that number.
pub fn sent_words(alloc: Global, number: u64, op: &Op, body: &[u8]) -> Result<Vec<Bytes>, Memory>
    ensures { IfOk result (λ words. words.items ≡ codes "send" ∷ decimal number ∷ operation_shown op.now body.now) }
{
    let operation = operation_words(alloc, op, body)?;
    numbered_words(alloc, b"send", number, operation)
}

fn version_words(alloc: Global, word: &[u8], version: Option<u64>) -> Result<Vec<Bytes>, Memory>
    ensures { IfOk result (λ words. words.items ≡ word.now ∷ version_shown version ∷ []) }
{
    let version = version_word(alloc, version)?;
    words_of(alloc, &[word, version.as_slice()])
}

fn lock_words<'x>(
    alloc: Global,
    word: &'x [u8],
    lock: &'x LockField,
    reason: Option<Reason>,
) -> Result<Vec<Bytes>, Memory>
    ensures { IfOk result (λ words. words.items ≡ word.now ∷ lock_shown lock.now ∷ reason_shown reason ∷ []) }
{
    let reason = reason_word(alloc, reason)?;
    words_of(alloc, &[word, lock_word(lock), reason.as_slice()])
}

fn outcome_words(alloc: Global, outcome: &Outcome) -> Result<Vec<Bytes>, Memory>
    ensures { IfOk result (λ words. words.items ≡ outcome_shown outcome.now) }
{
    match outcome {
        Outcome::Opened { version } => return version_words(alloc, b"opened", *version),
        Outcome::Read { version } => return version_words(alloc, b"read", *version),
        Outcome::Saved { version } => return version_words(alloc, b"saved", *version),
        Outcome::Refreshed => return words_of(alloc, &[b"refreshed".as_slice()]),
        Outcome::Closed => return words_of(alloc, &[b"closed".as_slice()]),
        Outcome::Conflict { lock, reason } => {
            return lock_words(alloc, b"conflict", lock, *reason);
        }
        Outcome::LockLost { lock, reason } => {
            return lock_words(alloc, b"lock lost", lock, *reason);
        }
        Outcome::TooLarge => return words_of(alloc, &[b"too large".as_slice()]),
        Outcome::HostFault { status } => {
            return numbered_words(alloc, b"host fault", u64::from(*status), Vec::new(alloc));
        }
        Outcome::TokenDead => return words_of(alloc, &[b"token dead".as_slice()]),
        Outcome::Gone => return words_of(alloc, &[b"gone".as_slice()]),
        Outcome::NoAnswer => return words_of(alloc, &[b"no answer".as_slice()]),
    }
}

/// What the session of that number tells.
pub fn told_words(alloc: Global, number: u64, outcome: &Outcome) -> Result<Vec<Bytes>, Memory>
    ensures { IfOk result (λ words. words.items ≡ codes "tell" ∷ decimal number ∷ outcome_shown outcome.now) }
{
    let outcome = outcome_words(alloc, outcome)?;
    numbered_words(alloc, b"tell", number, outcome)
}

/// The version of a file, and how many bytes it has.
fn size_words(alloc: Global, host: &Watched, name: &FileName) -> Result<Vec<Bytes>, Memory>
    ensures { IfOk result (λ words. words.items ≡ size_shown (file_in host.now.shard name.now)) }
{
    let (version, size) = host.size_of(name);
    let version = version_word(alloc, Some(version))?;
    let size = number_word(alloc, size)?;
    words_of(alloc, &[version.as_slice(), size.as_slice()])
}

/// What the answer to an accepted operation on a file tells.
fn accepted_words(
    alloc: Global,
    host: &Watched,
    name: &FileName,
    asked: &Op,
    answer: &Answer,
) -> Result<Vec<Bytes>, Memory>
    ensures { IfOk result (λ words. (ruling : Ruling) → TellsAccepted (file_in host.now.shard name.now) asked.now answer.now ruling → answer.now.lock ≡ ruling.lock → words.items ≡ accepted_shown asked.now ruling) }
{
    match asked {
        Op::Info => return size_words(alloc, host, name),
        Op::Get { most: _ } => {
            let version = version_word(alloc, answer.version)?;
            let contents = hex_word(alloc, answer.body.as_slice())?;
            return words_of(alloc, &[version.as_slice(), contents.as_slice()]);
        }
        Op::Put { lock: _ } => return only_version(alloc, answer),
        Op::Lock { id: _ } => return only_version(alloc, answer),
        Op::Relock { old: _, id: _ } => return only_version(alloc, answer),
        Op::Unlock { id: _ } => return only_version(alloc, answer),
        Op::GetLock => return words_of(alloc, &[lock_word(&answer.lock)]),
        Op::PutRelative {
            target: Target::Relative { name, overwrite: _ },
        } => {
            let id = hex::encode(alloc, name.as_slice())?;
            return words_of(alloc, &[id.as_bytes()]);
        }
        Op::PutRelative {
            target: Target::Suggested(_),
        } => return Ok(Vec::new(alloc)),
        Op::Refresh { id: _ } => return Ok(Vec::new(alloc)),
        Op::Delete => return Ok(Vec::new(alloc)),
    }
}

fn only_version(alloc: Global, answer: &Answer) -> Result<Vec<Bytes>, Memory>
    ensures { IfOk result (λ words. words.items ≡ version_shown answer.now.version ∷ []) }
{
    let version = version_word(alloc, answer.version)?;
    words_of(alloc, &[version.as_slice()])
}

/// What an answer tells of the operation that was asked.
fn ruling_words(
    alloc: Global,
    host: &Watched,
    name: &FileName,
    asked: &Op,
    answer: &Answer,
) -> Result<Vec<Bytes>, Memory>
    ensures { IfOk result (λ words. (ruling : Ruling) → Tells (file_in host.now.shard name.now) asked.now answer.now ruling → words.items ≡ ruling_shown asked.now ruling) }
{
    if answer.status == 409 {
        let reason = reason_word(alloc, answer.reason)?;
        return words_of(alloc, &[lock_word(&answer.lock), reason.as_slice()]);
    }
    if answer.status == 200 {
        return accepted_words(alloc, host, name, asked, answer);
    }
    Ok(Vec::new(alloc))
}

/// The reply of that number, to an operation on a file.
pub fn reply_words(
    alloc: Global,
    number: u64,
    host: &Watched,
    name: &FileName,
    asked: &Op,
    answer: &Answer,
) -> Result<Vec<Bytes>, Memory>
    ensures { IfOk result (λ words. (ruling : Ruling) → Tells (file_in host.now.shard name.now) asked.now answer.now ruling → words.items ≡ numbered_shown number asked.now ruling) }
{
    let status = number_word(alloc, u64::from(answer.status))?;
    let mut others = words_of(alloc, &[status.as_slice()])?;
    let mut ruling = ruling_words(alloc, host, name, asked, answer)?;
    others.append(&mut ruling)?;
    numbered_words(alloc, b"reply", number, others)
}

/// The id of the lock, or that there is none.
fn held_word(lock: Option<&Lock>) -> &[u8]
    ensures { result.now ≡ lock_shown (lock_field (option_map (λ lock. lock.now) lock.entry)) }
{
    match lock {
        Some(lock) => lock.id.as_slice(),
        None => b"-",
    }
}

fn state_words(alloc: Global, view: &FileView<'_>) -> Result<Vec<Bytes>, Memory>
    ensures { IfOk result (λ words. words.items ≡ (if view.now.exists
        then lock_shown (lock_field (option_map (λ lock. lock.now) view.now.lock)) ∷ hex_text view.now.contents.now ∷ []
        else codes "absent" ∷ [])) }
{
    if !view.exists {
        return words_of(alloc, &[b"absent".as_slice()]);
    }
    let contents = hex_word(alloc, view.contents)?;
    words_of(alloc, &[held_word(view.lock), contents.as_slice()])
}

/// How a file is left.
pub fn file_words(alloc: Global, host: &Watched, name: &FileName) -> Result<Vec<Bytes>, Memory>
    requires { host.now.shard.begin.first ≤ (file_in host.now.shard name.now).version }
    ensures { IfOk result (λ words. words.items ≡ file_shown name.now (file_in host.now.shard name.now)) }
{
    let Some(view) = host.file(name) else {
        unreachable!()
    };
    let id = id_text(alloc, name)?;
    let version = version_word(alloc, Some(view.version))?;
    let mut words = words_of(
        alloc,
        &[b"end".as_slice(), id.as_slice(), version.as_slice()],
    )?;
    let mut state = state_words(alloc, &view)?;
    words.append(&mut state)?;
    Ok(words)
}
