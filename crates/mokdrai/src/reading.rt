//! The words as people write them, and what they leave to the machine: a moment, random bytes and files with secrets.
ghost use Rattle.std.specs.Prelude.{◌≡◌, IfOk, vec_len};
ghost use Rattle.command_words.specs.Meaning.{IsDefault};

use adapters::SystemClock;
use command_words::{
    Around, Chance, Given, How, Refused, Wrong, explain, meant, secret_of, secret_place, wrong_line,
};
use outside::Clock;
use std::alloc::Global;
use std::fs::{File, Files, OpenFile};
use std::io::{self, ErrorKind, Read};
use std::os::unix::fs::PermissionsExt;
use std::random::RandomSource;
use std::time;
use wopi_text::Memory;

/// The most bytes of a file with a secret.
const MOST_SECRET: u64 = 8192;

/// The permissions of others than the owner.
const OTHERS: u32 = 0o077;

/// Why a file has no secret.
#[derive(Clone, Copy, Debug, PartialEq, Eq)]
pub(crate) enum SecretFault {
    /// It isn't there, can't be read, is no text, or is too long.
    Unread,
    /// Others than its owner may read or write it.
    Open,
    Memory,
}

/// Why a file couldn't be read.
fn fault_of(error: io::Error) -> SecretFault {
    if error.kind() == ErrorKind::OutOfMemory {
        return SecretFault::Memory;
    }
    SecretFault::Unread
}

/// The text of an open file, where only its owner may read it.
fn text_of<F: Read + OpenFile + Drop>(alloc: Global, file: F) -> Result<String, SecretFault> {
    let Ok(about) = file.metadata() else {
        return Err(SecretFault::Unread);
    };
    if about.permissions().mode() & OTHERS != 0 {
        return Err(SecretFault::Open);
    }
    let text = match io::read_to_string(alloc, file.take(MOST_SECRET + 1)) {
        Ok(text) => text,
        Err(error) => return Err(fault_of(error)),
    };
    if text.len() as u64 > MOST_SECRET {
        return Err(SecretFault::Unread);
    }
    Ok(text)
}

/// The secret of the file at a path: its text without the line feed at its end.
pub(crate) fn secret_at<R: Files>(
    alloc: Global,
    rt: &R,
    path: &str,
) -> Result<String, SecretFault> {
    let Ok(file) = File::open(rt, path) else {
        return Err(SecretFault::Unread);
    };
    let text = text_of(alloc, file)?;
    match String::from_str(alloc, secret_of(text.as_str())) {
        Ok(secret) => Ok(secret),
        Err(_) => Err(SecretFault::Memory),
    }
}

/// What is told of such a file.
fn refused(fault: SecretFault) -> Refused {
    match fault {
        SecretFault::Memory => Refused::Memory,
        SecretFault::Unread => Refused::Words(Wrong {
            name: "@PATH",
            rule: "a file that can be read, with a secret of at most 8192 bytes",
            how: How::Hidden,
        }),
        SecretFault::Open => Refused::Words(Wrong {
            name: "@PATH",
            rule: "a file that only its owner may read: chmod 600",
            how: How::Hidden,
        }),
    }
}

/// The words with the secret of its file in the place of a path.
pub(crate) fn with_secret<R: Files>(
    alloc: Global,
    rt: &R,
    words: &mut Vec<String>,
) -> Result<(), Refused> {
    let Some((place, path)) = secret_place(words) else {
        return Ok(());
    };
    match secret_at(alloc, rt, path) {
        Ok(secret) => {
            if let Some(word) = words.get_mut(place) {
                *word = secret;
            }
            Ok(())
        }
        Err(fault) => Err(refused(fault)),
    }
}

/// Random bytes for a nonce, where the words are an `edit`; of the others none asks for them.
fn random_for<R: RandomSource>(rt: &R, typed: &[String]) -> Result<[u8; 16], Memory> {
    let mut random = [0u8; 16];
    let is_edit = match typed.first() {
        Some(name) => name.as_str() == "edit",
        None => false,
    };
    if is_edit && rt.fill_bytes(&mut random).is_err() {
        return Err(Memory);
    }
    Ok(random)
}

/// What is at hand for words that leave something to the program.
fn chance<R: time::Clock + RandomSource>(rt: &R, typed: &[String]) -> Result<Chance, Memory> {
    let random = random_for(rt, typed)?;
    Ok(Chance {
        moment: SystemClock::new(rt).now(),
        random,
    })
}

/// What the words of the command line mean, with the secret of its file in the place of a path.
fn read_words<R: Files + time::Clock + RandomSource>(
    alloc: Global,
    rt: &R,
    typed: &[String],
) -> Result<Given, Refused> {
    let chance = chance(rt, typed)?;
    let mut given = meant(alloc, typed, &chance)?;
    with_secret(alloc, rt, &mut given.words)?;
    Ok(given)
}

/// What is run, and the line that is told where the words are none.
#[derive(Drop)]
pub(crate) struct Asking {
    pub(crate) given: Given,
    pub(crate) line: Option<Vec<u8>>,
}

/// What is run of words that are wrong, which is none, and the line that is told. No word is at hand for that line, so
/// that it shows none: any may be a secret.
fn nothing(alloc: Global, wrong: Wrong) -> Result<Asking, Memory>
    ensures words { IfOk result (λ asking. vec_len asking.given.words ≡ 0) }
    ensures around { IfOk result (λ asking. IsDefault asking.given.around) }
{
    let line = wrong_line(alloc, &[], wrong)?;
    let words = Vec::new(alloc);
    let around = Around::new(alloc)?;
    Ok(Asking {
        given: Given { words, around },
        line: Some(line),
    })
}

/// What is run of words that have a meaning, and the line that is told if it is no command.
fn something(alloc: Global, given: Given) -> Result<Asking, Memory>
    ensures { IfOk result (λ asking. asking.given ≡ given) }
{
    let line = match explain(&given.words) {
        Some(wrong) => Some(wrong_line(alloc, &given.words, wrong)?),
        None => None,
    };
    Ok(Asking { given, line })
}

/// The same of the words of the command line.
pub(crate) fn understand<R: Files + time::Clock + RandomSource>(
    alloc: Global,
    rt: &R,
    typed: &[String],
) -> Result<Asking, Memory> {
    match read_words(alloc, rt, typed) {
        Ok(given) => something(alloc, given),
        Err(Refused::Words(wrong)) => nothing(alloc, wrong),
        Err(Refused::Memory) => Err(Memory),
    }
}
