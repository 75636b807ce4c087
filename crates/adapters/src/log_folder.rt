//! The folder of a host's logs.
ghost use Rattle.std.specs.Prelude.{◌≡◌, ◌↔◌, ◌<◌, ℕ, IfOk, IfSome, None, Some, map, string_bytes, vec_len};
ghost use Rattle.adapters.specs.LogNames.{ArePaths, HasLogOf, IsLogOf, IsNext, log_path, number_in, of_shard};

use crate::appending::{FileLog, new_log};
use crate::directory::sync_folder;
use std::alloc::Global;
use std::fs::{self, File, Metadata, TryLockError};
use std::io::{self, ErrorKind};
use std::os::unix::fs::MetadataExt;
use std::rt::Files;
use wopi_text::decimal_read;

/// How many logs a host has, one for each shard.
const SHARDS: u64 = 16;

/// The logs of one run of a host.
#[derive(Drop)]
pub struct HeldLogs {
    /// Their folder. It is no other host's while this is open.
    pub lock: File,
    /// One for each shard, in their order.
    pub logs: Vec<FileLog<File>>,
}

/// Why logs could not be opened.
#[derive(Clone, Copy)]
pub enum Unopened {
    /// Another host has their folder.
    Held,
    /// Their folder is that of the files.
    Files,
    Failed(io::Error),
}

/// The folder, locked.
fn lock<R: Files<File = File>>(rt: &R, folder: &str, files: &str) -> Result<File, Unopened> {
    let file = match open_folder(rt, folder, files) {
        Ok(Some(file)) => file,
        Ok(None) => return Err(Unopened::Files),
        Err(error) => return Err(Unopened::Failed(error)),
    };
    match file.try_lock() {
        Ok(()) => Ok(file),
        Err(TryLockError::WouldBlock) => Err(Unopened::Held),
        Err(TryLockError::Error(error)) => Err(Unopened::Failed(error)),
    }
}

/// The folder, where it isn't that of the files. A pipe isn't opened, since that may wait.
fn open_folder<R: Files<File = File>>(
    rt: &R,
    folder: &str,
    files: &str,
) -> io::Result<Option<File>> {
    if !fs::metadata(rt, folder)?.is_dir() {
        return Err(io::Error::from(ErrorKind::NotADirectory));
    }
    let file = File::open(rt, folder)?;
    if leads_to(rt, files, &file.metadata()?) {
        return Ok(None);
    }
    Ok(Some(file))
}

/// Whether the path leads to that file. One that leads nowhere doesn't.
fn leads_to<R: Files>(rt: &R, path: &str, file: &Metadata) -> bool {
    match fs::metadata(rt, path) {
        Ok(found) => found.dev() == file.dev() && found.ino() == file.ino(),
        Err(_) => false,
    }
}

/// The number of a log, where this is a shard.
fn of_shard(shard: Option<u64>, number: Option<u64>) -> Option<u64>
    ensures { result ≡ of_shard shard number }
{
    match shard {
        Some(shard) => {
            if shard < SHARDS {
                return number;
            }
            None
        }
        None => None,
    }
}

/// The number behind the name's first dot, where a shard stands in front of it.
fn number_in(name: &str) -> Option<u64>
    ensures { result ≡ number_in name.now }
{
    match name.split_once('.') {
        Some((shard, number)) => of_shard(
            decimal_read(shard.as_bytes()),
            decimal_read(number.as_bytes()),
        ),
        None => None,
    }
}

/// The number of the log of that name, if it is one's.
fn number_of(name: &str) -> Option<u64>
    ensures { (number : ℕ) → (result ≡ Some number) ↔ IsLogOf name.now number }
{
    number_in(name)
}

/// The number of the next logs where these names are in the folder. None says that there is none left.
fn next_number(names: &[String]) -> Option<u64>
    ensures next { IfSome result (IsNext (map string_bytes names.now)) }
    ensures none { result ≡ None → HasLogOf (map string_bytes names.now) u64.MAX }
{
    let mut next = 1u64;
    'names: for name in names {
        match number_of(name.as_str()) {
            Some(number) => {
                if number == u64::MAX {
                    return None;
                }
                if number >= next {
                    next = number + 1;
                }
            }
            None => {}
        }
    }
    Some(next)
}

/// The names in the folder. One that isn't UTF-8 is an error.
fn names_in<R: Files>(alloc: Global, rt: &R, folder: &str) -> io::Result<Vec<String>> {
    let mut names = Vec::new(alloc);
    for entry in fs::read_dir(&(rt, alloc), folder)? {
        let entry = entry?;
        names.push(String::from_str(alloc, entry.file_name())?)?;
    }
    Ok(names)
}

/// The path of a shard's log of that number.
fn log_path(alloc: Global, folder: &str, shard: u64, number: u64) -> io::Result<String>
    ensures { IfOk result (λ path. string_bytes path ≡ log_path folder.now shard number) }
{
    let path = format!(in alloc; "{folder}/{shard}.{number}")?;
    Ok(path)
}

/// New logs of that number, one for each shard, which last from then on.
pub fn new_logs<R: Files>(
    alloc: Global,
    rt: &R,
    folder: &str,
    number: u64,
) -> io::Result<Vec<FileLog<R::File>>>
    ensures count { IfOk result (λ all. vec_len all ≡ 16) }
    ensures paths { IfOk result (λ all. ArePaths folder.now number 0 (map (λ log. string_bytes log.path) all.items)) }
{
    let mut all = Vec::with_capacity(alloc, 16)?;
    for shard in 0..SHARDS {
        let path = log_path(alloc, folder, shard, number)?;
        all.push(new_log(rt, path)?)?;
    }
    sync_folder(rt, folder)?;
    Ok(all)
}

/// New logs of the number that comes next in the folder.
pub fn next_logs<R: Files>(alloc: Global, rt: &R, folder: &str) -> io::Result<Vec<FileLog<R::File>>>
    ensures count { IfOk result (λ all. vec_len all ≡ 16) }
    ensures paths { IfOk result (λ all. (number : ℕ) × ArePaths folder.now number 0 (map (λ log. string_bytes log.path) all.items)) }
{
    let names = names_in(alloc, rt, folder)?;
    match next_number(&names) {
        Some(number) => new_logs(alloc, rt, folder, number),
        None => Err(io::Error::from(ErrorKind::AlreadyExists)),
    }
}

/// Locks the folder, which may not be that of the files, and makes the logs of a host in it: `SHARD.N`, where N is one more
/// than the greatest of such a name there, and 1 where there is none.
pub fn open_logs<R: Files<File = File>>(
    alloc: Global,
    rt: &R,
    folder: &str,
    files: &str,
) -> Result<HeldLogs, Unopened>
    ensures count { IfOk result (λ held. vec_len held.logs ≡ 16) }
    ensures paths { IfOk result (λ held. (number : ℕ) × ArePaths folder.now number 0 (map (λ log. string_bytes log.path) held.logs.items)) }
{
    let lock = lock(rt, folder, files)?;
    match next_logs(alloc, rt, folder) {
        Ok(logs) => Ok(HeldLogs { lock, logs }),
        Err(error) => Err(Unopened::Failed(error)),
    }
}
