//! A log in a file of the file system.
ghost use Rattle.std.specs.Prelude.{◌≡◌, ◌≤◌, IfOk, IfSome, IsTrue, option_map, string_bytes};
ghost use Rattle.std.specs.Fs.{asks_append, asks_create_new};
ghost use Rattle.outside.specs.Faults.{Rose};

use crate::directory::{Cause, sync_folder};
use outside::{Failed, Log, Sink};
use std::alloc::Global;
use std::fs::{OpenFile, OpenOptions};
use std::io::{self, ErrorKind, Write};
use std::rt::Files;

/// A plain file that is appended to. It tells nothing of content.
///
/// Nothing is kept back: each write is one write of the system, behind all that stands there. What was synced lasts where
/// the file system does as it says: no contract tells that.
#[derive(Drop)]
pub struct FileLog<F> {
    file: F,
    path: String,
    faults: u64,
    // What the last fault was.
    cause: Option<io::Error>,
}

/// The plain file at a path, opened so.
fn opened<R: Files>(rt: &R, how: &OpenOptions, path: String) -> io::Result<FileLog<R::File>>
    ensures { IfOk result (λ log. string_bytes log.path ≡ string_bytes path) }
{
    let file = how.open(rt, path.as_str())?;
    if !file.metadata()?.is_file() {
        return Err(io::Error::from(ErrorKind::InvalidInput));
    }
    Ok(FileLog {
        file,
        path,
        faults: 0,
        cause: None,
    })
}

/// Opens the file at a path in that folder, or makes one, which lasts from then on.
pub fn open_log<R: Files>(
    alloc: Global,
    rt: &R,
    folder: &str,
    path: &str,
) -> io::Result<FileLog<R::File>>
    ensures { IfOk result (λ log. string_bytes log.path ≡ path.now) }
{
    let mut how = OpenOptions::new();
    let _how = how.append(true).create(true);
    let log = opened(rt, &how, String::from_str(alloc, path)?)?;
    sync_folder(rt, folder)?;
    Ok(log)
}

/// How a file is opened that is made anew and appended to.
fn anew() -> OpenOptions
    ensures new { IsTrue (asks_create_new result) }
    ensures appended { IsTrue (asks_append result) }
{
    let mut how = OpenOptions::new();
    let _how = how.append(true).create_new(true);
    how
}

/// Makes a file at a path, where nothing may be. It is yet to be made last.
pub(crate) fn new_log<R: Files>(rt: &R, path: String) -> io::Result<FileLog<R::File>>
    ensures { IfOk result (λ log. string_bytes log.path ≡ string_bytes path) }
{
    opened(rt, &anew(), path)
}

impl<F> FileLog<F> {
    /// Why the last call that failed did.
    pub fn cause(&self) -> Option<Cause<'_>>
        ensures error { option_map (λ cause. cause.error) result ≡ self.now.cause }
        ensures path { IfSome result (λ cause. cause.path.now ≡ string_bytes self.now.path) }
    {
        match self.cause {
            Some(error) => Some(Cause {
                path: self.path.as_str(),
                error,
            }),
            None => None,
        }
    }

    // Counts a fault.
    fn fault(&mut self, error: io::Error) -> Failed
        ensures rose { Rose self.old.faults self.new.faults }
        ensures never_falls { self.old.faults ≤ self.new.faults }
    {
        self.faults = self.faults.saturating_add(1);
        self.cause = Some(error);
        Failed
    }
}

impl<F: OpenFile> FileLog<F> {
    // Where there are fewer bytes the file would be made longer.
    fn cut(&mut self, count: u64) -> io::Result<()>
        ensures { self.new.faults ≡ self.old.faults }
    {
        if self.file.metadata()?.len() < count {
            return Err(io::Error::from(ErrorKind::UnexpectedEof));
        }
        self.file.set_len(count)?;
        self.file.sync_data()
    }
}

impl<F: OpenFile + Write + Drop> Sink for FileLog<F> {
    ghost use Rattle.std.specs.Prelude.{None, []};

    ghost held = { λ _. None };

    ghost write_faults = { λ l. l.faults };

    ghost beside_writes = { λ _. record { bytes = None; faults = 0; references = [] } };

    fn write(&mut self, piece: &[u8]) -> Result<usize, Failed> {
        match self.file.write(piece) {
            Ok(count) if count > 0 || piece.is_empty() => Ok(count),
            Ok(_) => Err(self.fault(io::Error::from(ErrorKind::WriteZero))),
            Err(error) => Err(self.fault(error)),
        }
    }
}

impl<F: OpenFile + Write + Drop> Log for FileLog<F> {
    ghost use Rattle.std.specs.Prelude.{None, [], refl};

    ghost synced = { λ _. None };

    fn length(&mut self) -> Result<u64, Failed> {
        match self.file.metadata() {
            Ok(found) => Ok(found.len()),
            Err(error) => Err(self.fault(error)),
        }
    }

    fn sync(&mut self) -> Result<(), Failed> {
        match self.file.sync_data() {
            Ok(()) => Ok(()),
            Err(error) => Err(self.fault(error)),
        }
    }

    fn resume(&mut self, count: u64) -> Result<(), Failed> {
        match self.cut(count) {
            Ok(()) => Ok(()),
            Err(error) => Err(self.fault(error)),
        }
    }

    ghost synced_first = { λ _. ([], tt) };

    ghost writes_leave = { λ _. refl };
}
