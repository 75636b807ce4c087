//! A store that keeps all entries in memory, with the contents that were accepted.
ghost use Rattle.std.specs.Prelude.{◌≡◌, ◌≤◌, ◌++◌, ◌∷◌, [], length, option_map, slice_get, IfOk, OnOk, OnErr};
ghost use Rattle.wopi_model.specs.Begin.{new_life};
ghost use Rattle.wopi_model.specs.Host.{kept_from};
ghost use Rattle.host_core.specs.Notes.{opening_listed};
ghost use Rattle.host_core.specs.ShardView.{files_listed};
ghost use Rattle.host_core.specs.Times.{untimed};
ghost use Rattle.host_core.specs.Value.{IsLawful};

use crate::contents::{Contents, share_between, widen};
use crate::entries::Entries;
use crate::entry::{Beginning, Entry};
use crate::file::KeptFile;
use crate::noting::Store;
use crate::past::Past;
use crate::shard::Shard;
use crate::store::take;
use outside::{Failed, Folder, FolderRead, Names, OutFault};
use std::alloc::Global;
use std::marker::Model;
use std::mem;
use std::snapshot::Snapshot;
use wopi_model::Ruling;
use wopi_text::{Bytes, FileName, Memory};

/// A file that stood in the folder when the shard opened.
#[derive(Drop)]
pub struct OpeningFile {
    pub name: FileName,
    pub contents: Contents,
}

/// Contents that the folder took, and the version that is told of them.
#[derive(Drop)]
pub struct Saved {
    pub version: u64,
    pub contents: Contents,
}

/// A folder, and the opening files, the entries and the accepted contents of a shard over it; and when that opened, with
/// the version of its opening files. What stands with a file lies once, for it and for the entry that brought it; so do
/// contents that were saved again. `room` is taken before a save, and written to only where there is no memory to count
/// owners.
#[derive(Drop)]
pub struct Kept<F: Folder> {
    folder: F,
    opening: Vec<OpeningFile>,
    opened: u64,
    first: u64,
    entries: Entries,
    saved: Option<Saved>,
    room: Vec<u8>,
}

impl<F: Folder> Model for Kept<F> {
    ghost use Rattle.host_core.specs.Value.{InMemory};

    ghost Value = { InMemory F };

    ghost use Rattle.host_core.specs.ShardView.{kept_of};

    ghost view = { kept_of };
}

impl<F: Folder> Kept<F> {
    /// Over a folder, with nothing noted. It takes no memory.
    pub fn new(alloc: Global, folder: F) -> Kept<F>
        ensures folder { result.folder ≡ folder }
    {
        Kept {
            folder,
            opening: Vec::new(alloc),
            opened: 0,
            first: 1,
            entries: Entries::new(alloc),
            saved: None,
            room: Vec::new(alloc),
        }
    }

    /// The entry at a place, counted from 0.
    pub fn entry(&self, place: u64) -> Option<&Entry>
        ensures { option_map (λ entry. entry.now) result ≡ slice_get self.now.notes.made place }
    {
        self.entries.get(place)
    }

    /// Gives the folder. It needs no memory.
    pub fn into_folder(self) -> F
        ensures { result ≡ self.folder }
    {
        let Kept {
            folder,
            opening: _opening,
            opened: _opened,
            first: _first,
            entries: _entries,
            saved: _saved,
            room: _room,
        } = self;
        folder
    }

    /// Gives the folder, and what was noted by that shard, which keeps so many bytes. It needs no
    /// memory. Room that nothing took is given up, and where the allocator refuses a smaller piece it stays with what is
    /// left. The shard began a new life with the files of its opening.
    pub fn end(self, shard: Snapshot<Shard<Kept<F>>>, bytes: u64) -> (F, Past<F>)
        requires { bytes ≡ kept_from self.notes.begin (untimed self.notes.made) }
        ensures folder { result.0 ≡ self.folder }
        ensures begin { self.notes.begin ≡ new_life self.opening self.notes.begin.opened self.notes.begin.first }
        ensures past { result.1 ≡ record { opening = self.opening; dates = shard.value.dates; made = self.notes.made; start = shard.value.start.folder } }
    {
        let Kept {
            folder,
            mut opening,
            opened: _opened,
            first: _first,
            entries,
            saved: _saved,
            room: _room,
        } = self;
        opening.shrink_to_fit();
        let past = Past {
            opening,
            entries: entries.into_vec(),
            bytes,
            shard,
        };
        (folder, past)
    }
}

/// Gives the folder as the last step of a shard left it, and what the shard leaves, which began a new life. It needs no memory.
pub fn leave<F: Folder>(shard: Shard<Kept<F>>) -> (F, Past<F>)
    ensures folder { result.0 ≡ shard.folder.folder }
    ensures begin { shard.begin ≡ new_life shard.folder.opening shard.begin.opened shard.begin.first }
    ensures past { result.1 ≡ record { opening = shard.folder.opening; dates = shard.dates; made = shard.made; start = shard.start.folder } }
    ensures lawful { IsLawful shard (F.files shard.start.folder) (F.files shard.folder.folder) (F.faults shard.start.folder) (F.faults shard.folder.folder) }
{
    let bytes = shard.bytes();
    let ended = Snapshot::of(&shard);
    let (store, _start) = shard.end();
    store.end(ended, bytes)
}

/// The contents alone.
fn contents_of(saved: Option<Saved>) -> Option<Contents>
    ensures { result ≡ option_map (λ one. one.contents) saved }
{
    match saved {
        None => None,
        Some(Saved { contents, .. }) => Some(contents),
    }
}

/// The file as it stands at the opening, whose contents it shares.
fn copy_file(alloc: Global, file: &KeptFile) -> Result<OpeningFile, Memory>
    ensures { IfOk result (λ copy. files_listed (copy ∷ []) ≡ opening_listed (file.now ∷ [])) }
{
    let contents = match &file.contents {
        None => Contents::own(Bytes::from_vec(Vec::new(alloc))),
        Some(contents) => contents.share_or_copy(alloc)?,
    };
    Ok(OpeningFile {
        name: file.name.copy(),
        contents,
    })
}

/// The files as they stand at the opening, whose contents they share.
fn copy_files(alloc: Global, files: &[KeptFile]) -> Result<Vec<OpeningFile>, Memory>
    ensures { IfOk result (λ copies. files_listed copies.items ≡ opening_listed files.now) }
{
    let mut copies = Vec::with_capacity(alloc, files.len())?;
    let mut place = 0;
    'copies: while place < files.len() {
        let copy = copy_file(alloc, &files[place])?;
        copies.push(copy)?;
        place += 1;
    }
    Ok(copies)
}

impl<F: Folder> Store for Kept<F> {
    ghost use Rattle.std.specs.Prelude.{false, Some};

    ghost files = { λ kept. F.files kept.folder };

    ghost times = { λ kept. F.times kept.folder };

    ghost faults = { λ kept. F.faults kept.folder };

    ghost notes = { λ kept. record kept.notes { most = Some kept.most } };

    ghost lost = { λ kept. false };

    ghost endless = { false };

    ghost loses = { false };

    ghost loses_is = { λ kept lost. lost };

    fn list(&mut self) -> Result<Names, OutFault> {
        self.folder.list()
    }

    fn read(&mut self, name: &str, most: usize) -> Result<FolderRead, OutFault> {
        self.folder.read(name, most)
    }

    fn time(&mut self, name: &str) -> Result<Option<u64>, OutFault> {
        self.folder.time(name)
    }

    fn open(
        &mut self,
        alloc: Global,
        opening: &Vec<KeptFile>,
        opened: u64,
        first: u64,
        calls: Option<u32>,
    ) -> Result<(), OutFault> {
        let Some(capacity) = calls else {
            unreachable!();
        };
        let copies = match copy_files(alloc, opening) {
            Ok(copies) => copies,
            Err(_) => return Err(OutFault::Memory),
        };
        let entries = match Entries::with_capacity(alloc, capacity as usize) {
            Ok(entries) => entries,
            Err(_) => return Err(OutFault::Memory),
        };
        self.opening = copies;
        self.opened = opened;
        self.first = first;
        self.entries = entries;
        Ok(())
    }

    fn begin(&mut self, beginning: &Beginning<'_>) {
        self.entries.begin(beginning);
        self.saved = None;
    }

    fn save(
        &mut self,
        alloc: Global,
        version: u64,
        name: &str,
        contents: &mut Bytes,
        former: Option<&Contents>,
    ) -> Result<Contents, OutFault> {
        match widen(alloc, &mut self.room, contents.as_slice().len()) {
            Ok(()) => {}
            Err(_) => return Err(OutFault::Memory),
        }
        match self.folder.replace(name, contents.as_slice()) {
            Ok(()) => {
                let bytes = take(alloc, contents);
                let (live, noted) = share_between(alloc, former, bytes, &mut self.room);
                self.saved = Some(Saved {
                    version,
                    contents: noted,
                });
                return Ok(live);
            }
            Err(fault) => return Err(fault),
        }
    }

    fn clear(&mut self, name: &str) -> Result<(), Failed> {
        self.folder.remove(name)
    }

    fn end(&mut self, ruling: &Ruling) {
        let contents = contents_of(mem::replace(&mut self.saved, None));
        self.entries.end(ruling, contents);
    }

    fn give_up(&mut self) {
        self.entries.give_up();
    }

    fn count(&self) -> u64 {
        self.entries.len()
    }

    fn is_lost(&self) -> bool {
        false
    }
}
