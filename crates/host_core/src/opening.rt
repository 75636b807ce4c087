//! The files that a shard begins with.
ghost use Rattle.std.specs.Prelude.{◌≡◌, ◌⊎◌, ◌≤◌, ◌+◌, ◌^◌, ◌↔◌, ◌++◌, ◌∷◌, [], None, map, ℕ, List, length, true, false, sum_by, string_bytes, IsTrue, IfOk, IfErr, IfSome, OnOk};
ghost use Rattle.outside.specs.Faults.{Rose};
ghost use Rattle.outside.specs.Folder.{Keeps};
ghost use Rattle.wopi_model.specs.File.{opened_with};
ghost use Rattle.wopi_model.specs.Moment.{IsMoment};
ghost use Rattle.host_core.specs.Names.{place_in};
ghost use Rattle.host_core.specs.Files.{file_of};
ghost use Rattle.host_core.specs.Whole.{whole};
ghost use Rattle.kept_locks.specs.Locks.{unlocked};
ghost use Rattle.host_core.specs.ByBytes.{has};
ghost use Rattle.host_core.specs.Stock.{IsStock};
ghost use Rattle.host_core.specs.Facts.{dates_of};
ghost use Rattle.host_core.specs.Opening.{AreDatesOf, IsDateOf, MayKeep, IsOfShard, IsOpening, Fits, IsTooLarge, IfTooLarge, Gives, PassesAfter, Gathers, is_listed};
ghost use Rattle.wopi_model.specs.Host.{most_kept};
ghost use Rattle.host_core.specs.Notes.{opening_listed};

use crate::contents::Contents;
use crate::file::{KeptFile, unmet};
use crate::noting::Store;
use crate::store::MOST_KEPT;
use name_index::{ByBytes, NameIndex};
use outside::{FolderRead, Names, OutFault};
use std::alloc::Global;
use std::collections::BTreeSet;
use wopi_text::{Bytes, FileName, Memory};

/// The greatest version that a host may begin with.
pub const MOST_FIRST: u64 = 1_000_000_000_000_000_000;

/// The most bytes of one file: 16 MiB.
pub const MOST_CONTENTS: usize = 16_777_216;

/// The most files, so that each has a number of 32 bits and there are numbers left for new ones.
pub const MOST_FILES: usize = 4_000_000_000;

/// A file that was read, and when it was last saved.
#[derive(Drop)]
pub struct ReadFile {
    pub name: FileName,
    pub contents: Bytes,
    pub saved: u64,
}

/// Why no shard was opened.
#[derive(Drop)]
pub enum StartFault {
    /// The folder failed.
    FolderFault,
    /// The first file that the shard takes, in the order of the names' bytes, that has more than 16 MiB or
    /// with which the shard's files up to it have more than 256 MiB.
    TooLarge { name: FileName },
    Memory,
}

/// The files of a shard at its start, their numbers by name, and how many bytes they have.
#[derive(Drop)]
pub struct Stock {
    pub files: Vec<KeptFile>,
    pub index: NameIndex,
    pub bytes: u64,
}

/// The name belongs to the shard of that number, or to the only shard there is.
pub fn is_of_shard(name: &FileName, only: Option<u8>) -> bool
    ensures { IsTrue result ↔ IsOfShard only name.now }
{
    match only {
        None => true,
        Some(number) => name.shard() == number,
    }
}

/// Adds a listed name, if the shard keeps files of this name.
fn take_name(names: &mut BTreeSet<ByBytes>, text: &String, only: Option<u8>) -> Result<(), Memory>
    ensures taken { OnOk result ((name : List ℕ) → has names.new name ≡ true → (has names.old name ≡ true) ⊎ ((name ≡ string_bytes text.now) × MayKeep only name)) }
    ensures added { OnOk result (MayKeep only (string_bytes text.now) → has names.new (string_bytes text.now) ≡ true) }
    ensures stays { OnOk result ((name : List ℕ) → has names.old name ≡ true → has names.new name ≡ true) }
{
    let Ok(name) = FileName::read(text.as_bytes()) else {
        return Ok(());
    };
    if is_of_shard(&name, only) {
        let _added = names.insert(ByBytes { name })?;
    }
    Ok(())
}

/// When the file of a name was last changed, or 0 where the folder tells of none.
fn time_of<F: Store>(folder: &mut F, name: &FileName) -> Result<u64, StartFault>
    ensures date { IfOk result (IsDateOf (F.times folder.old) name.now) }
    ensures moment { IfOk result IsMoment }
    ensures too_large { IfErr result (λ fault. IfTooLarge fault (λ large. ⊥)) }
    ensures failed { IfErr result (λ fault. fault ≡ StartFault.FolderFault → Rose (F.faults folder.old) (F.faults folder.new)) }
    ensures same { Keeps (F.files folder.old) (F.files folder.new) }
    ensures same_times { Keeps (F.times folder.old) (F.times folder.new) }
    ensures log { (F.notes folder.new).log ≡ (F.notes folder.old).log }
    ensures never_falls { F.faults folder.old ≤ F.faults folder.new }
{
    match folder.time(name.as_str()) {
        Ok(Some(saved)) => return Ok(saved),
        Ok(None) => return Ok(0),
        Err(OutFault::Failed) => return Err(StartFault::FolderFault),
        Err(OutFault::Memory) => return Err(StartFault::Memory),
    }
}

/// Reads the file of a name, after files of so many bytes.
fn read_one<F: Store>(
    folder: &mut F,
    name: FileName,
    kept: u64,
) -> Result<Option<ReadFile>, StartFault>
    requires { kept ≤ most_kept }
    ensures read { IfOk result (Gives (F.files folder.old) name kept) }
    ensures date { IfOk result (λ found. IfSome found (λ file. IsDateOf (F.times folder.old) file.name file.saved)) }
    ensures moment { IfOk result (λ found. IfSome found (λ file. IsMoment file.saved)) }
    ensures too_large { IfErr result (λ fault. IfTooLarge fault (λ large. (large ≡ name) × PassesAfter (F.files folder.old) kept name)) }
    ensures failed { IfErr result (λ fault. fault ≡ StartFault.FolderFault → Rose (F.faults folder.old) (F.faults folder.new)) }
    ensures same { Keeps (F.files folder.old) (F.files folder.new) }
    ensures same_times { Keeps (F.times folder.old) (F.times folder.new) }
    ensures log { (F.notes folder.new).log ≡ (F.notes folder.old).log }
    ensures never_falls { F.faults folder.old ≤ F.faults folder.new }
{
    match folder.read(name.as_str(), MOST_CONTENTS) {
        Err(OutFault::Failed) => return Err(StartFault::FolderFault),
        Err(OutFault::Memory) => return Err(StartFault::Memory),
        Ok(FolderRead::Absent) => return Ok(None),
        Ok(FolderRead::TooLong) => return Err(StartFault::TooLarge { name }),
        Ok(FolderRead::Whole(contents)) => {
            let len = contents.as_slice().len();
            if len > MOST_CONTENTS || len as u64 > MOST_KEPT - kept {
                return Err(StartFault::TooLarge { name });
            }
            let saved = match time_of(folder, &name) {
                Ok(saved) => saved,
                Err(fault) => return Err(fault),
            };
            return Ok(Some(ReadFile {
                name,
                contents,
                saved,
            }));
        }
    }
}

/// Adds a file that was read, at that version and unlocked.
fn stock_one(alloc: Global, stock: &mut Stock, file: ReadFile, first: u64) -> Result<(), Memory>
    requires stock { IsStock first stock.old }
    requires first { 1 ≤ first }
    requires room { stock.old.bytes + length file.contents ≤ most_kept }
    requires saved { IsMoment file.saved }
    requires fresh { place_in (map (λ one. one.0) (opening_listed stock.old.files.items)) file.name ≡ None }
    ensures stock { OnOk result (IsStock first stock.new) }
    ensures opening { OnOk result (opening_listed stock.new.files.items ≡ opening_listed stock.old.files.items ++ (file.name, file.contents) ∷ []) }
    ensures dates { OnOk result (dates_of stock.new.files.items ≡ dates_of stock.old.files.items ++ (file.name, file.saved) ∷ []) }
{
    let count = stock.files.len();
    if count >= MOST_FILES {
        return Err(Memory);
    }
    let ReadFile {
        name,
        contents,
        saved,
    } = file;
    let len = contents.as_slice().len() as u64;
    let kept = opened(alloc, &name, contents, first, saved);
    stock.index.add(name, count as u32)?;
    stock.files.push(kept)?;
    stock.bytes += len;
    Ok(())
}

/// The file of a name that stood there at the opening, at that version, and was last saved at that moment.
fn opened(alloc: Global, name: &FileName, contents: Bytes, first: u64, saved: u64) -> KeptFile
    requires { 1 ≤ first }
    ensures file { file_of (whole result unlocked) ≡ opened_with first contents }
    ensures name { result.name ≡ name.now }
    ensures torn { result.torn ≡ false }
    ensures saved { result.saved ≡ saved }
    ensures digest { result.digest ≡ None }
{
    let mut file = unmet(name, first);
    file.contents = Some(Contents::shareable(alloc, contents));
    file.version = first;
    file.saved = saved;
    file
}

/// The listed names that the shard takes.
fn taken_names(alloc: Global, listed: &Names, only: Option<u8>) -> Result<BTreeSet<ByBytes>, Memory>
    ensures taken { IfOk result (λ names. (name : List ℕ) → has names name ≡ true → MayKeep only name × (is_listed listed.now name ≡ true)) }
    ensures all { IfOk result (λ names. (name : List ℕ) → MayKeep only name → is_listed listed.now name ≡ true → has names name ≡ true) }
{
    let mut names = BTreeSet::new(alloc);
    let texts = listed.as_slice();
    let mut place = 0;
    'texts: while place < texts.len() {
        take_name(&mut names, &texts[place], only)?;
        place += 1;
    }
    Ok(names)
}

/// Reads the files of the names, in the order of their bytes.
fn read_names<F: Store>(
    alloc: Global,
    folder: &mut F,
    only: Option<u8>,
    names: &mut BTreeSet<ByBytes>,
    stock: &mut Stock,
    first: u64,
) -> Result<(), StartFault>
    requires stock { IsStock first stock.old }
    requires first { 1 ≤ first }
    requires gathers { Gathers only (F.files folder.old) (has names.old) (opening_listed stock.old.files.items) }
    requires dates { AreDatesOf (F.times folder.old) (dates_of stock.old.files.items) }
    ensures stock { OnOk result (IsStock first stock.new) }
    ensures gathers { OnOk result (Gathers only (F.files folder.old) (λ name. false) (opening_listed stock.new.files.items)) }
    ensures dates { OnOk result (AreDatesOf (F.times folder.old) (dates_of stock.new.files.items)) }
    ensures too_large { IfErr result (λ fault. IfTooLarge fault (IsTooLarge only (F.files folder.old))) }
    ensures failed { IfErr result (λ fault. fault ≡ StartFault.FolderFault → Rose (F.faults folder.old) (F.faults folder.new)) }
    ensures same { Keeps (F.files folder.old) (F.files folder.new) }
    ensures log { (F.notes folder.new).log ≡ (F.notes folder.old).log }
    ensures never_falls { F.faults folder.old ≤ F.faults folder.new }
{
    'names: while let Some(next) = names.pop_first() {
        match read_one(folder, next.name, stock.bytes) {
            Err(fault) => return Err(fault),
            Ok(None) => {}
            Ok(Some(file)) => match stock_one(alloc, stock, file, first) {
                Ok(()) => {}
                Err(_) => return Err(StartFault::Memory),
            },
        }
    }
    Ok(())
}

/// Reads the files that the shard takes from the folder.
pub fn gather<F: Store>(
    alloc: Global,
    folder: &mut F,
    only: Option<u8>,
    first: u64,
) -> Result<Stock, StartFault>
    requires { 1 ≤ first }
    ensures opening { IfOk result (λ stock. IsOpening only (F.files folder.old) (opening_listed stock.files.items)) }
    ensures fits { IfOk result (λ stock. Fits (opening_listed stock.files.items)) }
    ensures dates { IfOk result (λ stock. AreDatesOf (F.times folder.old) (dates_of stock.files.items)) }
    ensures stock { IfOk result (IsStock first) }
    ensures too_large { IfErr result (λ fault. IfTooLarge fault (IsTooLarge only (F.files folder.old))) }
    ensures failed { IfErr result (λ fault. fault ≡ StartFault.FolderFault → Rose (F.faults folder.old) (F.faults folder.new)) }
    ensures same { Keeps (F.files folder.old) (F.files folder.new) }
    ensures log { (F.notes folder.new).log ≡ (F.notes folder.old).log }
    ensures never_falls { F.faults folder.old ≤ F.faults folder.new }
{
    let listed = match folder.list() {
        Ok(listed) => listed,
        Err(OutFault::Failed) => return Err(StartFault::FolderFault),
        Err(OutFault::Memory) => return Err(StartFault::Memory),
    };
    let mut names = match taken_names(alloc, &listed, only) {
        Ok(names) => names,
        Err(_) => return Err(StartFault::Memory),
    };
    let mut stock = Stock {
        files: Vec::new(alloc),
        index: NameIndex::new(alloc),
        bytes: 0,
    };
    match read_names(alloc, folder, only, &mut names, &mut stock, first) {
        Ok(()) => return Ok(stock),
        Err(fault) => return Err(fault),
    }
}
