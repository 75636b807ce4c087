//! The files of a shard that goes on: those of its folder, joined to what is told.
ghost use Rattle.std.specs.Prelude.{◌≡◌, ◌≤◌, ◌<◌, ◌+◌, ◌-◌, ◌^◌, ◌++◌, ◌∷◌, [], ℕ, Option, IfOk, IfSome, OnOk, IsTrue, ◌↔◌, filter, if◌then◌else◌, length, map, nat_le};
ghost use Rattle.std.specs.List.{AllByRecursion};
ghost use Rattle.host_core.specs.Facts.{AreDigested, date_in, dates_of};
ghost use Rattle.host_core.specs.Files.{BeganAtMoment};
ghost use Rattle.host_core.specs.Going.{IsGoing, ids_told, kept_gone, kept_on, locks_found, is_unmet, locks_in, locks_on};
ghost use Rattle.host_core.specs.Life as lives;
ghost use Rattle.host_core.specs.Life.{MayGoOn, IsGoodLife, is_gone, life_names, told_at, version_with};
ghost use Rattle.host_core.specs.Names.{AreOnce, place_in};
ghost use Rattle.host_core.specs.Notes.{opening_listed};
ghost use Rattle.host_core.specs.Numbers.{IsNumbered, named};
ghost use Rattle.host_core.specs.Opening.{IsByName, IsFirstVersion};
ghost use Rattle.host_core.specs.Stock.{IsStock};
ghost use Rattle.kept_locks.specs.Locks.{unlocked};
ghost use Rattle.wopi_model.specs.Moment.{IsMoment};
ghost use Rattle.wopi_model.specs.Settle.{still_spent, with_spent};

use crate::contents::Contents;
use crate::file::KeptFile;
use crate::life::{Life, LifeContents, LifeFile, ToldLocks};
use crate::opening::{MOST_FILES, Stock};
use lock_machine::settle;
use name_index::NameIndex;
use std::alloc::Global;
use wopi_model::{Lock, Spent};
use wopi_text::{Memory, are_equal};

/// The files of a shard that goes on, and the locks of each.
#[derive(Drop)]
pub struct Going {
    pub stock: Stock,
    pub told: Vec<ToldLocks>,
}

/// The name holds what was told.
fn is_as_told(told: &LifeContents, held: &Option<Contents>) -> bool
    ensures { result ≡ lives.is_as_told told.now held.now }
{
    let Some(held) = held else {
        return true;
    };
    match told {
        LifeContents::Absent => return false,
        LifeContents::Left { size } => return held.as_slice().len() as u64 == *size,
        LifeContents::Removed => return false,
        LifeContents::Told { contents } => return are_equal(held.as_slice(), contents.as_slice()),
    }
}

/// The version that a file goes on with, whose name holds that.
fn version_on(file: &LifeFile, held: &Option<Contents>) -> u64
    requires { file.now.version < 2 ^ 64 - 1 }
    ensures { result ≡ version_with file.now.contents file.now.version held.now }
{
    if is_as_told(&file.contents, held) {
        return file.version;
    }
    file.version + 1
}

/// An equal lock, where there is one.
fn copy_lock(lock: &Option<Lock>) -> Option<Lock>
    ensures { result ≡ lock.now }
{
    match lock {
        None => None,
        Some(lock) => Some(lock.copy()),
    }
}

/// Adds an id, where it is refused still.
fn add_refused(ids: &mut Vec<Spent>, one: Spent, now: u64) -> Result<(), Memory>
    ensures { OnOk result (ids.new.items ≡ ids.old.items ++ still_spent (one ∷ []) now) }
{
    if now < one.until {
        ids.push(one)?;
    }
    Ok(())
}

/// The ids that are refused still, behind the one that has just ended.
fn still_refused(
    alloc: Global,
    ended: Option<Spent>,
    spent: &Vec<Spent>,
    now: u64,
) -> Result<Vec<Spent>, Memory>
    ensures { IfOk result (λ ids. ids.items ≡ still_spent (with_spent ended spent.now.items) now) }
{
    let mut ids = Vec::new(alloc);
    match ended {
        None => {}
        Some(one) => add_refused(&mut ids, one, now)?,
    }
    let mut place = 0;
    'spent: while place < spent.len() {
        add_refused(&mut ids, spent[place].copy(), now)?;
        place += 1;
    }
    Ok(ids)
}

/// The locks of a file as of that moment.
fn locks_of(alloc: Global, file: &LifeFile, now: u64) -> Result<ToldLocks, Memory>
    requires { BeganAtMoment file.now.lock }
    ensures { IfOk result (λ locks. locks ≡ locks_on now file.now) }
{
    let (lock, ended) = settle(copy_lock(&file.lock), now);
    let spent = still_refused(alloc, ended, &file.spent, now)?;
    Ok(ToldLocks { lock, spent })
}

/// A file that was read goes on with the version and the locks that were told of its name; a new one has the version of an
/// opening's.
fn take_on(
    alloc: Global,
    life: &Life,
    index: &NameIndex,
    file: &mut KeptFile,
) -> Result<ToldLocks, Memory>
    requires numbered { IsNumbered index.now (life_names life.now.files.items) }
    requires files { AllByRecursion (MayGoOn life.now.now life.now.last) life.now.files.items }
    requires now { IsMoment life.now.now }
    requires last { life.now.last ≤ 2 ^ 63 - 1 }
    ensures file { OnOk result (file.new ≡ kept_on life.entry.now file.old) }
    ensures locks { IfOk result (λ locks. locks ≡ locks_in life.entry.now file.old) }
{
    match index.find(&file.name) {
        None => {
            file.version = life.first;
            return Ok(ToldLocks {
                lock: None,
                spent: Vec::new(alloc),
            });
        }
        Some(number) => {
            let told = &life.files[number as usize];
            let locks = locks_of(alloc, told, life.now)?;
            file.version = version_on(told, &file.contents);
            return Ok(locks);
        }
    }
}

/// So each of the files does that were read. It gives their locks.
fn take_on_found(
    alloc: Global,
    life: &Life,
    index: &NameIndex,
    files: &mut Vec<KeptFile>,
) -> Result<Vec<ToldLocks>, Memory>
    requires numbered { IsNumbered index.now (life_names life.now.files.items) }
    requires files { AllByRecursion (MayGoOn life.now.now life.now.last) life.now.files.items }
    requires now { IsMoment life.now.now }
    requires last { life.now.last ≤ 2 ^ 63 - 1 }
    ensures files { OnOk result (files.new.items ≡ map (kept_on life.entry.now) files.old.items) }
    ensures locks { IfOk result (λ told. told.items ≡ map (locks_in life.entry.now) files.old.items) }
{
    let mut told = Vec::with_capacity(alloc, files.len())?;
    let mut place = 0;
    'files: while place < files.len() {
        let locks = take_on(alloc, life, index, &mut files[place])?;
        told.push(locks)?;
        place += 1;
    }
    Ok(told)
}

/// A file that was told and isn't in the folder, behind the others.
fn add_gone(
    alloc: Global,
    stock: &mut Stock,
    told: &mut Vec<ToldLocks>,
    file: &LifeFile,
    now: u64,
) -> Result<(), Memory>
    requires began { BeganAtMoment file.now.lock }
    requires numbered { IsNumbered stock.old.index (named stock.old.files.items) }
    requires fresh { place_in (named stock.old.files.items) file.now.name ≡ None }
    ensures files { OnOk result (stock.new.files.items ≡ stock.old.files.items ++ kept_gone file.now ∷ []) }
    ensures told { OnOk result (told.new.items ≡ told.old.items ++ locks_on now file.now ∷ []) }
    ensures numbered { OnOk result (IsNumbered stock.new.index (named stock.new.files.items)) }
    ensures bytes { stock.new.bytes ≡ stock.old.bytes }
    ensures few { OnOk result (length stock.new.files.items ≤ 4000000000) }
{
    let count = stock.files.len();
    if count >= MOST_FILES {
        return Err(Memory);
    }
    let locks = locks_of(alloc, file, now)?;
    told.push(locks)?;
    stock.index.add(file.name.copy(), count as u32)?;
    stock.files.push(KeptFile {
        name: file.name.copy(),
        contents: None,
        version: file.version,
        torn: false,
        saved: 0,
        digest: None,
    })?;
    Ok(())
}

/// A file that was told is put behind the others, where none has its name.
fn add_if_gone(
    alloc: Global,
    stock: &mut Stock,
    told: &mut Vec<ToldLocks>,
    file: &LifeFile,
    now: u64,
) -> Result<(), Memory>
    requires began { BeganAtMoment file.now.lock }
    requires numbered { IsNumbered stock.old.index (named stock.old.files.items) }
    requires few { length stock.old.files.items ≤ 4000000000 }
    ensures files { OnOk result (stock.new.files.items ≡ stock.old.files.items ++ (if is_unmet (named stock.old.files.items) file.now then kept_gone file.now ∷ [] else [])) }
    ensures told { OnOk result (told.new.items ≡ told.old.items ++ (if is_unmet (named stock.old.files.items) file.now then locks_on now file.now ∷ [] else [])) }
    ensures numbered { OnOk result (IsNumbered stock.new.index (named stock.new.files.items)) }
    ensures bytes { stock.new.bytes ≡ stock.old.bytes }
    ensures few { OnOk result (length stock.new.files.items ≤ 4000000000) }
{
    match stock.index.find(&file.name) {
        Some(_) => return Ok(()),
        None => {}
    }
    add_gone(alloc, stock, told, file, now)?;
    Ok(())
}

/// Those files that were told and aren't in the folder are put behind the others.
fn take_on_gone(
    alloc: Global,
    life: &Life,
    stock: &mut Stock,
    told: &mut Vec<ToldLocks>,
) -> Result<(), Memory>
    requires files { AllByRecursion (MayGoOn life.now.now life.now.last) life.now.files.items }
    requires now { IsMoment life.now.now }
    requires names { AreOnce (life_names life.now.files.items) }
    requires numbered { IsNumbered stock.old.index (named stock.old.files.items) }
    requires once { AreOnce (named stock.old.files.items) }
    requires few { length stock.old.files.items ≤ 4000000000 }
    ensures files { OnOk result (stock.new.files.items ≡ stock.old.files.items ++ map kept_gone (filter (is_unmet (named stock.old.files.items)) life.entry.now.files.items)) }
    ensures told { OnOk result (told.new.items ≡ told.old.items ++ map (locks_on life.entry.now.now) (filter (is_unmet (named stock.old.files.items)) life.entry.now.files.items)) }
    ensures numbered { OnOk result (IsNumbered stock.new.index (named stock.new.files.items)) }
    ensures once { OnOk result (AreOnce (named stock.new.files.items)) }
    ensures bytes { stock.new.bytes ≡ stock.old.bytes }
    ensures few { OnOk result (length stock.new.files.items ≤ 4000000000) }
{
    let mut place = 0;
    'files: while place < life.files.len() {
        add_if_gone(alloc, stock, told, &life.files[place], life.now)?;
        place += 1;
    }
    Ok(())
}

/// Joins what is told to the files that were read. It gives the locks of each.
pub fn join(
    alloc: Global,
    life: &Life,
    index: &NameIndex,
    stock: &mut Stock,
) -> Result<Vec<ToldLocks>, Memory>
    requires life { (only : Option ℕ) × IsGoodLife only life.now }
    requires numbered { IsNumbered index.now (life_names life.now.files.items) }
    requires stock { IsStock life.now.first stock.old }
    requires ordered { IsByName (opening_listed stock.old.files.items) }
    ensures { IfOk result (λ told. IsGoing life.entry.now (opening_listed stock.old.files.items) (dates_of stock.old.files.items) stock.new.files.items told.items stock.new.index stock.new.bytes) }
{
    let mut told = take_on_found(alloc, life, index, &mut stock.files)?;
    take_on_gone(alloc, life, stock, &mut told)?;
    Ok(told)
}

/// Whether so many places are enough for all locks and ids.
pub fn are_enough(told: &Vec<ToldLocks>, ids: usize) -> bool
    ensures { result ≡ nat_le (ids_told told.now.items) ids }
{
    let mut left = ids;
    let mut place = 0;
    'told: while place < told.len() {
        let one = &told[place];
        let spent = one.spent.len();
        if spent > left {
            return false;
        }
        left -= spent;
        if one.lock.is_some() {
            if left == 0 {
                return false;
            }
            left -= 1;
        }
        place += 1;
    }
    true
}
