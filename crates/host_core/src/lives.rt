//! Which lives a shard may have.
ghost use Rattle.std.specs.Prelude.{◌≡◌, ◌≤◌, ◌<◌, ◌+◌, ◌-◌, ◌^◌, ◌↔◌, IsTrue, IfOk, IfSome, IsSome};
ghost use Rattle.host_core.specs.Life.{BeganBefore, IsGoodLife, IsLowVersion, MayGoOn, life_names};
ghost use Rattle.host_core.specs.Names.{AreOnce};
ghost use Rattle.host_core.specs.Numbers.{IsNumbered};
ghost use Rattle.host_core.specs.Opening.{IsFirstVersion, MayKeep};
ghost use Rattle.wopi_model.specs.Moment.{IsMoment};
ghost use Rattle.std.specs.List.{AllByRecursion};

use crate::life::{Life, LifeFile};
use crate::opening::{MOST_FILES, MOST_FIRST, is_of_shard};
use name_index::NameIndex;
use std::alloc::Global;
use wopi_model::Lock;
use wopi_text::{FileName, MOMENTS_END, Memory};

/// The last stamp, behind which there is none.
const MOST_LAST: u64 = 9_223_372_036_854_775_807;

/// The most versions that a file may have behind its last stamp.
const MOST_AHEAD: u64 = 9_223_372_036_854_775_806;

/// The lock began by that moment.
fn began_before(lock: &Option<Lock>, now: u64) -> bool
    ensures { IsTrue result ↔ BeganBefore now lock.now }
{
    match lock {
        None => return true,
        Some(lock) => return lock.since <= now,
    }
}

/// The version leaves room for all that may come behind the last stamp.
fn is_low(version: u64, last: u64) -> bool
    ensures { IsTrue result ↔ IsLowVersion last version }
{
    if version <= MOST_AHEAD {
        return true;
    }
    version - MOST_AHEAD <= last
}

/// A shard of that time and that last stamp may go on with the file.
fn may_go_on(file: &LifeFile, now: u64, last: u64) -> bool
    ensures { IsTrue result ↔ MayGoOn now last file.now }
{
    if !is_low(file.version, last) {
        return false;
    }
    began_before(&file.lock, now)
}

/// With each of the files.
fn may_all_go_on(files: &Vec<LifeFile>, now: u64, last: u64) -> bool
    ensures { IsTrue result ↔ AllByRecursion (MayGoOn now last) files.now.items }
{
    let mut place = 0;
    'files: while place < files.len() {
        if !may_go_on(&files[place], now, last) {
            return false;
        }
        place += 1;
    }
    true
}

/// The shard keeps files of this name.
fn is_own(name: &FileName, only: Option<u8>) -> bool
    ensures { IsTrue result ↔ MayKeep only name.now }
{
    let _form = name.as_slice();
    is_of_shard(name, only)
}

/// It keeps files of each of the names.
fn are_own(files: &Vec<LifeFile>, only: Option<u8>) -> bool
    ensures { IsTrue result ↔ AllByRecursion (λ file. MayKeep only file.name) files.now.items }
{
    let mut place = 0;
    'files: while place < files.len() {
        if !is_own(&files[place].name, only) {
            return false;
        }
        place += 1;
    }
    true
}

/// The life is one of this shard, but for names that stand there twice.
pub fn is_good(life: &Life, only: Option<u8>) -> bool
    ensures yes { IsTrue result → AreOnce (life_names life.entry.now.files.items) → IsGoodLife only life.entry.now }
    ensures no { IsGoodLife only life.entry.now → IsTrue result }
{
    if life.opened >= MOMENTS_END {
        return false;
    }
    if life.first < 1 || life.first > MOST_FIRST {
        return false;
    }
    if life.now >= MOMENTS_END {
        return false;
    }
    if life.last > MOST_LAST {
        return false;
    }
    if !are_own(&life.files, only) {
        return false;
    }
    may_all_go_on(&life.files, life.now, life.last)
}

/// The places of the files by their names, where no name stands there twice.
pub fn number_files(alloc: Global, files: &Vec<LifeFile>) -> Result<Option<NameIndex>, Memory>
    ensures once { IfOk result (λ found. IsSome found ↔ AreOnce (life_names files.now.items)) }
    ensures numbered { IfOk result (λ found. IfSome found (λ index. IsNumbered index (life_names files.now.items))) }
{
    let mut numbers = NameIndex::new(alloc);
    let count = files.len();
    if count > MOST_FILES {
        return Err(Memory);
    }
    let mut place = 0;
    'files: while place < count {
        let name = files[place].name.copy();
        match numbers.find(&name) {
            Some(_) => return Ok(None),
            None => {}
        }
        numbers.add(name, place as u32)?;
        place += 1;
    }
    Ok(Some(numbers))
}
