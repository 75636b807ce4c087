//! A folder in memory.
ghost use Rattle.std.specs.Prelude.{◌≡◌, ◌≢◌, ◌≤◌, ◌<◌, ◌↔◌, ◌/◌, ℕ, List, length, take, map, string_bytes, option_map, Some, None, IsTrue, IfOk, IfSome, IsErr, IsErrOf, MatchOption, OnOk, OnErr};
ghost use Rattle.wopi_text.specs.Moments.{moments_end};
ghost use Rattle.outside.specs.Failing.{FailsNext, CountsOne, IsFresh};
ghost use Rattle.outside.specs.Faults.{Rose};
ghost use Rattle.outside.specs.Folder.{all_differ, Lists, ReadsFile, TellsTime, Keeps, Replaces, OpensOnly, Removes};
ghost use Rattle.outside.specs.MemFolder.{names_of, contents_of, IsPlace};

use crate::{Failed, Failing, Folder, FolderRead, Names, OutFault};
use std::alloc::Global;
use wopi_text::{Bytes, Memory};

/// Files in memory. Any string names a file here, and each file has the one time that was set.
pub struct MemFolder {
    alloc: Global,
    files: Vec<(String, Bytes)>,
    failing: Failing,
    dated: u64,
    ghost differ: { IsTrue (all_differ (names_of files.items)) },
    ghost moment: { dated < moments_end },
}

// Written, since a derived one is spelled out, and proved, wherever it goes.
impl Drop for MemFolder {
    fn drop(self) {
        let MemFolder {
            alloc: _alloc,
            files: _files,
            failing: _failing,
            dated: _dated,
        } = self;
    }
}

impl MemFolder {
    ghost use Rattle.outside.specs.MemFolderParts.{date_of, files_in, script};

    /// `failing` has the numbers of the calls that fail, counted from 1 over all five calls. The files' time is 0.
    pub fn new(alloc: Global, files: Vec<(String, Bytes)>, failing: Vec<u64>) -> MemFolder
        requires { IsTrue (all_differ (names_of files.items)) }
        ensures files { files_in result ≡ files.items }
        ensures script { IsFresh (script result) failing.items }
        ensures dated { date_of result ≡ 0 }
    {
        MemFolder {
            alloc,
            files,
            failing: Failing::new(failing),
            dated: 0,
        }
    }

    /// Sets the time of the files. This is no call of the folder.
    pub fn date(&mut self, moment: u64)
        requires { moment < moments_end }
        ensures dated { date_of self.new ≡ moment }
        ensures files { files_in self.new ≡ files_in self.old }
        ensures script { script self.new ≡ script self.old }
    {
        self.dated = moment;
    }

    /// The bytes under a name. This is no call of the folder, and never fails.
    pub fn contents(&self, name: &str) -> Option<&[u8]>
        ensures { option_map (λ bytes. bytes.now) result ≡ contents_of (files_in self.now) name.now }
    {
        match place_of(&self.files, name) {
            Some(place) => Some(self.files[place].1.as_slice()),
            None => None,
        }
    }
}

impl Folder for MemFolder {
    ghost use Rattle.outside.specs.MemFolderParts.{date_of, files_in, script, map_of, times_of};

    ghost files = { map_of };

    ghost times = { times_of };

    ghost faults = { λ f. (script f).faults };

    fn list(&mut self) -> Result<Names, OutFault>
        ensures names { IfOk result (Lists (map_of self.old)) }
        ensures same { Keeps (map_of self.old) (map_of self.new) }
        ensures same_times { Keeps (times_of self.old) (times_of self.new) }
        ensures never_falls { (script self.old).faults ≤ (script self.new).faults }
        ensures failed { IsErrOf result OutFault.Failed → Rose (script self.old).faults (script self.new).faults }

        // It fails at the given calls alone.
        ensures fails { IsErrOf result OutFault.Failed ↔ FailsNext (script self.old) }
        ensures counts { CountsOne (script self.old) (script self.new) }
        ensures stays { date_of self.new ≡ date_of self.old }
    {
        if self.failing.next_fails() {
            return Err(OutFault::Failed);
        }
        Ok(names_in(self.alloc, &self.files)?)
    }

    fn read(&mut self, name: &str, most: usize) -> Result<FolderRead, OutFault>
        ensures read { IfOk result (ReadsFile (map_of self.old) name.now most) }
        ensures same { Keeps (map_of self.old) (map_of self.new) }
        ensures same_times { Keeps (times_of self.old) (times_of self.new) }
        ensures never_falls { (script self.old).faults ≤ (script self.new).faults }
        ensures failed { IsErrOf result OutFault.Failed → Rose (script self.old).faults (script self.new).faults }

        // It fails at the given calls alone.
        ensures fails { IsErrOf result OutFault.Failed ↔ FailsNext (script self.old) }
        ensures counts { CountsOne (script self.old) (script self.new) }
        ensures stays { date_of self.new ≡ date_of self.old }
    {
        if self.failing.next_fails() {
            return Err(OutFault::Failed);
        }
        match place_of(&self.files, name) {
            None => Ok(FolderRead::Absent),
            Some(place) => {
                let contents = &self.files[place].1;
                if contents.as_slice().len() > most {
                    Ok(FolderRead::TooLong)
                } else {
                    Ok(FolderRead::Whole(contents.try_copy(self.alloc)?))
                }
            }
        }
    }

    fn time(&mut self, name: &str) -> Result<Option<u64>, OutFault>
        ensures moment { IfOk result (λ found. IfSome found (λ moment. moment < moments_end)) }
        ensures told { IfOk result (TellsTime (times_of self.old) name.now) }
        ensures same { Keeps (map_of self.old) (map_of self.new) }
        ensures same_times { Keeps (times_of self.old) (times_of self.new) }
        ensures never_falls { (script self.old).faults ≤ (script self.new).faults }
        ensures failed { IsErrOf result OutFault.Failed → Rose (script self.old).faults (script self.new).faults }

        // It fails at the given calls alone.
        ensures fails { IsErrOf result OutFault.Failed ↔ FailsNext (script self.old) }
        ensures counts { CountsOne (script self.old) (script self.new) }
        ensures stays { date_of self.new ≡ date_of self.old }
    {
        if self.failing.next_fails() {
            return Err(OutFault::Failed);
        }
        match place_of(&self.files, name) {
            None => Ok(None),
            Some(_) => Ok(Some(self.dated)),
        }
    }

    fn replace(&mut self, name: &str, contents: &[u8]) -> Result<(), OutFault>
        ensures replaced { OnOk result (Replaces (map_of self.old) (map_of self.new) name.now contents.now) }
        ensures torn { OpensOnly (map_of self.old) (map_of self.new) name.now }
        ensures other_times { OpensOnly (times_of self.old) (times_of self.new) name.now }
        ensures memory { result ≡ Err OutFault.Memory → Keeps (map_of self.old) (map_of self.new) }
        ensures never_falls { (script self.old).faults ≤ (script self.new).faults }
        ensures failed { IsErrOf result OutFault.Failed → Rose (script self.old).faults (script self.new).faults }

        // It fails at the given calls alone, and then leaves the first half of the new contents.
        ensures fails { IsErrOf result OutFault.Failed → FailsNext (script self.old) }
        ensures succeeds { OnOk result (¬ FailsNext (script self.old)) }
        ensures half { IsErrOf result OutFault.Failed
            → contents_of (files_in self.new) name.now ≡ Some (take (length contents.now / 2) contents.now) }
        ensures counts { CountsOne (script self.old) (script self.new) }
        ensures stays { date_of self.new ≡ date_of self.old }
    {
        if self.failing.next_fails() {
            let half = &contents[..contents.len() / 2];
            put(self.alloc, &mut self.files, name, half)?;
            return Err(OutFault::Failed);
        }
        put(self.alloc, &mut self.files, name, contents)?;
        Ok(())
    }

    fn remove(&mut self, name: &str) -> Result<(), Failed>
        ensures removed { OnOk result (Removes (map_of self.old) (map_of self.new) name.now) }
        ensures torn { OpensOnly (map_of self.old) (map_of self.new) name.now }
        ensures other_times { OpensOnly (times_of self.old) (times_of self.new) name.now }
        ensures never_falls { (script self.old).faults ≤ (script self.new).faults }
        ensures failed { OnErr result (Rose (script self.old).faults (script self.new).faults) }

        // It fails at the given calls alone, and then leaves the file.
        ensures fails { IsErr result ↔ FailsNext (script self.old) }
        ensures left { OnErr result (files_in self.new ≡ files_in self.old) }
        ensures counts { CountsOne (script self.old) (script self.new) }
        ensures stays { date_of self.new ≡ date_of self.old }
    {
        if self.failing.next_fails() {
            return Err(Failed);
        }
        take_out(&mut self.files, name);
        Ok(())
    }
}

// The place of a name.
fn place_of(files: &[(String, Bytes)], name: &str) -> Option<usize>
    ensures { MatchOption result (contents_of files.now name.now ≡ None) (IsPlace files.now name.now) }
{
    for (place, file) in files.iter().enumerate() {
        if file.0.as_str() == name {
            return Some(place);
        }
    }
    None
}

fn names_in(alloc: Global, files: &[(String, Bytes)]) -> Result<Names, Memory>
    ensures { IfOk result (λ names. names ≡ names_of files.now) }
{
    let mut names = Names::new(alloc);
    for file in files {
        names.push(file.0.clone()?)?;
    }
    Ok(names)
}

// The name then holds the contents.
fn put(
    alloc: Global,
    files: &mut Vec<(String, Bytes)>,
    name: &str,
    contents: &[u8],
) -> Result<(), Memory>
    requires { IsTrue (all_differ (names_of files.old.items)) }
    ensures differ { IsTrue (all_differ (names_of files.new.items)) }
    ensures held { OnOk result (contents_of files.new.items name.now ≡ Some contents.now) }
    ensures others { OnOk result ((other : List ℕ) → other ≢ name.now
        → contents_of files.new.items other ≡ contents_of files.old.items other) }
    ensures err { OnErr result (files.new.items ≡ files.old.items) }
{
    let bytes = Bytes::from_vec(contents.to_vec(alloc)?);
    match place_of(files, name) {
        Some(place) => files[place].1 = bytes,
        None => files.push((String::from_str(alloc, name)?, bytes))?,
    }
    Ok(())
}

// The name then holds nothing.
fn take_out(files: &mut Vec<(String, Bytes)>, name: &str)
    requires { IsTrue (all_differ (names_of files.old.items)) }
    ensures differ { IsTrue (all_differ (names_of files.new.items)) }
    ensures gone { contents_of files.new.items name.now ≡ None }
    ensures others { (other : List ℕ) → other ≢ name.now
        → contents_of files.new.items other ≡ contents_of files.old.items other }
{
    if let Some(place) = place_of(files, name) {
        let _file = files.remove(place);
    }
}
