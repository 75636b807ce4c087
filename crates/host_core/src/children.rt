//! The files of a shard that exist, as a listing tells them.
ghost use Rattle.std.specs.Prelude.{◌≡◌, ◌++◌, ◌∷◌, [], ℕ, List, length, IfOk, OnOk, OnErr, option_map, slice_get};
ghost use Rattle.kept_locks.specs.Locks.{Standing};
ghost use Rattle.host_core.specs.Children.{AreChildren, child_in};
ghost use Rattle.host_core.specs.Files.{files_of};
ghost use Rattle.host_core.specs.Numbers.{named, IsNumbered};
ghost use Rattle.host_core.specs.Whole.{joined};

use crate::file::KeptFile;
use name_index::NameIndex;
use std::alloc::Global;
use std::marker::Model;
use wopi_text::{FileName, Memory};

/// A file that exists.
#[derive(Drop)]
pub struct Child {
    pub name: FileName,
    pub version: u64,
    /// In bytes.
    pub size: u64,
}

/// A list of files. In a listing they stand in the order of their names' bytes.
#[derive(Drop)]
pub struct Children {
    items: Vec<Child>,
}

impl Model for Children {
    ghost use Rattle.std.specs.Prelude.{List};
    ghost use Rattle.host_core.specs.declared.children.Child.{Child};

    ghost Value = { List Child };

    ghost view = { λ c. c.items.items };
}

impl Children {
    /// No files. It takes no memory.
    pub fn new(alloc: Global) -> Children
        ensures { result ≡ [] }
    {
        Children {
            items: Vec::new(alloc),
        }
    }

    /// These files. It takes no memory.
    pub fn from_vec(items: Vec<Child>) -> Children
        ensures { result ≡ items.items }
    {
        Children { items }
    }

    /// The files themselves. It takes no memory.
    pub fn into_vec(self) -> Vec<Child>
        ensures { result.items ≡ self }
    {
        self.items
    }

    /// The files, to look at.
    pub fn as_slice(&self) -> &[Child]
        ensures { result.now ≡ self.now }
    {
        self.items.as_slice()
    }

    /// How many files there are.
    pub fn len(&self) -> usize
        ensures { result ≡ length self.now }
    {
        self.items.len()
    }

    /// The file at a place, counted from 0.
    pub fn get(&self, place: usize) -> Option<&Child>
        ensures { option_map (λ child. child.now) result ≡ slice_get self.now place }
    {
        self.items.get(place)
    }

    /// Puts a file at the end. Where there is no memory for it, the list is as it was.
    pub fn push(&mut self, item: Child) -> Result<(), Memory>
        ensures ok { OnOk result (self.new ≡ self.old ++ item ∷ []) }
        ensures err { OnErr result (self.new ≡ self.old) }
    {
        self.items.push(item)?;
        Ok(())
    }
}

/// What a listing tells of a file, where it exists.
fn child_of(file: &KeptFile) -> Option<Child>
    ensures { result ≡ child_in file.now }
{
    match &file.contents {
        None => None,
        Some(contents) => Some(Child {
            name: file.name.copy(),
            version: file.version,
            size: contents.as_slice().len() as u64,
        }),
    }
}

/// The files that exist, in the order of an index that has their numbers. The contract is for whatever stands under
/// the numbers.
pub fn children_of(alloc: Global, index: &NameIndex, files: &[KeptFile]) -> Result<Children, Memory>
    requires { IsNumbered index.now (named files.now) }
    ensures { IfOk result (λ children. (first : ℕ) (standings : List Standing) → AreChildren (files_of first (joined files.now standings)) children) }
{
    let mut items = Vec::with_capacity(alloc, files.len())?;
    'pairs: for (_name, number) in index.iter() {
        match child_of(&files[*number as usize]) {
            None => {}
            Some(child) => items.push(child)?,
        }
    }
    Ok(Children { items })
}
