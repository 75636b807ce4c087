//! Files by name.
ghost use Rattle.std.specs.Prelude.{◌≡◌, ◌↔◌, ◌∷◌, ◌++◌, [], None, IfOk, IsTrue, map, option_map, unwrap_or};
ghost use Rattle.wopi_model.specs.Moment.{IsMoment};
ghost use Rattle.wopi_model.specs.Begin.{at_name, put_name};
ghost use Rattle.journal_segments.specs.Places.{IsNumbered, place_in};
ghost use Rattle.journal_segments.specs.Told.{Placed, placed_by, unmet};
ghost use Rattle.journal_segments.specs.Rows.{holding};
ghost use Rattle.journal_segments.specs.Lives.{file_told};

use crate::file::ToldFile;
use host_core::LifeFile;
use journal_text::Line;
use name_index::NameIndex;
use std::alloc::Global;
use std::marker::Model;
use wopi_text::{Bytes, FileName, Memory};

/// Files by name, in the order in which they came. A name is found without a walk over them.
#[derive(Drop)]
pub struct Shelf {
    names: NameIndex,
    files: Vec<(FileName, ToldFile)>,
}

impl Model for Shelf {
    ghost use Rattle.std.specs.Prelude.{List, ℕ};
    ghost use Rattle.journal_segments.specs.Told.{Placed};
    ghost use Rattle.journal_segments.specs.Places.{IsNumbered};

    ghost Value = { List (List ℕ × Placed) };

    ghost view = { λ s. s.files.items };

    ghost invariant = { λ s. IsNumbered s.names s.files.items };
}

/// The place of a name.
fn place_of(names: &NameIndex, files: &[(FileName, ToldFile)], name: &FileName) -> Option<usize>
    requires { IsNumbered names.now files.now }
    ensures { result ≡ place_in files.now name.now }
{
    let _files = files;
    match names.find(name) {
        None => return None,
        Some(number) => return Some(number as usize),
    }
}

/// Adds a file behind the others.
fn push(
    mut names: NameIndex,
    mut files: Vec<(FileName, ToldFile)>,
    name: FileName,
    file: ToldFile,
) -> Result<Shelf, Memory>
    requires { IsNumbered names files.items }
    ensures { IfOk result (λ shelf. shelf ≡ files.items ++ (name, file) ∷ []) }
{
    match names.find(&name) {
        Some(_) => {
            files.push((name, file))?;
            return Ok(Shelf { names, files });
        }
        None => {
            let Ok(number) = u32::try_from(files.len()) else {
                return Err(Memory);
            };
            names.add(name.copy(), number)?;
            files.push((name, file))?;
            return Ok(Shelf { names, files });
        }
    }
}

/// What an accepted line leaves of the files.
fn accept(
    alloc: Global,
    names: NameIndex,
    mut files: Vec<(FileName, ToldFile)>,
    first: u64,
    line: Line,
) -> Result<Shelf, Memory>
    requires numbered { IsNumbered names files.items }
    requires late { IsMoment line.now }
    ensures { IfOk result (λ shelf. shelf ≡ put_name line.name (placed_by files.items first line) files.items) }
{
    match place_of(&names, &files, &line.name) {
        Some(place) => {
            files[place].1.accept(line)?;
            return Ok(Shelf { names, files });
        }
        None => {
            let name = line.name.copy();
            let mut file = ToldFile::unmet(alloc, first);
            file.accept(line)?;
            return push(names, files, name, file);
        }
    }
}

/// The files with what stands under a name.
fn hold(
    alloc: Global,
    names: NameIndex,
    mut files: Vec<(FileName, ToldFile)>,
    first: u64,
    name: FileName,
    contents: Option<Bytes>,
) -> Result<Shelf, Memory>
    requires { IsNumbered names files.items }
    ensures { IfOk result (λ shelf. shelf ≡ put_name name (holding (at_name (unmet first) files.items name) contents) files.items) }
{
    match place_of(&names, &files, &name) {
        Some(place) => {
            files[place].1.stand(contents);
            return Ok(Shelf { names, files });
        }
        None => {
            let mut file = ToldFile::unmet(alloc, first);
            file.stand(contents);
            return push(names, files, name, file);
        }
    }
}

/// Whether a name wasn't met yet.
fn is_new(names: &NameIndex, files: &Vec<(FileName, ToldFile)>, name: &FileName) -> bool
    requires { IsNumbered names.now files.now.items }
    ensures { IsTrue result ↔ (place_in files.now.items name.now ≡ None) }
{
    place_of(names, files, name).is_none()
}

/// The same files, as those of a life.
fn into_life_files(alloc: Global, files: Vec<(FileName, ToldFile)>) -> Result<Vec<LifeFile>, Memory>
    ensures { IfOk result (λ lived. map file_told lived.items ≡ files.items) }
{
    let mut lived = Vec::with_capacity(alloc, files.len())?;
    'files: for (name, file) in files {
        lived.push(file.into_life(name))?;
    }
    Ok(lived)
}

/// The file of a name.
fn file_of<'a>(
    names: &NameIndex,
    files: &'a Vec<(FileName, ToldFile)>,
    name: &FileName,
) -> Option<&'a ToldFile>
    requires { IsNumbered names.now files.now.items }
    ensures { (other : Placed) → at_name other files.now.items name.now ≡ unwrap_or (option_map (λ file. file.now) result) other }
{
    match place_of(names, files, name) {
        None => return None,
        Some(place) => {
            let file = &files[place];
            return Some(&file.1);
        }
    }
}

impl Shelf {
    /// With no file.
    pub(crate) fn new(alloc: Global) -> Shelf
        ensures { result ≡ [] }
    {
        Shelf {
            names: NameIndex::new(alloc),
            files: Vec::new(alloc),
        }
    }

    /// Adds a file behind the others.
    pub(crate) fn add(self, name: FileName, file: ToldFile) -> Result<Shelf, Memory>
        ensures { IfOk result (λ shelf. shelf ≡ self ++ (name, file) ∷ []) }
    {
        push(self.names, self.files, name, file)
    }

    /// What an accepted line leaves.
    pub(crate) fn accept(self, alloc: Global, first: u64, line: Line) -> Result<Shelf, Memory>
        requires { IsMoment line.now }
        ensures { IfOk result (λ shelf. shelf ≡ put_name line.name (placed_by self first line) self) }
    {
        accept(alloc, self.names, self.files, first, line)
    }

    /// With what stands under a name.
    pub(crate) fn hold(
        self,
        alloc: Global,
        first: u64,
        name: FileName,
        contents: Option<Bytes>,
    ) -> Result<Shelf, Memory>
        ensures { IfOk result (λ shelf. shelf ≡ put_name name (holding (at_name (unmet first) self name) contents) self) }
    {
        hold(alloc, self.names, self.files, first, name, contents)
    }

    /// The file of a name, if it was met.
    pub fn find(&self, name: &FileName) -> Option<&ToldFile>
        ensures { (other : Placed) → at_name other self.now name.now ≡ unwrap_or (option_map (λ file. file.now) result) other }
    {
        file_of(&self.names, &self.files, name)
    }

    /// Whether a name wasn't met yet.
    pub(crate) fn is_new(&self, name: &FileName) -> bool
        ensures { IsTrue result ↔ (place_in self.now name.now ≡ None) }
    {
        is_new(&self.names, &self.files, name)
    }

    /// The files, in their order.
    pub fn as_slice(&self) -> &[(FileName, ToldFile)]
        ensures { result.now ≡ self.now }
    {
        &self.files
    }

    /// The files in their order, as those of a life.
    pub(crate) fn into_life(self, alloc: Global) -> Result<Vec<LifeFile>, Memory>
        ensures { IfOk result (λ lived. map file_told lived.items ≡ self) }
    {
        into_life_files(alloc, self.files)
    }
}
