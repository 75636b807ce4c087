//! A folder in memory of which no call fails.
ghost use Rattle.std.specs.Prelude.{◌≡◌, IsTrue};
ghost use Rattle.outside.specs.Folder.{all_differ};
ghost use Rattle.outside.specs.MemFolder.{names_of};
ghost use Rattle.outside.specs.MemFolderParts.{files_in};
ghost use Rattle.replay_cmd.specs.Folders.{NeverFails};

use outside::{Failed, Folder, FolderRead, MemFolder, Names, OutFault};
use std::alloc::Global;
use wopi_text::Bytes;

/// Files in memory. Its calls fail for want of memory alone, so its count of faults stays 0.
#[derive(Drop)]
pub struct FaultlessFolder {
    folder: MemFolder,
    ghost never: { NeverFails folder },
}

impl FaultlessFolder {
    /// The folder of these files.
    pub fn new(alloc: Global, files: Vec<(String, Bytes)>) -> FaultlessFolder
        requires { IsTrue (all_differ (names_of files.items)) }
        ensures { files_in result.folder ≡ files.items }
    {
        FaultlessFolder {
            folder: MemFolder::new(alloc, files, Vec::new(alloc)),
        }
    }
}

impl Folder for FaultlessFolder {
    ghost use Rattle.outside.specs.MemFolderParts.{map_of, times_of};

    ghost files = { λ f. map_of f.folder };

    ghost times = { λ f. times_of f.folder };

    ghost faults = { λ f. 0 };

    fn list(&mut self) -> Result<Names, OutFault> {
        self.folder.list()
    }

    fn read(&mut self, name: &str, most: usize) -> Result<FolderRead, OutFault> {
        self.folder.read(name, most)
    }

    fn time(&mut self, name: &str) -> Result<Option<u64>, OutFault> {
        self.folder.time(name)
    }

    fn replace(&mut self, name: &str, contents: &[u8]) -> Result<(), OutFault> {
        self.folder.replace(name, contents)
    }

    fn remove(&mut self, name: &str) -> Result<(), Failed> {
        self.folder.remove(name)
    }
}
