//! What is told of a shard.
ghost use Rattle.std.specs.Prelude.{◌≡◌, ◌↔◌, [], None, IfOk, IsTrue, option_map, unwrap_or};
ghost use Rattle.wopi_model.specs.Moment.{IsMoment};
ghost use Rattle.journal_segments.specs.Told.{Placed, told_line};
ghost use Rattle.wopi_model.specs.Begin.{at_name};
ghost use Rattle.journal_segments.specs.Places.{place_in};
ghost use Rattle.journal_segments.specs.Rows.{told_holds, with_place};
ghost use Rattle.journal_segments.specs.Lives.{told_in};

use crate::file::ToldFile;
use crate::shelf::Shelf;
use host_core::Life;
use journal_text::Line;
use std::alloc::Global;
use std::marker::Model;
use wopi_text::{Bytes, FileName, Memory};

/// What is told of a shard: the files that were met, each as a line has left it that looked at it last.
#[derive(Drop)]
pub struct ToldShard {
    opened: u64,
    first: u64,
    now: u64,
    last: u64,
    files: Shelf,
}

impl Model for ToldShard {
    ghost use Rattle.journal_segments.specs.Told.{Told};

    ghost Value = { Told };

    ghost view = { λ t. record { opened = t.opened; first = t.first; now = t.now; last = t.last; files = t.files } };
}

impl ToldShard {
    /// With no file.
    pub(crate) fn new(alloc: Global, opened: u64, first: u64, now: u64, last: u64) -> ToldShard
        ensures { result ≡ record { opened = opened; first = first; now = now; last = last; files = [] } }
    {
        ToldShard {
            opened,
            first,
            now,
            last,
            files: Shelf::new(alloc),
        }
    }

    /// When the host opened, in milliseconds.
    pub fn opened(&self) -> u64
        ensures { result ≡ self.entry.now.opened }
    {
        self.opened
    }

    /// The version of the opening files.
    pub fn first(&self) -> u64
        ensures { result ≡ self.entry.now.first }
    {
        self.first
    }

    /// The shard's time, in milliseconds.
    pub fn now(&self) -> u64
        ensures { result ≡ self.entry.now.now }
    {
        self.now
    }

    /// The stamp of the last entry.
    pub fn last(&self) -> u64
        ensures { result ≡ self.entry.now.last }
    {
        self.last
    }

    /// The files that were met.
    pub fn files(&self) -> &[(FileName, ToldFile)]
        ensures { result.now ≡ self.entry.now.files }
    {
        self.files.as_slice()
    }

    /// The file of a name, if it was met.
    pub fn find(&self, name: &FileName) -> Option<&ToldFile>
        ensures { (other : Placed) → at_name other self.entry.now.files name.now ≡ unwrap_or (option_map (λ file. file.now) result) other }
    {
        self.files.find(name)
    }

    /// Whether a name wasn't met yet.
    pub(crate) fn is_new(&self, name: &FileName) -> bool
        ensures { IsTrue result ↔ (place_in self.entry.now.files name.now ≡ None) }
    {
        self.files.is_new(name)
    }

    /// The life with which a shard goes on from there. No contents are copied: memory is wanted for the list alone.
    pub fn into_life(self, alloc: Global) -> Result<Life, Memory>
        ensures { IfOk result (λ life. told_in life ≡ self) }
    {
        let ToldShard {
            opened,
            first,
            now,
            last,
            files,
        } = self;
        let files = files.into_life(alloc)?;
        Ok(Life {
            opened,
            first,
            now,
            last,
            files,
        })
    }

    /// Adds a file that was met.
    pub(crate) fn add(self, name: FileName, file: ToldFile) -> Result<ToldShard, Memory>
        ensures { IfOk result (λ told. told ≡ with_place self name file) }
    {
        let ToldShard {
            opened,
            first,
            now,
            last,
            files,
        } = self;
        let files = files.add(name, file)?;
        Ok(ToldShard {
            opened,
            first,
            now,
            last,
            files,
        })
    }

    /// What the line of an entry leaves.
    pub(crate) fn tell(self, alloc: Global, line: Line) -> Result<ToldShard, Memory>
        requires { IsMoment line.now }
        ensures { IfOk result (λ told. told ≡ told_line self line) }
    {
        let ToldShard {
            opened,
            first,
            now: _,
            last: _,
            files,
        } = self;
        let now = line.now;
        let last = line.stamp;
        if line.status != 200 {
            return Ok(ToldShard {
                opened,
                first,
                now,
                last,
                files,
            });
        }
        let files = files.accept(alloc, first, line)?;
        Ok(ToldShard {
            opened,
            first,
            now,
            last,
            files,
        })
    }

    /// With what stands under a name.
    pub(crate) fn hold(
        self,
        alloc: Global,
        name: FileName,
        contents: Option<Bytes>,
    ) -> Result<ToldShard, Memory>
        ensures { IfOk result (λ told. told ≡ told_holds self name contents) }
    {
        let ToldShard {
            opened,
            first,
            now,
            last,
            files,
        } = self;
        let files = files.hold(alloc, first, name, contents)?;
        Ok(ToldShard {
            opened,
            first,
            now,
            last,
            files,
        })
    }
}
