//! What is kept of the lines of a journal while they come.
ghost use Rattle.std.specs.Prelude.{◌≡◌, ◌∷◌, ◌++◌, [], ℕ, List, OnOk};
ghost use Rattle.journal_text.specs.declared.text.Line.{Line};

use crate::text::{Files, JournalText, Line, Lines};
use std::alloc::Global;
use wopi_text::{Bytes, FileName, Memory};

/// What takes the lines of a journal, one after another.
pub trait Keeper: Drop {
    ghost use Rattle.std.specs.Prelude.{◌≡◌, ◌+◌, ℕ, List, [], OnOk, length};
    ghost use Rattle.journal_text.specs.declared.text.Format.{Format};
    ghost use Rattle.journal_text.specs.declared.text.JournalText.{JournalText};
    ghost use Rattle.journal_text.specs.Lines.{IsLine};
    ghost use Rattle.journal_text.specs.Reader.{begun_text, with_file, with_line};

    /// No line has come.
    ghost is_new: { Self → Type 0 };

    /// What it has is what it keeps of a journal with these lines.
    ghost keeps: { Self → JournalText → Type 0 };

    /// The first line has come, with when the host opened, in milliseconds, and the version of the opening files.
    fn begin(&mut self, opened: u64, first: u64) -> Result<(), Memory>
        requires { is_new self.old }
        ensures { OnOk result (keeps self.new (begun_text opened first)) };

    /// The line of an opening file has come.
    fn keep_file(&mut self, file: (FileName, Bytes)) -> Result<(), Memory>
        ensures { OnOk result ((text : JournalText) → text.lines ≡ [] → keeps self.old text → keeps self.new (with_file text file)) };

    /// The line of an entry has come, which is the line of that number, counted from 1.
    fn keep_line(&mut self, number: u64, line: Line) -> Result<(), Memory>
        requires { (form : Format) × IsLine form line }
        ensures { OnOk result ((text : JournalText) → number ≡ length text.lines + length text.files + 2 → keeps self.old text → keeps self.new (with_line text line)) };
}

/// It keeps nothing.
#[derive(Drop)]
pub(crate) struct Nothing;

impl Keeper for Nothing {
    ghost use Rattle.std.specs.Prelude.{⊤};

    ghost is_new = { λ nothing. ⊤ };

    ghost keeps = { λ nothing text. ⊤ };

    fn begin(&mut self, _opened: u64, _first: u64) -> Result<(), Memory> {
        Ok(())
    }

    fn keep_file(&mut self, file: (FileName, Bytes)) -> Result<(), Memory> {
        let _file = file;
        Ok(())
    }

    fn keep_line(&mut self, _number: u64, line: Line) -> Result<(), Memory> {
        let _line = line;
        Ok(())
    }
}

/// It keeps them all.
#[derive(Drop)]
pub(crate) struct Kept {
    opened: u64,
    first: u64,
    files: Vec<(FileName, Bytes)>,
    lines: Vec<Line>,
}

impl Kept {
    pub(crate) fn new(alloc: Global) -> Kept
        ensures { (result.files.items ≡ []) × (result.lines.items ≡ []) }
    {
        Kept {
            opened: 0,
            first: 0,
            files: Vec::new(alloc),
            lines: Vec::new(alloc),
        }
    }

    /// The journal of these lines.
    pub(crate) fn finish(self) -> JournalText
        ensures { result ≡ record { opened = self.opened; first = self.first; files = self.files.items; lines = self.lines.items } }
    {
        JournalText {
            opened: self.opened,
            first: self.first,
            files: Files::from_vec(self.files),
            lines: Lines::from_vec(self.lines),
        }
    }
}

impl Keeper for Kept {
    ghost use Rattle.std.specs.Prelude.{◌≡◌, []};

    ghost is_new = { λ kept. (kept.files.items ≡ []) × (kept.lines.items ≡ []) };

    ghost keeps = { λ kept text. record { opened = kept.opened; first = kept.first; files = kept.files.items; lines = kept.lines.items } ≡ text };

    fn begin(&mut self, opened: u64, first: u64) -> Result<(), Memory> {
        self.opened = opened;
        self.first = first;
        Ok(())
    }

    fn keep_file(&mut self, file: (FileName, Bytes)) -> Result<(), Memory> {
        self.files.push(file)?;
        Ok(())
    }

    fn keep_line(&mut self, _number: u64, line: Line) -> Result<(), Memory> {
        self.lines.push(line)?;
        Ok(())
    }
}
