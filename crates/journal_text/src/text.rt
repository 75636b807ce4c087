//! What a journal's text tells.
ghost use Rattle.std.specs.Prelude.{◌≡◌};

use host_core::EntryAct;
use std::marker::Model;
use wopi_model::Token;
use wopi_text::{Bytes, FileName, LockId, Reason};

/// The version of a journal's form.
#[derive(Clone, Copy, Debug, PartialEq, Eq)]
pub enum Format {
    First,
    Second,
}

/// What the line of an entry tells.
#[derive(Drop)]
pub struct Line {
    pub stamp: u64,
    pub shard: u8,
    pub pass: u32,
    /// The moment that was handed in, in milliseconds.
    pub moment: u64,
    /// The shard's time at the entry, in milliseconds.
    pub now: u64,
    pub name: FileName,
    pub act: EntryAct,
    pub token: Token,
    pub status: u16,
    pub lock: Option<LockId>,
    pub reason: Option<Reason>,
    pub version: Option<u64>,
    pub contents: Option<Bytes>,
}

/// The opening files of a journal, with their names.
#[derive(Drop)]
pub struct Files {
    items: Vec<(FileName, Bytes)>,
}

impl Model for Files {
    ghost use Rattle.std.specs.Prelude.{List, ℕ};

    ghost Value = { List (List ℕ × List ℕ) };

    ghost view = { λ f. f.items.items };
}

impl Files {
    /// Takes over the vector, without a copy.
    pub fn from_vec(v: Vec<(FileName, Bytes)>) -> Files
        ensures { result ≡ v.items }
    {
        Files { items: v }
    }

    /// The files, which stay where they are.
    pub fn as_slice(&self) -> &[(FileName, Bytes)]
        ensures { result.now ≡ self.now }
    {
        &self.items
    }

    /// Gives the vector back, without a copy.
    pub fn into_vec(self) -> Vec<(FileName, Bytes)>
        ensures { result.items ≡ self }
    {
        self.items
    }
}

/// The entries of a journal.
#[derive(Drop)]
pub struct Lines {
    items: Vec<Line>,
}

impl Model for Lines {
    ghost use Rattle.std.specs.Prelude.{List};
    ghost use Rattle.journal_text.specs.declared.text.Line.{Line};

    ghost Value = { List Line };

    ghost view = { λ l. l.items.items };
}

impl Lines {
    /// Takes over the vector, without a copy.
    pub fn from_vec(v: Vec<Line>) -> Lines
        ensures { result ≡ v.items }
    {
        Lines { items: v }
    }

    /// The entries, which stay where they are.
    pub fn as_slice(&self) -> &[Line]
        ensures { result.now ≡ self.now }
    {
        &self.items
    }

    /// Gives the vector back, without a copy.
    pub fn into_vec(self) -> Vec<Line>
        ensures { result.items ≡ self }
    {
        self.items
    }
}

/// What a journal's text tells.
#[derive(Drop)]
pub struct JournalText {
    /// When the host opened, in milliseconds.
    pub opened: u64,
    /// The version of the opening files.
    pub first: u64,
    pub files: Files,
    pub lines: Lines,
}
