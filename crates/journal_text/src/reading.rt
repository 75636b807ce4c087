//! Journals, read line by line.
ghost use Rattle.std.specs.Prelude.{◌≡◌, ◌↔◌, ◌<◌, ◌≤◌, suc, false, Some, IsTrue, IfOk, IfSome, IfNone};
ghost use Rattle.journal_text.specs.declared.text.Format.TheVariants.{First, Second};
ghost use Rattle.journal_text.specs.Journals.{comes_after, IsAfter, most_entries};
ghost use Rattle.journal_text.specs.Lines.{IsLine, IsOpening};
ghost use Rattle.journal_text.specs.Reader.{AreTimes, IsClocked, IsReader, Takes, begun_text, times_after};
ghost use Rattle.journal_text.specs.Words.{line_words, words_of};

use crate::entry::line_read;
use crate::opening::{Opening, file_read, is_last};
use crate::text::{Format, Line};
use crate::times::{start_times, time_at};
use std::alloc::Global;
use std::cmp::Ordering;
use wopi_text::{Bytes, FileName, Memory};

/// The most entries of a journal: those of 16 full shards.
const MOST_ENTRIES: u64 = 524_288;

/// What a line is.
#[derive(Drop)]
pub(crate) enum Taken {
    File((FileName, Bytes)),
    Entry(Line),
    /// It is the last.
    Last,
    /// It can't stand where it does.
    Bad,
}

/// What has to be known of the lines that were read, for the next one.
#[derive(Drop)]
pub(crate) struct Reader {
    pub(crate) form: Format,
    pub(crate) opened: u64,
    pub(crate) first: u64,
    pub(crate) last: Option<FileName>,
    pub(crate) entries: u64,
    pub(crate) nows: [u64; 16],
}

/// Whether the file of a name may stand behind that of another: by shard, and in a shard by the bytes of the names.
fn comes_after(last: &FileName, name: &FileName) -> bool
    ensures { result ≡ comes_after last.now name.now }
{
    if last.shard() == name.shard() {
        return last.as_slice().cmp(name.as_slice()) == Ordering::Less;
    }
    last.shard() < name.shard()
}

/// Whether the file of a name may come next.
fn is_after(last: &Option<FileName>, name: &FileName) -> bool
    ensures { IsTrue result ↔ IsAfter last.now name.now }
{
    match last {
        None => return true,
        Some(last) => return comes_after(last, name),
    }
}

/// The entry with its shard's time, where the form doesn't tell it.
fn timed(form: Format, line: Line, now: u64) -> Line
    ensures first { form ≡ First → result ≡ record line { now = now } }
    ensures second { form ≡ Second → result ≡ line }
{
    match form {
        Format::First => return Line { now, ..line },
        Format::Second => return line,
    }
}

impl Reader {
    /// Behind the first line.
    pub(crate) fn new(opening: &Opening) -> Reader
        requires { IsOpening opening.now.form opening.now.opened opening.now.first }
        ensures form { result.form ≡ opening.now.form }
        ensures reader { IsReader result (begun_text opening.now.opened opening.now.first) }
    {
        Reader {
            form: opening.form,
            opened: opening.opened,
            first: opening.first,
            last: None,
            entries: 0,
            nows: start_times(opening.opened),
        }
    }

    /// Takes the next line.
    pub(crate) fn take(&mut self, alloc: Global, row: &[u8]) -> Result<Taken, Memory>
        requires { AreTimes self.old.nows }
        ensures { IfOk result (λ taken. Takes (words_of row.now) self.old taken self.new) }
    {
        if is_last(self.form, row, self.entries) {
            return Ok(Taken::Last);
        }
        if let Some(file) = file_read(alloc, row)? {
            if self.add_file(&file.0) {
                return Ok(Taken::File(file));
            }
            return Ok(Taken::Bad);
        }
        let Some(line) = line_read(alloc, self.form, row)? else {
            return Ok(Taken::Bad);
        };
        let Some(line) = self.add_line(line) else {
            return Ok(Taken::Bad);
        };
        Ok(Taken::Entry(line))
    }

    /// Adds an opening file, if one may stand here.
    fn add_file(&mut self, name: &FileName) -> bool
        ensures good { IsTrue result → (self.old.entries ≡ 0) × IsAfter self.old.last name.now × (self.new ≡ record self.old { last = Some name.now }) }
        ensures bad { result ≡ false → self.old.entries ≡ 0 → IsAfter self.old.last name.now → ⊥ }
    {
        if self.entries > 0 {
            return false;
        }
        if !is_after(&self.last, name) {
            return false;
        }
        self.last = Some(name.copy());
        true
    }

    /// Adds an entry, if there may be one more, and gives it with its shard's time.
    fn add_line(&mut self, line: Line) -> Option<Line>
        requires line { IsLine self.old.form line }
        requires times { AreTimes self.old.nows }
        ensures form { IfSome result (λ one. IsLine self.old.form one × (line_words self.old.form one ≡ line_words self.old.form line)) }
        ensures few { IfSome result (λ one. self.old.entries < most_entries) }
        ensures clocked { IfSome result (λ one. IsClocked self.old.form self.old.nows one) }
        ensures new { IfSome result (λ one. self.new ≡ record self.old { entries = suc self.old.entries; nows = times_after self.old.nows one }) }
        ensures none { IfNone result (most_entries ≤ self.old.entries) }
    {
        if self.entries >= MOST_ENTRIES {
            return None;
        }
        let now = time_at(&mut self.nows, line.shard, line.moment);
        self.entries += 1;
        Some(timed(self.form, line, now))
    }
}
