//! The contents that a journal's files had at their versions.
ghost use Rattle.std.specs.Prelude.{◌≡◌, ℕ, List, IfNone, IfSome, option_map};
ghost use Rattle.host_core.specs.Opening.{opened_contents};
ghost use Rattle.journal_audit.specs.Contents.{Gives, GivesNone, HadContents, IsGiven, StoodThere};

use journal_text::{JournalText, Line};
use wopi_text::{Bytes, FileName};

/// The contents that the file of a name had when the host opened, if it was there.
fn opened_contents<'a>(files: &'a [(FileName, Bytes)], name: &FileName) -> Option<&'a Bytes>
    ensures { option_map (λ contents. contents.now) result ≡ opened_contents files.now name.now }
{
    for file in files {
        if file.0 == *name {
            return Some(&file.1);
        }
    }
    None
}

/// The contents that a line gave the file of a name, if it gave it that version.
fn given_by<'a>(line: &'a Line, name: &FileName, version: u64) -> Option<&'a Bytes>
    ensures some { IfSome result (λ contents. Gives name.now version line.entry.now contents.now) }
    ensures none { IfNone result (GivesNone name.now version line.entry.now) }
{
    if line.name != *name || line.version != Some(version) {
        return None;
    }
    line.contents.as_ref()
}

/// The contents that the first line gave the file of a name that gave it that version.
fn given_in<'a>(lines: &'a [Line], name: &FileName, version: u64) -> Option<&'a Bytes>
    ensures some { IfSome result (λ contents. IsGiven name.now version lines.now contents.now) }
    ensures none { IfNone result ((contents : List ℕ) → ¬ IsGiven name.now version lines.now contents) }
{
    for line in lines {
        match given_by(line, name, version) {
            Some(contents) => return Some(contents),
            None => {}
        }
    }
    None
}

/// The contents that the file of a name had when the host opened, if that is the version.
fn stood_there<'a>(text: &'a JournalText, name: &FileName, version: u64) -> Option<&'a Bytes>
    ensures some { IfSome result (λ contents. StoodThere text.now name.now version contents.now) }
    ensures none { IfNone result ((contents : List ℕ) → ¬ StoodThere text.now name.now version contents) }
{
    if version != text.first {
        return None;
    }
    opened_contents(text.files.as_slice(), name)
}

/// The contents that the file of a name had at a version, if it had that version. Where a journal isn't legal
/// and gives a version twice, the first counts.
pub fn contents_at<'a>(text: &'a JournalText, name: &FileName, version: u64) -> Option<&'a Bytes>
    ensures had { IfSome result (λ contents. HadContents text.now name.now version contents.now) }
    ensures none { IfNone result ((contents : List ℕ) → ¬ HadContents text.now name.now version contents) }
{
    match stood_there(text, name, version) {
        Some(contents) => return Some(contents),
        None => return given_in(text.lines.as_slice(), name, version),
    }
}
