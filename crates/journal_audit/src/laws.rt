//! What holds of lines and journals, as contracts of functions that do nothing.
ghost use Rattle.std.specs.Prelude.{◌≡◌, ◌↔◌, ◌++◌, ℕ, List, map};
ghost use Rattle.std.specs.List.{AllByRecursion};
ghost use Rattle.host_core.specs.Entries.{Made};
ghost use Rattle.host_core.specs.Value.{InMemory};
ghost use Rattle.host_table.specs.Close.{Ends};
ghost use Rattle.host_table.specs.Journal.{JournalView};
ghost use Rattle.host_table.specs.Passes.{HostView, IsHost, PassView};
ghost use Rattle.journal_text.specs.declared.text.JournalText.{JournalText};
ghost use Rattle.journal_text.specs.declared.text.Line.{Line};
ghost use Rattle.journal_text.specs.Told.{line_of, told_by};
ghost use Rattle.journal_audit.specs.declared.verdict.AuditFault.{AuditFault};
ghost use Rattle.journal_audit.specs.Contents.{HadContents, Stood};
ghost use Rattle.journal_audit.specs.Lines.{Begun, IsBadLine, KeepsBounds, LegalLines, LegalText, behind_lines};
ghost use Rattle.journal_audit.specs.Merges.{GoesOn, IsOfHost, IsSafe};
ghost use Rattle.journal_audit.specs.Tracks.{IsSound};

use outside::Folder;

/// Lines go on from what a part of them leaves.
pub fn legal_lines_go_on()
    ensures { (begun : Begun) (front back : List Line) → LegalLines begun (front ++ back) ↔ (LegalLines begun front × LegalLines (behind_lines begun front) back) }
{}

/// A journal with a bad line isn't legal, and its first bad line and what is wrong with it are one.
pub fn a_bad_line_is_the_first()
    ensures illegal { (text : JournalText) (number : ℕ) (fault : AuditFault) → IsBadLine text number fault → LegalText text → ⊥ }
    ensures one { (text : JournalText) (number other : ℕ) (fault wrong : AuditFault) → IsBadLine text number fault → IsBadLine text other wrong → (number ≡ other) × (fault ≡ wrong) }
{}

/// Whatever locks and spent ids lines go on from: legal ones tell of entries that may be made from there, and
/// the lines of such entries are legal.
pub fn legal_lines_tell_entries()
    ensures lines { (begun : Begun) (lines : List Line) → AllByRecursion IsSound lines → LegalLines begun lines → (made : List Made) × (lines ≡ map line_of made) × GoesOn begun made }
    ensures entries { (begun : Begun) (made : List Made) → GoesOn begun made → LegalLines begun (map line_of made) }
{}

/// A journal is legal exactly where it tells of entries that a host may have made.
pub fn legal_texts_tell_hosts()
    ensures { (text : JournalText) → KeepsBounds text → LegalText text ↔ ((made : List Made) × IsOfHost text made) }
{}

/// What `write_journal` writes of a host's journal reads as a legal one.
pub fn journals_are_legal<F: Folder>()
    ensures { (host : HostView (InMemory F)) (passes : List (PassView (InMemory F))) (journal : JournalView F) (folders : List F) → IsHost host → Ends F.files F.faults host passes journal folders → LegalText (told_by journal) }
{}

/// Of the entries that a legal journal tells, each shard's part keeps non-empty contents: they change only by an
/// accepted Put under the lock that is held, and, where none is held, by a Create that overwrites or a Delete.
/// Each 409 in it tells the lock that stands, and a reason that holds.
pub fn legal_texts_are_safe()
    ensures { (text : JournalText) (made : List Made) → IsOfHost text made → IsSafe text.files text.opened text.first made }
{}

/// A file had one contents at a version, whatever journal it is.
pub fn a_version_has_one_contents()
    ensures { (text : JournalText) (name : List ℕ) (version : ℕ) (contents others : List ℕ) → HadContents text name version contents → HadContents text name version others → contents ≡ others }
{}

/// What is found of a legal journal stood there: behind some of its lines the file has that version, with these
/// contents.
pub fn contents_that_are_found_stood()
    ensures { (text : JournalText) (name : List ℕ) (version : ℕ) (contents : List ℕ) → KeepsBounds text → LegalText text → HadContents text name version contents → Stood text name version contents }
{}

/// What stood of a legal journal is found: where the file has that version behind some of its lines, with these
/// contents, it had these.
pub fn what_stood_is_found()
    ensures { (text : JournalText) (name : List ℕ) (version : ℕ) (contents : List ℕ) → KeepsBounds text → LegalText text → Stood text name version contents → HadContents text name version contents }
{}
