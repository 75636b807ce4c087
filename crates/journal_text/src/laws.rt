//! What holds of the texts of journals, as contracts of functions that do nothing.
ghost use Rattle.std.specs.Prelude.{◌≡◌, ℕ, List};
ghost use Rattle.host_table.specs.Bounds.{KeepsBounds};
ghost use Rattle.host_table.specs.Journal.{JournalView};
ghost use Rattle.host_table.specs.Text.{journal_text};
ghost use Rattle.journal_text.specs.declared.text.Format.TheVariants.{Second};
ghost use Rattle.journal_text.specs.declared.text.JournalText.{JournalText};
ghost use Rattle.journal_text.specs.Journals.{IsBadLine, IsReading, IsWithin, rows_of, text_of};
ghost use Rattle.journal_text.specs.Told.{told_by};

use outside::Folder;

/// What is written of a text that keeps the bounds reads as that text.
pub fn what_is_written_is_read()
    ensures { (text : JournalText) → IsWithin Second text → IsReading (text_of (rows_of Second text)) text }
{}

/// What `write_journal` writes of a host's journal reads as its opening and its entries: where it ends well,
/// it says that they keep the bounds.
pub fn a_host_s_journal_is_read<F: Folder>()
    ensures { (journal : JournalView F) → KeepsBounds journal → IsReading (journal_text journal) (told_by journal) }
{}

/// Bytes read as one text at most.
pub fn a_journal_has_one_reading()
    ensures { (bytes : List ℕ) (text other : JournalText) → IsReading bytes text → IsReading bytes other → text ≡ other }
{}

/// Bytes have one first bad line at most, and none where they read as a text.
pub fn a_journal_has_one_bad_line()
    ensures { (bytes : List ℕ) (number other : ℕ) → IsBadLine bytes number → IsBadLine bytes other → number ≡ other }
{}
