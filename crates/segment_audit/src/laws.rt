//! What holds of legal segments, as contracts of functions that do nothing.
ghost use Rattle.std.specs.Prelude.{◌≡◌, ◌⊎◌, ◌++◌, [], ℕ, List, Option, map};
ghost use Rattle.std.specs.List.{AllByRecursion};
ghost use Rattle.line_text.specs.Words.{IsRow};
ghost use Rattle.wopi_model.specs.Shard.{LegalFrom, Shard};
ghost use Rattle.host_core.specs.Entries.{Made, items_of};
ghost use Rattle.host_log.specs.Rows as log;
ghost use Rattle.journal_segments.specs.declared.rows.Head.{Head};
ghost use Rattle.journal_segments.specs.declared.rows.Row.{Row};
ghost use Rattle.journal_segments.specs.Places.{AreOnce};
ghost use Rattle.journal_segments.specs.Told.{Placed, Tells};
ghost use Rattle.journal_segments.specs.Logs.{entry_row};
ghost use Rattle.journal_segments.specs.Openings.{IsPlaced, counted, opening_rows, opening_text, told_of};
ghost use Rattle.journal_segments.specs.Rows.{AreRows, IsHead, start, state_after};
ghost use Rattle.segment_audit.specs.declared.verdict.RowFault.{RowFault};
ghost use Rattle.segment_audit.specs.Legal.{AreRight, IsBadLine, IsLegalSegment};
ghost use Rattle.segment_audit.specs.Making.{AreLogged, AreMade, HasSizes, begin_told};

/// A segment with a bad line isn't legal, and its first bad line and what is wrong with it are one.
pub fn a_bad_line_is_the_first()
    ensures illegal { (bytes : List ℕ) (line : ℕ) (wrong : RowFault) → IsBadLine bytes line wrong → IsLegalSegment bytes → ⊥ }
    ensures one { (bytes : List ℕ) (line other : ℕ) (wrong fault : RowFault) → IsBadLine bytes line wrong → IsBadLine bytes other fault → (line ≡ other) × (wrong ≡ fault) }
{}

/// What stands of a legal segment whose writing was stopped is one too, unless its first line isn't all there.
pub fn a_front_is_legal()
    ensures { (bytes front rest : List ℕ) → IsLegalSegment bytes → bytes ≡ front ++ rest → IsRow front ⊎ IsLegalSegment front }
{}

/// What a legal segment tells are entries that its shard may have made, from what its beginning tells on. Of the contents
/// that stood there in the beginning it tells the size alone: they may be any of that size, as so many zero bytes.
pub fn legal_segments_are_made()
    ensures { (head : Head) (files : List (List ℕ × Placed)) (rows : List Row) → AllByRecursion (IsPlaced head.shard) files → AreLogged rows →
        AreRows (state_after (start head) (opening_rows files)) rows → AreRight (start head) (opening_rows files ++ rows) →
        (made : List Made) × (counted [] rows ≡ map entry_row made) × LegalFrom (begin_told (told_of head files)) (items_of made) }
{}

/// A log is legal whose shard made what its lines tell: behind a beginning stand the lines of the entries, as a store of
/// host_log appends them, and of those that it took back.
pub fn lines_of_entries_are_legal()
    ensures { (folder : List ℕ → Option (List ℕ)) (head : Head) (files : List (List ℕ × Placed)) (shard : Shard) (rows : List log.Row) → IsHead head →
        AllByRecursion (IsPlaced head.shard) files → AreOnce files → HasSizes folder (told_of head files) → Tells folder (told_of head files) shard →
        AreMade shard head.shard head.last rows → IsLegalSegment (opening_text head files ++ log.rows_text rows) }
{}
