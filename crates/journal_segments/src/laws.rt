//! What holds of segments and of what they tell, as contracts of functions that do nothing.
ghost use Rattle.std.specs.Prelude.{◌≡◌, ◌⊎◌, ◌≤◌, ◌-◌, ◌^◌, ◌++◌, [], ℕ, List, Option, Some, map};
ghost use Rattle.std.specs.List.{AllByRecursion};
ghost use Rattle.outside.specs.Folder.{Files};
ghost use Rattle.wopi_model.specs.Shard.{Along, IsAllowed, after, begun, entries, last_from, stamps};
ghost use Rattle.wopi_model.specs.Begin.{Begin};
ghost use Rattle.wopi_model.specs.Lives.{IsLeftBy};
ghost use Rattle.host_core.specs.declared.life.Life.{Life};
ghost use Rattle.host_core.specs.Entries.{Made, items_of, history_of};
ghost use Rattle.host_core.specs.Life.{IsGoodLife, MayGoOn, TellsShard};
ghost use Rattle.host_table.specs.Bounds.{IsBounded};
ghost use Rattle.host_log.specs.Rows as log;
ghost use Rattle.journal_text.specs.Journals.{row_text};
ghost use Rattle.journal_text.specs.Told.{line_of};
ghost use Rattle.line_text.specs.Words.{IsRow};
ghost use Rattle.journal_segments.specs.declared.rows.Head.{Head};
ghost use Rattle.journal_segments.specs.declared.rows.Row.{Row};
ghost use Rattle.journal_segments.specs.Places.{AreOnce, AreOwn};
ghost use Rattle.journal_segments.specs.Told.{Placed, Told, Tells, begin_of};
ghost use Rattle.journal_segments.specs.Line.{entry_text, off_words};
ghost use Rattle.journal_segments.specs.Lives.{HasSizesOf, HoldsUnchanged, told_in};
ghost use Rattle.journal_segments.specs.Logs.{entry_row, logged_rows};
ghost use Rattle.journal_segments.specs.Rows.{AreRows, IsCutShort, IsForm, IsHead, IsSegment, rows_text, start, state_after, told_by};
ghost use Rattle.journal_segments.specs.Reading.{HasNoHead, IsBadRow};
ghost use Rattle.journal_segments.specs.Openings.{AreEntries, AreOf, GoOn, IsPlaced, counted, opening_rows, opening_text, told_of, told_rows};

/// Bytes are the lines of one segment at most, and what stands behind these is determined.
pub fn one_segment()
    ensures { (bytes : List ℕ) (head other : Head) (rows others : List Row) (tail more : List ℕ) → IsSegment bytes head rows tail → IsSegment bytes other others more →
        (head ≡ other) × (rows ≡ others) × (tail ≡ more) }
{}

/// Bytes that have a bad line, or no first one, are those of no segment.
pub fn refused_is_none()
    ensures bad { (bytes : List ℕ) (line : ℕ) (head : Head) (rows : List Row) (tail : List ℕ) → IsBadRow bytes line → IsSegment bytes head rows tail → ⊥ }
    ensures head { (bytes : List ℕ) (head : Head) (rows : List Row) (tail : List ℕ) → HasNoHead bytes → IsSegment bytes head rows tail → ⊥ }
    ensures unended { (bytes : List ℕ) (head : Head) (rows : List Row) (tail : List ℕ) → IsRow bytes → IsSegment bytes head rows tail → ⊥ }
{}

/// What stands of a segment whose writing was stopped is a segment with fewer lines, unless its first line isn't all there.
pub fn a_front_is_a_segment()
    ensures { (bytes front rest : List ℕ) (head : Head) (rows : List Row) (tail : List ℕ) → IsSegment bytes head rows tail → bytes ≡ front ++ rest → IsRow front ⊎ IsCutShort front head rows }
{}

/// Each name that a segment tells of is told once, and is of the segment's shard.
pub fn each_name_is_told_once()
    ensures once { (head : Head) (rows : List Row) → AreRows (start head) rows → AreOnce (told_by head rows).files }
    ensures own { (head : Head) (rows : List Row) → AreRows (start head) rows → AreOwn head.shard (told_by head rows).files }
{}

/// What lines tell by their rulings alone is what the entries leave, where the lines are theirs: nothing has to be decided
/// again, and what a line tells to stand under a name was told already.
pub fn told_is_left()
    ensures { (folder : List ℕ → Option (List ℕ)) (begin : Begin) (told : Told) (rows : List Row) (made : List Made) → Tells folder told (begun begin) → told.last ≡ begin.last →
        AreOf (begun begin) rows made → GoOn told.now rows → Along IsAllowed (begun begin) (items_of made) →
        IsLeftBy begin (history_of made (told_rows told rows).now) (begin_of folder (told_rows told rows)) }
{}

/// The lines of a beginning are those of a segment, and tell just that.
pub fn a_beginning_is_restored()
    ensures rows { (head : Head) (files : List (List ℕ × Placed)) → AllByRecursion (IsPlaced head.shard) files → AreOnce files → AreRows (start head) (opening_rows files) }
    ensures text { (head : Head) (files : List (List ℕ × Placed)) → IsHead head → AllByRecursion (IsPlaced head.shard) files → AreOnce files → IsSegment (opening_text head files) head (opening_rows files) [] }
    ensures told { (head : Head) (files : List (List ℕ × Placed)) → AllByRecursion (IsPlaced head.shard) files → told_by head (opening_rows files) ≡ told_of head files }
{}

/// What a segment tells is what its lines tell that weren't taken back, from its beginning on.
pub fn lines_that_count_are_told()
    ensures { (head : Head) (files : List (List ℕ × Placed)) (rows : List Row) → AllByRecursion (IsPlaced head.shard) files → AreEntries rows →
        AreRows (state_after (start head) (opening_rows files)) rows → told_by head (opening_rows files ++ rows) ≡ told_rows (told_of head files) (counted [] rows) }
{}

/// What a segment restores is what its entries leave, where the lines that count are theirs.
pub fn what_is_restored_is_left()
    ensures { (folder : List ℕ → Option (List ℕ)) (begin : Begin) (head : Head) (files : List (List ℕ × Placed)) (rows : List Row) (made : List Made) →
        AllByRecursion (IsPlaced head.shard) files → AreEntries rows → AreRows (state_after (start head) (opening_rows files)) rows → AreOf (begun begin) (counted [] rows) made →
        Tells folder (told_of head files) (begun begin) → head.last ≡ begin.last → Along IsAllowed (begun begin) (items_of made) →
        IsLeftBy begin (history_of made (told_by head (opening_rows files ++ rows)).now) (begin_of folder (told_by head (opening_rows files ++ rows))) }
{}

/// What is told is what a shard begins with that begins from it.
pub fn a_begin_is_told()
    ensures { (folder : List ℕ → Option (List ℕ)) (told : Told) → Tells folder told (begun (begin_of folder told)) }
{}

/// The life that a segment restores tells just where the shard stands whose entries the lines are that count, over a folder
/// that has what the shard has of each file which no line has changed. So a shard that reopens with it goes on from what
/// the entries left (`a_reopened_shard_goes_on` of host_core).
pub fn a_restored_life_tells_its_shard()
    ensures { (folder files : Files) (begin : Begin) (head : Head) (placed : List (List ℕ × Placed)) (rows : List Row) (made : List Made) (life : Life) →
        AllByRecursion (IsPlaced head.shard) placed → AreEntries rows → AreRows (state_after (start head) (opening_rows placed)) rows → AreOf (begun begin) (counted [] rows) made →
        Tells folder (told_of head placed) (begun begin) → HasSizesOf (begun begin) (told_of head placed) → head.last ≡ begin.last → Along IsAllowed (begun begin) (items_of made) →
        told_in life ≡ told_by head (opening_rows placed ++ rows) → HoldsUnchanged head.shard files (told_in life) (after (begun begin) (history_of made life.now)) →
        TellsShard (Some head.shard) files life (after (begun begin) (history_of made life.now)) × (life.last ≡ last_from begin.last (stamps (entries (history_of made life.now)))) }
{}

/// A life that a segment restores is a good one of its shard, but for its last stamp, the versions, and the moments at which
/// locks began: those may be too high, and the reader doesn't look at them. A shard that reopens does.
pub fn a_restored_life_is_good()
    ensures { (head : Head) (rows : List Row) (life : Life) → IsHead head → AreRows (start head) rows → told_in life ≡ told_by head rows → life.last ≤ 2 ^ 63 - 1 →
        AllByRecursion (MayGoOn life.now life.last) life.files.items → IsGoodLife (Some head.shard) life }
{}

/// What a store writes to its log for an entry is the line of that entry, which may stand in a segment, and what it
/// writes to take one back is the line that does so there.
pub fn entries_are_lines()
    ensures entry { (one : Made) → log.entry_text one ≡ entry_text (line_of one) }
    ensures form { (one : Made) → IsBounded one → IsForm (entry_row one) }
    ensures off { log.off_line ≡ row_text off_words }
{}

/// What a store's log grew by is the text of lines, of which those count that are of the entries that count.
pub fn a_log_is_lines()
    ensures text { (rows : List log.Row) → log.rows_text rows ≡ rows_text (logged_rows rows) }
    ensures entries { (rows : List log.Row) → AreEntries (logged_rows rows) }
    ensures counted { (rows : List log.Row) → counted [] (logged_rows rows) ≡ map entry_row (log.counted rows) }
{}
