//! What holds of UTF-7 text.
ghost use Rattle.std.specs.Prelude.{ℕ, ◌≡◌, ◌<◌, IsUtf8, List, false, length, slice_index};
ghost use Rattle.utf7_text.specs.Pieces.{is_direct};
ghost use Rattle.utf7_text.specs.Readings.{IsBadAt, IsReading};
ghost use Rattle.utf7_text.specs.Writing.{written};

/// Bytes have one reading at most, or one place of a fault.
pub fn bytes_have_one_reading()
    ensures one { (bytes text other : List ℕ) → IsReading bytes text → IsReading bytes other → text ≡ other }
    ensures none { (bytes text : List ℕ) (at : ℕ) → IsReading bytes text → ¬ IsBadAt bytes at }
    ensures one_place { (bytes : List ℕ) (at place : ℕ) → IsBadAt bytes at → IsBadAt bytes place → at ≡ place }
{}

/// A fault lies within the bytes, at a `+` or at another byte that doesn't stand for itself.
pub fn a_fault_lies_at_no_direct_byte()
    ensures inside { (bytes : List ℕ) (at : ℕ) → IsBadAt bytes at → at < length bytes }
    ensures not_direct { (bytes : List ℕ) (at : ℕ) → IsBadAt bytes at → is_direct (slice_index bytes at) ≡ false }
{}

/// What is written reads back, and no two texts are written alike.
pub fn what_is_written_reads_back()
    ensures back { (text : List ℕ) → IsUtf8 text → IsReading (written text) text }
    ensures alone { (text other : List ℕ) → IsUtf8 text → IsUtf8 other → written text ≡ written other → text ≡ other }
{}
