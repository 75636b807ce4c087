//! What holds of the texts of schedules.
ghost use Rattle.std.specs.Prelude.{◌≡◌, ℕ, List};
ghost use Rattle.schedule_text.specs.Grammar.{IsBadLine, IsText};
ghost use Rattle.schedule_text.specs.Schedules.{Lines};

/// No text is a schedule and has a bad line.
pub fn a_schedule_has_no_bad_line()
    ensures { (text : List ℕ) (lines : Lines) (number : ℕ) → IsText text lines → IsBadLine text number → ⊥ }
{}

/// A text has one first bad line at most.
pub fn a_text_has_one_bad_line()
    ensures { (text : List ℕ) (number other : ℕ) → IsBadLine text number → IsBadLine text other → number ≡ other }
{}

/// A text is one schedule at most.
pub fn a_text_is_one_schedule()
    ensures { (text : List ℕ) (lines other : Lines) → IsText text lines → IsText text other → lines ≡ other }
{}
