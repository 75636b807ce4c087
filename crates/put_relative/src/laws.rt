//! What holds of tidied names.
ghost use Rattle.std.specs.Prelude.{◌≤◌, ◌<◌, ℕ, List, length};
ghost use Rattle.wopi_text.specs.FileName.{name_limit};
ghost use Rattle.put_relative.specs.CopyNames.{IsTidy, copy_name};

/// A tidied name has every candidate below 100: none of them is too long.
pub fn a_tidied_name_has_every_candidate()
    ensures { (name : List ℕ) (n : ℕ) → IsTidy name → n < 100 → length (copy_name name n) ≤ name_limit }
{}
