//! What holds of the texts of moments.
ghost use Rattle.std.specs.Prelude.{◌≡◌, codes};
ghost use Rattle.moment_text.specs.Text.{moment_text};

/// Worked texts: the first moment, one on a leap day, and a later one.
pub fn moments_have_these_texts()
    ensures first { moment_text 0 ≡ codes "1970-01-01T00:00:00.0000000Z" }
    ensures leap { moment_text 1709251199999 ≡ codes "2024-02-29T23:59:59.9990000Z" }
    ensures later { moment_text 1796061909123 ≡ codes "2026-11-30T18:05:09.1230000Z" }
{}
