//! Whether two texts are equal.
ghost use Rattle.std.specs.Prelude.{◌≡◌, ◌↔◌, IsTrue};

/// Whether two texts are equal. Where their lengths are, it looks at every byte, whatever it finds, as the comparison
/// of codes asks for; its time is in no clause.
pub fn are_equal(first: &[u8], second: &[u8]) -> bool
    ensures { IsTrue result ↔ (first.now ≡ second.now) }
{
    if first.len() != second.len() {
        return false;
    }
    let mut differences = 0u8;
    for i in 0..first.len() {
        differences |= first[i] ^ second[i];
    }
    differences == 0
}
