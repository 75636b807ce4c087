//! Texts that a byte parts.
ghost use Rattle.std.specs.Prelude.{◌≡◌, ◌==◌, ◌∷◌, ◌++◌, IfSome, IfNone, position};
ghost use Rattle.access_tokens.specs.Marks.{Lacks};

/// What stands before the first such byte, and what behind it.
pub(crate) fn split_at(text: &[u8], mark: u8) -> Option<(&[u8], &[u8])>
    ensures some { IfSome result (λ parts. (text.now ≡ parts.0.now ++ mark ∷ parts.1.now) × Lacks mark parts.0.now) }
    ensures none { IfNone result (Lacks mark text.now) }
{
    let Some(at) = first(text, mark) else {
        return None;
    };
    Some((&text[..at], &text[at + 1..]))
}

/// The place of the first such byte.
fn first(text: &[u8], mark: u8) -> Option<usize>
    ensures { result ≡ position (λ byte. byte == mark) text.now }
{
    text.iter().position(|byte| *byte == mark)
}
