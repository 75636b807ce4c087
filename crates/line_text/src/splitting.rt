//! A text, taken apart at its line feeds, its spaces and other marks.
ghost use Rattle.std.specs.Prelude.{◌≡◌, ◌≢◌, ◌≤◌, ◌==◌, [], ◌∷◌, ◌++◌, IfSome, IfNone, is_some, true, false, length, position};
ghost use Rattle.line_text.specs.Words.{IsRow, parts_at, words_of};

/// What stands before the first line feed, and what behind it.
pub fn split_row(text: &[u8]) -> Option<(&[u8], &[u8])>
    ensures some { IfSome result (λ parts. (text.now ≡ parts.0.now ++ 10 ∷ parts.1.now) × IsRow parts.0.now) }
    ensures none { IfNone result (IsRow text.now) }
{
    let Some(at) = first_mark(text, b'\n') else {
        return None;
    };
    Some((&text[..at], &text[at + 1..]))
}

/// What stands before the first byte that is the mark, and what behind it.
pub fn split_at_mark(text: &[u8], mark: u8) -> Option<(&[u8], &[u8])>
    ensures some { IfSome result (λ parts. parts_at mark text.now ≡ parts.0.now ∷ parts_at mark parts.1.now) }
    ensures none { IfNone result (parts_at mark text.now ≡ text.now ∷ []) }
{
    let Some(at) = first_mark(text, mark) else {
        return None;
    };
    Some((&text[..at], &text[at + 1..]))
}

/// The place of the first byte that is the mark.
fn first_mark(text: &[u8], mark: u8) -> Option<usize>
    ensures { result ≡ position (λ byte. byte == mark) text.now }
{
    text.iter().position(|byte| *byte == mark)
}

/// Whether a byte of the text is the mark.
pub fn has_mark(text: &[u8], mark: u8) -> bool
    ensures none { result ≡ false → parts_at mark text.now ≡ text.now ∷ [] }
    ensures some { result ≡ true → 2 ≤ length (parts_at mark text.now) }
{
    first_mark(text, mark).is_some()
}

/// What stands before the first space, and what behind it.
pub fn split_word(row: &[u8]) -> Option<(&[u8], &[u8])>
    ensures some { IfSome result (λ parts. words_of row.now ≡ parts.0.now ∷ words_of parts.1.now) }
    ensures none { IfNone result (words_of row.now ≡ row.now ∷ []) }
{
    split_at_mark(row, b' ')
}

/// Whether a row has more than one word.
pub fn has_more(row: &[u8]) -> bool
    ensures one { result ≡ false → words_of row.now ≡ row.now ∷ [] }
    ensures more { result ≡ true → 2 ≤ length (words_of row.now) }
{
    has_mark(row, b' ')
}

/// Two words, where a line has just two.
pub fn two_words(row: &[u8]) -> Option<(&[u8], &[u8])>
    ensures some { IfSome result (λ words. words_of row.now ≡ words.0.now ∷ words.1.now ∷ []) }
    ensures none { IfNone result (length (words_of row.now) ≢ 2) }
{
    let (first, second) = split_word(row)?;
    if has_more(second) {
        return None;
    }
    Some((first, second))
}

/// Three words, where a line has just three.
pub fn three_words(row: &[u8]) -> Option<(&[u8], &[u8], &[u8])>
    ensures some { IfSome result (λ words. words_of row.now ≡ words.0.now ∷ words.1.now ∷ words.2.now ∷ []) }
    ensures none { IfNone result (length (words_of row.now) ≢ 3) }
{
    let (first, rest) = split_word(row)?;
    let (second, third) = split_word(rest)?;
    if has_more(third) {
        return None;
    }
    Some((first, second, third))
}

/// Four words, where a line has just four.
pub fn four_words(row: &[u8]) -> Option<(&[u8], &[u8], &[u8], &[u8])>
    ensures some { IfSome result (λ words. words_of row.now ≡ words.0.now ∷ words.1.now ∷ words.2.now ∷ words.3.now ∷ []) }
    ensures none { IfNone result (length (words_of row.now) ≢ 4) }
{
    let (first, rest) = split_word(row)?;
    let (second, rest) = split_word(rest)?;
    let (third, fourth) = split_word(rest)?;
    if has_more(fourth) {
        return None;
    }
    Some((first, second, third, fourth))
}

/// Five words, where a line has just five.
pub fn five_words(row: &[u8]) -> Option<(&[u8], &[u8], &[u8], &[u8], &[u8])>
    ensures some { IfSome result (λ words. words_of row.now ≡ words.0.now ∷ words.1.now ∷ words.2.now ∷ words.3.now ∷ words.4.now ∷ []) }
    ensures none { IfNone result (length (words_of row.now) ≢ 5) }
{
    let Some((first, rest)) = split_word(row) else {
        return None;
    };
    let Some((second, third, fourth, fifth)) = four_words(rest) else {
        return None;
    };
    Some((first, second, third, fourth, fifth))
}
