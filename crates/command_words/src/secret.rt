//! Words that may be the path of a file with a secret.
ghost use Rattle.std.specs.Prelude.{◌≡◌, ◌∷◌, ℕ, List, IfNone, IfSome, map, string_bytes};
ghost use Rattle.command_words.specs.Secrets.{IsSecretAt, IsWithoutFeed, place_of};

/// Where the secret of a command stands among its words.
#[tactic(auto, unfolding(crate::specs::Secrets::place_of))]
pub(crate) fn place_of(name: &str) -> Option<usize>
    ensures { result ≡ place_of name.now }
{
    if name == "token" || name == "ctoken" {
        Some(1)
    } else if name == "once" {
        Some(2)
    } else if name == "serve" || name == "edit" {
        Some(3)
    } else {
        None
    }
}

/// The place of the command's secret and the path that stands there behind an `@`, if one does: of KEY in `once`,
/// `serve`, `token` and `ctoken`, and of TOKEN in `edit`.
pub fn secret_place(words: &[String]) -> Option<(usize, &str)>
    ensures some { IfSome result (λ found. IsSecretAt (map string_bytes words.now) found.0 found.1.now) }
    ensures none { IfNone result ((place : ℕ) (path : List ℕ) → ¬ IsSecretAt (map string_bytes words.now) place path) }
{
    let name = words.first()?;
    let place = place_of(name.as_str())?;
    let word = words.get(place)?;
    let path = word.as_str().strip_prefix('@')?;
    Some((place, path))
}

/// The secret of a file with that text: the text without the line feed at its end.
pub fn secret_of(text: &str) -> &str
    ensures { IsWithoutFeed text.now result.now }
{
    match text.strip_suffix('\n') {
        Some(secret) => secret,
        None => text,
    }
}
