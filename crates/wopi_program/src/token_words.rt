//! The words of the command `token`.
ghost use Rattle.std.specs.Prelude.{◌≡◌, ◌≢◌, [], ◌∷◌, map, string_bytes, IfSome, IfNone};
ghost use Rattle.access_tokens.specs.TokenText.{IsWritable};
ghost use Rattle.wopi_program.specs.Words.{IsRow, IsTokenRow, words_of};
ghost use Rattle.wopi_model.specs.declared.token.Token.{Token};

use crate::Command;
use access_tokens::{Keys, Token, User, may_write, moment_read};
use wopi_text::{FileName, decimal_read};

/// The keys and the token in the words of `token`, if the words are that command's.
pub(crate) fn token_words(words: &[String]) -> Option<(Keys, Token)>
    ensures some { IfSome result (λ row. IsTokenRow (map string_bytes words.now) row.0 row.1) }
    ensures none { IfNone result (¬ IsRow (map string_bytes words.now) Command.Token) }
{
    match words {
        [word, key, user, name, rest @ ..] => {
            if word.as_str() != "token" {
                return None;
            }
            let keys = Keys::read(key.as_bytes())?;
            let token = token_from(user.as_str(), name.as_str(), rest)?;
            Some((keys, token))
        }
        _ => None,
    }
}

/// The token of the words for its user and its file and of those that follow.
fn token_from(user: &str, name: &str, rest: &[String]) -> Option<Token>
    ensures some { IfSome result (λ token. IsWritable token × (user.now ∷ name.now ∷ map string_bytes rest.now ≡ words_of token)) }
    ensures none { IfNone result ((token : Token) → IsWritable token → user.now ∷ name.now ∷ map string_bytes rest.now ≢ words_of token) }
{
    match rest {
        [rights, serial, issued, expires] => token_of(
            user,
            name,
            rights.as_str(),
            serial.as_str(),
            issued.as_str(),
            expires.as_str(),
        ),
        _ => None,
    }
}

/// The token that the words tell, if each has its form.
fn token_of(
    user: &str,
    name: &str,
    rights: &str,
    serial: &str,
    issued: &str,
    expires: &str,
) -> Option<Token>
    ensures some { IfSome result (λ token. IsWritable token
        × (user.now ∷ name.now ∷ rights.now ∷ serial.now ∷ issued.now ∷ expires.now ∷ [] ≡ words_of token)) }
    ensures none { IfNone result ((token : Token) → IsWritable token
        → user.now ∷ name.now ∷ rights.now ∷ serial.now ∷ issued.now ∷ expires.now ∷ [] ≢ words_of token) }
{
    let user = User::read(user.as_bytes())?;
    let Ok(file) = FileName::read(name.as_bytes()) else {
        return None;
    };
    let write = may_write(rights.as_bytes())?;
    let serial = decimal_read(serial.as_bytes())?;
    let issued = moment_read(issued.as_bytes())?;
    let expires = moment_read(expires.as_bytes())?;
    Some(Token {
        user,
        file,
        write,
        serial,
        issued,
        expires,
    })
}
