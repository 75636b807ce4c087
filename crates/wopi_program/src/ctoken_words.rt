//! The words of the command `ctoken`.
ghost use Rattle.std.specs.Prelude.{◌≡◌, ◌≢◌, [], ◌∷◌, map, string_bytes, IfSome, IfNone};
ghost use Rattle.containers.specs.TokenText.{IsWritable};
ghost use Rattle.containers.specs.declared.token.ContainerToken.{ContainerToken};
ghost use Rattle.wopi_program.specs.CtokenWords.{IsCtokenRow, words_of};
ghost use Rattle.wopi_program.specs.Words.{IsRow};

use crate::Command;
use access_tokens::{Keys, User, may_write, moment_read};
use containers::ContainerToken;
use wopi_text::decimal_read;

/// The keys and the container's token in the words of `ctoken`, if the words are that command's.
pub(crate) fn ctoken_words(words: &[String]) -> Option<(Keys, ContainerToken)>
    ensures some { IfSome result (λ row. IsCtokenRow (map string_bytes words.now) row.0 row.1) }
    ensures none { IfNone result (¬ IsRow (map string_bytes words.now) Command.Ctoken) }
{
    match words {
        [word, key, user, rights, rest @ ..] => {
            if word.as_str() != "ctoken" {
                return None;
            }
            let keys = Keys::read(key.as_bytes())?;
            let token = container_from(user.as_str(), rights.as_str(), rest)?;
            Some((keys, token))
        }
        _ => None,
    }
}

/// The token of the words for its user and its rights and of those that follow.
fn container_from(user: &str, rights: &str, rest: &[String]) -> Option<ContainerToken>
    ensures some { IfSome result (λ token. IsWritable token × (user.now ∷ rights.now ∷ map string_bytes rest.now ≡ words_of token)) }
    ensures none { IfNone result ((token : ContainerToken) → IsWritable token → user.now ∷ rights.now ∷ map string_bytes rest.now ≢ words_of token) }
{
    match rest {
        [serial, issued, expires] => container_of(
            user,
            rights,
            serial.as_str(),
            issued.as_str(),
            expires.as_str(),
        ),
        _ => None,
    }
}

/// The token that the words tell, if each has its form.
fn container_of(
    user: &str,
    rights: &str,
    serial: &str,
    issued: &str,
    expires: &str,
) -> Option<ContainerToken>
    ensures some { IfSome result (λ token. IsWritable token
        × (user.now ∷ rights.now ∷ serial.now ∷ issued.now ∷ expires.now ∷ [] ≡ words_of token)) }
    ensures none { IfNone result ((token : ContainerToken) → IsWritable token
        → user.now ∷ rights.now ∷ serial.now ∷ issued.now ∷ expires.now ∷ [] ≢ words_of token) }
{
    let user = User::read(user.as_bytes())?;
    let write = may_write(rights.as_bytes())?;
    let serial = decimal_read(serial.as_bytes())?;
    let issued = moment_read(issued.as_bytes())?;
    let expires = moment_read(expires.as_bytes())?;
    Some(ContainerToken {
        user,
        write,
        serial,
        issued,
        expires,
    })
}
