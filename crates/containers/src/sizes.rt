//! How long the JSON that lists files will be.
ghost use Rattle.std.specs.Prelude.{◌≡◌, true};
ghost use Rattle.wopi_model.specs.Moment.{IsMoment};
ghost use Rattle.access_tokens.specs.Addresses.{is_base};
ghost use Rattle.containers.specs.TokenText.{IsWritable};

use crate::terms::{Terms, put_address};
use host_core::Child;
use wopi_text::Memory;

/// What lists no files; and what is written beside the parts of each, with a comma, which the first lacks.
const FRAME: usize = r#"{"ChildContainers":[],"ChildFiles":[]}"#.len();

const CHILD: usize = r#"{"Name":"","Size":,"Url":"","Version":"v"},"#.len();

/// How many bytes list these files. `room` is for an address. A name needs no escapes; it stands in its own letters once,
/// and in hex twice. All that the addresses have beside is alike.
pub(crate) fn size_of(
    room: &mut Vec<u8>,
    terms: &Terms<'_>,
    children: &[Child],
) -> Result<usize, Memory>
    requires base { is_base terms.now.base.now ≡ true }
    requires token { IsWritable terms.now.token.now }
    requires moment { IsMoment terms.now.moment }
{
    let Some(first) = children.first() else {
        return Ok(FRAME);
    };
    put_address(room, terms, first)?;
    let ids = first.name.as_slice().len().saturating_mul(4);
    let address = room.len().saturating_sub(ids);
    let alike = address.saturating_add(escapes_in(terms.base));
    Ok(
        children.iter().fold(FRAME - 1, |size, child| {
            size.saturating_add(size_of_child(alike, child))
        }),
    )
}

/// How many bytes tell a file, and the comma before it, where its address has so many beside its ids.
fn size_of_child(alike: usize, child: &Child) -> usize {
    let names = child.name.as_slice().len().saturating_mul(5);
    CHILD
        .saturating_add(alike)
        .saturating_add(names)
        .saturating_add(digits_of(child.size))
        .saturating_add(digits_of(child.version))
}

/// How many letters of a base JSON writes with one more before it.
fn escapes_in(base: &[u8]) -> usize {
    base.iter()
        .filter(|byte| matches!(**byte, b'"' | b'\\'))
        .count()
}

/// How many decimal digits a number has.
fn digits_of(number: u64) -> usize {
    match number.checked_ilog10() {
        Some(more) => (more as usize).saturating_add(1),
        None => 1,
    }
}
