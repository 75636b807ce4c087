//! The JSON that lists files.
ghost use Rattle.std.specs.Prelude.{◌≡◌, ◌≤◌, ◌∷◌, ◌++◌, [], true, IfOk, OnOk, flat_map, length};
ghost use Rattle.json.specs.Token.{key, string};
ghost use Rattle.std.specs.Str.{IsUtf8};
ghost use Rattle.wopi_model.specs.Moment.{IsMoment};
ghost use Rattle.wopi_http.specs.Limits.{body_limit};
ghost use Rattle.wopi_headers.specs.Replies.{version_text};
ghost use Rattle.access_tokens.specs.Addresses.{is_base};
ghost use Rattle.containers.specs.Listed.{listing_text};
ghost use Rattle.containers.specs.TokenText.{IsWritable};
ghost use Rattle.containers.specs.Written.{child_tokens, listing_tokens};

use crate::sizes::size_of;
use crate::terms::{Terms, put_address};
use host_core::Child;
use itoa::Buffer;
use json::Writer;
use std::alloc::Global;
use wopi_text::{Bytes, Memory};

/// The most bytes of a body, which is also the most that a client reads of one.
const MOST: usize = 16_777_216;

/// The most bytes of an address, and so of any text of a file that is made here.
const MOST_TEXT: usize = 930;

/// The body that lists the files, in their order. It is made in one piece of memory that is taken at once, with the
/// one more byte that the writer asks for at its end. A body that would be longer than one may be isn't made, as
/// where there is no memory.
pub(crate) fn listing_text(
    alloc: Global,
    terms: &Terms<'_>,
    children: &[Child],
) -> Result<Bytes, Memory>
    requires base { is_base terms.now.base.now ≡ true }
    requires token { IsWritable terms.now.token.now }
    requires moment { IsMoment terms.now.moment }
    ensures text { IfOk result (λ text. text ≡ listing_text terms.now.keys.now terms.now.base.now terms.now.token.now terms.now.moment children.now) }
    ensures small { IfOk result (λ text. length text ≤ body_limit) }
{
    let mut room = Vec::with_capacity(alloc, MOST_TEXT)?;
    let size = size_of(&mut room, terms, children)?;
    if size > MOST {
        return Err(Memory);
    }
    let mut out = Writer::new(Vec::with_capacity(alloc, size + 1)?);
    write_listing(&mut out, &mut room, terms, children)?;
    let text = out.into_inner();
    if text.len() > MOST {
        return Err(Memory);
    }
    Ok(Bytes::from_vec(text))
}

/// Writes what lists the files. `room` is for the texts that are made of each.
fn write_listing(
    out: &mut Writer,
    room: &mut Vec<u8>,
    terms: &Terms<'_>,
    children: &[Child],
) -> Result<(), Memory>
    requires base { is_base terms.now.base.now ≡ true }
    requires token { IsWritable terms.now.token.now }
    requires moment { IsMoment terms.now.moment }
    ensures tokens { OnOk result (out.new.tokens ≡ out.old.tokens ++ listing_tokens terms.now.keys.now terms.now.base.now terms.now.token.now terms.now.moment children.now) }
    ensures before { out.new.before ≡ out.old.before }
{
    out.begin_object()?;
    out.key("ChildContainers")?;
    out.begin_array()?;
    out.end_array()?;
    out.key("ChildFiles")?;
    out.begin_array()?;
    write_children(out, room, terms, children)?;
    out.end_array()?;
    out.end_object()?;
    Ok(())
}

fn write_children(
    out: &mut Writer,
    room: &mut Vec<u8>,
    terms: &Terms<'_>,
    children: &[Child],
) -> Result<(), Memory>
    requires base { is_base terms.now.base.now ≡ true }
    requires token { IsWritable terms.now.token.now }
    requires moment { IsMoment terms.now.moment }
    ensures tokens { OnOk result (out.new.tokens ≡ out.old.tokens ++ flat_map (child_tokens terms.now.keys.now terms.now.base.now terms.now.token.now terms.now.moment) children.now) }
    ensures before { out.new.before ≡ out.old.before }
{
    for child in children {
        write_child(out, room, terms, child)?;
    }
    Ok(())
}

fn write_child(
    out: &mut Writer,
    room: &mut Vec<u8>,
    terms: &Terms<'_>,
    child: &Child,
) -> Result<(), Memory>
    requires base { is_base terms.now.base.now ≡ true }
    requires token { IsWritable terms.now.token.now }
    requires moment { IsMoment terms.now.moment }
    ensures tokens { OnOk result (out.new.tokens ≡ out.old.tokens ++ child_tokens terms.now.keys.now terms.now.base.now terms.now.token.now terms.now.moment child.now) }
    ensures before { out.new.before ≡ out.old.before }
{
    out.begin_object()?;
    write_text(out, "Name", child.name.as_str())?;
    out.key("Size")?;
    out.u64(child.size)?;
    put_address(room, terms, child)?;
    write_text(out, "Url", text_of(room))?;
    put_version(room, child.version)?;
    write_text(out, "Version", text_of(room))?;
    out.end_object()?;
    Ok(())
}

/// Writes a member that is a text.
fn write_text(out: &mut Writer, name: &str, text: &str) -> Result<(), Memory>
    ensures tokens { OnOk result (out.new.tokens ≡ out.old.tokens ++ key name.now ∷ string text.now ∷ []) }
    ensures before { out.new.before ≡ out.old.before }
{
    out.key(name)?;
    out.string(text)?;
    Ok(())
}

/// Puts a version into the room, in place of what is there.
#[tactic(auto, unfolding(wopi_headers::specs::Replies::version_text))]
fn put_version(room: &mut Vec<u8>, version: u64) -> Result<(), Memory>
    ensures value { OnOk result (room.new.items ≡ version_text version) }
    ensures text { OnOk result (IsUtf8 room.new.items) }
{
    let mut digits = Buffer::new();
    room.clear();
    room.push(b'v')?;
    room.extend_from_slice(digits.format(version).as_bytes())?;
    Ok(())
}

fn text_of(bytes: &[u8]) -> &str
    requires { IsUtf8 bytes.now }
    ensures { result.now ≡ bytes.now }
{
    match str::from_utf8(bytes) {
        Ok(text) => text,
        Err(_) => unreachable!(),
    }
}
