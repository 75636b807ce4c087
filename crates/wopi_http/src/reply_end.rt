//! Where a reply ends that tells how long it is.
ghost use Rattle.std.specs.Prelude.{[], ◌≡◌, IfOk};
ghost use Rattle.httparse.specs.Grammar.{ResponseHead};
ghost use Rattle.wopi_http.specs.Framings.{IsSmall};
ghost use Rattle.wopi_http.specs.ReplyReads.{is_interim, reply_in};
ghost use Rattle.wopi_http.specs.ReplyEnds.{HasBody, BodyEnds, Ends};

use crate::framing::Framing;
use crate::reply_body::{Extent, extent_of, framed};
use crate::reply_head::{ReplyHead, read_reply_head};
use crate::reply_reading::{behind, is_interim};
use outside::ReplyEnd;
use std::alloc::Global;
use wopi_text::Memory;

/// Whether the bytes begin with a body in this framing.
fn has_body(alloc: Global, framing: Framing, bytes: &[u8]) -> Result<bool, Memory>
    requires { IsSmall framing }
    ensures { IfOk result (HasBody framing bytes.now) }
{
    match framing {
        Framing::Sized(size) => {
            if size <= bytes.len() as u64 {
                return Ok(true);
            }
            Ok(false)
        }
        _ => match framed(alloc, framing, bytes)? {
            Some(_) => return Ok(true),
            None => return Ok(false),
        },
    }
}

/// Whether the bytes begin with the body of this head, which tells how far it goes.
fn body_ends(alloc: Global, head: &ReplyHead, bytes: &[u8]) -> Result<bool, Memory>
    ensures { (h : ResponseHead) → head.now.reply ≡ reply_in h [] → head.now.version ≡ h.minor → IfOk result (BodyEnds h bytes.now) }
{
    let extent = extent_of(
        head.reply.status,
        head.version,
        head.reply.fields.as_slice(),
    );
    match extent {
        Extent::Framed(framing) => return has_body(alloc, framing, bytes),
        Extent::ToEnd => return Ok(false),
    }
}

/// Whether the bytes begin with a whole reply that tells how long it is.
fn ends(alloc: Global, bytes: &[u8]) -> Result<bool, Memory>
    ensures { IfOk result (Ends bytes.now) }
{
    let mut at = 0;
    'heads: loop {
        let Some(head) = read_reply_head(alloc, behind(bytes, at))? else {
            return Ok(false);
        };
        at += head.len;
        if !is_interim(head.reply.status) {
            return body_ends(alloc, &head, behind(bytes, at));
        }
    }
}

/// A reply ends behind its body where its head tells how long that is, or that it comes in chunks. One
/// that tells neither ends where the link does.
#[derive(Drop)]
pub struct ReplyLength {
    alloc: Global,
}

impl ReplyLength {
    pub fn new(alloc: Global) -> ReplyLength {
        ReplyLength { alloc }
    }
}

impl ReplyEnd for ReplyLength {
    ghost use Rattle.wopi_http.specs.ReplyEnds.{IsWholeReply};

    ghost whole = { λ _ bytes. IsWholeReply bytes };

    fn is_whole(&self, bytes: &[u8]) -> Result<bool, Memory> {
        ends(self.alloc, bytes)
    }
}
