//! What is answered at the container.
ghost use Rattle.std.specs.Prelude.{◌≡◌, ◌≤◌, true, ℕ, List, IfOk, IfSome, IfNone, length};
ghost use Rattle.wopi_model.specs.Moment.{IsMoment};
ghost use Rattle.wopi_http.specs.Limits.{body_limit};
ghost use Rattle.access_tokens.specs.Addresses.{is_base};
ghost use Rattle.host_core.specs.Caller.{KeepsTelling};
ghost use Rattle.host_core.specs.Listing.{ListsAll, LooksOn};
ghost use Rattle.host_core.specs.declared.children.Child.{Child};
ghost use Rattle.host_core.specs.declared.listing.Listing.{Listing};
ghost use Rattle.containers.specs.Answers.{Counts, ContainerAnswered, AreShown, json_told};
ghost use Rattle.containers.specs.Listed.{AreMerged, container_info, listing_text};
ghost use Rattle.containers.specs.TokenText.{IsWritable};
ghost use Rattle.containers.specs.declared.token.ContainerToken.{ContainerToken};

use crate::listed::listing_text;
use crate::looking::list_all;
use crate::merging::merged;
use crate::reading::container_read;
use crate::terms::Terms;
use crate::token::ContainerToken;
use access_tokens::Keys;
use host_core::Lister;
use std::alloc::Global;
use wopi_headers::{Answer, BodyKind, ContainerAsk, ContainerOp};
use wopi_text::{Bytes, LockField, Memory};

/// What is answered at the container at a moment: 401 where the token doesn't count, else the container's name, or
/// the files of all shards in the order of their names, each with an address that carries a token for it. A list that
/// is longer than a body may be is answered as where there is no memory.
pub fn container_answer<L: Lister>(
    alloc: Global,
    lister: &mut L,
    keys: &Keys,
    base: &Bytes,
    opened: u64,
    ask: &ContainerAsk,
    moment: u64,
) -> Result<Answer, Memory>
    requires base { is_base base.now ≡ true }
    requires moment { IsMoment moment }
    ensures answered { IfOk result (λ a. (listings : List Listing) × ContainerAnswered L.shard_count keys.now base.now opened ask.now moment listings a
        × AreShown (L.sight lister.old) (L.sight lister.new) listings) }
    ensures small { IfOk result (λ a. length a.body ≤ body_limit) }
    ensures looks { LooksOn (L.sight lister.old) (L.sight lister.new) }
    ensures telling { KeepsTelling (L.telling lister.old) (L.telling lister.new) L.loses }
    ensures basis { L.basis lister.new ≡ L.basis lister.old }
    ensures references { L.references lister.new ≡ L.references lister.old }
{
    let Some(token) = counting(keys, opened, ask.token.as_slice(), moment) else {
        return Ok(Answer::bare(alloc, 401));
    };
    match ask.op {
        ContainerOp::Info => Ok(json_told(container_info(alloc)?)),
        ContainerOp::Children => {
            let terms = Terms {
                keys,
                base: base.as_slice(),
                token: &token,
                moment,
            };
            children_told(alloc, lister, &terms)
        }
    }
}

/// The token with this text, where it counts at the moment.
fn counting(keys: &Keys, opened: u64, text: &[u8], moment: u64) -> Option<ContainerToken>
    ensures some { IfSome result (Counts keys.now opened text.now moment) }
    ensures none { IfNone result ((token : ContainerToken) → ¬ (Counts keys.now opened text.now moment token)) }
{
    let Ok(token) = container_read(keys, text) else {
        return None;
    };
    if token.issued < opened {
        return None;
    }
    if token.expires <= moment {
        return None;
    }
    Some(token)
}

/// The answer that lists the files of all shards.
fn children_told<L: Lister>(
    alloc: Global,
    lister: &mut L,
    terms: &Terms<'_>,
) -> Result<Answer, Memory>
    requires base { is_base terms.now.base.now ≡ true }
    requires token { IsWritable terms.now.token.now }
    requires moment { IsMoment terms.now.moment }
    ensures told { IfOk result (λ a. (listings : List Listing) × (children : List Child) × ListsAll L.shard_count (L.sight lister.new) listings × AreMerged listings children
        × (a ≡ json_told (listing_text terms.now.keys.now terms.now.base.now terms.now.token.now terms.now.moment children))) }
    ensures small { IfOk result (λ a. length a.body ≤ body_limit) }
    ensures looks { LooksOn (L.sight lister.old) (L.sight lister.new) }
    ensures telling { KeepsTelling (L.telling lister.old) (L.telling lister.new) L.loses }
    ensures basis { L.basis lister.new ≡ L.basis lister.old }
    ensures references { L.references lister.new ≡ L.references lister.old }
{
    let listings = list_all(alloc, lister)?;
    let children = merged(alloc, listings)?;
    Ok(json_told(listing_text(alloc, terms, &children)?))
}

/// The body that tells the container's name.
#[tactic(auto, unfolding(crate::specs::Listed::container_info))]
fn container_info(alloc: Global) -> Result<Bytes, Memory>
    ensures text { IfOk result (λ text. text ≡ container_info) }
    ensures small { IfOk result (λ text. length text ≤ body_limit) }
{
    Bytes::from_slice(alloc, br#"{"Name":"root"}"#)
}

/// An answer of 200 with JSON as its body.
fn json_told(body: Bytes) -> Answer
    ensures { result ≡ json_told body }
{
    Answer {
        status: 200,
        lock: LockField::Absent,
        reason: None,
        version: None,
        kind: BodyKind::Json,
        body,
    }
}
