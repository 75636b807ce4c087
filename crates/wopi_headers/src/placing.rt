//! Requests read as what they ask for of a file or of the container.
ghost use Rattle.std.specs.Prelude.{ℕ, List, ◌≡◌, ◌≢◌, ◌++◌, MatchOption};
ghost use Rattle.wopi_headers.specs.declared.container.ContainerOp.{ContainerOp};
ghost use Rattle.wopi_headers.specs.Containers.{front, behind_front, IsContainerAnswer, IsPlaceOf, IsPlaceIn, IsLeft};
ghost use Rattle.wopi_headers.specs.Targets.{path_of, query_of};

use crate::ask::{Ask, AskFault};
use crate::asking::ask_at;
use crate::container::{ContainerAsk, ContainerOp, Place};
use crate::target::{split_of, token_in};
use std::alloc::Global;
use wopi_http::{Method, Request};

/// What follows the front that the paths of containers have.
fn behind_front(path: &[u8]) -> Option<&[u8]>
    ensures { MatchOption result ((rest : List ℕ) → path.now ≢ front ++ rest) (λ rest. path.now ≡ front ++ rest.now) }
{
    path.strip_prefix(b"/wopi/containers/".as_slice())
}

/// The operation at a path that goes on so behind that front.
fn op_behind(rest: &[u8]) -> Option<ContainerOp>
    ensures { MatchOption result ((op : ContainerOp) → rest.now ≢ behind_front op) (λ op. rest.now ≡ behind_front op) }
{
    if rest == b"root".as_slice() {
        return Some(ContainerOp::Info);
    }
    if rest == b"root/children".as_slice() {
        return Some(ContainerOp::Children);
    }
    None
}

/// What a request for a container asks for, whose path goes on so behind that front.
fn container_at(
    alloc: Global,
    request: &Request,
    rest: &[u8],
    query: &[u8],
) -> Result<ContainerAsk, AskFault>
    requires path { path_of request.now.target ≡ front ++ rest.now }
    requires query { query.now ≡ query_of request.now.target }
    ensures { IsContainerAnswer request.now result }
{
    let Some(op) = op_behind(rest) else {
        return Err(AskFault::Refused { status: 404 });
    };
    match request.method {
        Method::Get => {
            let token = token_in(alloc, query)?;
            Ok(ContainerAsk { token, op })
        }
        _ => Err(AskFault::Refused { status: 501 }),
    }
}

/// What a request asks for, as [`place_of`] tells it, where what it asks for of a file is put into a place.
pub fn place_into(
    alloc: Global,
    request: &Request,
    place: &mut Option<Ask>,
) -> Result<Option<ContainerAsk>, AskFault>
    ensures read { IsPlaceIn request.now result place.new }
    ensures left { IsLeft result place.old place.new }
{
    let split = split_of(request.target.as_slice());
    match behind_front(split.path) {
        Some(rest) => match container_at(alloc, request, rest, split.query) {
            Ok(ask) => Ok(Some(ask)),
            Err(fault) => Err(fault),
        },
        None => match ask_at(alloc, request, split, place) {
            Ok(()) => Ok(None),
            Err(fault) => Err(fault),
        },
    }
}

/// What a request asks for, of a file or of the container. One with a path behind `/wopi/containers/` is refused
/// with 404 where the container isn't there, else with 501 where it is no GET; any other as by [`ask_of`].
///
/// [`ask_of`]: crate::ask_of
pub fn place_of(alloc: Global, request: &Request) -> Result<Place, AskFault>
    ensures { IsPlaceOf request.now result }
{
    let mut place = None;
    match place_into(alloc, request, &mut place) {
        Ok(Some(ask)) => Ok(Place::Container(ask)),
        Ok(None) => match place {
            Some(ask) => Ok(Place::File(ask)),
            None => unreachable!(),
        },
        Err(fault) => Err(fault),
    }
}
