//! The target of a request: its path, and the token in its query.
ghost use Rattle.std.specs.Prelude.{◌≡◌, false, ◌==◌, ◌≤◌, ◌++◌, IfOk, length, position};
ghost use Rattle.std.specs.List.{list_any, before_first, after_first, position_or_len, slice_split};
ghost use Rattle.std.specs.Option.{option_copied, option_map};
ghost use Rattle.percent_encoding.specs.Percent.{percent_decode};
ghost use Rattle.wopi_headers.specs.Targets.{begins_with, from_slash, path_in, path_of, query_of, is_token, token_part, token_in};

use percent_encoding::percent_decode;
use std::alloc::Global;
use wopi_text::{Bytes, Memory};

/// Where the first such byte stands.
fn position_of(bytes: &[u8], mark: u8) -> Option<usize>
    ensures { result ≡ position (λ b. b == mark) bytes.now }
{
    bytes.iter().position(|b| *b == mark)
}

/// Where the first such byte stands, or the length where there is none.
#[tactic(auto, using(crate::proofs::Places::place_is, crate::proofs::Places::place_inside))]
fn first_place(bytes: &[u8], mark: u8) -> usize
    ensures value { result ≡ position_or_len (λ b. b == mark) bytes.now }
    ensures inside { result ≤ length bytes.now }
{
    position_of(bytes, mark).unwrap_or(bytes.len())
}

/// What stands before the first such byte, and what stands after it: all and nothing where there is none.
fn cut_at(bytes: &[u8], mark: u8) -> (&[u8], &[u8])
    ensures before { result.0.now ≡ before_first (λ b. b == mark) bytes.now }
    ensures after { result.1.now ≡ after_first (λ b. b == mark) bytes.now }
{
    let place = first_place(bytes, mark);
    if place == bytes.len() {
        return (bytes, &[]);
    }
    (&bytes[..place], &bytes[place + 1..])
}

/// Whether the bytes begin with the prefix, in any case.
fn begins_with(bytes: &[u8], prefix: &[u8]) -> bool
    ensures { result ≡ begins_with prefix.now bytes.now }
{
    if bytes.len() < prefix.len() {
        return false;
    }
    bytes[..prefix.len()].eq_ignore_ascii_case(prefix)
}

/// The bytes from their first slash on, or a slash where they have none.
fn from_slash(bytes: &[u8]) -> &[u8]
    ensures { result.now ≡ from_slash bytes.now }
{
    let place = first_place(bytes, b'/');
    if place == bytes.len() {
        return b"/";
    }
    &bytes[place..]
}

/// The path of what stands before the query, in origin form or in absolute form.
fn path_in(front: &[u8]) -> &[u8]
    ensures { result.now ≡ path_in front.now }
{
    if begins_with(front, b"http://") {
        from_slash(&front[7..])
    } else if begins_with(front, b"https://") {
        from_slash(&front[8..])
    } else {
        front
    }
}

/// The path of a target and its query.
#[derive(Clone, Copy)]
pub struct Split<'a> {
    pub path: &'a [u8],
    pub query: &'a [u8],
}

/// Cuts a target into its path and its query.
#[tactic(auto, unfolding(crate::specs::Targets::path_of))]
pub fn split_of(target: &[u8]) -> Split<'_>
    ensures path { result.path.now ≡ path_of target.now }
    ensures query { result.query.now ≡ query_of target.now }
{
    let (front, query) = cut_at(target, b'?');
    Split {
        path: path_in(front),
        query,
    }
}

/// Whether a part of a query is the token.
fn is_token(part: &[u8]) -> bool
    ensures { result ≡ is_token part.now }
{
    cut_at(part, b'=').0 == b"access_token".as_slice()
}

/// A query of one part, where that is the token.
#[tactic(auto, using(crate::proofs::Escapes::one_part))]
fn only_part(query: &[u8]) -> Option<&[u8]>
    requires { list_any (λ b. b == 38) query.now ≡ false }
    ensures { option_copied result ≡ token_part query.now }
{
    if is_token(query) { Some(query) } else { None }
}

/// The first of several parts that is the token.
fn part_among(query: &[u8]) -> Option<&[u8]>
    ensures { option_copied result ≡ token_part query.now }
{
    query.split(|b| *b == b'&').find(|part| is_token(part))
}

/// The first part of a query that is the token.
fn token_part(query: &[u8]) -> Option<&[u8]>
    ensures { option_copied result ≡ token_part query.now }
{
    if query.contains(&b'&') {
        part_among(query)
    } else {
        only_part(query)
    }
}

/// The value of a part of a query, percent-decoded. One with no percent sign is copied whole.
fn decoded(alloc: Global, part: &[u8]) -> Result<Bytes, Memory>
    ensures { IfOk result (λ value. value ≡ percent_decode (after_first (λ b. b == 61) part.now)) }
{
    let value = cut_at(part, b'=').1;
    if !value.contains(&b'%') {
        return Bytes::from_slice(alloc, value);
    }
    let mut bytes = Vec::with_capacity(alloc, value.len())?;
    percent_decode(value).append_to(&mut bytes)?;
    Ok(Bytes::from_vec(bytes))
}

/// The token in a query, percent-decoded; it is empty where the query has none.
#[tactic(auto, unfolding(crate::specs::Targets::token_in))]
pub fn token_in(alloc: Global, query: &[u8]) -> Result<Bytes, Memory>
    ensures { IfOk result (λ token. token ≡ token_in query.now) }
{
    match token_part(query) {
        Some(part) => decoded(alloc, part),
        None => Ok(Bytes::from_vec(Vec::new(alloc))),
    }
}
