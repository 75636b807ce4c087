//! The tokens that were read of late.
ghost use Rattle.std.specs.List.{All};
ghost use Rattle.std.specs.Prelude.{◌≡◌, ◌≤◌, ◌↔◌, Some, IfSome, length};
ghost use Rattle.wopi_model.specs.declared.token.Token.{Token};
ghost use Rattle.access_tokens.specs.Remembering.{IsKnown, Remembers};
ghost use Rattle.access_tokens.specs.TokenText.{IsSigned};
ghost use Rattle.access_tokens.specs.declared.keys.Keys.{Keys};

use crate::Keys;
use crate::reading::read;
use std::alloc::Global;
use std::marker::Model;
use wopi_model::Token;
use wopi_text::{Bytes, are_equal};

/// The most texts that are remembered.
const MOST: u8 = 64;

/// How many marks texts have.
const MARKS: usize = 256;

/// How many of a text's last bytes its mark is made of.
const MARKED: usize = 4;

/// A text and the token that it has.
#[derive(Drop)]
struct Known {
    text: Bytes,
    token: Token,
}

/// Up to 64 of the tokens that were read last, and their texts. Who shows such a text again is spared its
/// code: that costs one comparison, with the last of the texts that had its mark. Texts of one mark push
/// each other out. They serve the keys under which they were read. A contract sees the list of what is
/// remembered.
#[derive(Drop)]
pub struct RecentTokens {
    known: Vec<Known>,
    /// The place that the next one with a new mark takes: the end, or where there are 64, each place in turn.
    next: u8,
    /// The place of the last text of each mark. A wrong one costs time and nothing else.
    places: [u8; MARKS],
}

impl Model for RecentTokens {
    ghost use Rattle.std.specs.Prelude.{List, ◌≤◌, length};
    ghost use Rattle.access_tokens.specs.declared.remembering.Known.{Known};

    ghost Value = { List Known };

    ghost view = { λ r. r.known.items };

    ghost invariant = { λ r. length r.known.items ≤ 64 };
}

/// A text's mark, made of its last bytes, which are those of its code.
fn mark_of(text: &[u8]) -> u8 {
    text.iter()
        .rev()
        .take(MARKED)
        .fold(0u8, |mark, byte| mark.wrapping_mul(31) ^ *byte)
}

impl RecentTokens {
    /// Nothing was read yet. It takes no memory.
    pub fn new(alloc: Global) -> RecentTokens
        ensures { (keys : Keys) → Remembers keys result }
    {
        RecentTokens {
            known: Vec::new(alloc),
            next: 0,
            places: [0; MARKS],
        }
    }

    /// The token with this text under the keys, if there is one. It keeps the text of a token, where there is
    /// memory for it.
    pub fn read(&mut self, keys: &Keys, text: Bytes) -> Option<Token>
        requires { Remembers keys.now self.old }
        ensures exact { (token : Token) → (result ≡ Some token) ↔ IsSigned keys.now text token }
        ensures remembers { Remembers keys.now self.new }
    {
        let mark = mark_of(text.as_slice());
        if let Some(token) = self.find(mark, text.as_slice()) {
            return Some(token);
        }
        let Ok(token) = read(keys, text.as_slice()) else {
            return None;
        };
        let kept = token.copy();
        self.keep(mark, Known { text, token: kept });
        Some(token)
    }

    /// The token of the text, where it is the last one of its mark that is remembered.
    fn find(&self, mark: u8, text: &[u8]) -> Option<Token>
        ensures { (keys : Keys) → Remembers keys self.now → IfSome result (λ token. IsSigned keys text.now token) }
    {
        let place = self.places[usize::from(mark)];
        match self.known.get(usize::from(place)) {
            Some(known) if are_equal(known.text.as_slice(), text) => Some(known.token.copy()),
            _ => None,
        }
    }

    /// Remembers one more, in the place of the one with its mark, or else in the next one.
    fn keep(&mut self, mark: u8, known: Known)
        ensures { (keys : Keys) → Remembers keys self.old → IsKnown keys known → Remembers keys self.new }
    {
        let place = self.place_for(mark);
        if put(&mut self.known, usize::from(place), known) {
            self.places[usize::from(mark)] = place;
            if place == self.next {
                self.next = place.wrapping_add(1) % MOST;
            }
        }
    }

    /// The place of the text with this mark, so that texts of one mark take one place; else the next one, whose text
    /// goes where there is one.
    fn place_for(&self, mark: u8) -> u8 {
        let place = self.places[usize::from(mark)];
        match self.known.get(usize::from(place)) {
            Some(known) if mark_of(known.text.as_slice()) == mark => place,
            _ => self.next,
        }
    }
}

/// Puts it at a place of the list, or at its end where the list is shorter, and says whether it did: there may be no
/// memory for it.
fn put(list: &mut Vec<Known>, place: usize, known: Known) -> bool
    ensures all { (keys : Keys) → All (IsKnown keys) list.old.items → IsKnown keys known → All (IsKnown keys) list.new.items }
    ensures few { length list.old.items ≤ 64 → length list.new.items ≤ 64 }
{
    if place < list.len() {
        list[place] = known;
        return true;
    }
    if list.len() >= usize::from(MOST) {
        return false;
    }
    match list.push(known) {
        Ok(()) => true,
        Err(_) => false,
    }
}
