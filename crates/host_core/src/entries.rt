//! The entries of a store in memory, of which one more may be begun.
ghost use Rattle.std.specs.Prelude.{◌≡◌, ◌≤◌, ◌<◌, ◌++◌, ◌∷◌, [], length, true, None, Some, IfOk, option_map, slice_get};
ghost use Rattle.host_core.specs.Entries.{Asked, asked_as, ruled, accepted_contents};
ghost use Rattle.host_core.specs.Entry.{is_status};

use crate::contents::Contents;
use crate::entry::{Beginning, Entry};
use std::alloc::Global;
use std::marker::Model;
use wopi_model::Ruling;
use wopi_text::Memory;

/// Entries, and the one that was begun. That one is built where it lies, behind the others, and it isn't handed out before it
/// has its ruling.
#[derive(Drop)]
pub struct Entries {
    list: Vec<Entry>,
    ended: usize,
}

impl Model for Entries {
    ghost use Rattle.host_core.specs.Written.{Written, written_of, AreWritten};

    ghost Value = { Written };

    ghost view = { written_of };

    ghost invariant = { AreWritten };
}

impl Entries {
    /// None, and no room for any. It takes no memory.
    pub fn new(alloc: Global) -> Entries
        ensures made { result.made ≡ [] }
        ensures begun { result.begun ≡ None }
    {
        Entries {
            list: Vec::new(alloc),
            ended: 0,
        }
    }

    /// None, and room for so many.
    pub fn with_capacity(alloc: Global, capacity: usize) -> Result<Entries, Memory>
        ensures made { IfOk result (λ entries. entries.made ≡ []) }
        ensures begun { IfOk result (λ entries. entries.begun ≡ None) }
        ensures most { IfOk result (λ entries. capacity ≤ entries.most) }
    {
        let list = Vec::with_capacity(alloc, capacity)?;
        Ok(Entries { list, ended: 0 })
    }

    /// How many there are.
    pub fn len(&self) -> u64
        ensures { result ≡ length self.now.made }
    {
        self.ended as u64
    }

    /// The entry at a place, counted from 0.
    pub fn get(&self, place: u64) -> Option<&Entry>
        ensures { option_map (λ entry. entry.now) result ≡ slice_get self.now.made place }
    {
        if place >= self.ended as u64 {
            return None;
        }
        self.list.get(place as usize)
    }

    /// Begins one, for which there is room. It takes no memory.
    pub fn begin(&mut self, beginning: &Beginning<'_>)
        requires begun { self.old.begun ≡ None }
        requires room { length self.old.made < self.old.most }
        ensures { self.new ≡ record self.old { begun = Some (asked_as beginning.now.stamp beginning.now.pass beginning.now.moment beginning.now.time beginning.now.call.now) } }
    {
        beginning.put(&mut self.list);
    }

    /// Gives the one that was begun its ruling, and the contents where they were accepted. It takes no memory.
    pub fn end(&mut self, ruling: &Ruling, contents: Option<Contents>)
        requires begun { (one : Asked) × (self.old.begun ≡ Some one) × (contents ≡ accepted_contents (ruled ruling.now one)) }
        requires status { is_status ruling.now.status ≡ true }
        ensures made { (one : Asked) → self.old.begun ≡ Some one → self.new.made ≡ self.old.made ++ ruled ruling.now one ∷ [] }
        ensures ended { self.new.begun ≡ None }
        ensures most { self.new.most ≡ self.old.most }
    {
        self.list[self.ended].end(ruling, contents);
        self.ended += 1;
    }

    /// The one that was begun is none.
    pub fn give_up(&mut self)
        ensures { self.new ≡ record self.old { begun = None } }
    {
        self.list.truncate(self.ended);
    }

    /// The entries that are ended. Room that nothing took is given up, and where the allocator refuses a smaller piece it
    /// stays.
    pub fn into_vec(self) -> Vec<Entry>
        ensures { result.items ≡ self.made }
    {
        let Entries { mut list, ended } = self;
        list.truncate(ended);
        list.shrink_to_fit();
        list
    }
}
