//! The names of a folder's files.
ghost use Rattle.std.specs.Prelude.{◌≡◌, ◌++◌, ◌∷◌, [], length, OnOk, OnErr, List, ℕ, map, string_bytes, slice_get, option_map, IsTrue, ◌↔◌};

use std::alloc::Global;
use std::marker::Model;
use wopi_text::Memory;

/// A list of names. A contract sees each as its bytes.
#[derive(Drop)]
pub struct Names {
    items: Vec<String>,
}

impl Model for Names {
    ghost Value = { List (List ℕ) };

    ghost view = { λ n. map string_bytes n.items.items };
}

impl Names {
    /// No names. It takes no memory.
    pub fn new(alloc: Global) -> Names
        ensures { result ≡ [] }
    {
        Names {
            items: Vec::new(alloc),
        }
    }

    /// How many names there are.
    pub fn len(&self) -> usize
        ensures { result ≡ length self.now }
    {
        self.items.len()
    }

    /// Whether there are none.
    pub fn is_empty(&self) -> bool
        ensures { IsTrue result ↔ self.now ≡ [] }
    {
        self.items.is_empty()
    }

    /// The name at a place, counted from 0.
    pub fn get(&self, place: usize) -> Option<&String>
        ensures { option_map (λ name. string_bytes name.now) result ≡ slice_get self.now place }
    {
        self.items.get(place)
    }

    /// All names in order.
    pub fn as_slice(&self) -> &[String]
        ensures { map string_bytes result.now ≡ self.now }
    {
        &self.items
    }

    /// Puts a name at the end. Where there is no memory for it, the list is as it was.
    pub fn push(&mut self, item: String) -> Result<(), Memory>
        ensures ok { OnOk result (self.new ≡ self.old ++ string_bytes item ∷ []) }
        ensures err { OnErr result (self.new ≡ self.old) }
    {
        self.items.push(item)?;
        Ok(())
    }
}
