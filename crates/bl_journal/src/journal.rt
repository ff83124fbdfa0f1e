//! The journal: a list of entries, with spare room.
ghost use Rattle.std.specs.Prelude.{◌≡◌, ◌<◌, ◌≤◌, ◌+◌, [], ◌∷◌, ◌++◌, length, slice_get};
ghost use Rattle.std.specs.Prelude.{option_copied, OnOk, IsTrue, ◌↔◌};

use crate::entry::Entry;
use std::alloc::{AllocError, Global};
use std::marker::Model;

/// The entries in the order in which they were made, and spare room for more. Contracts see both.
#[derive(Drop)]
pub struct Journal {
    entries: Vec<Entry>,
}

impl Model for Journal {
    ghost use Rattle.bl_journal.specs.Kept.{Kept};
    ghost use Rattle.std.specs.Prelude.{◌-◌, vec_capacity, length};

    ghost Value = { Kept };

    ghost view = { λ j. record {
      entries = j.entries.items;
      room = vec_capacity j.entries - length j.entries.items;
    } };
}

impl Journal {
    /// No entry. Takes no memory.
    pub fn new(alloc: Global) -> Journal
        ensures { result.entries ≡ [] }
    {
        Journal {
            entries: Vec::new(alloc),
        }
    }

    /// How many entries there are.
    pub fn len(&self) -> usize
        ensures { result ≡ length self.now.entries }
    {
        self.entries.len()
    }

    /// Whether there is no entry.
    pub fn is_empty(&self) -> bool
        ensures { IsTrue result ↔ (self.now.entries ≡ []) }
    {
        self.entries.is_empty()
    }

    /// The entry at a place, counted from 0. None exactly past the end.
    pub fn get(&self, place: usize) -> Option<&Entry>
        ensures { option_copied result ≡ slice_get self.now.entries place }
    {
        self.entries.get(place)
    }

    /// The entries in order.
    pub fn entries(&self) -> &[Entry]
        ensures { result.now ≡ self.now.entries }
    {
        self.entries.as_slice()
    }

    /// Makes the spare room at least `more`. `AllocError` where there is no memory. The entries
    /// stay, and no room is lost.
    pub fn reserve(&mut self, more: usize) -> Result<(), AllocError>
        ensures entries { self.new.entries ≡ self.old.entries }
        ensures room { OnOk result (more ≤ self.new.room) }
        ensures kept { self.old.room ≤ self.new.room }
    {
        self.entries.reserve(more)
    }

    /// Appends an entry, where there is spare room. Takes no memory.
    pub fn push_reserved(&mut self, entry: Entry)
        requires { 0 < self.old.room }
        ensures entries { self.new.entries ≡ self.old.entries ++ entry ∷ [] }
        ensures room { self.new.room + 1 ≡ self.old.room }
    {
        self.entries.push_reserved(entry);
    }
}
