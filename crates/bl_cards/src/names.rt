//! Names that differ, each with its number.
ghost use Rattle.std.specs.Prelude.{◌≡◌, ◌<◌, [], ◌∷◌, ◌++◌, None, length, OnOk, OnErr, IfSome};
ghost use Rattle.std.specs.Prelude.{slice_index_or};
ghost use Rattle.bl_cards.specs.Said.{place_of, Differ};

use crate::hashing::FileHash;
use indexmap::IndexSet;
use std::alloc::{AllocError, Global};
use std::marker::Model;

/// Names of a file that differ, in order, each found by its bytes.
#[derive(Drop)]
pub struct Names<'a> {
    set: IndexSet<&'a [u8], FileHash>,
}

impl<'a> Model for Names<'a> {
    ghost use Rattle.std.specs.Prelude.{List, ℕ, map};

    ghost Value = { List (List ℕ) };

    ghost view = { λ n. map (λ k. k.now) n.set.keys };

    ghost use Rattle.bl_cards.specs.Said.{Differ};

    ghost invariant = { λ n. Differ (map (λ k. k.now) n.set.keys) };
}

impl<'a> Names<'a> {
    /// No names, which will be hashed so. Takes no memory.
    pub(crate) fn new(alloc: Global, hash: FileHash) -> Names<'a>
        ensures { result ≡ [] }
    {
        Names {
            set: IndexSet::with_hasher(alloc, hash),
        }
    }

    /// The place of a name.
    pub fn find(&self, name: &[u8]) -> Option<usize>
        ensures place { result ≡ place_of self.now name.now }
        ensures within { IfSome result (λ place. place < length self.now) }
        ensures differ { Differ self.now }
    {
        self.set.get_index_of(name)
    }

    /// The name at a place.
    pub fn name(&self, place: usize) -> &'a [u8]
        requires { place < length self.now }
        ensures { result.now ≡ slice_index_or self.now place [] }
    {
        self.set.as_slice()[place]
    }

    /// How many names there are.
    pub fn len(&self) -> usize
        ensures { result ≡ length self.now }
    {
        self.set.len()
    }

    /// Takes all names away.
    pub(crate) fn clear(&mut self)
        ensures { self.new ≡ [] }
    {
        self.set.clear();
    }

    /// Puts a new name at the end.
    pub(crate) fn add(&mut self, name: &'a [u8]) -> Result<(), AllocError>
        requires { place_of self.old name.now ≡ None }
        ensures ok { OnOk result (self.new ≡ self.old ++ name.now ∷ []) }
        ensures err { OnErr result (self.new ≡ self.old) }
    {
        self.set.insert(name)?;
        Ok(())
    }
}
