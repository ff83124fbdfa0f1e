//! At most 63 shared changes, kept inline.
ghost use Rattle.std.specs.Prelude.{◌≡◌, ◌<◌, [], ◌∷◌, ◌++◌, length};

use bl_desc::Change;
use bl_mods::Shared;
use smallvec::SmallVec;
use std::alloc::Global;
use std::marker::Model;

/// Changes in order, at most 63, which lie in the value itself. Contracts see the list of changes.
#[derive(Drop)]
pub struct Changes<C> {
    pieces: SmallVec<Option<Shared<Change<C>>>, 63>,
}

impl<C> Model for Changes<C> {
    ghost use Rattle.std.specs.Prelude.{List};
    ghost use Rattle.bl_desc.specs.declared.change.Change.{Change as Step};
    ghost use Rattle.bl_rebuild.specs.Chains.{present, IsInline};

    ghost Value = { List (Step C) };

    ghost view = { λ s. present s.pieces.items };

    ghost invariant = { λ s. IsInline s.pieces };
}

impl<C: Drop> Changes<C> {
    ghost use Rattle.bl_rebuild.specs.Chains.{present};

    /// No change. Takes no memory.
    pub fn new(alloc: Global) -> Changes<C>
        ensures { result ≡ [] }
    {
        Changes {
            pieces: SmallVec::new(alloc),
        }
    }

    /// Appends a change. Takes no memory.
    pub fn push(&mut self, change: Shared<Change<C>>)
        requires { length self.old < 63 }
        ensures { self.new ≡ self.old ++ change ∷ [] }
    {
        self.pieces.push_reserved(Some(change));
    }

    /// The changes, in order, each in a `Some`.
    pub fn as_slice(&self) -> &[Option<Shared<Change<C>>>]
        ensures { present result.now ≡ self.now }
    {
        self.pieces.as_slice()
    }
}
