//! Chains, and what they stand for.
ghost use Rattle.std.specs.Prelude.{◌≡◌, ◌<◌, [], ◌∷◌, ◌++◌, length, IfOk};
ghost use Rattle.bl_desc.specs.Changes.{IsWhole};
ghost use Rattle.bl_rebuild.specs.Chains.{described, FitInOrder};

use crate::changes::Changes;
use bl_desc::{Change, Desc, apply};
use bl_mods::Shared;
use std::alloc::{AllocError, Global};

/// One explicit piece, and then at most 63 changes in order.
#[derive(Drop)]
pub struct Chain<C> {
    pub top: Shared<Desc<C>>,
    pub changes: Changes<C>,
}

impl<C: Drop> Chain<C> {
    /// The chain of one explicit piece. Takes no memory.
    pub fn begin(alloc: Global, top: Shared<Desc<C>>) -> Chain<C>
        ensures top { result.top ≡ top }
        ensures changes { result.changes ≡ [] }
    {
        Chain {
            top,
            changes: Changes::new(alloc),
        }
    }

    /// Appends a change, where there are fewer than 64 pieces. Takes no memory.
    pub fn push(&mut self, change: Shared<Change<C>>)
        requires { length self.old.changes < 63 }
        ensures top { self.new.top ≡ self.old.top }
        ensures changes { self.new.changes ≡ self.old.changes ++ change ∷ [] }
    {
        self.changes.push(change);
    }
}

/// The description that a chain stands for: the explicit piece with each change applied in
/// order. `AllocError` where there is no memory.
pub fn rebuild<C: Drop>(chain: &Chain<C>) -> Result<Desc<C>, AllocError>
    requires whole { IsWhole chain.now.top }
    requires fits { FitInOrder chain.now.changes chain.now.top }
    ensures { IfOk result (λ desc. desc ≡ described chain.now.changes chain.now.top) }
{
    let mut desc = chain.top.get().duplicate()?;
    for piece in chain.changes.as_slice() {
        let Some(change) = piece else {
            continue;
        };
        apply(change.get(), &mut desc)?;
    }
    Ok(desc)
}
