//! Cuts: inequalities that an integer program may be extended by.
use crate::problem::Term;
use bl_mods::{Item, ItemId, Items};

/// A cut: the sum of its terms is at most `right`. It is named by the seat that made it and its
/// number there.
#[derive(Drop)]
pub struct Cut {
    pub id: ItemId,
    /// In rising order of columns.
    pub terms: Items<Term>,
    /// Within ±10^30.
    pub right: i128,
}

impl Item for Cut {
    ghost id_of = { λ c. c.id };

    fn id(&self) -> ItemId {
        self.id
    }
}
