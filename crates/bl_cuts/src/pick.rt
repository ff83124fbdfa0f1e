//! What a separator proposes to `derive`.
use bl_mods::Items;

/// Weights and a divisor, from which `derive` makes a cut.
#[derive(Drop)]
pub struct Pick {
    /// One entry per row and then one per cut.
    pub weights: Items<i64>,
    /// At least 1.
    pub q: i64,
}
