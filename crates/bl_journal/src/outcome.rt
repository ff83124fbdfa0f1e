//! What the work on a node hands in.
use bl_desc::{Change, Piece};
use bl_mods::{Items, Shared};
use bl_problem::Cut;

/// What becomes of a node, with the pieces that its children are stored as.
#[derive(Drop)]
pub enum Next {
    /// It has no better point.
    Shut,
    /// Its box is split after a change that both children share: `column` is at most `at` in the
    /// left child, and at least `at` + 1 in the right one.
    Split {
        common: Shared<Change<Cut>>,
        column: u32,
        at: i64,
        left: Piece<Cut>,
        right: Piece<Cut>,
    },
}

/// The outcome of the work on a node.
#[derive(Drop)]
pub struct Outcome {
    /// A feasible point of the node, one entry per column, if one was found.
    pub found: Option<Items<i64>>,
    /// No better point of the node has a value below this, in units of 10^-scale.
    pub low: i128,
    pub next: Next,
}
