//! Mathematics: branching rules, which say where a node's box is split.
#![tactic(auto)]

mod fractional;
mod halving;
mod place;
mod rule;

pub use fractional::most_fractional;
pub use halving::half;
pub use place::Place;
pub use rule::BranchRule;
