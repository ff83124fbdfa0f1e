//! Mathematics: reduced-cost fixing, which narrows a box by how far a bound is below a cutoff.
#![tactic(auto)]

mod deciding;
mod fixing;

pub use fixing::{fix, fix_by};
