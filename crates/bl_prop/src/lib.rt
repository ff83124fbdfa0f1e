//! Mathematics: propagation, one pass over the rows and the cuts that tightens the bounds of a
//! description.
#![tactic(auto)]

mod pass;
mod slack;
mod tightening;

pub use bl_problem::{Decision, Side};
pub use tightening::{Tightened, tighten};

#[cfg(test)]
mod tests;
