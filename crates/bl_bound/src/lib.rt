//! Mathematics: exact bounds from multipliers, by weak duality over the rows and the cuts of a
//! problem.
#![tactic(auto)]

mod lines;
mod multipliers;
mod reduced;
mod sums;
mod units;

pub use lines::{LineRef, line};
pub use multipliers::{bound, empty};
pub use reduced::ReducedCosts;
pub use units::greatest_unit_bound;

#[cfg(test)]
mod tests;
