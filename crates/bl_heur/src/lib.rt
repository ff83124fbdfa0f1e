//! Mathematics: heuristics, which try points of a node's box that may be feasible.
#![tactic(auto)]

mod diving;
mod guiding;
mod laws;
mod narrowing;
mod one_row;
mod rounding;

pub use diving::dive;
pub use guiding::guided_dive;
pub use laws::dives_end;
pub use one_row::{RowMultiplier, best_row_multiplier, has_large_numbers};
pub use rounding::round_point;
