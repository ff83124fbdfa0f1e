//! Mathematics: the grid of values, on which bounds rise and cutoffs fall.
#![tactic(auto)]

mod grid;
mod rounding;

pub use rounding::{lowered, raised};
