//! Mathematics: cover cuts, which say that some columns of a row can't all be 1.
#![tactic(auto)]

mod cover;
mod fault;
mod greedy;
mod knapsack;
mod search;
mod separator;

pub use cover::cover_cut;
pub use fault::CoverFault;
pub use search::find_cover;
pub use separator::{CutKinds, KindSeparator, Separate, Try};
