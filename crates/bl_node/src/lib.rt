//! Search: the work on one node.
#![tactic(auto)]

mod cutting;
mod dropping;
mod guess;
mod hints;
mod improve;
mod limits;
mod node;
mod sides;
mod split;
mod state;
mod statuses;
mod steps;
mod working;

pub use hints::Hints;
pub use limits::Limits;
pub use node::{work, work_hinted, work_with};
