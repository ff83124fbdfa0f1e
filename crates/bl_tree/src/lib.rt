//! Search: the search tree as a machine with a journal: what its calls answer is told by its
//! history alone.
#![tactic(auto)]

mod answer;
mod bounds;
mod freeable;
mod freeing;
mod incumbent;
pub mod laws;
mod lease;
mod nodes;
mod numbers;
mod plan;
mod queue;
mod record;
mod records;
mod root;
mod search;
mod tree;
mod workspace;

pub use answer::{Answer, Best, Born, Freed, FreedNodes, Glance};
pub use lease::{Lease, Taken};
pub use plan::{Installed, Job, Plan, Planned, SpentJob, encode};
pub use tree::Tree;
