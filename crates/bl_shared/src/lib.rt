//! Search: a search tree that threads share, where each call is one turn at a lock.
//!
//! All turns fall into one legal history. A seat has seen a beginning of it, and knows its own
//! entries.
#![tactic(auto)]

pub mod laws;
mod locked;
mod shared;

pub use bl_turn::NoMemory;
pub use locked::{LockedTree, TreeBase};
pub use shared::{SharedTree, TreeSeat};
