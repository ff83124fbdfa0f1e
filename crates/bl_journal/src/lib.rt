//! Search: the journal of a search: what happened to its tree, entry by entry; which histories
//! are legal; and the laws that hold of every legal one.
#![tactic(auto)]

mod entry;
mod journal;
pub mod laws;
mod limits;
mod outcome;
mod settings;
mod state;

pub use bl_pool::Order;
pub use entry::{Entry, Step};
pub use journal::Journal;
pub use limits::{
    LARGEST_GAP, MOST_BOUNDS, MOST_CUTS, MOST_NODES, MOST_SPAN, MOST_STATUSES, MOST_WORKERS,
};
pub use outcome::{Next, Outcome};
pub use settings::Settings;
pub use state::State;
