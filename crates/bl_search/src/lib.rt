//! Search: the work on a lease by any seat, and the search of one seat.
#![tactic(auto)]

mod leased;
mod search;

pub use leased::{Worked, work_on};
pub use search::{EndedSearch, free_all, search_tree};
