//! Search: a tree made again from its journal, entry by entry.
#![tactic(auto)]

mod entries;
mod leases;
mod outcomes;
mod pieces;
mod trees;

pub use trees::replay;
