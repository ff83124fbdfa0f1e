//! Model: descriptions of nodes, changes between them, and what a change makes of a description.
#![tactic(auto)]

mod change;
mod desc;

pub use change::{Change, apply, between};
pub use desc::{Desc, Form, Piece, Status, weight};
