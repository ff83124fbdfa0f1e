//! Mathematics: Chvátal-Gomory cuts, the inequalities that weights over the rows and cuts of a
//! problem give.
#![tactic(auto)]

mod columns;
mod derivation;
mod ends;
mod fault;
mod one_row;
mod pick;
mod rounding;
mod separation;

pub use derivation::derive;
pub use fault::CutFault;
pub use pick::Pick;
pub use separation::separate;
