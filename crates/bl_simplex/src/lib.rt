//! Mathematics: proposals for a node from its linear program, by a dual simplex method in fixed
//! point. Nothing rests on them: what a proposal's multipliers show is computed exactly elsewhere.
#![tactic(auto)]

mod answer;
mod basis;
mod branching;
mod passing;
mod pricing;
mod proposal;
mod ratio;
mod row;
mod simplex;

pub use bl_linear::Prepared;
pub use branching::SideProposal;
pub use proposal::{Proposal, propose, propose_below};
