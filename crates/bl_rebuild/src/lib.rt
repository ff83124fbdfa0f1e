//! Model: chains of pieces, and the description that a chain stands for.
#![tactic(auto)]

mod chain;
mod changes;
#[cfg(test)]
mod tests;

pub use chain::{Chain, rebuild};
pub use changes::Changes;
