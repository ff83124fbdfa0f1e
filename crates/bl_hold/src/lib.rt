//! Search: a gate that holds workers, for tests.
#![tactic(auto)]

mod counts;
mod hold;

pub use hold::{Hold, HoldGate};
