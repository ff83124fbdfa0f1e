//! Formats: problems that are made from a number.
#![tactic(auto)]

mod draws;
mod generator;

pub use generator::make;
