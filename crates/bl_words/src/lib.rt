//! Formats: what the words after a program's name ask for.
#![tactic(auto)]

mod command;
pub mod laws;
mod read;
mod wish;

pub use read::{WordsFault, read_words};
pub use wish::{GenWish, MOST_GAP, Wish};
