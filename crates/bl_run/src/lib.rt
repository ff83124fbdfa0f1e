//! Program: the top call, which reads or makes a problem, searches its tree and writes the answer.
#![tactic(auto)]

mod given;
mod searching;
mod top;

pub use bl_words::{GenWish, Wish, WordsFault, read_words};
pub use bl_worker::{Gate, Moment, OpenGate};
pub use given::given_words;
pub use top::{Ended, MOST_BYTES, end_without_words, run, run_one};
