//! Formats: the texts of answers and of faults.
#![tactic(auto)]

mod answer;
mod fault;
mod held;

pub use answer::answer_text;
pub use fault::model_line;
pub use held::held_line;
