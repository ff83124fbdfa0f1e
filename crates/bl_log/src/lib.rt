//! Formats: the text of a journal.
#![tactic(auto)]

mod fault;
pub mod laws;
mod read;
mod spell;
mod text;
mod tokens;
mod values;

pub use fault::LogFault;
pub use read::read_log;
pub use text::log_text;
