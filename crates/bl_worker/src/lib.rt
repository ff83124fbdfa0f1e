//! Search: the workers of a search, each in a thread.
#![tactic(auto)]

mod calls;
mod gate;
mod run;
mod search;
mod worker;

pub use gate::{Gate, Moment, OpenGate};
pub use run::run_workers;
pub use search::search_shared;
pub use worker::{WorkerEnd, worker_loop};
