//! Base: a lock whose value stands for a history of entries, and the seats of the threads that
//! take turns at it.
//!
//! All turns fall into one order. Each seat has seen a beginning of the one history, and knows
//! its own entries in it.
//!
//! A turn is `enter`, then `commit` with one entry more or `look` with none, then `leave`. The
//! one atomic add in `commit` and in `look` is the moment at which the call takes effect: from
//! then on the entry is in the history, and the seat has seen all of it.
//!
//! A seat that finds the turn taken looks at it for a while, and then sleeps; the seat that
//! leaves wakes one, and makes no call of the system where none sleeps. Apart from turns, a
//! thread may `sleep` until an entry comes, and whoever commits one may `wake` all who do.
//! Nothing is proved of who gets the turn, nor that a thread wakes.
#![tactic(auto)]

mod held;
mod rule;
mod seat;
#[cfg(test)]
mod tests;
mod told;
mod turn;
mod view;

pub use held::Held;
pub use seat::Seat;
pub use told::Told;
pub use turn::{NoMemory, Turn};
