//! Base: the waiting nodes of a search by their keys, of which the first in an order is at hand.
#![tactic(auto)]

mod heap;
mod key;
mod pool;

pub use key::{Key, Order};
pub use pool::Pool;
