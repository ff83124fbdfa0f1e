//! Mathematics: a node's linear program in the simplex method's form, scaled, in fixed point.
#![tactic(auto)]

mod form;
mod lines;
pub mod numbers;
mod prepared;
mod rows;
mod scaling;
mod substitutes;

pub use form::{Form, add_multiple};
pub use lines::Coefficient;
pub use prepared::Prepared;
