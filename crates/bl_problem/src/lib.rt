//! Model: integer programs: columns, rows and cuts; points and their values; bound decisions.
#![tactic(auto)]

mod cut;
mod decision;
mod name;
mod point;
mod problem;

pub use cut::Cut;
pub use decision::{Decision, Side};
pub use name::Name;
pub use point::row_sum;
pub use problem::{Column, Problem, Row, Sense, Term};
