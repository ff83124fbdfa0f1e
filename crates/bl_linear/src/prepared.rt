//! What of a node's linear program is the same at every node of a problem.
use crate::lines::Lines;
use crate::numbers::scaled_number;
use crate::rows::{Rows, lines_of};
use crate::scaling::{are_wide, column_exponents, cost_exponent, exponent_at};
use crate::substitutes::substitute_costs;
use bl_fixed::Fixed;
use bl_problem::{Column, Problem};
use std::alloc::{AllocError, Global};

/// The problem's rows, columns and costs, scaled by powers of two. It is made once a problem, and
/// serves at each of its nodes.
#[derive(Drop)]
pub struct Prepared {
    pub rows: Rows,
    /// The exponent of each column.
    pub exponents: Vec<i32>,
    /// The exponent of the costs.
    pub cost_exponent: i32,
    /// The cost of each column, or in place of costs that are all 0 small ones that keep the method
    /// from stalling.
    pub costs: Vec<Fixed>,
    pub are_substitutes: bool,
}

impl Prepared {
    /// `AllocError` where there is no memory.
    pub fn new(alloc: Global, problem: &Problem) -> Result<Prepared, AllocError> {
        let (columns, rows) = (problem.columns(), problem.rows());
        let lines = lines_of(alloc, rows, &[])?;
        let is_wide = are_wide(lines.coefficients());
        let exponents = exponents_of(alloc, &lines, columns.len(), is_wide)?;
        let cost_exponent = cost_exponent(columns, exponents.as_slice(), is_wide);
        let mut costs = costs_of(alloc, columns, exponents.as_slice(), cost_exponent)?;
        let are_substitutes = columns.iter().all(|column| column.cost == 0);
        if are_substitutes {
            substitute_costs(costs.as_mut_slice(), exponents.as_slice());
        }
        Ok(Prepared {
            rows: Rows::new(alloc, lines, rows, &[], exponents.as_slice(), 0)?,
            exponents,
            cost_exponent,
            costs,
            are_substitutes,
        })
    }
}

// The exponents of the columns: 0 unless the coefficients differ much.
fn exponents_of(
    alloc: Global,
    lines: &Lines,
    width: usize,
    is_wide: bool,
) -> Result<Vec<i32>, AllocError> {
    if is_wide {
        column_exponents(alloc, lines, width)
    } else {
        Vec::from_elem(alloc, 0i32, width)
    }
}

fn costs_of(
    alloc: Global,
    columns: &[Column],
    exponents: &[i32],
    cost_exponent: i32,
) -> Result<Vec<Fixed>, AllocError> {
    let mut costs = Vec::with_capacity(alloc, columns.len())?;
    for (number, column) in columns.iter().enumerate() {
        let power = 40i32
            .saturating_sub(exponent_at(exponents, number))
            .saturating_sub(cost_exponent);
        costs.push(scaled_number(i128::from(column.cost), power))?;
    }
    Ok(costs)
}
