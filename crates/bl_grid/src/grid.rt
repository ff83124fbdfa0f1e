// A common divisor of the costs.
ghost use Rattle.std.specs.Prelude.{◌≡◌, pos, ◌≤ℤ◌, true};
ghost use Rattle.bl_grid.specs.Grids.{DividesCosts, IsMultiple};

use bl_problem::{Column, Problem};

/// Euclid's steps for two numbers below 2^63: each second step halves the number.
const STEPS: usize = 128;

// The greatest common divisor, by Euclid's steps.
fn common_divisor(a: i64, b: i64) -> i64 {
    let mut greater = a;
    let mut less = b;
    for _ in 0..STEPS {
        if less < 1 {
            return greater;
        }
        let rest = greater.checked_rem(less).unwrap_or(0);
        greater = less;
        less = rest;
    }
    1
}

// The greatest common divisor of the costs; 0 where all are 0.
fn divisor_of(columns: &[Column]) -> i64 {
    let mut divisor = 0;
    for column in columns {
        divisor = common_divisor(column.cost.checked_abs().unwrap_or(1), divisor);
        if divisor == 1 {
            return 1;
        }
    }
    divisor
}

// Whether the cost is a multiple of the number.
fn is_multiple(cost: i64, divisor: i64) -> bool
    ensures { result ≡ true → IsMultiple divisor cost }
{
    match cost.checked_div(divisor) {
        Some(quotient) => quotient.checked_mul(divisor) == Some(cost),
        None => false,
    }
}

// Whether all costs are multiples of the number.
fn divides_costs(problem: &Problem, divisor: i64) -> bool
    ensures { result ≡ true → DividesCosts problem.now divisor }
{
    let columns = problem.columns();
    for j in 0..columns.len() {
        if !is_multiple(columns[j].cost, divisor) {
            return false;
        }
    }
    true
}

// A common divisor of the costs, at least 1: all values of points of whole numbers are the offset
// and a multiple of it. That it is the greatest shows in no clause.
pub fn grid_of(problem: &Problem) -> i128
    ensures counted { pos 1 ≤ℤ result }
    ensures divides { DividesCosts problem.now result }
{
    let divisor = divisor_of(problem.columns());
    if 1 < divisor && divides_costs(problem, divisor) {
        i128::from(divisor)
    } else {
        1
    }
}
