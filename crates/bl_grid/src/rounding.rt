// Bounds and cutoffs on the grid.
ghost use Rattle.std.specs.Prelude.{◌≡◌, ℤ, pos, ◌≤ℤ◌, ◌<ℤ◌, List, IfSome};
ghost use Rattle.bl_problem.specs.Points.{value_of};
ghost use Rattle.bl_grid.specs.Grids.{DividesCosts};

use crate::grid::grid_of;
use bl_num::{add, ceil_div, floor_div, mul, sub};
use bl_problem::Problem;

// The least number on the grid from the bound on. None where it leaves `i128`.
fn next_value(problem: &Problem, grid: i128, bound: i128) -> Option<i128>
    requires counted { pos 1 ≤ℤ grid }
    requires divides { DividesCosts problem.now grid }
    ensures { IfSome result (λ next. (x : List ℤ) → bound ≤ℤ value_of problem.now x
        → next ≤ℤ value_of problem.now x) }
{
    let above = sub(bound, problem.offset())?;
    let steps = mul(ceil_div(above, grid), grid)?;
    add(steps, problem.offset())
}

// One more than the greatest number on the grid below the cutoff. None where it leaves `i128`.
fn last_cutoff(problem: &Problem, grid: i128, cutoff: i128) -> Option<i128>
    requires counted { pos 1 ≤ℤ grid }
    requires divides { DividesCosts problem.now grid }
    ensures { IfSome result (λ last. (x : List ℤ) → value_of problem.now x <ℤ cutoff
        → value_of problem.now x <ℤ last) }
{
    let limit = sub(cutoff, 1)?;
    let above = sub(limit, problem.offset())?;
    let steps = mul(floor_div(above, grid), grid)?;
    let last = add(steps, problem.offset())?;
    add(last, 1)
}

/// The bound, raised to the least number from it on that a value of whole numbers can be, as far
/// as a common divisor of the costs tells, in units of 10^-scale. Takes no memory.
pub fn raised(problem: &Problem, bound: i128) -> i128
    ensures rises { bound ≤ℤ result }
    ensures below { (x : List ℤ) → bound ≤ℤ value_of problem.now x
        → result ≤ℤ value_of problem.now x }
{
    match next_value(problem, grid_of(problem), bound) {
        Some(next) if bound < next => next,
        _ => bound,
    }
}

/// The cutoff, lowered as far as no value of whole numbers lies between, as far as a common
/// divisor of the costs tells, in units of 10^-scale. Takes no memory.
pub fn lowered(problem: &Problem, cutoff: i128) -> i128
    ensures falls { result ≤ℤ cutoff }
    ensures above { (x : List ℤ) → value_of problem.now x <ℤ cutoff
        → value_of problem.now x <ℤ result }
{
    match last_cutoff(problem, grid_of(problem), cutoff) {
        Some(last) if last < cutoff => last,
        _ => cutoff,
    }
}
