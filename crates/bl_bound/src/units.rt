//! The greatest of the bounds that unit multipliers give.
ghost use Rattle.std.specs.Prelude.{◌≡◌, ◌^◌, ◌*◌, ◌≤ℤ◌, ◌-ℤ◌, length, pos, List, ℤ, Some, All};
ghost use Rattle.std.specs.Prelude.{IfSome};
ghost use Rattle.bl_problem.specs.Sums.{IsWithin};
ghost use Rattle.bl_problem.specs.Rows.{AreTerms};
ghost use Rattle.bl_problem.specs.Program.{IsRow};
ghost use Rattle.bl_problem.specs.Points.{costs_of, value_of};
ghost use Rattle.bl_bound.specs.Bounds.{bound_of};
ghost use Rattle.bl_bound.specs.Descriptions.{Describes, IsLeft};
ghost use Rattle.bl_bound.specs.Units.{AreBounded, AreUnit, least_of, box_bound, moved, end_of};
ghost use Rattle.bl_bound.specs.Units.{row_bound, raised, greatest_of};

use bl_desc::Desc;
use bl_num::product;
use bl_problem::{Column, Cut, Problem, Row, Term};

// The reduced cost times the end that makes it least.
fn least(cost: i64, low: i64, high: i64) -> i128
    ensures { result ≡ least_of cost low high }
{
    product(cost, if 0 <= cost { low } else { high })
}

// What zero multipliers give.
fn box_sum(columns: &[Column], offset: i128, lows: &[i64], highs: &[i64]) -> i128
    requires bounded { AreBounded columns.now lows.now highs.now }
    requires offset { IsWithin (10 ^ 24) offset }
    ensures exact { result ≡ box_bound offset (costs_of columns.now) lows.now highs.now }
    ensures near { IsWithin (10 ^ 28) result }
{
    let mut sum = offset;
    for j in 0..columns.len() {
        sum += least(columns[j].cost, lows[j], highs[j]);
    }
    sum
}

// By how much a step of the reduced cost moves the column's least part.
fn part_move(cost: i64, low: i64, high: i64, step: i64) -> i128
    requires cost { IsWithin (10 ^ 15) cost }
    requires low { IsWithin (10 ^ 9) low }
    requires high { IsWithin (10 ^ 9) high }
    requires step { IsWithin (10 ^ 15) step }
    ensures exact { result ≡ least_of (cost -ℤ step) low high -ℤ least_of cost low high }
    ensures near { IsWithin (3 * 10 ^ 24) result }
{
    least(cost - step, low, high) - least(cost, low, high)
}

// By how much the multiplier at the terms moves the columns' least parts.
fn move_of(columns: &[Column], lows: &[i64], highs: &[i64], terms: &[Term], y: i64) -> i128
    requires bounded { AreBounded columns.now lows.now highs.now }
    requires terms { AreTerms (length columns.now) terms.now }
    requires unit { IsWithin 1 y }
    ensures exact { result ≡ moved (costs_of columns.now) lows.now highs.now y terms.now }
    ensures near { IsWithin (10 ^ 28) result }
{
    let mut sum: i128 = 0;
    for term in terms {
        let j = term.column as usize;
        sum += part_move(columns[j].cost, lows[j], highs[j], y * term.coefficient);
    }
    sum
}

// The end that the multiplier asks for.
fn row_end(row: &Row, y: i64) -> Option<i128>
    ensures { result ≡ end_of y row.now.low row.now.high }
{
    if 0 < y { row.low } else { row.high }
}

// What the multiplier at the row alone gives, over what zero multipliers give.
fn row_sum(
    columns: &[Column],
    lows: &[i64],
    highs: &[i64],
    base: i128,
    row: &Row,
    y: i64,
) -> Option<i128>
    requires bounded { AreBounded columns.now lows.now highs.now }
    requires row { IsRow (length columns.now) row.now }
    requires base { IsWithin (10 ^ 28) base }
    requires unit { IsWithin 1 y }
    ensures { result ≡ row_bound base (costs_of columns.now) lows.now highs.now y row.now }
{
    let end = row_end(row, y)?;
    let moved = move_of(columns, lows, highs, row.terms.as_slice(), y);
    Some(base + moved + y as i128 * end)
}

// The greater of a number and a bound, where that is there.
fn raise(best: i128, bound: Option<i128>) -> i128
    ensures { result ≡ raised best bound }
{
    match bound {
        Some(b) => best.max(b),
        None => best,
    }
}

// The greatest of what zero multipliers give and the bounds of 1 and -1 at each row.
fn greatest(columns: &[Column], lows: &[i64], highs: &[i64], base: i128, rows: &[Row]) -> i128
    requires bounded { AreBounded columns.now lows.now highs.now }
    requires rows { All (IsRow (length columns.now)) rows.now }
    requires base { IsWithin (10 ^ 28) base }
    ensures { result ≡ greatest_of base (costs_of columns.now) lows.now highs.now rows.now }
{
    let mut best = base;
    for row in rows {
        best = raise(best, row_sum(columns, lows, highs, base, row, 1));
        best = raise(best, row_sum(columns, lows, highs, base, row, -1));
    }
    best
}

/// The greatest of the bounds over the denominator 1 of all unit multipliers: those that are 0,
/// or 0 but for a 1 or a -1 at one row. No feasible point of the description's box that meets
/// its cuts has a smaller value. In one pass over the rows' terms; takes no memory.
pub fn greatest_unit_bound(problem: &Problem, desc: &Desc<Cut>) -> i128
    requires suits { Describes problem.now desc.now }
    ensures greatest { (y : List ℤ) → AreUnit (length problem.now.rows) (length desc.now.cuts) y
        → IfSome (bound_of problem.now desc.now y (pos 1)) (λ b. b ≤ℤ result) }
    ensures reached { (y : List ℤ) × (AreUnit (length problem.now.rows) (length desc.now.cuts) y
        × (bound_of problem.now desc.now y (pos 1) ≡ Some result)) }
    ensures below { (x : List ℤ) → IsLeft problem.now desc.now x
        → result ≤ℤ value_of problem.now x }
{
    let columns = problem.columns();
    let (lows, highs) = (desc.lows.as_slice(), desc.highs.as_slice());
    let base = box_sum(columns, problem.offset(), lows, highs);
    greatest(columns, lows, highs, base, problem.rows())
}
