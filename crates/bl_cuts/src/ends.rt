// The ends that weights point at, and the right side that they give.
ghost use Rattle.std.specs.Prelude.{◌≡◌, ◌+◌, ◌≤◌, ◌<◌, ◌^◌, ℕ, length, ◌≤ℤ◌, pos, Some, is_some};
ghost use Rattle.bl_num.specs.Exact.{at};
ghost use Rattle.bl_num.specs.Checked.{checked_add, checked_mul, checked_sum};
ghost use Rattle.bl_problem.specs.Points.{lows_of};
ghost use Rattle.bl_bound.specs.Lines.{lines_of, line_of};
ghost use Rattle.bl_bound.specs.Bounds.{sum_at};
ghost use Rattle.bl_cuts.specs.Derivations.{pointed_end, points_at_ends, end_value, floored};
ghost use Rattle.bl_cuts.specs.Derivations.{checked_sub, at_lows, right_of};

use bl_bound::{LineRef, line};
use bl_mods::Shared;
use bl_num::{floor_div, plus, sub, times};
use bl_problem::{Column, Cut, Row};

// The end that a weight points at: the high one where it is positive.
fn pointed_end(w: i64, line: LineRef<'_>) -> Option<i128>
    ensures { result ≡ pointed_end w (line_of line.entry) }
{
    if w == 0 {
        return Some(0);
    }
    if 0 < w { line.high } else { line.low }
}

// Whether each weight points at an end that is there.
pub fn points_at_ends(rows: &[Row], cuts: &[Shared<Cut>], weights: &[i64]) -> bool
    requires { length weights.now ≡ length rows.now + length cuts.now }
    ensures { result ≡ points_at_ends (length weights.now) (lines_of rows.now cuts.now)
        weights.now }
{
    let mut all = true;
    for i in 0..weights.len() {
        all = all && pointed_end(weights[i], line(rows, cuts, i)).is_some();
    }
    all
}

// The weighted sum of the ends.
pub fn ends_sum(rows: &[Row], cuts: &[Shared<Cut>], weights: &[i64]) -> Option<i128>
    requires { length weights.now ≡ length rows.now + length cuts.now }
    ensures { result ≡ checked_sum (Some (pos 0)) (length weights.now)
        (end_value (lines_of rows.now cuts.now) weights.now) }
{
    let mut sum = Some(0);
    for i in 0..weights.len() {
        let end = pointed_end(weights[i], line(rows, cuts, i));
        sum = plus(sum, times(Some(weights[i] as i128), end));
    }
    sum
}

// The quotient rounded down. Most sums are 0, and cost no division.
pub fn floored(sum: Option<i128>, q: i64) -> Option<i128>
    requires { pos 1 ≤ℤ q }
    ensures { result ≡ floored sum q }
{
    let sum = sum?;
    if sum == 0 {
        return Some(0);
    }
    Some(floor_div(sum, q as i128))
}

fn difference(a: Option<i128>, b: Option<i128>) -> Option<i128>
    ensures { result ≡ checked_sub a b }
{
    sub(a?, b?)
}

// Adds a product with a low. Most numbers are 0, and cost no product.
fn add_product(sum: Option<i128>, number: Option<i128>, low: i64) -> Option<i128>
    ensures { result ≡ checked_add sum (checked_mul number (Some low)) }
{
    if number == Some(0) {
        return sum;
    }
    plus(sum, times(number, Some(low as i128)))
}

// The sum over the columns of the weighted sum times the low.
fn lows_sum(sums: &[Option<i128>], columns: &[Column]) -> Option<i128>
    requires { length sums.now ≡ length columns.now }
    ensures { result ≡ at_lows (length columns.now) (sum_at sums.now) (lows_of columns.now) }
{
    let mut sum = Some(0);
    for j in 0..columns.len() {
        sum = add_product(sum, sums[j], columns[j].low);
    }
    sum
}

// The sum over the columns of the rounded coefficient times the low.
fn floors_sum(sums: &[Option<i128>], columns: &[Column], q: i64) -> Option<i128>
    requires width { length sums.now ≡ length columns.now }
    requires counted { pos 1 ≤ℤ q }
    ensures { result ≡ at_lows (length columns.now) (λ j. floored (sum_at sums.now j) q)
        (lows_of columns.now) }
{
    let mut sum = Some(0);
    for j in 0..columns.len() {
        sum = add_product(sum, floored(sums[j], q), columns[j].low);
    }
    sum
}

// The right side of the cut.
pub fn right_side(
    sums: &[Option<i128>],
    columns: &[Column],
    ends: Option<i128>,
    q: i64,
) -> Option<i128>
    requires width { length sums.now ≡ length columns.now }
    requires counted { pos 1 ≤ℤ q }
    ensures { result ≡ right_of (length columns.now) (sum_at sums.now) ends (lows_of columns.now)
        q }
{
    let below = floored(difference(ends, lows_sum(sums, columns)), q);
    plus(below, floors_sum(sums, columns, q))
}
