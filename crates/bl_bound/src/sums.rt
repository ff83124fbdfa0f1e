// The exact sum that multipliers give, row by row.
ghost use Rattle.std.specs.Prelude.{◌≡◌, ◌+◌, ◌≤◌, ◌<◌, ℕ, length, All, ◌*ℤ◌, neg_ℤ, Some, List};
ghost use Rattle.std.specs.Prelude.{ℤ, ◌≤ℤ◌, IfSome};
ghost use Rattle.bl_num.specs.Exact.{at};
ghost use Rattle.bl_num.specs.Checked.{i128_of, checked_add, checked_sum};
ghost use Rattle.bl_problem.specs.Rows.{AreTerms, coefficient_of};
ghost use Rattle.bl_problem.specs.Points.{costs_of, value_of};
ghost use Rattle.bl_bound.specs.Lines.{lines_of, line_of};
ghost use Rattle.bl_bound.specs.Bounds.{sum_at, taken, column_part, line_part, line_value};
ghost use Rattle.bl_bound.specs.Bounds.{multiplier_sum_of, AreReducedCosts};
ghost use Rattle.bl_bound.specs.Descriptions.{Describes, IsLeft};
ghost use Rattle.bl_bound.specs.Steps.{taken_terms, IsSettled, part_at};

use crate::lines::{LineRef, line};
use bl_desc::Desc;
use bl_mods::Shared;
use bl_num::{mul, plus, product, times};
use bl_problem::{Column, Cut, Problem, Row, Term};

/// A room for the sums of so many columns is small.
const FEW: usize = 64;

/// A room for the sums of so many columns is of middle size.
const SOME: usize = 256;

/// A problem has at most so many columns.
const MOST: usize = 1000;

// Puts each column's cost, counted d times, into its place.
fn put_costs(sums: &mut [Option<i128>], columns: &[Column], d: i64)
    requires { length sums.old ≡ length columns.now }
    ensures length { length sums.new ≡ length sums.old }
    ensures costs { (j : ℕ) → j < length columns.now → sum_at sums.new j
        ≡ i128_of (d *ℤ at (costs_of columns.now) j) }
{
    for j in 0..columns.len() {
        sums[j] = Some(product(d, columns[j].cost));
    }
}

// Takes the multiplier times the coefficient from the sum of each term's column.
fn take_terms(sums: &mut [Option<i128>], terms: &[Term], y: i64)
    requires { All (λ t. t.column < length sums.old) terms.now }
    ensures { sums.new ≡ taken_terms y terms.now sums.old }
{
    for term in terms {
        let j = term.column as usize;
        sums[j] = plus(sums[j], Some(-product(y, term.coefficient)));
    }
}

// Takes a line's part from the columns' sums: nothing where the multiplier is 0.
fn take_line(sums: &mut [Option<i128>], terms: &[Term], y: i64)
    requires terms { AreTerms (length sums.old) terms.now }
    requires settled { (j : ℕ) → j < length sums.old → IsSettled (sum_at sums.old j) }
    ensures length { length sums.new ≡ length sums.old }
    ensures sums { (j : ℕ) → j < length sums.old → sum_at sums.new j
        ≡ checked_add (sum_at sums.old j) (Some (neg_ℤ (y *ℤ coefficient_of terms.now j))) }
{
    if y == 0 {
        return;
    }
    take_terms(sums, terms, y);
}

// Takes each line's part from the columns' sums, in order.
fn take_lines(sums: &mut [Option<i128>], rows: &[Row], cuts: &[Shared<Cut>], y: &[i64])
    requires multipliers { length y.now ≡ length rows.now + length cuts.now }
    requires terms { All (λ line. AreTerms (length sums.old) line.terms)
        (lines_of rows.now cuts.now) }
    requires settled { (j : ℕ) → j < length sums.old → IsSettled (sum_at sums.old j) }
    ensures length { length sums.new ≡ length sums.old }
    ensures sums { (j : ℕ) → j < length sums.old → sum_at sums.new j
        ≡ checked_sum (sum_at sums.old j) (length y.now)
        (taken (lines_of rows.now cuts.now) y.now j) }
{
    for i in 0..y.len() {
        take_line(sums, line(rows, cuts, i).terms, y[i]);
    }
}

// The product with the reduced cost. Most costs fit 64 bits, and need no test of the product then.
fn cost_times(cost: i128, end: i64) -> Option<i128>
    ensures { result ≡ i128_of (cost *ℤ end) }
{
    match i64::try_from(cost) {
        Ok(cost) => Some(product(cost, end)),
        Err(_) => mul(cost, end as i128),
    }
}

// The reduced cost times the end that makes it least.
fn column_end(cost: Option<i128>, low: i64, high: i64) -> Option<i128>
    ensures { result ≡ column_part cost low high }
{
    let cost = cost?;
    cost_times(cost, if 0 <= cost { low } else { high })
}

// The multiplier times the end that its sign asks for.
fn line_end(y: i64, line: LineRef<'_>) -> Option<i128>
    ensures { result ≡ line_part y (line_of line.entry) }
{
    if y == 0 {
        return Some(0);
    }
    times(Some(y as i128), if 0 < y { line.low } else { line.high })
}

// `start` and the columns' parts.
fn columns_sum(
    start: Option<i128>,
    costs: &[Option<i128>],
    lows: &[i64],
    highs: &[i64],
) -> Option<i128>
    requires lows { length lows.now ≡ length costs.now }
    requires highs { length highs.now ≡ length costs.now }
    ensures { result ≡ checked_sum start (length costs.now) (part_at costs.now lows.now highs.now) }
{
    let mut sum = start;
    for j in 0..costs.len() {
        sum = plus(sum, column_end(costs[j], lows[j], highs[j]));
    }
    sum
}

// `start` and the lines' parts.
fn lines_sum(start: Option<i128>, rows: &[Row], cuts: &[Shared<Cut>], y: &[i64]) -> Option<i128>
    requires { length y.now ≡ length rows.now + length cuts.now }
    ensures { result ≡ checked_sum start (length y.now)
        (line_value (lines_of rows.now cuts.now) y.now) }
{
    let mut sum = start;
    for i in 0..y.len() {
        sum = plus(sum, line_end(y[i], line(rows, cuts, i)));
    }
    sum
}

// Puts the columns' reduced costs into their places, and gives the exact sum; the costs and the
// offset are counted d times.
pub fn reduce(
    costs: &mut [Option<i128>],
    problem: &Problem,
    desc: &Desc<Cut>,
    y: &[i64],
    d: i64,
) -> Option<i128>
    requires columns { length costs.old ≡ length problem.now.columns }
    requires suits { Describes problem.now desc.now }
    requires multipliers { length y.now ≡ length problem.now.rows + length desc.now.cuts }
    ensures length { length costs.new ≡ length costs.old }
    ensures reduced { AreReducedCosts problem.now desc.now y.now d costs.new }
    ensures exact { result ≡ multiplier_sum_of problem.now desc.now y.now d }
    ensures below { IfSome result (λ s. (x : List ℤ)
        → IsLeft problem.now desc.now x → s ≤ℤ (d *ℤ value_of problem.now x)) }
{
    let (columns, rows, cuts) = (problem.columns(), problem.rows(), desc.cuts.as_slice());
    put_costs(costs, columns, d);
    take_lines(costs, rows, cuts, y);
    let start = times(Some(d as i128), Some(problem.offset()));
    let sum = columns_sum(start, costs, desc.lows.as_slice(), desc.highs.as_slice());
    lines_sum(sum, rows, cuts, y)
}

// The exact sum, in a room for the sums of N columns.
fn sum_in<const N: usize>(problem: &Problem, desc: &Desc<Cut>, y: &[i64], d: i64) -> Option<i128>
    requires room { length problem.now.columns ≤ N }
    requires small { N ≤ 1000 }
    requires suits { Describes problem.now desc.now }
    requires multipliers { length y.now ≡ length problem.now.rows + length desc.now.cuts }
    ensures exact { result ≡ multiplier_sum_of problem.now desc.now y.now d }
    ensures below { IfSome result (λ s. (x : List ℤ)
        → IsLeft problem.now desc.now x → s ≤ℤ (d *ℤ value_of problem.now x)) }
{
    let mut room: [Option<i128>; N] = [None; N];
    let costs = &mut room[..problem.columns().len()];
    reduce(costs, problem, desc, y, d)
}

// The exact sum, with the costs and the offset counted d times: in a small room where few columns
// are, since a large one costs more than their sums.
pub fn multiplier_sum(problem: &Problem, desc: &Desc<Cut>, y: &[i64], d: i64) -> Option<i128>
    requires suits { Describes problem.now desc.now }
    requires multipliers { length y.now ≡ length problem.now.rows + length desc.now.cuts }
    ensures exact { result ≡ multiplier_sum_of problem.now desc.now y.now d }
    ensures below { IfSome result (λ s. (x : List ℤ)
        → IsLeft problem.now desc.now x → s ≤ℤ (d *ℤ value_of problem.now x)) }
{
    let columns = problem.columns().len();
    if columns <= FEW {
        sum_in::<FEW>(problem, desc, y, d)
    } else if columns <= SOME {
        sum_in::<SOME>(problem, desc, y, d)
    } else {
        sum_in::<MOST>(problem, desc, y, d)
    }
}
