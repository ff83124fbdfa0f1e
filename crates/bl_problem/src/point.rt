// Whether a point lies in the box and meets the rows.
ghost use Rattle.std.specs.Prelude.{◌≡◌, ◌≤◌, ◌^◌, ◌↔◌, ◌≤ℤ◌, ◌+ℤ◌, ◌*ℤ◌, length, All, IsTrue};
ghost use Rattle.std.specs.Int.{int_min};
ghost use Rattle.bl_num.specs.Exact.{at, sum_below};
ghost use Rattle.bl_problem.specs.Sums.{IsWithin, sum_of_terms};
ghost use Rattle.bl_problem.specs.Rows.{AreTerms, MeetsLow, MeetsHigh, MeetsRow};
ghost use Rattle.bl_problem.specs.Program.{IsColumn, IsRow};
ghost use Rattle.bl_problem.specs.Points.{InBox, lows_of, highs_of, costs_of};

use crate::problem::{Column, Row, Term};
use bl_num::product;

/// The exact sum of coefficient times entry.
pub fn row_sum(terms: &[Term], point: &[i64]) -> i128
    requires width { length point.now ≤ 1000 }
    requires terms { AreTerms (length point.now) terms.now }
    requires near { All (IsWithin (10 ^ 9)) point.now }
    ensures { result ≡ sum_of_terms terms.now point.now }
{
    let mut sum: i128 = 0;
    for term in terms {
        sum += product(term.coefficient, point[term.column as usize]);
    }
    sum
}

// The offset and the exact sum of cost times entry.
pub fn value_sum(columns: &[Column], offset: i128, point: &[i64]) -> i128
    requires width { length point.now ≡ length columns.now }
    requires few { length columns.now ≤ 1000 }
    requires columns { All IsColumn columns.now }
    requires offset { IsWithin (10 ^ 24) offset }
    requires near { All (IsWithin (10 ^ 9)) point.now }
    ensures { result ≡ offset +ℤ sum_below (length columns.now)
        (λ j. at (costs_of columns.now) j *ℤ at point.now j) }
{
    let mut sum = offset;
    for j in 0..columns.len() {
        sum += product(columns[j].cost, point[j]);
    }
    sum
}

// The offset and the exact sum of the lesser of cost times low and cost times high.
pub fn least_sum(columns: &[Column], offset: i128, lows: &[i64], highs: &[i64]) -> i128
    requires low_width { length lows.now ≡ length columns.now }
    requires high_width { length highs.now ≡ length columns.now }
    requires few { length columns.now ≤ 1000 }
    requires columns { All IsColumn columns.now }
    requires offset { IsWithin (10 ^ 24) offset }
    requires low_near { All (IsWithin (10 ^ 9)) lows.now }
    requires high_near { All (IsWithin (10 ^ 9)) highs.now }
    ensures { result ≡ offset +ℤ sum_below (length columns.now)
        (λ j. int_min (at (costs_of columns.now) j *ℤ at lows.now j)
        (at (costs_of columns.now) j *ℤ at highs.now j)) }
{
    let mut sum = offset;
    for j in 0..columns.len() {
        let cost = columns[j].cost;
        sum += product(cost, lows[j]).min(product(cost, highs[j]));
    }
    sum
}

// Whether an entry lies within the column's bounds.
fn holds(column: &Column, entry: i64) -> bool
    ensures { IsTrue result ↔ ((column.now.low ≤ℤ entry) × (entry ≤ℤ column.now.high)) }
{
    column.low <= entry && entry <= column.high
}

// Whether the point has an entry for each column, within the column's bounds.
pub fn is_in_box(columns: &[Column], point: &[i64]) -> bool
    ensures { IsTrue result ↔ InBox (lows_of columns.now) (highs_of columns.now) point.now }
{
    if point.len() != columns.len() {
        return false;
    }
    for j in 0..columns.len() {
        if !holds(&columns[j], point[j]) {
            return false;
        }
    }
    true
}

// Whether a sum lies within the ends that are there.
fn meets_ends(low: Option<i128>, high: Option<i128>, sum: i128) -> bool
    ensures { IsTrue result ↔ (MeetsLow low sum × MeetsHigh high sum) }
{
    let above = match low {
        Some(end) => end <= sum,
        None => true,
    };
    let below = match high {
        Some(end) => sum <= end,
        None => true,
    };
    above && below
}

fn meets_row(row: &Row, point: &[i64]) -> bool
    requires width { length point.now ≤ 1000 }
    requires row { IsRow (length point.now) row.now }
    requires near { All (IsWithin (10 ^ 9)) point.now }
    ensures { IsTrue result ↔ MeetsRow point.now row.now }
{
    meets_ends(row.low, row.high, row_sum(row.terms.as_slice(), point))
}

// Whether the point meets each row.
pub fn meets_rows(rows: &[Row], point: &[i64]) -> bool
    requires width { length point.now ≤ 1000 }
    requires rows { All (IsRow (length point.now)) rows.now }
    requires near { All (IsWithin (10 ^ 9)) point.now }
    ensures { IsTrue result ↔ All (MeetsRow point.now) rows.now }
{
    for row in rows {
        if !meets_row(row, point) {
            return false;
        }
    }
    true
}
