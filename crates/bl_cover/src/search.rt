//! The first cover that a point breaks.
ghost use Rattle.std.specs.Prelude.{◌≡◌, ◌≤◌, ◌<◌, ◌^◌, length, All, IfOk, IfSome};
ghost use Rattle.bl_problem.specs.Sums.{IsWithin};
ghost use Rattle.bl_problem.specs.Program.{IsColumn, IsRow};
ghost use Rattle.bl_bound.specs.Descriptions.{Describes};
ghost use Rattle.bl_cover.specs.Covers.{row_at};
ghost use Rattle.bl_cover.specs.Greedy.{room_of, IsCoverOf, IsFirstCover};
ghost use Rattle.bl_cover.specs.Tries.{IsAccepted};

use crate::greedy::{Candidate, broken_size, columns_of, list_in_order};
use crate::knapsack::least_sum;
use crate::separator::Try;
use bl_desc::Desc;
use bl_fixed::Fixed;
use bl_mods::Items;
use bl_problem::{Column, Cut, Problem, Row};
use std::alloc::{AllocError, Global};

// What the row's coefficients may take above its least sum.
fn room(columns: &[Column], row: &Row) -> Option<i128>
    requires few { length columns.now ≤ 1000 }
    requires columns { All IsColumn columns.now }
    requires row { IsRow (length columns.now) row.now }
    ensures exact { result ≡ room_of columns.now row.now }
    ensures near { IfSome result (IsWithin (10 ^ 28)) }
{
    let high = row.high?;
    Some(high - least_sum(columns, row.terms.as_slice()))
}

// The columns of a row's greedy cover, where the point breaks it.
fn greedy_cover(
    alloc: Global,
    order: &mut Vec<Candidate>,
    columns: &[Column],
    row: &Row,
    point: &[Fixed],
) -> Result<Option<Items<u32>>, AllocError>
    requires few { length columns.now ≤ 1000 }
    requires columns { All IsColumn columns.now }
    requires row { IsRow (length columns.now) row.now }
    requires width { length point.now ≡ length columns.now }
    requires near { All (λ x. IsWithin (2 ^ 70) x.raw) point.now }
    ensures { IfOk result (IsCoverOf columns.now point.now row.now) }
{
    list_in_order(order, columns, row.terms.as_slice(), point)?;
    match broken_size(order.as_slice(), room(columns, row)) {
        Some(size) => Ok(Some(columns_of(alloc, &order.as_slice()[..size])?)),
        None => Ok(None),
    }
}

/// The first cover that the point breaks, found greedily. For each row with a high end in order,
/// its positive terms on columns of the problem's bounds 0 and 1 are taken one by one, by
/// greatest entry of the point, then least column, until they and the least sum of the row, by
/// the problem's own bounds, are above the high end. The answer is the first row, and the taken
/// columns in rising order, where the sum of their entries is above their number less 1, exactly
/// in units of 2^-40. None comes exactly where there is no such row; `AllocError` only for want
/// of memory. `cover_cut` makes a cut of the answer.
pub fn find_cover(
    alloc: Global,
    problem: &Problem,
    desc: &Desc<Cut>,
    point: &[Fixed],
) -> Result<Option<Try>, AllocError>
    requires suits { Describes problem.now desc.now }
    requires width { length point.now ≡ length problem.now.columns }
    requires near { All (λ x. IsWithin (2 ^ 70) x.raw) point.now }
    ensures exact { IfOk result (IsFirstCover problem.now point.now) }
    ensures accepted { IfOk result (λ answer. IfSome answer (IsAccepted problem.now)) }
{
    let (columns, rows) = (problem.columns(), problem.rows());
    let mut order = Vec::new(alloc);
    for row in 0..rows.len() {
        if let Some(columns) = greedy_cover(alloc, &mut order, columns, &rows[row], point)? {
            let row = row as u32;
            return Ok(Some(Try::Cover { row, columns }));
        }
    }
    Ok(None)
}
