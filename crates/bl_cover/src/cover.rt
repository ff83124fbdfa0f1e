//! The cut of a cover.
ghost use Rattle.std.specs.Prelude.{◌≡◌, ◌<◌, ◌≤◌, ◌^◌, length, map, All, IfOk};
ghost use Rattle.bl_problem.specs.Sums.{IsWithin};
ghost use Rattle.bl_problem.specs.Program.{IsColumn, IsRow};
ghost use Rattle.bl_problem.specs.Cuts.{SuitsProblem, IsValidCut};
ghost use Rattle.bl_cover.specs.Covers.{cover_term, cover_of, IsSlackOf, IsOrMemory};

use crate::fault::CoverFault;
use crate::knapsack::{least_sum, listed_sum};
use bl_mods::{ItemId, Items};
use bl_problem::{Column, Cut, Problem, Row, Term};
use std::alloc::{AllocError, Global};

// Coefficient 1 on each listed column.
fn cover_terms(alloc: Global, listed: &[u32]) -> Result<Items<Term>, AllocError>
    ensures { IfOk result (λ terms. terms ≡ map cover_term listed.now) }
{
    let mut terms = Items::new(alloc);
    for column in listed {
        terms.push(Term {
            column: *column,
            coefficient: 1,
        })?;
    }
    Ok(terms)
}

// What the row has left below its high end with all listed columns at 1.
fn slack(columns: &[Column], row: &Row, listed: &[u32]) -> Result<i128, CoverFault>
    requires few { length columns.now ≤ 1000 }
    requires columns { All IsColumn columns.now }
    requires row { IsRow (length columns.now) row.now }
    ensures exact { IsSlackOf columns.now row.now listed.now result }
    ensures near { IfOk result (IsWithin (10 ^ 28)) }
    ensures few_listed { IfOk result (λ slack. length listed.now ≤ 1000) }
{
    let Some(high) = row.high else {
        return Err(CoverFault::NoEnd);
    };
    let terms = row.terms.as_slice();
    match listed_sum(columns, terms, listed) {
        Ok(listed) => Ok(high - least_sum(columns, terms) - listed),
        Err(place) => Err(CoverFault::Column { place }),
    }
}

/// The cover cut of a row over the listed columns (Balas 1975, Hammer, Johnson and Peled 1975,
/// Wolsey 1975): each has bounds 0 and 1 and a positive coefficient, and with all of them 1 the
/// row's least sum, by the problem's own bounds, would be above its high end. So at most all but
/// one are 1: coefficient 1 on each, and a right side one less than their number. Every feasible
/// point meets it.
///
/// The faults are looked at in this order. `NoEnd` comes exactly where the row has no high end;
/// `Column` exactly at the first place whose column isn't above the one before it, or isn't a
/// positive term of the row on a column of bounds 0 and 1; `Fits` exactly where the high end less
/// the row's least sum less the listed coefficients is 0 or more, and that is its slack; `Memory`
/// only for want of memory.
pub fn cover_cut(
    alloc: Global,
    problem: &Problem,
    row: u32,
    columns: &[u32],
    id: ItemId,
) -> Result<Cut, CoverFault>
    requires { row < length problem.now.rows }
    ensures exact { IsOrMemory result (cover_of problem.now row columns.now id) }
    ensures named { IfOk result (λ cut. cut.id ≡ id) }
    ensures suits { IfOk result (SuitsProblem problem.now) }
    ensures holds { IfOk result (IsValidCut problem.now) }
{
    let rows = problem.rows();
    let slack = slack(problem.columns(), &rows[row as usize], columns)?;
    if 0 <= slack {
        return Err(CoverFault::Fits { slack });
    }
    let right = columns.len() as i128 - 1;
    let terms = cover_terms(alloc, columns)?;
    Ok(Cut { id, terms, right })
}
