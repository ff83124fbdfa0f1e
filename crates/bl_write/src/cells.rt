//! COLUMNS: each column's cost and coefficients, in order of rows.
ghost use Rattle.std.specs.Prelude.{◌≡◌, ◌≢◌, ◌++◌, ◌∷◌, [], ◌≤◌, ◌<◌, ◌+◌, ◌^◌, map, codes};
ghost use Rattle.std.specs.Prelude.{OnOk, IfOk, length, get_or, pos};
ghost use Rattle.bl_problem.specs.declared.problem.Column.{Column};
ghost use Rattle.bl_problem.specs.declared.problem.Row.{Row};
ghost use Rattle.bl_problem.specs.Rows.{coefficient_of};
ghost use Rattle.bl_write.specs.Cursors.{AreAt, IsAt};
ghost use Rattle.bl_write.specs.Layout.{ended};
ghost use Rattle.bl_write.specs.Written.{cells_lines, coefficient_in, columns_lines, cost_of};
ghost use Rattle.bl_write.specs.Written.{heading, marker_line, nonzero, number_line};

use crate::line::{Field, push_heading, push_line, push_number};
use bl_problem::{Problem, Term};
use std::alloc::{AllocError, Global};

/// COLUMNS: all columns, between two markers.
pub fn push_columns(alloc: Global, text: &mut Vec<u8>, problem: &Problem) -> Result<(), AllocError>
    ensures { OnOk result (text.new.items ≡ text.old.items ++ ended (heading (codes "COLUMNS") ∷ columns_lines problem.now)) }
{
    push_heading(text, b"COLUMNS")?;
    push_marker(text, b"'INTORG'")?;
    push_cells(alloc, text, problem)?;
    push_marker(text, b"'INTEND'")
}

fn push_marker(text: &mut Vec<u8>, word: &[u8]) -> Result<(), AllocError>
    ensures { OnOk result (text.new.items ≡ text.old.items ++ ended (marker_line word.now ∷ [])) }
{
    let first = Field {
        column: 5,
        word: b"MARKER",
    };
    let second = Field {
        column: 15,
        word: b"'MARKER'",
    };
    push_line(text, first, &[second, Field { column: 40, word }])
}

// The columns, one after another. The terms of each row stand in order of columns, so a cursor
// in each row is enough.
fn push_cells(alloc: Global, text: &mut Vec<u8>, problem: &Problem) -> Result<(), AllocError>
    ensures { OnOk result (text.new.items ≡ text.old.items
        ++ ended (cells_lines problem.now 0 problem.now.columns)) }
{
    let mut cursors = vec![in alloc; 0_usize; problem.rows().len()]?;
    for j in 0..problem.columns().len() {
        push_cost(alloc, text, problem, j)?;
        push_coefficients(alloc, text, problem, j, &mut cursors)?;
    }
    Ok(())
}

// The cost of column j, in the file's sense.
fn push_cost(
    alloc: Global,
    text: &mut Vec<u8>,
    problem: &Problem,
    j: usize,
) -> Result<(), AllocError>
    requires { j < length problem.now.columns }
    ensures { OnOk result ((c : Column) → text.new.items ≡ text.old.items
        ++ ended (number_line (get_or problem.now.columns j c).name
        (cost_of problem.now (get_or problem.now.columns j c)) ∷ [])) }
{
    let column = &problem.columns()[j];
    let cost = problem.shown(i128::from(column.cost));
    let name = problem.objective().bytes();
    push_number(
        alloc,
        text,
        column.name.bytes(),
        name,
        cost,
        problem.scale(),
    )
}

// The coefficients of column j that are not zero, in order of rows.
fn push_coefficients(
    alloc: Global,
    text: &mut Vec<u8>,
    problem: &Problem,
    j: usize,
    cursors: &mut Vec<usize>,
) -> Result<(), AllocError>
    requires column { j < length problem.now.columns }
    requires at { AreAt problem.now cursors.old.items j }
    ensures lines { OnOk result ((c : Column) → text.new.items ≡ text.old.items
        ++ ended (map (number_line (get_or problem.now.columns j c).name)
        (nonzero (map (coefficient_in j) problem.now.rows)))) }
    ensures at { OnOk result (AreAt problem.now cursors.new.items (j + 1)) }
{
    for i in 0..problem.rows().len() {
        cursors[i] = push_coefficient(alloc, text, problem, j, i, cursors[i])?;
    }
    Ok(())
}

// The coefficient of column j in row i where it is not zero, and the cursor for the next column.
fn push_coefficient(
    alloc: Global,
    text: &mut Vec<u8>,
    problem: &Problem,
    j: usize,
    i: usize,
    cursor: usize,
) -> Result<usize, AllocError>
    requires column { j < length problem.now.columns }
    requires row { i < length problem.now.rows }
    requires at { (r : Row) → IsAt (get_or problem.now.rows i r).terms cursor j }
    ensures lines { OnOk result ((c : Column) (r : Row) → text.new.items ≡ text.old.items
        ++ ended (map (number_line (get_or problem.now.columns j c).name)
        (nonzero (coefficient_in j (get_or problem.now.rows i r) ∷ [])))) }
    ensures at { IfOk result (λ next. (r : Row) → IsAt (get_or problem.now.rows i r).terms next
        (j + 1)) }
{
    let row = &problem.rows()[i];
    let column = &problem.columns()[j];
    let coefficient = coefficient_at(row.terms.as_slice(), cursor, j);
    if coefficient == 0 {
        return Ok(cursor);
    }
    let name = row.name.bytes();
    push_number(
        alloc,
        text,
        column.name.bytes(),
        name,
        i128::from(coefficient),
        0,
    )?;
    Ok(cursor + 1)
}

// The coefficient of column j, whose term stands at the cursor if there is one.
fn coefficient_at(terms: &[Term], cursor: usize, j: usize) -> i64
    requires { IsAt terms.now cursor j }
    ensures { result ≡ coefficient_of terms.now j }
{
    match terms.get(cursor) {
        Some(term) if term.column as usize == j => term.coefficient,
        _ => 0,
    }
}
