//! The problem of a number: columns of 0 or 1, and rows whose coefficients are digits.
ghost use Rattle.std.specs.Prelude.{◌≡◌, ◌<◌, ◌≤◌, ◌+◌, ◌*◌, ◌^◌, ℕ, IfOk, map, pos, neg_ℤ, ◌/◌};
ghost use Rattle.std.specs.Prelude.{◌%◌};
ghost use Rattle.std.specs.List.{range_with_len};
ghost use Rattle.bl_problem.specs.Program.{IsProgram};
ghost use Rattle.bl_gen.specs.Made.{column, made, next, numbered, row_after, row_drawn, row_sum};
ghost use Rattle.bl_gen.specs.Made.{row_terms, state};

use crate::draws::Draws;
use bl_mods::Items;
use bl_problem::{Column, Name, Problem, Row, Sense, Term};
use std::alloc::{AllocError, Global};

// A letter and the four digits of a number.
fn numbered_name(alloc: Global, letter: u8, number: u32) -> Result<Name, AllocError>
    requires { number < 10000 }
    ensures { IfOk result (λ name. name ≡ numbered letter number) }
{
    let digits = [
        letter,
        b'0' + (number / 1000 % 10) as u8,
        b'0' + (number / 100 % 10) as u8,
        b'0' + (number / 10 % 10) as u8,
        b'0' + (number % 10) as u8,
    ];
    let bytes = Vec::from_slice(alloc, digits.as_slice())?;
    Ok(Name::new(bytes))
}

// The negative of a drawn number from 1 to 100.
fn draw_cost(draws: &mut Draws) -> i64
    requires small { draws.old.state < 2 ^ 31 }
    ensures cost { result ≡ neg_ℤ (pos (1 + next draws.old.state / 65536 % 100)) }
    ensures state { draws.new.state ≡ next draws.old.state }
    ensures small { draws.new.state < 2 ^ 31 }
{
    let number = i64::from(draws.draw(100));
    -1 - number
}

// A column that is 0 or 1.
fn binary_column(name: Name, cost: i64) -> Column
    ensures { result ≡ record { name = name; low = pos 0; high = pos 1; cost = cost } }
{
    Column {
        name,
        low: 0,
        high: 1,
        cost,
    }
}

// A term whose coefficient is a digit.
fn digit_term(column: u32, coefficient: u32) -> Term
    ensures { result ≡ record { column = column; coefficient = pos coefficient } }
{
    Term {
        column,
        coefficient: i64::from(coefficient),
    }
}

// The columns, each of which draws its cost in turn.
fn make_columns(alloc: Global, draws: &mut Draws, columns: u32) -> Result<Vec<Column>, AllocError>
    requires few { columns ≤ 1000 }
    requires small { draws.old.state < 2 ^ 31 }
    ensures columns { IfOk result
        (λ list. list.items ≡ map (column draws.old.state) (range_with_len 0 columns)) }
    ensures state { IfOk result (λ _. draws.new.state ≡ state draws.old.state columns) }
    ensures small { draws.new.state < 2 ^ 31 }
{
    let mut list = Vec::new(alloc);
    for j in 0..columns {
        let name = numbered_name(alloc, b'C', j + 1)?;
        list.push(binary_column(name, draw_cost(draws)))?;
    }
    Ok(list)
}

// A row, which draws a coefficient for each column in turn; a zero makes no term. At most half
// of their sum is allowed.
fn make_row(alloc: Global, draws: &mut Draws, columns: u32, row: u32) -> Result<Row, AllocError>
    requires few { columns ≤ 1000 }
    requires number { row < 1000 }
    requires small { draws.old.state < 2 ^ 31 }
    ensures row { IfOk result (λ r. r ≡ row_drawn draws.old.state columns row) }
    ensures state { IfOk result (λ _. draws.new.state ≡ state draws.old.state columns) }
    ensures small { draws.new.state < 2 ^ 31 }
{
    let mut terms = Vec::new(alloc);
    let mut sum = 0;
    for column in 0..columns {
        let coefficient = draws.draw(10);
        sum += coefficient;
        if coefficient != 0 {
            terms.push(digit_term(column, coefficient))?;
        }
    }
    let name = numbered_name(alloc, b'R', row + 1)?;
    Ok(Row {
        name,
        terms: Items::from_vec(terms),
        low: None,
        high: Some(i128::from(sum / 2)),
    })
}

// The rows, one after another.
fn make_rows(
    alloc: Global,
    draws: &mut Draws,
    columns: u32,
    rows: u32,
) -> Result<Vec<Row>, AllocError>
    requires few { columns ≤ 1000 }
    requires few_rows { rows ≤ 1000 }
    requires small { draws.old.state < 2 ^ 31 }
    ensures { IfOk result (λ list. list.items ≡ map (row_after draws.old.state columns)
        (range_with_len 0 rows)) }
{
    let mut list = Vec::new(alloc);
    for i in 0..rows {
        list.push(make_row(alloc, draws, columns, i)?)?;
    }
    Ok(list)
}

/// The problem of the number `start`, below 2^31, with 1 to 1,000 columns and at most 1,000 rows:
/// maximise drawn values from 1 to 100 of columns that are 0 or 1 (as a minimum of negated ones),
/// where each row allows half of the sum of its drawn coefficients from 0 to 9.
/// `AllocError` where there is no memory.
pub fn make(alloc: Global, start: u32, columns: u32, rows: u32) -> Result<Problem, AllocError>
    requires start { start < 2 ^ 31 }
    requires some { 1 ≤ columns }
    requires few { columns ≤ 1000 }
    requires few_rows { rows ≤ 1000 }
    ensures { IfOk result (λ problem. problem ≡ made start columns rows) }
{
    let mut draws = Draws { state: start };
    let column_list = make_columns(alloc, &mut draws, columns)?;
    let row_list = make_rows(alloc, &mut draws, columns, rows)?;
    let objective = Name::new(Vec::from_slice(alloc, b"COST".as_slice())?);
    Ok(Problem::new(column_list, row_list, objective, 0, 0, Sense::Min))
}
