//! Scaled rows: those of a problem, or the cuts of a node.
use crate::lines::{Coefficient, Lines};
use crate::numbers::scaled_number;
use crate::scaling::{exponent_at, row_exponents};
use bl_bound::{LineRef, line};
use bl_fixed::Fixed;
use bl_mods::Shared;
use bl_problem::{Cut, Row};
use std::alloc::{AllocError, Global};

/// The ends that a row has, scaled.
#[derive(Clone, Copy)]
pub struct Ends {
    pub low: Option<Fixed>,
    pub high: Option<Fixed>,
}

impl Ends {
    const NONE: Ends = Ends {
        low: None,
        high: None,
    };
}

/// Rows with their coefficients row by row and column by column.
#[derive(Drop)]
pub struct Rows {
    lines: Lines,
    columns: Lines,
    exponents: Vec<i32>,
    ends: Vec<Ends>,
}

impl Rows {
    // The rows and the cuts, whose coefficients are these, unscaled. `first` is the number of the
    // first one.
    pub fn new(
        alloc: Global,
        mut lines: Lines,
        rows: &[Row],
        cuts: &[Shared<Cut>],
        columns: &[i32],
        first: usize,
    ) -> Result<Rows, AllocError> {
        let exponents = row_exponents(alloc, &lines, columns)?;
        scale_lines(&mut lines, exponents.as_slice(), columns);
        Ok(Rows {
            columns: lines.transposed(alloc, columns.len(), first)?,
            ends: ends_of(alloc, rows, cuts, exponents.as_slice())?,
            lines,
            exponents,
        })
    }

    pub fn len(&self) -> usize {
        self.lines.len()
    }

    // The coefficients of a row.
    pub fn row(&self, row: usize) -> &[Coefficient] {
        self.lines.line(row)
    }

    // The coefficients of a column; their places are numbers of rows.
    pub fn column(&self, column: usize) -> &[Coefficient] {
        self.columns.line(column)
    }

    pub fn exponent(&self, row: usize) -> i32 {
        exponent_at(self.exponents.as_slice(), row)
    }

    pub fn ends(&self, row: usize) -> Ends {
        self.ends.get(row).copied().unwrap_or(Ends::NONE)
    }
}

/// The coefficients of the rows and then of the cuts, unscaled.
pub fn lines_of(alloc: Global, rows: &[Row], cuts: &[Shared<Cut>]) -> Result<Lines, AllocError> {
    let height = rows.len().saturating_add(cuts.len());
    let mut lines = Lines::with_room(alloc, height, count_of(rows, cuts))?;
    for place in 0..height {
        push_line(&mut lines, line(rows, cuts, place))?;
    }
    Ok(lines)
}

fn push_line(lines: &mut Lines, line: LineRef<'_>) -> Result<(), AllocError> {
    for term in line.terms {
        lines.push(Coefficient {
            raw: term.coefficient,
            place: term.column,
        })?;
    }
    lines.end_line()
}

// How many terms the rows and the cuts have.
fn count_of(rows: &[Row], cuts: &[Shared<Cut>]) -> usize {
    let mut count = 0usize;
    for place in 0..rows.len().saturating_add(cuts.len()) {
        count = count.saturating_add(line(rows, cuts, place).terms.len());
    }
    count
}

fn scale_lines(lines: &mut Lines, rows: &[i32], columns: &[i32]) {
    for (row, exponent) in rows.iter().enumerate() {
        let power = 40i32.saturating_sub(*exponent);
        for coefficient in lines.line_mut(row) {
            let column = exponent_at(columns, coefficient.place as usize);
            coefficient.raw = scaled_coefficient(coefficient.raw, power.saturating_sub(column));
        }
    }
}

// A coefficient times a power of two, rounded down.
fn scaled_coefficient(coefficient: i64, power: i32) -> i64 {
    let by = power.unsigned_abs().min(62);
    if power < 0 {
        coefficient >> by
    } else {
        coefficient.saturating_mul(1i64 << by)
    }
}

fn ends_of(
    alloc: Global,
    rows: &[Row],
    cuts: &[Shared<Cut>],
    exponents: &[i32],
) -> Result<Vec<Ends>, AllocError> {
    let height = rows.len().saturating_add(cuts.len());
    let mut ends = Vec::with_capacity(alloc, height)?;
    for place in 0..height {
        let line = line(rows, cuts, place);
        let power = 40i32.saturating_sub(exponent_at(exponents, place));
        ends.push(Ends {
            low: scaled_end(line.low, power),
            high: scaled_end(line.high, power),
        })?;
    }
    Ok(ends)
}

fn scaled_end(end: Option<i128>, power: i32) -> Option<Fixed> {
    end.map(|end| scaled_number(end, power))
}
