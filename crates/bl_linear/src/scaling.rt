//! Powers of two by which rows, columns and costs are scaled, so that no number of the method is
//! very large or small.
//!
//! A coefficient of a row and a column is divided by two to the power of both exponents, a cost by
//! two to the power of its column's and the costs' exponents; a column's entry is multiplied by two
//! to the power of its exponent.
use crate::lines::{Coefficient, Lines};
use crate::numbers::exponent_of;
use bl_problem::Column;
use std::alloc::{AllocError, Global};

/// Coefficients whose sizes differ by more bits than this are evened out by columns too.
const WIDE_BITS: i32 = 12;

/// How often rows and columns are evened out in turn.
const ROUNDS: u32 = 2;

/// The greatest cost is scaled to this power of two.
const COST_EXPONENT: i32 = 4;

/// Costs of at most this power of two stay as they are, unless columns are scaled.
const SMALL_COST_EXPONENT: i32 = 16;

// The least and the greatest exponent of some numbers.
#[derive(Clone, Copy)]
struct Spread {
    least: i32,
    greatest: i32,
}

impl Spread {
    // Of no number.
    const NONE: Spread = Spread {
        least: i32::MAX,
        greatest: i32::MIN,
    };

    fn add(&mut self, exponent: i32) {
        self.least = self.least.min(exponent);
        self.greatest = self.greatest.max(exponent);
    }

    // Half way between the two, 0 where there is no number.
    fn middle(&self) -> i32 {
        self.least.saturating_add(self.greatest) / 2
    }

    // Where there is no number, a negative one.
    fn width(&self) -> i32 {
        self.greatest.saturating_sub(self.least)
    }
}

/// Whether the sizes of the coefficients differ so much that columns are scaled too.
pub fn are_wide(coefficients: &[Coefficient]) -> bool {
    WIDE_BITS < spread_of(coefficients, &[]).width()
}

/// The exponent of each column, one that evens out the rows and the columns in turn.
pub fn column_exponents(
    alloc: Global,
    lines: &Lines,
    width: usize,
) -> Result<Vec<i32>, AllocError> {
    let mut columns = Vec::from_elem(alloc, 0i32, width)?;
    let mut spreads = Vec::from_elem(alloc, Spread::NONE, width)?;
    for _ in 0..ROUNDS {
        even_out(lines, columns.as_mut_slice(), spreads.as_mut_slice());
    }
    Ok(columns)
}

// Puts the middle of each row's exponents at 0, and then that of each column's. `spreads` is for
// its work.
fn even_out(lines: &Lines, columns: &mut [i32], spreads: &mut [Spread]) {
    spreads.fill(Spread::NONE);
    for row in 0..lines.len() {
        let line = lines.line(row);
        let middle = spread_of(line, columns).middle();
        add_exponents(spreads, line, middle);
    }
    for (column, spread) in columns.iter_mut().zip(spreads.iter()) {
        *column = spread.middle();
    }
}

/// The exponent of each row: that of its greatest coefficient, as the columns are scaled.
pub fn row_exponents(
    alloc: Global,
    lines: &Lines,
    columns: &[i32],
) -> Result<Vec<i32>, AllocError> {
    let mut rows = Vec::with_capacity(alloc, lines.len())?;
    for row in 0..lines.len() {
        let spread = spread_of(lines.line(row), columns);
        rows.push(if spread.width() < 0 {
            0
        } else {
            spread.greatest
        })?;
    }
    Ok(rows)
}

/// The exponent of the costs, which moves the greatest cost near to 1; 0 where costs are small and
/// no column is scaled.
pub fn cost_exponent(columns: &[Column], exponents: &[i32], is_wide: bool) -> i32 {
    let mut spread = Spread::NONE;
    for (number, column) in columns.iter().enumerate() {
        if column.cost != 0 {
            let exponent = exponent_of(i128::from(column.cost));
            spread.add(exponent.saturating_sub(exponent_at(exponents, number)));
        }
    }
    let is_small = spread.greatest <= SMALL_COST_EXPONENT && !is_wide;
    if spread.width() < 0 || is_small {
        0
    } else {
        spread.greatest.saturating_sub(COST_EXPONENT)
    }
}

/// The exponent at a place; 0 past the end.
pub fn exponent_at(exponents: &[i32], place: usize) -> i32 {
    exponents.get(place).copied().unwrap_or(0)
}

// The exponents of coefficients, as the columns are scaled.
fn spread_of(line: &[Coefficient], columns: &[i32]) -> Spread {
    let mut spread = Spread::NONE;
    for coefficient in line {
        let column = exponent_at(columns, coefficient.place as usize);
        spread.add(exponent_of(i128::from(coefficient.raw)).saturating_sub(column));
    }
    spread
}

// Adds the exponents of a row's coefficients to those of their columns.
fn add_exponents(spreads: &mut [Spread], line: &[Coefficient], row: i32) {
    for coefficient in line {
        if let Some(spread) = spreads.get_mut(coefficient.place as usize) {
            spread.add(exponent_of(i128::from(coefficient.raw)).saturating_sub(row));
        }
    }
}
