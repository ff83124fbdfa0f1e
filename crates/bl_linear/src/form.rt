//! The linear program of a node in the form of the method. Its items are the columns and then the
//! activities of the rows and the cuts, each between two ends; an activity less its row's sum is 0.
use crate::lines::Coefficient;
use crate::numbers::{ONE, ZERO, at, greater, lesser, multiple, negated, put, scaled_number};
use crate::prepared::Prepared;
use crate::rows::{Ends, Rows, lines_of};
use crate::scaling::exponent_at;
use bl_desc::Desc;
use bl_fixed::{Fixed, saturating_add, saturating_sub};
use bl_problem::Cut;
use std::alloc::{AllocError, Global};

/// A node's linear program: what is prepared for its problem, its cuts, and the ends of its items.
#[derive(Drop)]
pub struct Form<'a> {
    prepared: &'a Prepared,
    cuts: Rows,
    /// How many columns there are.
    pub width: usize,
    // Whether the costs are those in place of costs that are all 0.
    has_substitutes: bool,
    // The ends of each item. A row's missing end is replaced by one that the columns' bounds imply.
    lows: Vec<Fixed>,
    highs: Vec<Fixed>,
}

impl<'a> Form<'a> {
    pub fn new(
        alloc: Global,
        prepared: &'a Prepared,
        desc: &Desc<Cut>,
    ) -> Result<Form<'a>, AllocError> {
        let cuts = desc.cuts.as_slice();
        let exponents = prepared.exponents.as_slice();
        let (width, first) = (exponents.len(), prepared.rows.len());
        let lines = lines_of(alloc, &[], cuts)?;
        let cuts = Rows::new(alloc, lines, &[], cuts, exponents, first)?;
        let items = width.saturating_add(first).saturating_add(cuts.len());
        let mut form = Form {
            prepared,
            cuts,
            width,
            has_substitutes: prepared.are_substitutes,
            lows: Vec::from_elem(alloc, ZERO, items)?,
            highs: Vec::from_elem(alloc, ZERO, items)?,
        };
        form.set_columns(desc.lows.as_slice(), desc.highs.as_slice());
        for row in 0..form.height() {
            form.set_row(row);
        }
        Ok(form)
    }

    /// How many rows and cuts there are.
    pub fn height(&self) -> usize {
        self.prepared.rows.len().saturating_add(self.cuts.len())
    }

    /// How many items there are.
    pub fn items(&self) -> usize {
        self.lows.len()
    }

    /// The item of a row's activity.
    pub fn activity(&self, row: usize) -> usize {
        self.width.saturating_add(row)
    }

    pub fn low(&self, item: usize) -> Fixed {
        at(self.lows.as_slice(), item)
    }

    pub fn high(&self, item: usize) -> Fixed {
        at(self.highs.as_slice(), item)
    }

    /// The cost of an item: activities have none.
    pub fn cost(&self, item: usize) -> Fixed {
        if self.has_substitutes == self.prepared.are_substitutes {
            at(self.prepared.costs.as_slice(), item)
        } else {
            ZERO
        }
    }

    /// Whether the costs are those in place of costs that are all 0.
    pub fn has_substitutes(&self) -> bool {
        self.has_substitutes
    }

    /// From now on the costs are the problem's own.
    pub fn take_own_costs(&mut self) {
        self.has_substitutes = false;
    }

    /// The coefficients of a row or cut.
    pub fn row(&self, row: usize) -> &[Coefficient] {
        match row.checked_sub(self.prepared.rows.len()) {
            Some(cut) => self.cuts.row(cut),
            None => self.prepared.rows.row(row),
        }
    }

    /// The coefficients of a column in the rows, and those in the cuts.
    pub fn column_in_rows(&self, column: usize) -> &[Coefficient] {
        self.prepared.rows.column(column)
    }

    pub fn column_in_cuts(&self, column: usize) -> &[Coefficient] {
        self.cuts.column(column)
    }

    pub fn row_exponent(&self, row: usize) -> i32 {
        match row.checked_sub(self.prepared.rows.len()) {
            Some(cut) => self.cuts.exponent(cut),
            None => self.prepared.rows.exponent(row),
        }
    }

    pub fn column_exponent(&self, column: usize) -> i32 {
        exponent_at(self.prepared.exponents.as_slice(), column)
    }

    pub fn cost_exponent(&self) -> i32 {
        self.prepared.cost_exponent
    }

    /// Whether an item's low end is its own: so it is for a column.
    pub fn has_low(&self, item: usize) -> bool {
        match item.checked_sub(self.width) {
            Some(row) => self.row_ends(row).low.is_some(),
            None => true,
        }
    }

    pub fn has_high(&self, item: usize) -> bool {
        match item.checked_sub(self.width) {
            Some(row) => self.row_ends(row).high.is_some(),
            None => true,
        }
    }

    fn row_ends(&self, row: usize) -> Ends {
        match row.checked_sub(self.prepared.rows.len()) {
            Some(cut) => self.cuts.ends(cut),
            None => self.prepared.rows.ends(row),
        }
    }

    /// Leaves in `column` the whole column of an item: an activity's is a unit column, a column's
    /// has its coefficients, negated.
    pub fn spread_column(&self, item: usize, column: &mut [Fixed]) {
        column.fill(ZERO);
        match item.checked_sub(self.width) {
            Some(row) => put(column, row, ONE),
            None => {
                put_negated(column, self.column_in_rows(item));
                put_negated(column, self.column_in_cuts(item));
            }
        }
    }

    /// Adds to `right` what a step of an item that is not basic adds to the rows' right sides.
    pub fn add_step(&self, item: usize, step: Fixed, right: &mut [Fixed]) {
        match item.checked_sub(self.width) {
            Some(row) => put(right, row, saturating_sub(at(right, row), step)),
            None => {
                add_multiple(right, self.column_in_rows(item), step);
                add_multiple(right, self.column_in_cuts(item), step);
            }
        }
    }

    fn set_columns(&mut self, lows: &[i64], highs: &[i64]) {
        for column in 0..self.width {
            let power = self.column_exponent(column).saturating_add(40);
            let low = end_at(lows, column, power);
            let high = end_at(highs, column, power);
            put(self.lows.as_mut_slice(), column, low);
            put(self.highs.as_mut_slice(), column, high);
        }
    }

    // Sets the ends of a row's activity.
    fn set_row(&mut self, row: usize) {
        let ends = self.row_ends(row);
        let (low, high) = match (ends.low, ends.high) {
            (Some(low), Some(high)) => (low, high),
            (Some(low), None) => (low, greater(low, self.greatest_activity(row))),
            (None, Some(high)) => (lesser(self.least_activity(row), high), high),
            (None, None) => (self.least_activity(row), self.greatest_activity(row)),
        };
        let item = self.activity(row);
        put(self.lows.as_mut_slice(), item, low);
        put(self.highs.as_mut_slice(), item, high);
    }

    // One less than the least sum of a row over the columns' bounds.
    fn least_activity(&self, row: usize) -> Fixed {
        let mut sum = negated(ONE);
        for coefficient in self.row(row) {
            let column = coefficient.place as usize;
            let end = if 0 <= coefficient.raw {
                self.low(column)
            } else {
                self.high(column)
            };
            sum = saturating_add(sum, multiple(coefficient.raw, end));
        }
        sum
    }

    // One more than the greatest sum.
    fn greatest_activity(&self, row: usize) -> Fixed {
        let mut sum = ONE;
        for coefficient in self.row(row) {
            let column = coefficient.place as usize;
            let end = if 0 <= coefficient.raw {
                self.high(column)
            } else {
                self.low(column)
            };
            sum = saturating_add(sum, multiple(coefficient.raw, end));
        }
        sum
    }
}

fn put_negated(column: &mut [Fixed], coefficients: &[Coefficient]) {
    for coefficient in coefficients {
        put(column, coefficient.place as usize, coefficient.negated());
    }
}

// Adds a multiple of coefficients to the numbers at their places.
pub fn add_multiple(numbers: &mut [Fixed], coefficients: &[Coefficient], multiplier: Fixed) {
    for coefficient in coefficients {
        if let Some(number) = numbers.get_mut(coefficient.place as usize) {
            *number = saturating_add(*number, multiple(coefficient.raw, multiplier));
        }
    }
}

fn end_at(ends: &[i64], column: usize, power: i32) -> Fixed {
    let end = ends.get(column).copied().unwrap_or(0);
    scaled_number(i128::from(end), power)
}
