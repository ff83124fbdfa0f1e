// The row of a place: the multipliers of the rows that make it, and its entries at the items that
// are not basic.
use crate::basis::{Basis, is_basic};
use bl_desc::Status;
use bl_fixed::{Fixed, saturating_mul, saturating_sub};
use bl_linear::numbers::{ONE, ZERO, at, drop_noise, multiple, put};
use bl_linear::{Coefficient, Form};
use std::alloc::{AllocError, Global};

#[derive(Drop)]
pub struct PivotRow {
    pub multipliers: Vec<Fixed>,
    pub entries: Vec<Fixed>,
    // The items whose entries are not 0 come first.
    items: Vec<u32>,
    count: usize,
}

impl PivotRow {
    pub fn new(alloc: Global, form: &Form<'_>) -> Result<PivotRow, AllocError> {
        Ok(PivotRow {
            multipliers: Vec::from_elem(alloc, ZERO, form.height())?,
            entries: Vec::from_elem(alloc, ZERO, form.items())?,
            items: Vec::from_elem(alloc, 0u32, form.items())?,
            count: 0,
        })
    }

    // The items whose entries are not 0.
    pub fn filled(&self) -> &[u32] {
        self.items.as_slice().get(..self.count).unwrap_or(&[])
    }

    pub fn entry(&self, item: usize) -> Fixed {
        at(self.entries.as_slice(), item)
    }

    // Takes a multiple of the row off the reduced costs.
    pub fn subtract(&self, reduced: &mut [Fixed], ratio: Fixed) {
        for item in self.filled() {
            let number = *item as usize;
            if let Some(cost) = reduced.get_mut(number) {
                *cost = saturating_sub(*cost, saturating_mul(ratio, self.entry(number)));
            }
        }
    }

    // Makes the row of a place.
    pub fn make(
        &mut self,
        form: &Form<'_>,
        basis: &Basis,
        status: &[Status],
        place: usize,
    ) -> Result<(), AllocError> {
        self.multipliers.as_mut_slice().fill(ZERO);
        put(self.multipliers.as_mut_slice(), place, ONE);
        basis.solve_transposed(self.multipliers.as_mut_slice())?;
        drop_noise(self.multipliers.as_mut_slice());
        self.entries.as_mut_slice().fill(ZERO);
        self.combine(form, status);
        self.list();
        Ok(())
    }

    // The entries, by the multipliers.
    fn combine(&mut self, form: &Form<'_>, status: &[Status]) {
        let entries = self.entries.as_mut_slice();
        for (row, multiplier) in self.multipliers.iter().enumerate() {
            if multiplier.raw != 0 {
                let activity = form.activity(row);
                if !is_basic(status, activity) {
                    put(entries, activity, *multiplier);
                }
                subtract_line(entries, form.row(row), *multiplier, status);
            }
        }
    }

    // Lists the items whose entries are not 0.
    fn list(&mut self) {
        let mut count = 0usize;
        for (item, entry) in self.entries.iter().enumerate() {
            if entry.raw != 0 {
                if let Some(slot) = self.items.get_mut(count) {
                    *slot = u32::try_from(item).unwrap_or(u32::MAX);
                    count = count.wrapping_add(1);
                }
            }
        }
        self.count = count;
    }
}

// Takes the multiples of a row's coefficients off the entries of the columns that are not basic.
fn subtract_line(
    entries: &mut [Fixed],
    line: &[Coefficient],
    multiplier: Fixed,
    status: &[Status],
) {
    match i64::try_from(multiplier.raw) {
        Ok(narrow) => subtract_narrow(entries, line, narrow, status),
        Err(_) => subtract_wide(entries, line, multiplier, status),
    }
}

// The same by a multiplier of 64 bits. A call of its own: inlined, LLVM takes the multiplier for a
// wide one again.
#[inline(never)]
fn subtract_narrow(
    entries: &mut [Fixed],
    line: &[Coefficient],
    multiplier: i64,
    status: &[Status],
) {
    for coefficient in line {
        let column = coefficient.place as usize;
        if !is_basic(status, column) {
            if let Some(entry) = entries.get_mut(column) {
                let product = i128::from(coefficient.raw) * i128::from(multiplier);
                entry.raw = entry.raw.saturating_sub(product >> 40);
            }
        }
    }
}

#[inline(never)]
fn subtract_wide(
    entries: &mut [Fixed],
    line: &[Coefficient],
    multiplier: Fixed,
    status: &[Status],
) {
    for coefficient in line {
        let column = coefficient.place as usize;
        if !is_basic(status, column) {
            if let Some(entry) = entries.get_mut(column) {
                *entry = saturating_sub(*entry, multiple(coefficient.raw, multiplier));
            }
        }
    }
}
