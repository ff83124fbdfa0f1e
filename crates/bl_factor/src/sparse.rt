// Columns without their zeros.
ghost use Rattle.std.specs.Prelude.{◌≡◌, ◌<◌, ◌≤◌, ◌^◌, length, IfOk, IsTrue, [], ◌∷◌};
ghost use Rattle.bl_factor.specs.Sparse.{IsSparse, dense, AreEntries};

use bl_fixed::Fixed;
use std::alloc::{AllocError, Global};

/// A number of a column that is not 0.
#[derive(Clone, Copy)]
pub struct Entry {
    // First, so that copies need no padding between.
    pub value: Fixed,
    pub place: u32,
}

// The entries of `column`.
pub(crate) fn entries_of(alloc: Global, column: &[Fixed]) -> Result<Vec<Entry>, AllocError>
    requires { length column.now < 2 ^ 32 }
    ensures { IfOk result (λ entries. AreEntries column.now entries.items) }
{
    let mut entries = Vec::with_capacity(alloc, filled_count(column))?;
    for (place, value) in column.iter().enumerate() {
        if value.raw != 0 {
            entries.push(Entry {
                place: place as u32,
                value: *value,
            })?;
        }
    }
    Ok(entries)
}

// How many numbers of a column are not 0.
fn filled_count(column: &[Fixed]) -> usize {
    let mut count = 0usize;
    for value in column {
        count = count.saturating_add(usize::from(value.raw != 0));
    }
    count
}

// Leaves in `column` the whole column with these entries.
pub(crate) fn spread(entries: &[Entry], column: &mut [Fixed])
    requires { IsSparse 0 (length column.old) entries.now }
    ensures { column.new ≡ dense (length column.old) entries.now }
{
    column.fill(Fixed { raw: 0 });
    for entry in entries {
        column[entry.place as usize] = entry.value;
    }
}

/// A number of a smaller raw size is noise of the rounding: less than 2^-32.
const LEAST_NUMBER: u128 = 1 << 8;

// Makes the numbers that are noise 0.
pub(crate) fn drop_noise(column: &mut [Fixed]) {
    for number in column.iter_mut() {
        if number.raw.unsigned_abs() < LEAST_NUMBER {
            *number = Fixed { raw: 0 };
        }
    }
}
