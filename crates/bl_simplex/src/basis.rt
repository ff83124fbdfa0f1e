// A basis: for each place the item that is basic there, and the factor of these items' columns.
ghost use Rattle.std.specs.Prelude.{◌≡◌, ◌<◌, ◌≤◌, ◌^◌, length, IfOk, IfSome};
ghost use Rattle.bl_factor.specs.Sparse.{IsSparse, AreColumns};

use bl_desc::Status;
use bl_factor::{Entry, Factor};
use bl_fixed::{Fixed, saturating_sub};
use bl_linear::numbers::{ONE, drop_noise, size_of};
use bl_linear::{Coefficient, Form};
use std::alloc::{AllocError, Global};

/// A pivot of a smaller raw size is not taken.
pub const LEAST_PIVOT: u128 = 1 << 20;

/// By so many units, and by so many bits less than the pivot, a row's and a column's pivot may
/// differ.
const MOST_DIFFERENCE: i128 = 1 << 12;

const DIFFERENCE_BITS: u32 = 20;

/// More rows and cuts than there can be.
const MOST_ROWS: usize = 1 << 20;

#[derive(Drop)]
pub struct Basis {
    alloc: Global,
    factor: Factor,
    heads: Vec<u32>,
}

impl Basis {
    // The basis of all activities.
    pub fn of_activities(alloc: Global, form: &Form<'_>) -> Result<Basis, AllocError> {
        let heads = activities(alloc, form)?;
        let factor = Factor::identity(alloc, heads.len() as u32)?;
        Ok(Basis {
            alloc,
            factor,
            heads,
        })
    }

    // The basis of the items that are Basic, where these are as many as there are rows and cuts
    // and a factor of their columns can be made.
    pub fn of_statuses(
        alloc: Global,
        form: &Form<'_>,
        status: &[Status],
    ) -> Result<Option<Basis>, AllocError> {
        let Some(heads) = basic_items(alloc, form, status)? else {
            return Ok(None);
        };
        let columns = columns_of(alloc, form, heads.as_slice())?;
        match Factor::from_columns(alloc, columns)? {
            Some(factor) => Ok(Some(Basis {
                alloc,
                factor,
                heads,
            })),
            None => Ok(None),
        }
    }

    // Makes the factor anew from the columns of the items; whether it could.
    pub fn renew(&mut self, form: &Form<'_>) -> Result<bool, AllocError> {
        if MOST_ROWS < self.heads.len() {
            return Ok(false);
        }
        let columns = columns_of(self.alloc, form, self.heads.as_slice())?;
        let Some(factor) = Factor::from_columns(self.alloc, columns)? else {
            return Ok(false);
        };
        self.factor = factor;
        Ok(true)
    }

    // The item of each place.
    pub fn heads(&self) -> &[u32] {
        self.heads.as_slice()
    }

    // The item of a place; past the last place no item's number.
    pub fn head(&self, place: usize) -> u32 {
        self.heads.get(place).copied().unwrap_or(u32::MAX)
    }

    // Leaves in `right`, which has one entry per row, its image, which has one per place.
    pub fn solve(&self, right: &mut [Fixed]) -> Result<(), AllocError> {
        if right.len() == self.factor.size() {
            self.factor.solve(right)?;
        }
        Ok(())
    }

    // The same for the transposed matrix: `right` has one entry per place, and its image one per
    // row.
    pub fn solve_transposed(&self, right: &mut [Fixed]) -> Result<(), AllocError> {
        if right.len() == self.factor.size() {
            self.factor.solve_transposed(right)?;
        }
        Ok(())
    }

    // Leaves in `image` that of an item's column, and makes the item basic at that place, unless
    // the pivot there is too small, or is not the one that the row has. Whether it did.
    pub fn enter(
        &mut self,
        form: &Form<'_>,
        place: usize,
        item: usize,
        image: &mut [Fixed],
        pivot: Option<Fixed>,
    ) -> Result<bool, AllocError> {
        let size = self.factor.size();
        if size <= place || image.len() != size {
            return Ok(false);
        }
        let (Ok(number), Ok(head)) = (u32::try_from(place), u32::try_from(item)) else {
            return Ok(false);
        };
        form.spread_column(item, image);
        self.factor.solve(image)?;
        drop_noise(image);
        if image[place].raw.unsigned_abs() < LEAST_PIVOT || differs(image[place], pivot) {
            return Ok(false);
        }
        let entries = entries_of(self.alloc, form, item, size)?;
        self.factor.replace_solved(number, entries, image)?;
        if let Some(slot) = self.heads.get_mut(place) {
            *slot = head;
        }
        Ok(true)
    }
}

// Whether a pivot is not nearly the one that is given.
fn differs(pivot: Fixed, given: Option<Fixed>) -> bool {
    match given {
        Some(given) => {
            let difference = size_of(saturating_sub(pivot, given));
            MOST_DIFFERENCE.max(size_of(pivot).raw >> DIFFERENCE_BITS) < difference.raw
        }
        None => false,
    }
}

// The items of the activities, in order.
fn activities(alloc: Global, form: &Form<'_>) -> Result<Vec<u32>, AllocError>
    ensures { IfOk result (λ heads. length heads.items < 2 ^ 32) }
{
    let count = form.height().min(MOST_ROWS);
    let mut heads = Vec::with_capacity(alloc, count)?;
    for row in 0..count {
        heads.push(u32::try_from(form.activity(row)).unwrap_or(u32::MAX))?;
    }
    Ok(heads)
}

// The items that are Basic, activities at their own places, where these are as many as there are
// rows and cuts.
fn basic_items(
    alloc: Global,
    form: &Form<'_>,
    status: &[Status],
) -> Result<Option<Vec<u32>>, AllocError>
    ensures { IfOk result (λ o. IfSome o (λ heads. length heads.items < 2 ^ 32)) }
{
    let mut heads = activities(alloc, form)?;
    let mut column = 0;
    for row in 0..heads.len() {
        if !is_basic(status, form.activity(row)) {
            column = next_basic(status, column);
            match u32::try_from(column) {
                Ok(item) if column < form.width => heads[row] = item,
                _ => return Ok(None),
            }
            column = column.saturating_add(1);
        }
    }
    if next_basic(status, column) < form.width {
        return Ok(None);
    }
    Ok(Some(heads))
}

pub fn is_basic(status: &[Status], item: usize) -> bool {
    status.get(item) == Some(&Status::Basic)
}

// The first Basic item from that one on; past the last item where there is none.
fn next_basic(status: &[Status], from: usize) -> usize {
    for item in from..status.len() {
        if status[item] == Status::Basic {
            return item;
        }
    }
    status.len()
}

// The columns of these items; None for an activity's at its own place.
fn columns_of(
    alloc: Global,
    form: &Form<'_>,
    heads: &[u32],
) -> Result<Vec<Option<Vec<Entry>>>, AllocError>
    ensures length { IfOk result (λ columns. length columns.items ≡ length heads.now) }
    ensures sparse { IfOk result (λ columns. AreColumns (length heads.now) columns.items) }
{
    let mut columns = Vec::with_capacity(alloc, heads.len())?;
    for (place, head) in heads.iter().enumerate() {
        let item = *head as usize;
        if item == form.activity(place) {
            columns.push(None)?;
        } else {
            columns.push(Some(entries_of(alloc, form, item, heads.len())?))?;
        }
    }
    Ok(columns)
}

// The column of an item: an activity's is a unit column, a column's has its coefficients, negated.
fn entries_of(
    alloc: Global,
    form: &Form<'_>,
    item: usize,
    size: usize,
) -> Result<Vec<Entry>, AllocError>
    ensures { IfOk result (λ entries. IsSparse 0 size entries.items) }
{
    match item.checked_sub(form.width) {
        Some(row) => unit_column(alloc, row, size),
        None => sparse_column(alloc, form, item, size),
    }
}

fn unit_column(alloc: Global, row: usize, size: usize) -> Result<Vec<Entry>, AllocError>
    ensures { IfOk result (λ column. IsSparse 0 size column.items) }
{
    let mut entries = Vec::with_capacity(alloc, 1)?;
    if row < size {
        if let Ok(place) = u32::try_from(row) {
            entries.push(Entry { value: ONE, place })?;
        }
    }
    Ok(entries)
}

// The coefficients of a column, negated, as far as their places rise and none is 0.
fn sparse_column(
    alloc: Global,
    form: &Form<'_>,
    column: usize,
    size: usize,
) -> Result<Vec<Entry>, AllocError>
    ensures { IfOk result (λ column. IsSparse 0 size column.items) }
{
    let (rows, cuts) = (form.column_in_rows(column), form.column_in_cuts(column));
    let mut entries = Vec::with_capacity(alloc, rows.len().saturating_add(cuts.len()))?;
    let next = push_entries(&mut entries, 0, size, rows)?;
    push_entries(&mut entries, next, size, cuts)?;
    Ok(entries)
}

// Appends coefficients, negated. From where the next one may come.
fn push_entries(
    entries: &mut Vec<Entry>,
    first: usize,
    size: usize,
    coefficients: &[Coefficient],
) -> Result<usize, AllocError>
    requires sparse { IsSparse 0 first entries.old.items }
    requires inside { first ≤ size }
    ensures sparse { IfOk result (λ n. IsSparse 0 n entries.new.items) }
    ensures whole { IfOk result (λ n. IsSparse 0 size entries.new.items) }
    ensures inside { IfOk result (λ n. n ≤ size) }
{
    let mut next = first;
    for coefficient in coefficients {
        let entry = Entry {
            value: coefficient.negated(),
            place: coefficient.place,
        };
        next = push_entry(entries, next, size, entry)?;
    }
    Ok(next)
}

// Appends an entry, unless its place is not one from `next` on and below the size, or it is 0.
// From where the next one may come.
fn push_entry(
    entries: &mut Vec<Entry>,
    next: usize,
    size: usize,
    entry: Entry,
) -> Result<usize, AllocError>
    requires sparse { IsSparse 0 next entries.old.items }
    requires inside { next ≤ size }
    ensures sparse { IfOk result (λ n. IsSparse 0 n entries.new.items) }
    ensures inside { IfOk result (λ n. n ≤ size) }
{
    let place = entry.place as usize;
    if place < next || size <= place || entry.value.raw == 0 {
        return Ok(next);
    }
    entries.push(entry)?;
    Ok(place + 1)
}
