// Making a product anew from the columns of its matrix: lower factors that clear each column at
// the open places, and upper ones that clear the rest, the last first.
ghost use Rattle.std.specs.Prelude.{◌≡◌, ◌<◌, ◌≤◌, ◌^◌, ◌⊎◌, ◌++◌, ◌∷◌, [], length, IfOk, OnOk};
ghost use Rattle.std.specs.Prelude.{IfSome};
ghost use Rattle.std.specs.List.{All};
ghost use Rattle.bl_factor.specs.Vectors.{at, IsPivot};
ghost use Rattle.bl_factor.specs.Sparse.{AreColumns};
ghost use Rattle.bl_factor.specs.Support.{IsRising, IsPivotRow};
ghost use Rattle.bl_factor.specs.Etas.{IsEta, AreEtas};

use crate::eta::Eta;
use crate::ordering::Order;
use crate::others::Others;
use crate::sparse::Entry;
use crate::{eta, ordering, sparse, support};
use bl_fixed::Fixed;
use std::alloc::{AllocError, Global};

/// A pivot of a smaller raw size is not taken.
const LEAST_PIVOT: u128 = 1 << 20;

/// A pivot is at least this part of its column's largest number.
const PIVOT_PART: u128 = 16;

/// A product for the columns; None where a pivot would be too small.
pub(crate) fn made_anew(
    alloc: Global,
    columns: &[Option<Vec<Entry>>],
) -> Result<Option<Vec<Eta>>, AllocError>
    requires short { length columns.now < 2 ^ 32 }
    requires columns { AreColumns (length columns.now) columns.now }
    ensures etas { IfOk result (λ o. IfSome o (λ etas. AreEtas (length columns.now) etas.items)) }
{
    let mut reduction = Reduction::new(alloc, columns)?;
    let mut image_buffer = Vec::from_elem(alloc, Fixed { raw: 0 }, columns.len())?;
    let image = image_buffer.as_mut_slice();
    let mut open_buffer = Vec::from_elem(alloc, 0u32, columns.len())?;
    let at_open = open_buffer.as_mut_slice();
    let mut closed_buffer = Vec::from_elem(alloc, 0u32, columns.len())?;
    let at_closed = closed_buffer.as_mut_slice();
    for step in 0..columns.len() {
        let place = reduction.place_of(step);
        if !reduction.close(alloc, columns, place, image, at_open, at_closed)? {
            return Ok(None);
        }
    }
    if reduction.is_open.iter().any(|is_open| *is_open) {
        return Ok(None);
    }
    Ok(Some(reduction.finish(columns.len())?))
}

// A product in the making.
#[derive(Drop)]
struct Reduction {
    // The places whose columns are still to come.
    is_open: Vec<bool>,
    // The order in which they come, and the rank of each row.
    order: Order,
    lower: Vec<Eta>,
    upper: Vec<Eta>,
}

impl Reduction {
    ghost use Rattle.std.specs.Prelude.{◌≡◌, ◌<◌, ◌^◌, length, IfOk};
    ghost use Rattle.bl_factor.specs.Etas.{AreEtas};
    ghost use Rattle.bl_factor.specs.Sparse.{AreColumns};
    ghost use Rattle.bl_factor.specs.Making.{Reduces};

    fn new(alloc: Global, columns: &[Option<Vec<Entry>>]) -> Result<Reduction, AllocError>
        requires { AreColumns (length columns.now) columns.now }
        ensures { IfOk result (Reduces columns.now) }
    {
        let is_open = open_places(alloc, columns)?;
        let order = ordering::order_of(alloc, columns, is_open.as_slice())?;
        let steps = order.places.len();
        // Room for the upper factors too, which come behind the lower ones.
        let lower = Vec::with_capacity(alloc, steps.saturating_mul(2))?;
        let upper = Vec::with_capacity(alloc, steps)?;
        Ok(Reduction {
            is_open,
            order,
            lower,
            upper,
        })
    }

    // The place that comes at that step; past the last one some number that is no place's.
    fn place_of(&self, step: usize) -> usize {
        self.order.places.get(step).copied().unwrap_or(usize::MAX)
    }

    // Closes a place, unless it is closed, or a pivot is too small. `image`, `at_open` and
    // `at_closed` are for its work.
    fn close(
        &mut self,
        alloc: Global,
        columns: &[Option<Vec<Entry>>],
        place: usize,
        image: &mut [Fixed],
        at_open: &mut [u32],
        at_closed: &mut [u32],
    ) -> Result<bool, AllocError>
        requires long { length image.old ≡ length columns.now }
        requires open_long { length at_open.old ≡ length columns.now }
        requires closed_long { length at_closed.old ≡ length columns.now }
        requires short { length columns.now < 2 ^ 32 }
        requires columns { AreColumns (length columns.now) columns.now }
        requires reduces { Reduces columns.now self.old }
        ensures { IfOk result (λ _. Reduces columns.now self.new) }
    {
        if self.is_open.get(place) == Some(&true) {
            self.close_open(alloc, columns, place, image, at_open, at_closed)
        } else {
            Ok(true)
        }
    }

    // Makes the factors of an open place.
    fn close_open(
        &mut self,
        alloc: Global,
        columns: &[Option<Vec<Entry>>],
        place: usize,
        image: &mut [Fixed],
        at_open: &mut [u32],
        at_closed: &mut [u32],
    ) -> Result<bool, AllocError>
        requires long { length image.old ≡ length columns.now }
        requires open_long { length at_open.old ≡ length columns.now }
        requires closed_long { length at_closed.old ≡ length columns.now }
        requires short { length columns.now < 2 ^ 32 }
        requires columns { AreColumns (length columns.now) columns.now }
        requires reduces { Reduces columns.now self.old }
        requires place_in { place < length columns.now }
        ensures { IfOk result (λ _. Reduces columns.now self.new) }
    {
        leave_image(columns, place, self.lower.as_slice(), image);
        sparse::drop_noise(image);
        let is_open = self.is_open.as_slice();
        let counts = support::support_of(image, is_open, at_open, at_closed);
        let rows = &at_open[..counts.flagged];
        let others = &at_closed[..counts.others];
        let Some(row) = pivot_row(image, rows, self.order.ranks.as_slice()) else {
            return Ok(false);
        };
        image.swap(place, row);
        self.order.ranks.swap(place, row);
        let lower = eta::make(alloc, image, rows, place, row)?;
        let upper = upper_factor(alloc, image, others, place)?;
        self.lower.push(lower)?;
        push_unless_unit(&mut self.upper, upper)?;
        self.is_open[place] = false;
        Ok(true)
    }

    fn finish(self, size: usize) -> Result<Vec<Eta>, AllocError>
        requires lower { AreEtas size self.lower.items }
        requires upper { AreEtas size self.upper.items }
        ensures { IfOk result (λ etas. AreEtas size etas.items) }
    {
        let Reduction {
            is_open: _,
            order: _,
            mut lower,
            mut upper,
        } = self;
        upper.reverse();
        lower.append(&mut upper)?;
        Ok(lower)
    }
}

// The places whose columns are not the unit columns of their places.
fn open_places(alloc: Global, columns: &[Option<Vec<Entry>>]) -> Result<Vec<bool>, AllocError>
    ensures { IfOk result (λ is_open. length is_open.items ≡ length columns.now) }
{
    let mut is_open = Vec::with_capacity(alloc, columns.len())?;
    for column in columns {
        is_open.push(column.is_some())?;
    }
    Ok(is_open)
}

// Leaves in `image` that of a column that is no unit column.
fn leave_image(columns: &[Option<Vec<Entry>>], place: usize, etas: &[Eta], image: &mut [Fixed])
    requires long { length image.old ≡ length columns.now }
    requires columns { AreColumns (length columns.now) columns.now }
    requires place_in { place < length columns.now }
    requires etas { AreEtas (length columns.now) etas.now }
{
    match &columns[place] {
        Some(column) => sparse::spread(column.as_slice(), image),
        None => image.fill(Fixed { raw: 0 }),
    }
    eta::apply_all(etas, image);
}

// The factor that clears the closed places, which are given.
fn upper_factor(
    alloc: Global,
    image: &[Fixed],
    places: &[u32],
    place: usize,
) -> Result<Eta, AllocError>
    requires short { length image.now < 2 ^ 32 }
    requires rising { IsRising 0 (length image.now) places.now }
    requires place_in { place < length image.now }
    ensures { IfOk result (IsEta (length image.now)) }
{
    let others = Others::of_column(alloc, image, places, place)?;
    Ok(Eta {
        place: place as u32,
        row: place as u32,
        pivot: bl_fixed::from_int(1),
        reciprocal: 0,
        others,
    })
}

// Adds a factor with the pivot 1, unless it has nothing else.
fn push_unless_unit(etas: &mut Vec<Eta>, eta: Eta) -> Result<(), AllocError>
    ensures { OnOk result ((etas.new.items ≡ etas.old.items ++ eta ∷ [])
        ⊎ (etas.new.items ≡ etas.old.items)) }
{
    if !eta.others.is_empty() {
        etas.push(eta)?;
    }
    Ok(())
}

// Among the rows whose numbers are large enough, the one of the least rank.
#[inline(never)]
fn pivot_row(image: &[Fixed], rows: &[u32], ranks: &[u32]) -> Option<usize>
    requires ranked { length ranks.now ≡ length image.now }
    requires rows { All (λ p. p < length image.now) rows.now }
    ensures { IfSome result (IsPivotRow image.now) }
{
    let largest = largest_row(image, rows)?;
    let least = (image[largest].raw.unsigned_abs() / PIVOT_PART).max(LEAST_PIVOT);
    let mut best = largest;
    for listed in rows {
        let row = *listed as usize;
        if ranks[row] < ranks[best] && least <= image[row].raw.unsigned_abs() {
            best = row;
        }
    }
    Some(best)
}

// The first row with the largest number, where that is large enough.
fn largest_row(image: &[Fixed], rows: &[u32]) -> Option<usize>
    requires rows { All (λ p. p < length image.now) rows.now }
    ensures { IfSome result (IsPivotRow image.now) }
{
    let mut largest = None;
    let mut most = LEAST_PIVOT - 1;
    for listed in rows {
        let row = *listed as usize;
        let size = image[row].raw.unsigned_abs();
        if most < size {
            most = size;
            largest = Some(row);
        }
    }
    largest
}
