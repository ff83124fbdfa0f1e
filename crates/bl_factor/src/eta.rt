// Elementary factors.
ghost use Rattle.std.specs.Prelude.{◌≡◌, ◌≢◌, ◌<◌, ◌≤◌, ◌^◌, length, pos, IfOk};
ghost use Rattle.std.specs.List.{fold, All, swap};
ghost use Rattle.bl_factor.specs.Vectors.{at, column_of, IsPivot};
ghost use Rattle.bl_factor.specs.Support.{IsRising};
ghost use Rattle.bl_factor.specs.Etas.{IsEta, AreEtas, elimination_of, eliminations};
ghost use Rattle.bl_fixed.specs.Fixed.{saturated_difference, saturated_product, saturated_quotient};
ghost use Rattle.bl_factor.specs.Elimination.{less_multiple, eliminated, eliminated_transposed};
ghost use Rattle.bl_factor.specs.Elimination.{taken_off, image_under, transposed_image_under};

use crate::division::{quotient, reciprocal_of};
use crate::others::Others;
use bl_fixed::Fixed;
use std::alloc::{AllocError, Global};

/// An elementary factor: the entries at `place` and `row` change places, and then the column
/// with `pivot` at `place` and `others` elsewhere is turned into the unit column of `place`.
#[derive(Drop)]
pub(crate) struct Eta {
    // First, so that a factor has 64 bytes.
    pub pivot: Fixed,
    pub place: u32,
    pub row: u32,
    // A guess at the pivot's reciprocal; quotients do not depend on it.
    pub reciprocal: u64,
    pub others: Others,
}

impl Eta {
    fn apply(&self, right: &mut [Fixed])
        requires { IsEta (length right.old) self.now }
        ensures { right.new ≡ eliminated (elimination_of (length right.old) self.now) right.old }
    {
        let place = self.place as usize;
        exchange(right, place, self.row as usize);
        let at_place = right[place];
        if at_place.raw == 0 {
            return;
        }
        let quotient = quotient(at_place, self.pivot, self.reciprocal);
        right[place] = quotient;
        self.others.subtract(right, quotient);
    }

    fn apply_transposed(&self, right: &mut [Fixed])
        requires { IsEta (length right.old) self.now }
        ensures { right.new ≡ eliminated_transposed (elimination_of (length right.old) self.now)
            right.old }
    {
        let place = self.place as usize;
        let rest = self.others.rest_after(right, right[place]);
        right[place] = quotient(rest, self.pivot, self.reciprocal);
        exchange(right, place, self.row as usize);
    }
}

// Lets the entries at two places change places. As raw numbers they go through registers.
fn exchange(right: &mut [Fixed], place: usize, row: usize)
    requires place_in { place < length right.old }
    requires row_in { row < length right.old }
    ensures { right.new ≡ swap right.old place row }
{
    let at_place = right[place].raw;
    let at_row = right[row].raw;
    right[row] = Fixed { raw: at_place };
    right[place] = Fixed { raw: at_row };
}

// Leaves the image of `right` in it. A call of its own: inlined, its loop runs short of registers.
#[inline(never)]
pub(crate) fn apply_all(etas: &[Eta], right: &mut [Fixed])
    requires { AreEtas (length right.old) etas.now }
    ensures { right.new ≡ image_under (eliminations (length right.old) etas.now) right.old }
{
    for eta in etas {
        eta.apply(right);
    }
}

// The same by the transposes, the last first.
pub(crate) fn apply_all_transposed(etas: &[Eta], right: &mut [Fixed])
    requires { AreEtas (length right.old) etas.now }
    ensures { right.new ≡ transposed_image_under (eliminations (length right.old) etas.now)
        right.old }
{
    for i in (0..etas.len()).rev() {
        etas[i].apply_transposed(right);
    }
}

// The factor that clears the numbers of `column` at these places, but for the pivot: its entries
// at `place` and `row` have changed places.
pub(crate) fn make(
    alloc: Global,
    column: &[Fixed],
    places: &[u32],
    place: usize,
    row: usize,
) -> Result<Eta, AllocError>
    requires short { length column.now < 2 ^ 32 }
    requires rising { IsRising 0 (length column.now) places.now }
    requires place_in { place < length column.now }
    requires row_in { row < length column.now }
    requires pivot { IsPivot (at column.now place) }
    ensures { IfOk result (IsEta (length column.now)) }
{
    let others = Others::of_column(alloc, column, places, place)?;
    Ok(Eta {
        place: place as u32,
        row: row as u32,
        pivot: column[place],
        reciprocal: reciprocal_of(column[place]),
        others,
    })
}

// How many numbers the factors hold.
pub(crate) fn entry_count(etas: &[Eta]) -> usize {
    let mut count = 0usize;
    for eta in etas {
        count = count.saturating_add(eta.others.len()).saturating_add(1);
    }
    count
}
