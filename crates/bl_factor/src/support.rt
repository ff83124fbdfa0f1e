// Where a column has numbers that are not 0.
ghost use Rattle.std.specs.Prelude.{◌≡◌, ◌<◌, ◌≤◌, ◌^◌, length, take, IfOk};
ghost use Rattle.bl_factor.specs.Support.{IsRising};

use bl_fixed::Fixed;
use std::alloc::{AllocError, Global};

// How many places with either flag there are.
#[derive(Clone, Copy)]
pub(crate) struct Counts {
    pub flagged: usize,
    pub others: usize,
}

// Writes the places of the numbers that are not 0 to the fronts of two lists, by their flags.
// There is no branch, as which numbers are 0 can't be foreseen. A call of its own: inlined, its
// loop runs short of registers.
#[inline(never)]
pub(crate) fn support_of(
    column: &[Fixed],
    flags: &[bool],
    flagged: &mut [u32],
    others: &mut [u32],
) -> Counts
    requires short { length column.now < 2 ^ 32 }
    requires flags { length flags.now ≡ length column.now }
    requires flagged { length flagged.old ≡ length column.now }
    requires others { length others.old ≡ length column.now }
    ensures count { result.flagged ≤ length flagged.new }
    ensures other_count { result.others ≤ length others.new }
    ensures flagged { IsRising 0 (length column.now) (take result.flagged flagged.new) }
    ensures others { IsRising 0 (length column.now) (take result.others others.new) }
{
    let mut filled = 0usize;
    let mut count = 0usize;
    for (place, number) in column.iter().enumerate() {
        flagged[count] = place as u32;
        others[filled - count] = place as u32;
        let is_filled = number.raw != 0;
        filled += usize::from(is_filled);
        count += usize::from(is_filled & flags[place]);
    }
    Counts {
        flagged: count,
        others: filled - count,
    }
}

// The places of the numbers that are not 0.
pub(crate) fn places_of(alloc: Global, column: &[Fixed]) -> Result<Vec<u32>, AllocError>
    requires { length column.now < 2 ^ 32 }
    ensures { IfOk result (λ places. IsRising 0 (length column.now) places.items) }
{
    let mut places = Vec::with_capacity(alloc, column.len())?;
    for (place, number) in column.iter().enumerate() {
        if number.raw != 0 {
            places.push(place as u32)?;
        }
    }
    Ok(places)
}
