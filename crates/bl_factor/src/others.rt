// The entries of an elementary factor beside its pivot. In most factors all of them are of 64
// bits, and are kept as such.
ghost use Rattle.std.specs.Prelude.{◌≡◌, ◌<◌, ◌≤◌, ◌^◌, [], length, map, unsigned_abs, ◌*ℤ◌};
ghost use Rattle.std.specs.Prelude.{IfOk, IfSome, IsTrue};
ghost use Rattle.bl_factor.specs.Vectors.{at, column_of};
ghost use Rattle.bl_factor.specs.Sparse.{IsSparse, value_at, AreBeside};
ghost use Rattle.bl_factor.specs.Support.{IsRising};
ghost use Rattle.bl_factor.specs.Others.{narrow_number, widened, listed};
ghost use Rattle.bl_fixed.specs.Fixed.{saturated_difference, saturated_product};
ghost use Rattle.bl_factor.specs.Elimination.{less_multiple, taken_off};

use crate::sparse::Entry;
use bl_fixed::{Fixed, saturating_mul, saturating_sub};
use std::alloc::{AllocError, Global};

/// The bits behind the point.
const FRACTION_BITS: u32 = 40;

/// The difference of smaller raw numbers than this stays in `i128`.
const MODERATE: i128 = 1 << 126;

/// An entry whose raw number is of 64 bits.
#[derive(Clone, Copy)]
pub(crate) struct NarrowEntry {
    pub raw: i64,
    pub place: u32,
}

/// Entries by rising place.
#[derive(Drop)]
pub(crate) enum Others {
    Narrow(Vec<NarrowEntry>),
    Wide(Vec<Entry>),
}

impl Others {
    ghost use Rattle.std.specs.Prelude.{◌≡◌, [], length, IfOk, IsTrue};
    ghost use Rattle.bl_factor.specs.Vectors.{at, column_of};
    ghost use Rattle.bl_factor.specs.Sparse.{IsSparse, value_at, AreBeside};
    ghost use Rattle.bl_factor.specs.Support.{IsRising};
    ghost use Rattle.bl_factor.specs.Others.{listed};
    ghost use Rattle.bl_factor.specs.Elimination.{less_multiple, taken_off};

    // The numbers of `column` at these places that are not 0, but for the one at `except`.
    pub(crate) fn of_column(
        alloc: Global,
        column: &[Fixed],
        places: &[u32],
        except: usize,
    ) -> Result<Others, AllocError>
        requires { IsRising 0 (length column.now) places.now }
        ensures { IfOk result (λ others. AreBeside (length column.now) except (listed others)) }
    {
        match narrow_entries(alloc, column, places, except)? {
            Some(entries) => Ok(Others::Narrow(entries)),
            None => Ok(Others::Wide(wide_entries(alloc, column, places, except)?)),
        }
    }

    pub(crate) fn len(&self) -> usize {
        match self {
            Others::Narrow(entries) => entries.len(),
            Others::Wide(entries) => entries.len(),
        }
    }

    pub(crate) fn is_empty(&self) -> bool
        ensures { IsTrue result → listed self.now ≡ [] }
    {
        match self {
            Others::Narrow(entries) => entries.is_empty(),
            Others::Wide(entries) => entries.is_empty(),
        }
    }

    // Takes off the entries' multiples.
    pub(crate) fn subtract(&self, right: &mut [Fixed], factor: Fixed)
        requires { IsSparse 0 (length right.old) (listed self.now) }
        ensures { right.new ≡ column_of (length right.old)
            (λ i. less_multiple (at right.old i) (value_at (listed self.now) i) factor) }
    {
        match self {
            Others::Narrow(entries) => subtract_narrow(right, entries.as_slice(), factor),
            Others::Wide(entries) => subtract_multiple(right, entries.as_slice(), factor),
        }
    }

    // What is left of `start` after the products of the entries and those of `right`.
    pub(crate) fn rest_after(&self, right: &[Fixed], start: Fixed) -> Fixed
        requires { IsSparse 0 (length right.now) (listed self.now) }
        ensures { result ≡ taken_off (value_at (listed self.now)) right.now 0 (length right.now)
            start }
    {
        match self {
            Others::Narrow(entries) => rest_narrow(right, entries.as_slice(), start),
            Others::Wide(entries) => rest_after(right, entries.as_slice(), start),
        }
    }
}

// The numbers as entries of 64 bits, where all are.
fn narrow_entries(
    alloc: Global,
    column: &[Fixed],
    places: &[u32],
    except: usize,
) -> Result<Option<Vec<NarrowEntry>>, AllocError>
    requires { IsRising 0 (length column.now) places.now }
    ensures { IfOk result (λ o. IfSome o
        (λ entries. AreBeside (length column.now) except (map widened entries.items))) }
{
    let mut entries = Vec::with_capacity(alloc, places.len())?;
    for listed in places {
        let place = *listed as usize;
        let value = column[place];
        if value.raw != 0 && place != except {
            let Ok(raw) = i64::try_from(value.raw) else {
                return Ok(None);
            };
            entries.push(NarrowEntry {
                raw,
                place: *listed,
            })?;
        }
    }
    Ok(Some(entries))
}

// The same as entries of any numbers.
fn wide_entries(
    alloc: Global,
    column: &[Fixed],
    places: &[u32],
    except: usize,
) -> Result<Vec<Entry>, AllocError>
    requires { IsRising 0 (length column.now) places.now }
    ensures { IfOk result (λ entries. AreBeside (length column.now) except entries.items) }
{
    let mut entries = Vec::with_capacity(alloc, places.len())?;
    for listed in places {
        let place = *listed as usize;
        let value = column[place];
        if value.raw != 0 && place != except {
            entries.push(Entry {
                value,
                place: *listed,
            })?;
        }
    }
    Ok(entries)
}

// ---- entries of any numbers

// Takes off the entries' multiples.
fn subtract_multiple(right: &mut [Fixed], entries: &[Entry], factor: Fixed)
    requires { IsSparse 0 (length right.old) entries.now }
    ensures { right.new ≡ column_of (length right.old)
        (λ i. less_multiple (at right.old i) (value_at entries.now i) factor) }
{
    for entry in entries {
        let number = &mut right[entry.place as usize];
        *number = saturating_sub(*number, saturating_mul(entry.value, factor));
    }
}

// What is left of `start` after the products of the entries and those of `right`.
fn rest_after(right: &[Fixed], entries: &[Entry], start: Fixed) -> Fixed
    requires { IsSparse 0 (length right.now) entries.now }
    ensures { result ≡ taken_off (value_at entries.now) right.now 0 (length right.now) start }
{
    let mut rest = start;
    for entry in entries {
        rest = less_product(rest, entry.value, right[entry.place as usize]);
    }
    rest
}

// The number less a product; many are of 0.
fn less_product(number: Fixed, a: Fixed, b: Fixed) -> Fixed
    ensures { result ≡ saturated_difference number (saturated_product a b) }
{
    if b.raw == 0 {
        number
    } else {
        saturating_sub(number, saturating_mul(a, b))
    }
}

// ---- entries of 64 bits

// Takes off the entries' multiples.
fn subtract_narrow(right: &mut [Fixed], entries: &[NarrowEntry], factor: Fixed)
    requires { IsSparse 0 (length right.old) (map widened entries.now) }
    ensures { right.new ≡ column_of (length right.old)
        (λ i. less_multiple (at right.old i) (value_at (map widened entries.now) i) factor) }
{
    match i64::try_from(factor.raw) {
        Ok(narrow) => subtract_by_narrow(right, entries, narrow),
        Err(_) => subtract_by_wide(right, entries, factor),
    }
}

// The multiples by a factor of 64 bits. Where this is not a call of its own, LLVM takes the
// factor for a wide one again.
#[inline(never)]
fn subtract_by_narrow(right: &mut [Fixed], entries: &[NarrowEntry], factor: i64)
    requires { IsSparse 0 (length right.old) (map widened entries.now) }
    ensures { right.new ≡ column_of (length right.old)
        (λ i. less_multiple (at right.old i) (value_at (map widened entries.now) i)
        (narrow_number factor)) }
{
    for entry in entries {
        let number = &mut right[entry.place as usize];
        *number = less_narrow(*number, entry.raw, factor);
    }
}

// A call of its own, as it is seldom needed.
#[inline(never)]
fn subtract_by_wide(right: &mut [Fixed], entries: &[NarrowEntry], factor: Fixed)
    requires { IsSparse 0 (length right.old) (map widened entries.now) }
    ensures { right.new ≡ column_of (length right.old)
        (λ i. less_multiple (at right.old i) (value_at (map widened entries.now) i) factor) }
{
    for entry in entries {
        let number = &mut right[entry.place as usize];
        *number = saturating_sub(*number, saturating_mul(wide(entry.raw), factor));
    }
}

// What is left of `start` after the products of the entries and those of `right`.
fn rest_narrow(right: &[Fixed], entries: &[NarrowEntry], start: Fixed) -> Fixed
    requires { IsSparse 0 (length right.now) (map widened entries.now) }
    ensures { result ≡ taken_off (value_at (map widened entries.now)) right.now 0
        (length right.now) start }
{
    let mut rest = start;
    for entry in entries {
        rest = less_half_narrow(rest, entry.raw, right[entry.place as usize]);
    }
    rest
}

// The number less a product with a number of 64 bits; many are of 0.
fn less_half_narrow(number: Fixed, a: i64, b: Fixed) -> Fixed
    ensures { result ≡ saturated_difference number (saturated_product (narrow_number a) b) }
{
    if b.raw == 0 {
        number
    } else if let Ok(narrow) = i64::try_from(b.raw) {
        less_narrow(number, a, narrow)
    } else {
        saturating_sub(number, saturating_mul(wide(a), b))
    }
}

fn wide(raw: i64) -> Fixed
    ensures { result ≡ narrow_number raw }
{
    Fixed {
        raw: i128::from(raw),
    }
}

// The number less a product of two numbers of 64 bits. An `i128` holds the product, and mostly
// the difference too.
fn less_narrow(number: Fixed, a: i64, b: i64) -> Fixed
    ensures { result ≡ saturated_difference number
        (saturated_product (narrow_number a) (narrow_number b)) }
{
    let product = narrow_product(a, b);
    if -MODERATE <= number.raw && number.raw < MODERATE {
        Fixed {
            raw: number.raw - product.raw,
        }
    } else {
        saturating_sub(number, product)
    }
}

fn narrow_product(a: i64, b: i64) -> Fixed
    ensures value { result ≡ saturated_product (narrow_number a) (narrow_number b) }
    ensures small { unsigned_abs result.raw < 2 ^ 126 }
{
    Fixed {
        raw: exact_product(a, b) >> FRACTION_BITS,
    }
}

fn exact_product(a: i64, b: i64) -> i128
    ensures value { result ≡ a *ℤ b }
    ensures small { unsigned_abs result ≤ 2 ^ 126 }
{
    i128::from(a) * i128::from(b)
}
