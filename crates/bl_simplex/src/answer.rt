// What a run proposes, in the problem's own units.
ghost use Rattle.std.specs.Prelude.{◌≡◌, ◌≤◌, ◌^◌, ◌≤ℤ◌, length, pos, All, IfOk, unsigned_abs};
ghost use Rattle.bl_problem.specs.Sums.{IsWithin};

use crate::basis::is_basic;
use crate::simplex::{Ending, Simplex};
use bl_desc::Status;
use bl_fixed::{Fixed, from_int, saturating_mul, saturating_sub};
use bl_linear::Form;
use bl_linear::numbers::{UNITS, ZERO, at, exponent_of, negated, rounded, scaled};
use std::alloc::{AllocError, Global};

/// The greatest multiplier's exponent that is aimed at.
const MULTIPLIER_EXPONENT: i32 = 38;

/// The greatest size of a multiplier.
const MOST_MULTIPLIER: i128 = 1 << 40;

/// The exponent of the greatest denominator.
const DENOMINATOR_EXPONENT: i32 = 20;

/// The greatest raw size of a point's entry.
const MOST_ENTRY: i128 = 1 << 70;

/// An entry that is within so many units of a whole number is made whole.
const SNAP: i128 = 1 << 14;

const FRACTION: i128 = UNITS - 1;

/// Multipliers over a common denominator.
#[derive(Drop)]
pub struct Multipliers {
    pub y: Vec<i64>,
    pub d: i64,
}

/// Which numbers become multipliers.
#[derive(Clone, Copy)]
pub enum Source {
    /// The reduced costs, moved by so many times the row that was made last.
    Moved { step: Fixed },
    /// The row that was made last, for an item that had to rise, or to fall.
    Row { rises: bool },
}

impl Source {
    // What a run ends with: the reduced costs, or the row that shows that no point is left.
    pub fn of_ending(ending: Ending) -> Source {
        match ending {
            Ending::Infeasible { rises } => Source::Row { rises },
            _ => Source::Moved { step: ZERO },
        }
    }
}

// The multipliers of that many rows and cuts.
pub fn multipliers_of(
    alloc: Global,
    simplex: &Simplex<'_>,
    source: Source,
    height: usize,
) -> Result<Multipliers, AllocError>
    ensures length { IfOk result (λ m. length m.y.items ≡ height) }
    ensures near { IfOk result (λ m. All (IsWithin (2 ^ 40)) m.y.items) }
    ensures positive { IfOk result (λ m. pos 1 ≤ℤ m.d) }
    ensures short { IfOk result (λ m. m.d ≤ℤ pos (2 ^ 20)) }
{
    let form = &simplex.form;
    let numbers = numbers_of(alloc, simplex, source, height)?;
    let greatest = greatest_exponent(form, numbers.as_slice());
    let room = MULTIPLIER_EXPONENT.saturating_sub(greatest);
    match source {
        Source::Row { rises: _ } => Ok(Multipliers {
            y: rounded_all(alloc, form, numbers.as_slice(), room)?,
            d: 1,
        }),
        Source::Moved { step: _ } => {
            let cost = form.cost_exponent().saturating_sub(40);
            let digits = room.saturating_sub(cost);
            let d = denominator_of(digits);
            let power = cost.saturating_add(digits.max(0).min(DENOMINATOR_EXPONENT));
            Ok(Multipliers {
                y: rounded_all(alloc, form, numbers.as_slice(), power)?,
                d,
            })
        }
    }
}

// Two to that power, but at least 1 and at most the greatest denominator.
fn denominator_of(digits: i32) -> i64
    ensures positive { pos 1 ≤ℤ result }
    ensures short { result ≤ℤ pos (2 ^ 20) }
{
    let power = digits.max(0).min(DENOMINATOR_EXPONENT).unsigned_abs();
    let denominator = 1i64 << power.min(20);
    denominator.max(1).min(1 << 20)
}

// The scaled multipliers.
fn numbers_of(
    alloc: Global,
    simplex: &Simplex<'_>,
    source: Source,
    height: usize,
) -> Result<Vec<Fixed>, AllocError>
    ensures { IfOk result (λ numbers. length numbers.items ≡ height) }
{
    let mut numbers = Vec::with_capacity(alloc, height)?;
    for row in 0..height {
        numbers.push(number_at(simplex, source, row))?;
    }
    Ok(numbers)
}

fn number_at(simplex: &Simplex<'_>, source: Source, row: usize) -> Fixed {
    match source {
        Source::Moved { step } => {
            let item = simplex.form.activity(row);
            let cost = at(simplex.reduced.as_slice(), item);
            saturating_sub(cost, saturating_mul(step, simplex.row.entry(item)))
        }
        Source::Row { rises: true } => at(simplex.row.multipliers.as_slice(), row),
        Source::Row { rises: false } => negated(at(simplex.row.multipliers.as_slice(), row)),
    }
}

// The greatest exponent of these numbers in the rows' own units.
fn greatest_exponent(form: &Form<'_>, numbers: &[Fixed]) -> i32 {
    let mut greatest = -1000;
    for (row, number) in numbers.iter().enumerate() {
        if number.raw != 0 {
            greatest = greatest.max(exponent_of(number.raw).saturating_sub(form.row_exponent(row)));
        }
    }
    greatest
}

// The numbers in the rows' own units times a power of two, rounded, and 0 where an end that is
// asked for is missing.
fn rounded_all(
    alloc: Global,
    form: &Form<'_>,
    numbers: &[Fixed],
    power: i32,
) -> Result<Vec<i64>, AllocError>
    ensures length { IfOk result (λ y. length y.items ≡ length numbers.now) }
    ensures near { IfOk result (λ y. All (IsWithin (2 ^ 40)) y.items) }
{
    let mut y = Vec::with_capacity(alloc, numbers.len())?;
    for row in 0..numbers.len() {
        let by = power.saturating_sub(form.row_exponent(row));
        let number = rounded(numbers[row].raw, by);
        y.push(multiplier_of(form, row, number))?;
    }
    Ok(y)
}

fn multiplier_of(form: &Form<'_>, row: usize, number: i128) -> i64
    ensures { IsWithin (2 ^ 40) result }
{
    let item = form.activity(row);
    let is_missing = (0 < number && !form.has_low(item)) || (number < 0 && !form.has_high(item));
    if is_missing { 0 } else { clamped(number) }
}

fn clamped(number: i128) -> i64
    ensures { IsWithin (2 ^ 40) result }
{
    number.max(-MOST_MULTIPLIER).min(MOST_MULTIPLIER) as i64
}

// The entries of that many columns, each moved into its bounds.
pub fn point_of(
    alloc: Global,
    simplex: &Simplex<'_>,
    lows: &[i64],
    highs: &[i64],
    width: usize,
) -> Result<Vec<Fixed>, AllocError>
    ensures length { IfOk result (λ point. length point.items ≡ width) }
    ensures near { IfOk result (λ point. All (λ x. unsigned_abs x.raw ≤ 2 ^ 70) point.items) }
{
    let mut point = Vec::with_capacity(alloc, width)?;
    for column in 0..width {
        point.push(entry_of(simplex, lows, highs, column))?;
    }
    Ok(point)
}

fn entry_of(simplex: &Simplex<'_>, lows: &[i64], highs: &[i64], column: usize) -> Fixed
    ensures { unsigned_abs result.raw ≤ 2 ^ 70 }
{
    let value = at(simplex.values.as_slice(), column);
    let power = simplex.form.column_exponent(column);
    let entry = scaled(value.raw, power.saturating_neg());
    let low = end_at(lows, column);
    let high = end_at(highs, column);
    entry_near(nearly_whole(entry.min(high).max(low)))
}

fn end_at(ends: &[i64], column: usize) -> i128 {
    from_int(ends.get(column).copied().unwrap_or(0)).raw
}

// An entry of a point, made whole where it nearly is.
fn nearly_whole(raw: i128) -> i128 {
    let fraction = raw & FRACTION;
    if fraction <= SNAP {
        raw.saturating_sub(fraction)
    } else if UNITS - SNAP <= fraction {
        raw.saturating_sub(fraction).saturating_add(UNITS)
    } else {
        raw
    }
}

// The number of the range nearest to a raw one.
fn entry_near(raw: i128) -> Fixed
    ensures { unsigned_abs result.raw ≤ 2 ^ 70 }
{
    Fixed {
        raw: raw.max(-MOST_ENTRY).min(MOST_ENTRY),
    }
}

// The statuses of that many items from the first one on. Only whether an item is basic counts: one
// that was not before and is not now keeps its old status.
pub fn statuses_of(
    alloc: Global,
    simplex: &Simplex<'_>,
    first: usize,
    old: &[Status],
    count: usize,
) -> Result<Vec<Status>, AllocError>
    ensures { IfOk result (λ statuses. length statuses.items ≡ count) }
{
    let mut statuses = Vec::with_capacity(alloc, count)?;
    for place in 0..count {
        let item = first.saturating_add(place);
        statuses.push(status_of(simplex.status.as_slice(), item, old.get(place).copied()))?;
    }
    Ok(statuses)
}

fn status_of(status: &[Status], item: usize, old: Option<Status>) -> Status {
    let new = status.get(item).copied().unwrap_or(Status::AtLow);
    match old {
        Some(old) if new != Status::Basic && old != Status::Basic => old,
        _ => new,
    }
}
