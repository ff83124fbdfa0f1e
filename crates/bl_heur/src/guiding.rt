//! Diving by a point.
ghost use Rattle.std.specs.Prelude.{IfOk, IfSome};
ghost use Rattle.bl_problem.specs.Program.{Program};
ghost use Rattle.bl_bound.specs.Descriptions.{Describes};
ghost use Rattle.bl_heur.specs.Found.{IsFound};

use crate::diving::{propagate, tested};
use crate::narrowing::narrow;
use crate::rounding::entry;
use bl_desc::Desc;
use bl_fixed::Fixed;
use bl_mods::Items;
use bl_problem::{Cut, Decision, Problem, Side};
use std::alloc::{AllocError, Global};

/// So many columns at most are given values one by one.
const MOST_TURNS: usize = 200;

/// No bound is farther from 0.
const FARTHEST: i64 = 1_000_000_000;

/// One, in units of 2^-40.
const ONE: i128 = 1 << 40;

// A column, its entry, and how far that is from a whole number.
#[derive(Clone, Copy)]
struct Near {
    distance: i128,
    column: u32,
    entry: Fixed,
}

// How far the entry is from a whole number.
fn distance(entry: Fixed) -> i128 {
    let above = entry.raw & (ONE - 1);
    above.min(ONE.saturating_sub(above))
}

// The columns, those whose entries are nearest to a whole number first.
fn by_nearness(alloc: Global, point: &[Fixed]) -> Result<Vec<Near>, AllocError> {
    let mut order = Vec::with_capacity(alloc, point.len())?;
    let mut column = 0u32;
    for entry in point {
        let distance = distance(*entry);
        order.push(Near {
            distance,
            column,
            entry: *entry,
        })?;
        column = column.wrapping_add(1);
    }
    order.sort_unstable_by_key(|near| (near.distance, near.column));
    Ok(order)
}

// The column takes one value, where there is such a column and the value is within the limit.
fn pin(desc: &mut Desc<Cut>, column: u32, value: i64)
    ensures { (p : Program) → Describes p desc.old → Describes p desc.new }
{
    let width = desc.lows.len();
    if column as usize >= width || desc.highs.len() != width {
        return;
    }
    if -FARTHEST <= value && value <= FARTHEST {
        let above = Decision {
            column,
            side: Side::AtLeast,
            value,
        };
        let below = Decision {
            column,
            side: Side::AtMost,
            value,
        };
        narrow(desc, &[above, below]);
    }
}

// The description in which the column takes one value, and what passes make of it. None where
// they show that no point is left.
fn pinned(
    alloc: Global,
    problem: &Problem,
    desc: &Desc<Cut>,
    column: u32,
    value: i64,
) -> Result<Option<Desc<Cut>>, AllocError>
    requires { Describes problem.now desc.now }
    ensures { IfOk result (λ o. IfSome o (Describes problem.now)) }
{
    let mut end = desc.duplicate()?;
    pin(&mut end, column, value);
    if propagate(alloc, problem, &mut end)? {
        Ok(Some(end))
    } else {
        Ok(None)
    }
}

// Each column whose entry is whole takes it.
fn pin_whole(desc: &mut Desc<Cut>, order: &[Near])
    ensures { (p : Program) → Describes p desc.old → Describes p desc.new }
{
    for near in order {
        if near.distance == 0 {
            pin(
                desc,
                near.column,
                i64::try_from(near.entry.raw >> 40).unwrap_or(0),
            );
        }
    }
}

// The description in which the columns of whole entries take them, and what passes make of it;
// as it stands, where they show that no point is left.
fn start(
    alloc: Global,
    problem: &Problem,
    desc: &Desc<Cut>,
    order: &[Near],
) -> Result<Desc<Cut>, AllocError>
    requires { Describes problem.now desc.now }
    ensures { IfOk result (Describes problem.now) }
{
    let mut end = desc.duplicate()?;
    pin_whole(&mut end, order);
    if propagate(alloc, problem, &mut end)? {
        Ok(end)
    } else {
        desc.duplicate()
    }
}

// The value in the box that is nearest to the column's entry, and the one beside it. None where
// the column has one value.
fn values(desc: &Desc<Cut>, near: Near) -> Option<(i64, i64)> {
    let low = *desc.lows.as_slice().get(near.column as usize)?;
    let high = *desc.highs.as_slice().get(near.column as usize)?;
    if high <= low {
        return None;
    }
    let first = entry(near.entry, low, high);
    let second = if low < first {
        first.saturating_sub(1)
    } else {
        first.saturating_add(1)
    };
    Some((first, second))
}

// The column takes the first value, or the second where passes show that no point is left with
// the first.
fn pinned_to_one(
    alloc: Global,
    problem: &Problem,
    desc: &Desc<Cut>,
    column: u32,
    values: (i64, i64),
) -> Result<Option<Desc<Cut>>, AllocError>
    requires { Describes problem.now desc.now }
    ensures { IfOk result (λ o. IfSome o (Describes problem.now)) }
{
    match pinned(alloc, problem, desc, column, values.0)? {
        Some(end) => Ok(Some(end)),
        None => pinned(alloc, problem, desc, column, values.1),
    }
}

// The columns take values in this order. None where no point is left, or where too many columns
// are free.
fn descend_by(
    alloc: Global,
    problem: &Problem,
    first: Desc<Cut>,
    order: &[Near],
) -> Result<Option<Desc<Cut>>, AllocError>
    requires { Describes problem.now first }
    ensures { IfOk result (λ o. IfSome o (Describes problem.now)) }
{
    let mut end = first;
    let mut turns = 0usize;
    for near in order {
        let Some(values) = values(&end, *near) else {
            continue;
        };
        if turns == MOST_TURNS {
            return Ok(None);
        }
        turns = turns.saturating_add(1);
        let Some(next) = pinned_to_one(alloc, problem, &end, near.column, values)? else {
            return Ok(None);
        };
        end = next;
    }
    Ok(Some(end))
}

/// A point of the description's box that a dive by the given point finds: the columns of whole
/// entries take them, and then one column after another, the nearest to a whole number first,
/// takes the value nearest to its entry, or the one beside it; after each the bounds are tightened.
/// `None` where the dive finds no feasible point of the box. `point` has an entry for each column,
/// in units of 2^-40. `AllocError` where there is no memory.
pub fn guided_dive(
    alloc: Global,
    problem: &Problem,
    desc: &Desc<Cut>,
    point: &[Fixed],
) -> Result<Option<Items<i64>>, AllocError>
    requires { Describes problem.now desc.now }
    ensures { IfOk result (λ o. IfSome o (IsFound problem.now desc.now)) }
{
    let order = by_nearness(alloc, point)?;
    let first = start(alloc, problem, desc, order.as_slice())?;
    let Some(end) = descend_by(alloc, problem, first, order.as_slice())? else {
        return Ok(None);
    };
    let lows = end.lows.copy_all()?;
    Ok(tested(problem, desc, lows))
}
