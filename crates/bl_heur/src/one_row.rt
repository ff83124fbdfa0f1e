//! Multipliers for one row alone, which say what a proposal can't where numbers are so large that
//! multipliers in fixed point are too coarse.
use bl_desc::Desc;
use bl_problem::{Column, Cut, Problem, Row, Term};
use std::alloc::{AllocError, Global};

/// A coefficient above this size is large.
const LARGE_COEFFICIENT: u64 = 1 << 22;

/// A cost above this size is large.
const LARGE_COST: u64 = 1 << 38;

/// The multiplier `value / denominator` for one row, where that of each other row is 0.
#[derive(Clone, Copy, Debug, PartialEq, Eq)]
pub struct RowMultiplier {
    /// The number of the row, from 0.
    pub row: usize,
    pub value: i64,
    /// Above 0.
    pub denominator: i64,
    /// About how much it adds to the bound without it, in units of 10^-scale.
    pub gain: i128,
}

// A column that comes nearer to the row's end where it leaves its cheaper bound: what a unit of it
// costs, by how much it changes the row, how many units there are, and the cost of a change by
// 1, in units of 2^-40.
#[derive(Clone, Copy)]
struct Mover {
    cost: i64,
    size: i64,
    width: i64,
    price: i128,
}

// Whether a coefficient of the row is large.
fn has_large_term(row: &Row) -> bool {
    for term in row.terms.as_slice() {
        if LARGE_COEFFICIENT < term.coefficient.unsigned_abs() {
            return true;
        }
    }
    false
}

// Whether a cost of the columns is large.
fn has_large_cost(columns: &[Column]) -> bool {
    for column in columns {
        if LARGE_COST < column.cost.unsigned_abs() {
            return true;
        }
    }
    false
}

/// Whether a coefficient of a row or a cost of the problem is so large that multipliers for one row
/// alone may say more than a proposal's.
pub fn has_large_numbers(problem: &Problem) -> bool {
    for row in problem.rows() {
        if has_large_term(row) {
            return true;
        }
    }
    has_large_cost(problem.columns())
}

// The bound at which the column costs least; where it costs nothing, the one that the end asks for.
fn cheap_end(cost: i64, coefficient: i64, low: i64, high: i64) -> i64 {
    if 0 < cost || cost == 0 && coefficient < 0 {
        low
    } else {
        high
    }
}

// A term whose column helps where it leaves its cheaper bound. None where it doesn't help.
fn mover_of(cost: i64, coefficient: i64, low: i64, high: i64) -> Option<Mover> {
    let helps = if cost < 0 {
        coefficient < 0
    } else {
        0 < cost && 0 < coefficient
    };
    if !helps {
        return None;
    }
    let cost = cost.saturating_abs();
    let size = coefficient.saturating_abs();
    let price = (cost as i128)
        .saturating_mul(1 << 40)
        .checked_div(size as i128)?;
    Some(Mover {
        cost,
        size,
        width: high.saturating_sub(low),
        price,
    })
}

// Takes a term in, turned where the end is a high one: its column's activity at the cheaper bound.
fn take_term(
    movers: &mut Vec<Mover>,
    problem: &Problem,
    desc: &Desc<Cut>,
    term: Term,
    turn: bool,
) -> Result<i128, AllocError> {
    let at = term.column as usize;
    let (Some(column), Some(low), Some(high)) = (
        problem.columns().get(at),
        desc.lows.as_slice().get(at),
        desc.highs.as_slice().get(at),
    ) else {
        return Ok(0);
    };
    let coefficient = if turn {
        0_i64.saturating_sub(term.coefficient)
    } else {
        term.coefficient
    };
    if let Some(mover) = mover_of(column.cost, coefficient, *low, *high) {
        movers.push(mover)?;
    }
    let end = cheap_end(column.cost, coefficient, *low, *high);
    Ok((coefficient as i128).saturating_mul(end as i128))
}

// The least activity that costs nothing more, of a row that is turned where the end is a high one.
// The movers are those of its columns.
fn cheap_activity(
    movers: &mut Vec<Mover>,
    problem: &Problem,
    desc: &Desc<Cut>,
    row: &Row,
    turn: bool,
) -> Result<i128, AllocError> {
    movers.clear();
    let mut activity = 0_i128;
    for term in row.terms.as_slice() {
        let part = take_term(movers, problem, desc, *term, turn)?;
        activity = activity.saturating_add(part);
    }
    Ok(activity)
}

// What the mover costs where it changes the row by so much.
fn price_of(mover: Mover, change: i128) -> i128 {
    let costs = (mover.cost as i128).saturating_mul(change);
    costs.checked_div(mover.size as i128).unwrap_or(0)
}

// The cheapest movers in turn until the end is reached: the last of them, and what they cost. None
// where the end is reached without, or not at all.
fn critical(movers: &[Mover], missing: i128) -> Option<(Mover, i128)> {
    let mut missing = missing;
    let mut gain = 0_i128;
    if missing <= 0 {
        return None;
    }
    for mover in movers {
        let reach = (mover.size as i128).saturating_mul(mover.width as i128);
        let last = missing <= reach;
        gain = gain.saturating_add(price_of(*mover, missing.min(reach)));
        if last {
            return Some((*mover, gain));
        }
        missing = missing.saturating_sub(reach);
    }
    None
}

// The best multiplier of a row at one of its ends, which is turned where it is a high one.
fn at_end(
    movers: &mut Vec<Mover>,
    problem: &Problem,
    desc: &Desc<Cut>,
    row: &Row,
    end: i128,
    turn: bool,
) -> Result<Option<(Mover, i128)>, AllocError> {
    let activity = cheap_activity(movers, problem, desc, row, turn)?;
    let end = if turn {
        0_i128.saturating_sub(end)
    } else {
        end
    };
    movers.sort_unstable_by_key(|mover| mover.price);
    Ok(critical(movers.as_slice(), end.saturating_sub(activity)))
}

// The multiplier that gains more.
fn better(
    best: Option<RowMultiplier>,
    row: usize,
    found: Option<(Mover, i128)>,
    turn: bool,
) -> Option<RowMultiplier> {
    let Some((mover, gain)) = found else {
        return best;
    };
    if let Some(other) = best {
        if gain <= other.gain {
            return best;
        }
    }
    let value = if turn {
        0_i64.saturating_sub(mover.cost)
    } else {
        mover.cost
    };
    Some(RowMultiplier {
        row,
        value,
        denominator: mover.size,
        gain,
    })
}

/// The multiplier of one row that raises the bound over the description's box most, or None
/// where none raises it. Its value is the cost of a column over the size of its coefficient,
/// where the bound over one row is greatest (Dantzig's ratios of a continuous knapsack). It
/// proposes only: the bound that it gives is for the caller to work out. `AllocError` where
/// there is no memory.
pub fn best_row_multiplier(
    alloc: Global,
    problem: &Problem,
    desc: &Desc<Cut>,
) -> Result<Option<RowMultiplier>, AllocError> {
    let mut movers = Vec::new(alloc);
    let mut best = None;
    for (at, row) in problem.rows().iter().enumerate() {
        if let Some(low) = row.low {
            let found = at_end(&mut movers, problem, desc, row, low, false)?;
            best = better(best, at, found, false);
        }
        if let Some(high) = row.high {
            let found = at_end(&mut movers, problem, desc, row, high, true)?;
            best = better(best, at, found, true);
        }
    }
    Ok(best)
}
