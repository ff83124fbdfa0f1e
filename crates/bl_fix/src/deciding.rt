// What the gap between a bound and a cutoff leaves of the columns.
ghost use Rattle.std.specs.Prelude.{◌≡◌, ◌≢◌, ◌≤◌, ◌<◌, ◌^◌, pos, ◌≤ℤ◌, length, All, IfOk, OnOk};
ghost use Rattle.std.specs.Prelude.{unsigned_abs};
ghost use Rattle.bl_num.specs.Exact.{at, floor_of};
ghost use Rattle.bl_problem.specs.Sums.{IsWithin};
ghost use Rattle.bl_bound.specs.Bounds.{sum_at};
ghost use Rattle.bl_fix.specs.Gaps.{decision_of, with_decision, decisions_below, gap_of};

use bl_mods::Items;
use bl_num::{sub, times};
use bl_problem::{Decision, Side};
use std::alloc::{AllocError, Global};

/// So many decisions at most.
const MOST_DECISIONS: usize = 256;

// How far the sum is below d times the greatest number below the cutoff.
pub fn gap(d: i64, cutoff: i128, sum: i128) -> Option<i128>
    ensures { result ≡ gap_of d cutoff sum }
{
    sub(times(Some(d as i128), sub(cutoff, 1))?, sum)
}

// The gap over the size of the reduced cost, rounded down.
fn steps(gap: i128, cost: i128) -> u128
    requires gap { pos 0 ≤ℤ gap }
    requires cost { cost ≢ pos 0 }
    ensures { pos result ≡ floor_of gap (pos (unsigned_abs cost)) }
{
    gap.unsigned_abs() / cost.unsigned_abs()
}

// What the gap leaves of a column.
fn decision(gap: i128, column: u32, cost: Option<i128>, low: i64, high: i64) -> Option<Decision>
    requires gap { pos 0 ≤ℤ gap }
    requires low { IsWithin (10 ^ 9) low }
    requires high { IsWithin (10 ^ 9) high }
    ensures { result ≡ decision_of gap column cost low high }
{
    let cost = cost?;
    if cost == 0 || high <= low {
        return None;
    }
    let steps = steps(gap, cost);
    if (high - low) as u128 <= steps {
        return None;
    }
    let steps = steps as i64;
    if 0 < cost {
        let (side, value) = (Side::AtMost, low + steps);
        Some(Decision {
            column,
            side,
            value,
        })
    } else {
        let (side, value) = (Side::AtLeast, high - steps);
        Some(Decision {
            column,
            side,
            value,
        })
    }
}

// Appends a decision, where there is one and fewer than 256 stand.
fn append(decisions: &mut Items<Decision>, decision: Option<Decision>) -> Result<(), AllocError>
    ensures { OnOk result (decisions.new ≡ with_decision decisions.old decision) }
{
    let Some(decision) = decision else {
        return Ok(());
    };
    if decisions.len() < MOST_DECISIONS {
        decisions.push(decision)?;
    }
    Ok(())
}

// What the gap leaves of the columns, in order.
pub fn decisions(
    alloc: Global,
    gap: i128,
    costs: &[Option<i128>],
    lows: &[i64],
    highs: &[i64],
) -> Result<Items<Decision>, AllocError>
    requires gap { pos 0 ≤ℤ gap }
    requires few { length costs.now ≤ 1000 }
    requires lows { length lows.now ≡ length costs.now }
    requires highs { length highs.now ≡ length costs.now }
    requires near_lows { All (IsWithin (10 ^ 9)) lows.now }
    requires near_highs { All (IsWithin (10 ^ 9)) highs.now }
    ensures { IfOk result (λ ds. ds ≡ decisions_below (length costs.now) gap (sum_at costs.now)
        lows.now highs.now) }
{
    let room = Vec::with_capacity(alloc, costs.len().min(MOST_DECISIONS))?;
    let mut decisions = Items::from_vec(room);
    for j in 0..costs.len() {
        let found = decision(gap, j as u32, costs[j], lows[j], highs[j]);
        append(&mut decisions, found)?;
    }
    Ok(decisions)
}
