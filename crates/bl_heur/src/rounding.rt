//! Rounding.
ghost use Rattle.std.specs.Prelude.{◌≡◌, ℕ, ◌<◌, ◌≤ℤ◌, length, IfOk, IfSome};
ghost use Rattle.bl_num.specs.Exact.{at};
ghost use Rattle.bl_problem.specs.Points.{IsFeasible};
ghost use Rattle.bl_bound.specs.Descriptions.{Describes};
ghost use Rattle.bl_heur.specs.Rounded.{entry_of, rounded_below, rounded_of};
ghost use Rattle.bl_heur.specs.Found.{IsFound, IsTestOf};

use bl_desc::Desc;
use bl_fixed::{Fixed, round};
use bl_mods::Items;
use bl_problem::{Cut, Problem};
use std::alloc::{AllocError, Global};

// The nearest whole number, moved to between low and high.
#[tactic(auto, using(std::proofs::lemmas::Int::clamps))]
pub fn entry(value: Fixed, low: i64, high: i64) -> i64
    requires { low ≤ℤ high }
    ensures exact { result ≡ entry_of value low high }
    ensures above { low ≤ℤ result }
    ensures below { result ≤ℤ high }
{
    let nearest = round(value);
    if nearest <= low as i128 {
        return low;
    }
    if high as i128 <= nearest {
        return high;
    }
    nearest as i64
}

// Each entry rounded, and moved into the box.
fn rounded(
    alloc: Global,
    lows: &[i64],
    highs: &[i64],
    point: &[Fixed],
) -> Result<Items<i64>, AllocError>
    requires highs { length highs.now ≡ length lows.now }
    requires width { length point.now ≡ length lows.now }
    requires some { (j : ℕ) → j < length lows.now → at lows.now j ≤ℤ at highs.now j }
    ensures { IfOk result (λ x. x ≡ rounded_below (length lows.now) lows.now highs.now point.now) }
{
    let mut entries = Items::with_room(alloc, lows.len())?;
    for j in 0..lows.len() {
        entries.push(entry(point[j], lows[j], highs[j]))?;
    }
    Ok(entries)
}

/// The point of the rounded entries, each moved into the description's box, where it is feasible;
/// `None` exactly where it is not. The box has a point; `point` has one entry for each column, in
/// units of 2^-40, and a half is rounded up. `AllocError` where there is no memory.
pub fn round_point(
    alloc: Global,
    problem: &Problem,
    desc: &Desc<Cut>,
    point: &[Fixed],
) -> Result<Option<Items<i64>>, AllocError>
    requires suits { Describes problem.now desc.now }
    requires some { (j : ℕ) → j < length desc.now.lows → at desc.now.lows j ≤ℤ at desc.now.highs j }
    requires width { length point.now ≡ length desc.now.lows }
    ensures exact { IfOk result
        (IsTestOf (IsFeasible problem.now) (rounded_of desc.now point.now)) }
    ensures found { IfOk result (λ o. IfSome o (IsFound problem.now desc.now)) }
{
    let entries = rounded(alloc, desc.lows.as_slice(), desc.highs.as_slice(), point)?;
    if problem.is_feasible(entries.as_slice()) {
        Ok(Some(entries))
    } else {
        Ok(None)
    }
}
