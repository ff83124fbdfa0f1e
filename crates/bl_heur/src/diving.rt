//! Diving.
ghost use Rattle.std.specs.Prelude.{◌≡◌, ℕ, ◌+◌, ◌<◌, ◌≤ℤ◌, length, List, ℤ, IfOk, OnOk, IfSome};
ghost use Rattle.std.specs.Prelude.{Some, None, if◌then◌else◌};
ghost use Rattle.bl_num.specs.Exact.{at};
ghost use Rattle.bl_bound.specs.Descriptions.{Describes};
ghost use Rattle.bl_heur.specs.Found.{IsFound, IsTestOf};
ghost use Rattle.bl_heur.specs.Dives.{propagated, dived, dive_of, IsTestIn};

use crate::narrowing::{first_free, is_inside, narrow, take_low};
use bl_desc::Desc;
use bl_mods::Items;
use bl_problem::{Cut, Problem};
use bl_prop::{Tightened, tighten};
use std::alloc::{AllocError, Global};

/// So many passes at most before a column is chosen.
const MOST_PASSES: usize = 20;

// Passes until one changes nothing, but at most 20. False where one shows that no point is left.
pub fn propagate(alloc: Global, problem: &Problem, desc: &mut Desc<Cut>) -> Result<bool, AllocError>
    requires suits { Describes problem.now desc.old }
    ensures exact { IfOk result (λ some. propagated 20 problem.now desc.old
        ≡ (if some then Some desc.new else None)) }
    ensures suits { OnOk result (Describes problem.now desc.new) }
{
    for _ in 0..MOST_PASSES {
        match tighten(alloc, problem, desc)? {
            Tightened::Empty { row: _ } => return Ok(false),
            Tightened::Same => return Ok(true),
            Tightened::Changed(decisions) => narrow(desc, decisions.as_slice()),
        }
    }
    Ok(true)
}

// Turns until no column has more than one value. False where the dive ends without a point.
fn descend(alloc: Global, problem: &Problem, desc: &mut Desc<Cut>) -> Result<bool, AllocError>
    requires suits { Describes problem.now desc.old }
    ensures exact { IfOk result (λ some. dive_of problem.now desc.old
        ≡ (if some then Some desc.new.lows else None)) }
    ensures width { OnOk result (length desc.new.lows ≡ length desc.old.lows) }
{
    for _ in 0..problem.columns().len() + 1 {
        if !propagate(alloc, problem, desc)? {
            return Ok(false);
        }
        match first_free(desc.lows.as_slice(), desc.highs.as_slice()) {
            None => return Ok(true),
            Some(column) => take_low(desc, column),
        }
    }
    Ok(false)
}

// The point, where it is feasible and in the description's box.
pub fn tested(problem: &Problem, desc: &Desc<Cut>, point: Items<i64>) -> Option<Items<i64>>
    requires suits { Describes problem.now desc.now }
    requires width { length point ≡ length desc.now.lows }
    ensures { IsTestOf (IsFound problem.now desc.now) point result }
{
    let entries = point.as_slice();
    let (lows, highs) = (desc.lows.as_slice(), desc.highs.as_slice());
    if is_inside(lows, highs, entries) && problem.is_feasible(entries) {
        Some(point)
    } else {
        None
    }
}

/// The point at which a dive from the description ends, where it is feasible and in the box;
/// `None` exactly where it is not, or where the dive ends without a point. A turn tightens the
/// bounds, by at most 20 passes until one changes nothing, and ends the dive where a pass shows
/// that no point is left; then the first column that has more than one value takes its low, and
/// where there is none the dive ends at the box's one point. The box has a point. `AllocError`
/// where there is no memory.
pub fn dive(
    alloc: Global,
    problem: &Problem,
    desc: &Desc<Cut>,
) -> Result<Option<Items<i64>>, AllocError>
    requires suits { Describes problem.now desc.now }
    requires some { (j : ℕ) → j < length desc.now.lows → at desc.now.lows j ≤ℤ at desc.now.highs j }
    ensures exact { IfOk result (IsTestIn problem.now desc.now (dive_of problem.now desc.now)) }
    ensures found { IfOk result (λ o. IfSome o (IsFound problem.now desc.now)) }
{
    let mut end = desc.duplicate()?;
    if !descend(alloc, problem, &mut end)? {
        return Ok(None);
    }
    let point = end.lows.copy_all()?;
    Ok(tested(problem, desc, point))
}
