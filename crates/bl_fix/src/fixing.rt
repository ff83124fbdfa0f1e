//! Fixing by reduced costs.
ghost use Rattle.std.specs.Prelude.{◌≡◌, ◌+◌, pos, ◌≤ℤ◌, ◌<ℤ◌, length, List, ℤ, IfOk, IfSome};
ghost use Rattle.std.specs.Prelude.{IsSomeAnd};
ghost use Rattle.bl_problem.specs.Points.{value_of};
ghost use Rattle.bl_problem.specs.Decisions.{MeetsAll};
ghost use Rattle.bl_bound.specs.Bounds.{bound_of};
ghost use Rattle.bl_bound.specs.Descriptions.{Describes, IsLeft};
ghost use Rattle.bl_bound.specs.Reduced.{IsReduced, bound_by};
ghost use Rattle.bl_prop.specs.Limits.{AreDecisions};
ghost use Rattle.bl_fix.specs.Gaps.{fixed_of, fixed_of_reduced};

use crate::deciding::{decisions, gap};
use bl_bound::ReducedCosts;
use bl_desc::Desc;
use bl_mods::Items;
use bl_problem::{Cut, Decision, Problem};
use std::alloc::{AllocError, Global};

/// Reduced-cost fixing (Dantzig, Fulkerson, Johnson 1954): what the multipliers `y`, one for each
/// row and then for each cut, over the common denominator `d` leave of each column in a point
/// whose value is below `cutoff`, in units of 10^-scale. Their bound is there and is below the
/// cutoff. The decisions are in order of columns, and it stops after 256. `None` exactly where
/// the cutoff less 1, its product with `d`, or that less the bound's sum leaves `i128`.
/// `AllocError` where there is no memory.
pub fn fix(
    alloc: Global,
    problem: &Problem,
    desc: &Desc<Cut>,
    y: &[i64],
    d: i64,
    cutoff: i128,
) -> Result<Option<Items<Decision>>, AllocError>
    requires suits { Describes problem.now desc.now }
    requires multipliers { length y.now ≡ length problem.now.rows + length desc.now.cuts }
    requires counted { pos 1 ≤ℤ d }
    requires below { IsSomeAnd (bound_of problem.now desc.now y.now d) (λ b. b <ℤ cutoff) }
    ensures exact { IfOk result (λ o. o ≡ fixed_of problem.now desc.now y.now d cutoff) }
    ensures within { IfOk result (λ o. IfSome o (AreDecisions (length problem.now.columns))) }
    ensures keeps { IfOk result (λ o. IfSome o (λ ds. (x : List ℤ) → IsLeft problem.now desc.now x
        → value_of problem.now x <ℤ cutoff → MeetsAll x ds)) }
{
    let reduced = ReducedCosts::new(alloc, problem, desc, y, d)?;
    fix_by(alloc, problem, desc, &reduced, cutoff)
}

/// What `fix` gives, from reduced costs that are there already, for the same problem and
/// description: so bound and fixing are one pass over the nonzeros. `AllocError` where there is
/// no memory.
pub fn fix_by(
    alloc: Global,
    problem: &Problem,
    desc: &Desc<Cut>,
    reduced: &ReducedCosts,
    cutoff: i128,
) -> Result<Option<Items<Decision>>, AllocError>
    requires suits { Describes problem.now desc.now }
    requires width { length reduced.now.costs ≡ length problem.now.columns }
    requires below { IsSomeAnd (bound_by reduced.now) (λ b. b <ℤ cutoff) }
    ensures exact { IfOk result (λ o. o ≡ fixed_of_reduced reduced.now desc.now cutoff) }
    ensures stated { IfOk result (λ o. (y : List ℤ) → IsReduced problem.now desc.now y reduced.now
        → o ≡ fixed_of problem.now desc.now y reduced.now.denominator cutoff) }
    ensures within { IfOk result (λ o. IfSome o (AreDecisions (length problem.now.columns))) }
    ensures keeps { IfOk result
        (λ o. IfSome o (λ ds. (y x : List ℤ) → IsReduced problem.now desc.now y reduced.now
        → IsLeft problem.now desc.now x → value_of problem.now x <ℤ cutoff → MeetsAll x ds)) }
{
    let columns = problem.columns();
    let Some(sum) = reduced.sum() else {
        return Ok(None);
    };
    let Some(gap) = gap(reduced.denominator(), cutoff, sum) else {
        return Ok(None);
    };
    let (lows, highs) = (desc.lows.as_slice(), desc.highs.as_slice());
    let costs = &reduced.costs()[..columns.len()];
    Ok(Some(decisions(alloc, gap, costs, lows, highs)?))
}
