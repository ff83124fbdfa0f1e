//! The work on a node.
ghost use Rattle.std.specs.Prelude.{◌≡◌, ℕ, ℤ, ◌+◌, ◌<◌, ◌≤◌, ◌^◌, pos, ◌≤ℤ◌, ◌<ℤ◌, List, length};
ghost use Rattle.std.specs.Prelude.{All, IfOk, IfSome, OnOk, IsTrue, true, false};
ghost use Rattle.bl_num.specs.Exact.{at};
ghost use Rattle.bl_problem.specs.Points.{InBox};
ghost use Rattle.bl_branch.specs.Rules.{HasTwoPoints, IsSplittable, Splits};
ghost use Rattle.bl_branch.specs.Calls.{IsRule, Answers};
ghost use Rattle.std.specs.Prelude.{◌⊎◌};
ghost use Rattle.bl_prop.specs.Answers.{tightened_of};
ghost use Rattle.bl_journal.specs.declared.outcome.Next.TheVariants.{Shut};
ghost use Rattle.bl_node.specs.Boxes.{Shrinks, BoxMeets, decisions_in, HasStatusesOf};
ghost use Rattle.bl_cover.specs.Tries.{AllowedBy};
ghost use Rattle.bl_cover.specs.declared.separator.CutKinds.TheVariants.{Rows as RowsKind};
ghost use Rattle.bl_node.specs.Names.{AreNamedBelow};
ghost use Rattle.bl_node.specs.Promise.{AddsCuts, IsPromised, SplitsAsPromised};
ghost use Rattle.bl_node.specs.Standing.{box_of, OfAllInQuestion, Stands, Narrows, IsNode};
ghost use Rattle.bl_node.specs.Standing.{IsAboveUnits};
ghost use Rattle.bl_node.specs.Outcomes.{HasFewStatuses, IsSplitOf, IsGood, IsSplitAt, form_of};

use crate::guess::asked_point;
use crate::hints::Hints;
use crate::improve::improve;
use crate::limits::Limits;
use crate::split::{shut, split};
use crate::state::State;
use crate::statuses::settle;
use crate::steps::{accept, is_cut_off, pass, start};
use crate::working::{Pass, Working};
use bl_branch::{BranchRule, Place};
use bl_cover::{CutKinds, KindSeparator, Separate};
use bl_desc::{Desc, Form};
use bl_fixed::Fixed;
use bl_journal::Outcome;
use bl_problem::{Cut, Problem};
use std::alloc::{AllocError, Global};

// The form of the children.
fn child_form(limits: &Limits) -> Form
    ensures { result ≡ form_of limits.now }
{
    if limits.explicit {
        Form::Explicit
    } else {
        Form::Relative
    }
}

// Whether a column has two values or more.
pub fn has_two(lows: &[i64], highs: &[i64]) -> bool
    requires width { length highs.now ≡ length lows.now }
    requires point { (j : ℕ) → j < length lows.now → at lows.now j ≤ℤ at highs.now j }
    ensures two { result ≡ true → HasTwoPoints lows.now highs.now }
    ensures one { result ≡ false → (j : ℕ) → j < length lows.now → at highs.now j ≤ℤ at lows.now j }
{
    for j in 0..lows.len() {
        if lows[j] < highs[j] {
            return true;
        }
    }
    false
}

// The one point of the box so far becomes the found one, if it is feasible and better.
fn test_last(problem: &Problem, parent: &Desc<Cut>, work: &mut Working) -> Result<(), AllocError>
    requires narrows { Narrows problem.now parent.now work.old }
    requires one { (j : ℕ) → j < length work.old.desc.lows
        → at work.old.desc.highs j ≤ℤ at work.old.desc.lows j }
    ensures stands { OnOk result ((cutoff : _) → Stands problem.now parent.now cutoff work.old
        → Stands problem.now parent.now cutoff work.new) }
    ensures none { OnOk result ((cutoff : _) → Stands problem.now parent.now cutoff work.old
        → OfAllInQuestion problem.now parent.now work.new (λ x. ⊥)) }
{
    if problem.is_feasible(work.desc.lows.as_slice()) {
        let point = work.desc.lows.copy_all()?;
        accept(problem, work, point);
    }
    Ok(())
}

// The outcome once the box stays: its one point is tested, or it is split where the rule says.
fn finish<F: Fn(&Desc<Cut>, &[Fixed]) -> Place>(
    alloc: Global,
    problem: &Problem,
    parent: &Desc<Cut>,
    rule: &BranchRule<F>,
    point: &[Fixed],
    limits: &Limits,
    work: Working,
) -> Result<Outcome, AllocError>
    requires node { IsNode problem.now parent.now }
    requires narrows { Narrows problem.now parent.now work }
    requires few { HasFewStatuses parent.now work.desc }
    requires rule { IsRule F.Fn rule.now.closure }
    requires width { length point.now ≡ length work.desc.lows }
    ensures sound { IfOk result (λ o. (cutoff : _) → Stands problem.now parent.now cutoff work
        → IsGood problem.now parent.now cutoff o) }
    ensures split { IfOk result (IsSplitAt
        (λ place. Answers F.Fn rule.now.closure work.desc point.now place) parent.now work
        (form_of limits.now)) }
{
    if has_two(work.desc.lows.as_slice(), work.desc.highs.as_slice()) {
        let place = rule.choose(&work.desc, point);
        return split(alloc, problem, parent, child_form(limits), place, work);
    }
    let mut work = work;
    test_last(problem, parent, &mut work)?;
    Ok(shut(work))
}

// The outcome of the work once the first pass was made, and left points.
fn after_pass<F: Fn(&Desc<Cut>, &[Fixed]) -> Place, S: Separate>(
    alloc: Global,
    problem: &Problem,
    parent: &Desc<Cut>,
    rule: &BranchRule<F>,
    separator: &S,
    limits: &Limits,
    hints: &mut Hints,
    work: Working,
) -> Result<Outcome, AllocError>
    requires node { IsNode problem.now parent.now }
    requires narrows { Narrows problem.now parent.now work }
    requires room { limits.now.serial + limits.now.new_cuts < 2 ^ 32 }
    requires rule { IsRule F.Fn rule.now.closure }
    requires met { All (BoxMeets (box_of work.desc))
        (decisions_in (tightened_of problem.now parent.now)) }
    requires units { IsAboveUnits problem.now parent.now work.low }
    requires names { AreNamedBelow limits.now.seat limits.now.serial parent.now.cuts }
    requires cuts { work.desc.cuts ≡ parent.now.cuts }
    ensures adds { IfOk result (λ o. AddsCuts (S.allows separator.now problem.now) problem.now
        parent.now limits.now o.next) }
    ensures sound { IfOk result (λ o. (cutoff : _) → Stands problem.now parent.now cutoff work
        → IsGood problem.now parent.now cutoff o) }
    ensures split { IfOk result (λ o. (o.next ≡ Shut)
        ⊎ SplitsAsPromised F.Fn rule.now.closure problem.now parent.now (form_of limits.now) o) }
{
    let mut state = State {
        work,
        limits: *limits,
        made: 0,
        is_shut: false,
    };
    let guess = improve(alloc, problem, parent, separator, &mut state, hints)?;
    if state.is_shut {
        return Ok(shut(state.work));
    }
    let mut work = state.work;
    settle(problem, parent, &mut work)?;
    let point = asked_point(alloc, work.desc.lows.len(), guess)?;
    finish(alloc, problem, parent, rule, point.as_slice(), limits, work)
}

/// The outcome of the work on a node: branch and cut by the separator of cuts from one row.
/// As `work_with` otherwise.
pub fn work<F: Fn(&Desc<Cut>, &[Fixed]) -> Place>(
    alloc: Global,
    problem: &Problem,
    desc: &Desc<Cut>,
    cutoff: Option<i128>,
    rule: &BranchRule<F>,
    limits: &Limits,
) -> Result<Outcome, AllocError>
    requires node { IsNode problem.now desc.now }
    requires point { (j : ℕ) → j < length desc.now.lows → at desc.now.lows j ≤ℤ at desc.now.highs
        j }
    requires names { AreNamedBelow limits.now.seat limits.now.serial desc.now.cuts }
    requires room { limits.now.serial + limits.now.new_cuts < 2 ^ 32 }
    requires rule { IsRule F.Fn rule.now.closure }
    ensures { IfOk result (IsPromised F.Fn rule.now.closure (AllowedBy RowsKind problem.now)
        problem.now desc.now cutoff limits.now) }
{
    let separator = KindSeparator::new(CutKinds::Rows);
    work_with(alloc, problem, desc, cutoff, rule, &separator, limits)
}

/// As `work_hinted`, without hints of earlier nodes.
pub fn work_with<F: Fn(&Desc<Cut>, &[Fixed]) -> Place, S: Separate>(
    alloc: Global,
    problem: &Problem,
    desc: &Desc<Cut>,
    cutoff: Option<i128>,
    rule: &BranchRule<F>,
    separator: &S,
    limits: &Limits,
) -> Result<Outcome, AllocError>
    requires node { IsNode problem.now desc.now }
    requires point { (j : ℕ) → j < length desc.now.lows → at desc.now.lows j ≤ℤ at desc.now.highs
        j }
    requires names { AreNamedBelow limits.now.seat limits.now.serial desc.now.cuts }
    requires room { limits.now.serial + limits.now.new_cuts < 2 ^ 32 }
    requires rule { IsRule F.Fn rule.now.closure }
    ensures { IfOk result (IsPromised F.Fn rule.now.closure (S.allows separator.now problem.now)
        problem.now desc.now cutoff limits.now) }
{
    let mut hints = Hints::new(alloc);
    work_hinted(
        alloc, problem, desc, cutoff, rule, separator, limits, &mut hints,
    )
}

/// The outcome of the work on a node of this description, whose box has a point and whose cuts hold
/// for every feasible point and carry serial numbers below the limits', where they carry its seat.
/// In question are the feasible points of the box whose value is below the cutoff, in units of
/// 10^-scale (all, without a cutoff). The outcome is sound: it loses none of them. The node is shut
/// where a pass of propagation shows that its box has none or where a unit bound reaches the
/// cutoff; where it is split, the place is one that the rule answers. Each added cut is what
/// `derive` or `cover_cut` gives for a try that the separator may make at the description so
/// far; whatever it proposes, the cuts hold for every feasible point. The hints, which may hold
/// anything, are used and renewed. `AllocError` where there is no memory.
pub fn work_hinted<F: Fn(&Desc<Cut>, &[Fixed]) -> Place, S: Separate>(
    alloc: Global,
    problem: &Problem,
    desc: &Desc<Cut>,
    cutoff: Option<i128>,
    rule: &BranchRule<F>,
    separator: &S,
    limits: &Limits,
    hints: &mut Hints,
) -> Result<Outcome, AllocError>
    requires node { IsNode problem.now desc.now }
    requires point { (j : ℕ) → j < length desc.now.lows → at desc.now.lows j ≤ℤ at desc.now.highs
        j }
    requires names { AreNamedBelow limits.now.seat limits.now.serial desc.now.cuts }
    requires room { limits.now.serial + limits.now.new_cuts < 2 ^ 32 }
    requires rule { IsRule F.Fn rule.now.closure }
    ensures { IfOk result (IsPromised F.Fn rule.now.closure (S.allows separator.now problem.now)
        problem.now desc.now cutoff limits.now) }
{
    let mut work = start(problem, desc, cutoff)?;
    if is_cut_off(&work) {
        return Ok(shut(work));
    }
    match pass(alloc, problem, &mut work)? {
        Pass::Shut => Ok(shut(work)),
        _ => after_pass(alloc, problem, desc, rule, separator, limits, hints, work),
    }
}
