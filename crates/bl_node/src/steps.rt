// The steps of the work: each keeps what is known of the points in question.
ghost use Rattle.std.specs.Prelude.{◌≡◌, ◌≢◌, ℕ, ℤ, ◌+◌, ◌<◌, ◌≤◌, ◌^◌, ◌≤ℤ◌, ◌<ℤ◌, List, []};
ghost use Rattle.std.specs.Prelude.{◌∷◌, length, All, IfOk, IfSome, IsSomeAnd, OnOk, IsTrue};
ghost use Rattle.std.specs.Prelude.{true, false};
ghost use Rattle.std.specs.Int.{int_max};
ghost use Rattle.bl_problem.specs.Sums.{IsWithin};
ghost use Rattle.bl_problem.specs.Program.{Program};
ghost use Rattle.bl_problem.specs.Points.{IsFeasible, InBox, value_of};
ghost use Rattle.bl_problem.specs.Decisions.{MeetsAll};
ghost use Rattle.bl_problem.specs.Cuts.{SuitsProblem, IsValidCut};
ghost use Rattle.bl_problem.specs.declared.cut.Cut.{Cut as AnyCut};
ghost use Rattle.bl_desc.specs.declared.desc.Desc.{Desc as AnyDesc};
ghost use Rattle.bl_bound.specs.Descriptions.{Describes, IsLeft};
ghost use Rattle.bl_prop.specs.Limits.{IsDecision, AreDecisions};
ghost use Rattle.bl_num.specs.Exact.{at};
ghost use Rattle.bl_prop.specs.Answers.{tightened_of};
ghost use Rattle.bl_journal.specs.declared.limits.TheConstants.{MOST_BOUNDS, MOST_CUTS};
ghost use Rattle.bl_node.specs.declared.working.Pass.TheVariants.{Shut};
ghost use Rattle.bl_node.specs.Boxes.{Shrinks, BoxMeets, decisions_in, SaysEmpty, HasStatusesOf};
ghost use Rattle.bl_node.specs.Standing.{box_of, OfAllInQuestion, Stands, Narrows};
ghost use Rattle.bl_node.specs.Standing.{TakesDecisions, Knows, Leaves, IsNewTo, IsNode};
ghost use Rattle.bl_node.specs.Standing.{IsAboveUnits, AddsCut, is_reached};

use crate::working::{Pass, Working};
use bl_bound::greatest_unit_bound;
use bl_desc::{Desc, Status};
use bl_mods::{Items, Shared};
use bl_problem::{Cut, Decision, Problem, Side};
use bl_prop::{Tightened, tighten};
use std::alloc::{AllocError, Global};

// Narrows the box by a decision.
pub fn take_decision(work: &mut Working, decision: Decision)
    requires decision { IsDecision (length work.old.desc.lows) decision }
    requires highs { length work.old.desc.highs ≡ length work.old.desc.lows }
    requires room { work.old.decided < 2 ^ 63 }
    ensures { TakesDecisions work.old (decision ∷ []) work.new }
{
    let j = decision.column as usize;
    match decision.side {
        Side::AtLeast => {
            let low = work.desc.lows.as_slice()[j];
            work.desc.lows.set(j, low.max(decision.value));
        }
        Side::AtMost => {
            let high = work.desc.highs.as_slice()[j];
            work.desc.highs.set(j, high.min(decision.value));
        }
    }
    work.decided += 1;
}

// Narrows the box by decisions.
fn take_decisions(work: &mut Working, decisions: &[Decision])
    requires decisions { AreDecisions (length work.old.desc.lows) decisions.now }
    requires highs { length work.old.desc.highs ≡ length work.old.desc.lows }
    requires room { work.old.decided ≤ MOST_BOUNDS }
    ensures { TakesDecisions work.old decisions.now work.new }
{
    for decision in decisions {
        take_decision(work, *decision);
    }
}

// Whether no low is above its high.
pub fn has_point(lows: &[i64], highs: &[i64]) -> bool
    requires { length highs.now ≡ length lows.now }
    ensures some { result ≡ true → (j : ℕ) → j < length lows.now → at lows.now j ≤ℤ at highs.now j }
    ensures none { result ≡ false → (x : List ℤ) → ¬ (InBox lows.now highs.now x) }
{
    for j in 0..lows.len() {
        if highs[j] < lows[j] {
            return false;
        }
    }
    true
}

// Decisions that each point in question meets narrow the box, as long as no more than
// `MOST_BOUNDS` bounds are decided.
pub fn decide(problem: &Problem, work: &mut Working, decisions: &[Decision]) -> Pass
    requires describes { Describes problem.now work.old.desc }
    requires decisions { AreDecisions (length work.old.desc.lows) decisions.now }
    requires decided { work.old.decided ≤ MOST_BOUNDS }
    ensures knows { (f : AnyDesc AnyCut) (cutoff : _) → Stands problem.now f cutoff work.old
        → OfAllInQuestion problem.now f work.old (λ x. MeetsAll x decisions.now)
        → Knows problem.now f cutoff result work.new }
    ensures leaves { (f : AnyDesc AnyCut) → Narrows problem.now f work.old
        → Leaves problem.now f result work.new }
    ensures shrinks { Shrinks (box_of work.old.desc) (box_of work.new.desc) }
    ensures statuses { HasStatusesOf work.old.desc work.new.desc }
    ensures low { work.new.low ≡ work.old.low }
    ensures met { work.old.decided + length decisions.now ≤ MOST_BOUNDS
        → All (BoxMeets (box_of work.new.desc)) decisions.now }
{
    if 256 < work.decided + decisions.len() {
        return Pass::Same;
    }
    take_decisions(work, decisions);
    if has_point(work.desc.lows.as_slice(), work.desc.highs.as_slice()) {
        Pass::Changed
    } else {
        Pass::Shut
    }
}

// One pass of tightening.
pub fn pass(alloc: Global, problem: &Problem, work: &mut Working) -> Result<Pass, AllocError>
    requires describes { Describes problem.now work.old.desc }
    requires decided { work.old.decided ≤ MOST_BOUNDS }
    ensures knows { IfOk result (λ pass. (f : AnyDesc AnyCut) (cutoff : _)
        → Stands problem.now f cutoff work.old → Knows problem.now f cutoff pass work.new) }
    ensures leaves { IfOk result (λ pass. (f : AnyDesc AnyCut) → Narrows problem.now f work.old
        → Leaves problem.now f pass work.new) }
    ensures shrinks { IfOk result (λ pass. Shrinks (box_of work.old.desc) (box_of work.new.desc)) }
    ensures statuses { IfOk result (λ pass. HasStatusesOf work.old.desc work.new.desc) }
    ensures low { IfOk result (λ pass. work.new.low ≡ work.old.low) }
    ensures empty { IfOk result (λ pass. SaysEmpty (tightened_of problem.now work.old.desc) → pass
        ≡ Shut) }
    ensures met { IfOk result (λ pass. work.old.decided ≡ 0
        → All (BoxMeets (box_of work.new.desc))
        (decisions_in (tightened_of problem.now work.old.desc))) }
{
    match tighten(alloc, problem, &work.desc)? {
        Tightened::Empty { row: _ } => Ok(Pass::Shut),
        Tightened::Same => Ok(Pass::Same),
        Tightened::Changed(decisions) => Ok(decide(problem, work, decisions.as_slice())),
    }
}

// A bound of all points in question raises the low.
pub fn raise(work: &mut Working, bound: i128)
    ensures low { work.new.low ≡ int_max work.old.low bound }
    ensures same { work.new.desc ≡ work.old.desc }
    ensures stands { (p : Program) (f : AnyDesc AnyCut) (cutoff : _) → Stands p f cutoff work.old
        → OfAllInQuestion p f work.old (λ x. bound ≤ℤ value_of p x) → Stands p f cutoff work.new }
    ensures narrows { (p : Program) (f : AnyDesc AnyCut) → Narrows p f work.old
        → Narrows p f work.new }
{
    work.low = work.low.max(bound);
}

// Whether the value is below the cutoff, or there is none.
fn is_better(best: Option<i128>, value: i128) -> bool
    ensures better { IsTrue result → IfSome best (λ c. value <ℤ c) }
    ensures others { result ≡ false → IsSomeAnd best (λ c. c ≤ℤ value) }
{
    match best {
        Some(cutoff) => value < cutoff,
        None => true,
    }
}

// A feasible point of the node becomes the found one, if it is better.
pub fn accept(problem: &Problem, work: &mut Working, point: Items<i64>)
    requires feasible { IsFeasible problem.now point }
    requires width { length point ≡ length problem.now.columns }
    requires near { All (IsWithin (10 ^ 9)) point }
    ensures stands { (f : AnyDesc AnyCut) (cutoff : _) → InBox f.lows f.highs point
        → Stands problem.now f cutoff work.old → Stands problem.now f cutoff work.new }
    ensures narrows { (f : AnyDesc AnyCut) → Narrows problem.now f work.old
        → Narrows problem.now f work.new }
    ensures reached { IsSomeAnd work.new.best (λ c. c ≤ℤ value_of problem.now point) }
    ensures same { work.new.desc ≡ work.old.desc }
    ensures low { work.new.low ≡ work.old.low }
{
    let value = problem.value(point.as_slice());
    if is_better(work.best, value) {
        work.best = Some(value);
        work.found = Some(point);
    }
}

// A cut of a new name that holds for every feasible point comes behind the others.
pub fn add_cut(alloc: Global, work: &mut Working, cut: Cut) -> Result<(), AllocError>
    requires few { length work.old.desc.cuts < MOST_CUTS }
    ensures adds { OnOk result (AddsCut work.old cut work.new) }
    ensures stands { OnOk result ((p : Program) (f : AnyDesc AnyCut) (cutoff : _)
        → IsValidCut p cut → Stands p f cutoff work.old → Stands p f cutoff work.new) }
    ensures narrows { OnOk result ((p : Program) (f : AnyDesc AnyCut) → SuitsProblem p cut
        → IsNewTo f work.old cut → Narrows p f work.old → Narrows p f work.new) }
{
    work.desc.cuts.push(Shared::new(alloc, cut)?)?;
    work.desc.cut_status.push(Status::Basic)?;
    Ok(())
}

// Passes until the box stays.
pub fn tighten_all(
    alloc: Global,
    problem: &Problem,
    parent: &Desc<Cut>,
    work: &mut Working,
) -> Result<Pass, AllocError>
    requires { Narrows problem.now parent.now work.old }
    ensures knows { IfOk result (λ pass. (cutoff : _)
        → Stands problem.now parent.now cutoff work.old → Knows problem.now parent.now cutoff pass
        work.new) }
    ensures leaves { IfOk result (λ pass. Leaves problem.now parent.now pass work.new) }
    ensures shrinks { IfOk result (λ pass. Shrinks (box_of work.old.desc) (box_of work.new.desc)) }
    ensures statuses { IfOk result (λ pass. HasStatusesOf work.old.desc work.new.desc) }
    ensures low { IfOk result (λ pass. work.new.low ≡ work.old.low) }
{
    for _ in 0..256 {
        match pass(alloc, problem, work)? {
            Pass::Changed => {}
            last => return Ok(last),
        }
    }
    Ok(Pass::Same)
}

// Whether the low has reached the cutoff, so that no point is in question.
pub fn is_cut_off(work: &Working) -> bool
    ensures none { IsTrue result → (p : Program) (f : AnyDesc AnyCut) (cutoff : _)
        → Stands p f cutoff work.now → OfAllInQuestion p f work.now (λ x. ⊥) }
    ensures exact { result ≡ is_reached work.now.low work.now.best }
{
    match work.best {
        Some(cutoff) => cutoff <= work.low,
        None => false,
    }
}

// The state before the first step: nothing is known but a bound of all points that are left.
pub fn start(
    problem: &Problem,
    parent: &Desc<Cut>,
    cutoff: Option<i128>,
) -> Result<Working, AllocError>
    requires node { IsNode problem.now parent.now }
    requires point { (j : ℕ) → j < length parent.now.lows
        → at parent.now.lows j ≤ℤ at parent.now.highs j }
    ensures stands { IfOk result (λ work. Stands problem.now parent.now cutoff work) }
    ensures narrows { IfOk result (λ work. Narrows problem.now parent.now work) }
    ensures same { IfOk result (λ work. work.desc ≡ parent.now) }
    ensures undecided { IfOk result (λ work. work.decided ≡ 0) }
    ensures units { IfOk result (λ work. IsAboveUnits problem.now parent.now work.low) }
{
    let low = greatest_unit_bound(problem, parent);
    Ok(Working {
        desc: parent.duplicate()?,
        found: None,
        best: cutoff,
        low,
        decided: 0,
    })
}
