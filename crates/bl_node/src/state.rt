// The state of the work on a node, and the moves that it makes.
ghost use Rattle.std.specs.Prelude.{◌≡◌, ◌+◌, ◌≤ℤ◌, ◌<ℤ◌, List, length, IfSome, IsSomeAnd, IfOk};
ghost use Rattle.std.specs.Prelude.{OnOk, true, false};
ghost use Rattle.bl_problem.specs.Points.{InBox, value_of};
ghost use Rattle.bl_problem.specs.Decisions.{MeetsAll};
ghost use Rattle.bl_bound.specs.Descriptions.{IsLeft};
ghost use Rattle.bl_bound.specs.Reduced.{bound_by};
ghost use Rattle.bl_prop.specs.Limits.{AreDecisions};
ghost use Rattle.bl_node.specs.Standing.{IsNode, OfAllInQuestion, Stands};
ghost use Rattle.bl_node.specs.Moves.{IsOpen, Moves};

use crate::limits::Limits;
use crate::steps::{accept, decide, is_cut_off, raise, tighten_all};
use crate::working::{Pass, Working};
use bl_bound::{ReducedCosts, bound, empty};
use bl_desc::Desc;
use bl_fix::fix_by as fix_reduced;
use bl_grid::{lowered, raised};
use bl_mods::Items;
use bl_problem::{Cut, Decision, Problem};
use std::alloc::{AllocError, Global};

// What the work has come to, how many cuts it has made, and whether it has shown that no point
// is in question.
#[derive(Drop)]
pub struct State {
    pub work: Working,
    pub limits: Limits,
    pub made: u32,
    pub is_shut: bool,
}

impl State {
    // An equal state.
    pub fn duplicate(&self) -> Result<State, AllocError>
        ensures { IfOk result (λ copy. copy ≡ self.now) }
    {
        Ok(State {
            work: self.work.duplicate()?,
            limits: self.limits,
            made: self.made,
            is_shut: self.is_shut,
        })
    }
}

// The node is shut where the low has reached the cutoff.
pub fn close(problem: &Problem, parent: &Desc<Cut>, state: &mut State)
    requires { IsOpen problem.now parent.now state.old }
    ensures { Moves problem.now parent.now state.old state.new }
{
    if is_cut_off(&state.work) {
        state.is_shut = true;
    }
}

// Passes of tightening until the box stays.
pub fn propagate(
    alloc: Global,
    problem: &Problem,
    parent: &Desc<Cut>,
    state: &mut State,
) -> Result<(), AllocError>
    requires { IsOpen problem.now parent.now state.old }
    ensures { OnOk result (Moves problem.now parent.now state.old state.new) }
{
    if state.is_shut {
        return Ok(());
    }
    match tighten_all(alloc, problem, parent, &mut state.work)? {
        Pass::Shut => {
            state.is_shut = true;
            Ok(())
        }
        _ => Ok(()),
    }
}

// Whether these are multipliers for the rows and the cuts so far.
fn are_multipliers(problem: &Problem, work: &Working, y: &[i64]) -> bool
    ensures { result ≡ true → length y.now ≡ length problem.now.rows + length work.now.desc.cuts }
{
    let rows = problem.rows().len();
    rows <= y.len() && y.len() - rows == work.desc.cuts.len()
}

// A bound of the points that are left raises the low, as far as no value lies between.
fn raise_to(problem: &Problem, parent: &Desc<Cut>, state: &mut State, bound: i128)
    requires within { IsOpen problem.now parent.now state.old }
    requires open { state.old.is_shut ≡ false }
    requires below { (x : List _) → IsLeft problem.now state.old.work.desc x
        → bound ≤ℤ value_of problem.now x }
    ensures { Moves problem.now parent.now state.old state.new }
{
    raise(&mut state.work, raised(problem, bound));
    close(problem, parent, state);
}

// The bound of multipliers over a common denominator raises the low.
pub fn bound_by(problem: &Problem, parent: &Desc<Cut>, state: &mut State, y: &[i64], d: i64)
    requires { IsOpen problem.now parent.now state.old }
    ensures { Moves problem.now parent.now state.old state.new }
{
    if state.is_shut || d < 1 || !are_multipliers(problem, &state.work, y) {
        return;
    }
    if let Some(bound) = bound(problem, &state.work.desc, y, d) {
        raise_to(problem, parent, state, bound);
    }
}

// Decisions that each point in question meets narrow the box.
pub fn narrow(problem: &Problem, parent: &Desc<Cut>, state: &mut State, decisions: &[Decision])
    requires within { IsOpen problem.now parent.now state.old }
    requires open { state.old.is_shut ≡ false }
    requires decisions { AreDecisions (length problem.now.columns) decisions.now }
    requires met { (cutoff : _) → Stands problem.now parent.now cutoff state.old.work
        → OfAllInQuestion problem.now parent.now state.old.work (λ x. MeetsAll x decisions.now) }
    ensures { Moves problem.now parent.now state.old state.new }
{
    if let Pass::Shut = decide(problem, &mut state.work, decisions) {
        state.is_shut = true;
    }
}

// The bound that comes with reduced costs raises the low.
fn raise_by(problem: &Problem, parent: &Desc<Cut>, state: &mut State, reduced: &ReducedCosts)
    requires within { IsOpen problem.now parent.now state.old }
    requires open { state.old.is_shut ≡ false }
    requires below { IfSome (bound_by reduced.now)
        (λ b. (x : List _) → IsLeft problem.now state.old.work.desc x
        → b ≤ℤ value_of problem.now x) }
    ensures { Moves problem.now parent.now state.old state.new }
{
    if let Some(bound) = reduced.bound() {
        raise_to(problem, parent, state, bound);
    }
}

// The reduced costs of multipliers over a common denominator fix columns, or their bound shuts
// the node, where there is a cutoff.
pub fn fix_by(
    alloc: Global,
    problem: &Problem,
    parent: &Desc<Cut>,
    state: &mut State,
    y: &[i64],
    d: i64,
) -> Result<(), AllocError>
    requires { IsOpen problem.now parent.now state.old }
    ensures { OnOk result (Moves problem.now parent.now state.old state.new) }
{
    if state.is_shut || d < 1 || !are_multipliers(problem, &state.work, y) {
        return Ok(());
    }
    let Some(best) = state.work.best else {
        return Ok(());
    };
    let cutoff = lowered(problem, best);
    let reduced = ReducedCosts::new(alloc, problem, &state.work.desc, y, d)?;
    if !is_below(&reduced, cutoff) {
        raise_by(problem, parent, state, &reduced);
        return Ok(());
    }
    if let Some(decisions) = fix_reduced(alloc, problem, &state.work.desc, &reduced, cutoff)? {
        narrow(problem, parent, state, decisions.as_slice());
    }
    Ok(())
}

// Whether there is a bound, and it is below the cutoff.
fn is_below(reduced: &ReducedCosts, cutoff: i128) -> bool
    ensures { result ≡ true → IsSomeAnd (bound_by reduced.now) (λ b. b <ℤ cutoff) }
{
    match reduced.bound() {
        Some(bound) => bound < cutoff,
        None => false,
    }
}

// The node is shut where the multipliers show that no point is left.
pub fn refute_by(problem: &Problem, parent: &Desc<Cut>, state: &mut State, y: &[i64])
    requires { IsOpen problem.now parent.now state.old }
    ensures { Moves problem.now parent.now state.old state.new }
{
    if state.is_shut || !are_multipliers(problem, &state.work, y) {
        return;
    }
    if empty(problem, &state.work.desc, y) {
        state.is_shut = true;
    }
}

// Whether the point has an entry for each column, between its low and its high.
fn is_inside(lows: &[i64], highs: &[i64], point: &[i64]) -> bool
    requires { length highs.now ≡ length lows.now }
    ensures { result ≡ true → InBox lows.now highs.now point.now }
{
    if point.len() != lows.len() {
        return false;
    }
    for j in 0..lows.len() {
        if point[j] < lows[j] || highs[j] < point[j] {
            return false;
        }
    }
    true
}

// A point, wherever it comes from, becomes the found one, if it is feasible, lies in the node
// and is better.
pub fn offer(problem: &Problem, parent: &Desc<Cut>, state: &mut State, point: Items<i64>)
    requires within { IsOpen problem.now parent.now state.old }
    requires node { IsNode problem.now parent.now }
    ensures { Moves problem.now parent.now state.old state.new }
{
    if state.is_shut
        || !is_inside(
            parent.lows.as_slice(),
            parent.highs.as_slice(),
            point.as_slice(),
        )
        || !problem.is_feasible(point.as_slice())
    {
        return;
    }
    let _columns = problem.columns();
    accept(problem, &mut state.work, point);
    close(problem, parent, state);
}
