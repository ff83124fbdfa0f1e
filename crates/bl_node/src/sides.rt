// Probing: where no point in question meets a decision, all meet the opposite one.
ghost use Rattle.std.specs.Prelude.{◌≡◌, ◌≢◌, ◌-◌, ◌<◌, ◌^◌, ◌∷◌, [], List, length, IfOk, IfSome};
ghost use Rattle.std.specs.Prelude.{OnOk, None, true, false};
ghost use Rattle.bl_problem.specs.Sums.{IsWithin};
ghost use Rattle.bl_problem.specs.Points.{InBox};
ghost use Rattle.bl_problem.specs.Decisions.{Meets};
ghost use Rattle.bl_prop.specs.Limits.{IsDecision};
ghost use Rattle.bl_journal.specs.declared.limits.TheConstants.{MOST_BOUNDS};
ghost use Rattle.bl_node.specs.Sides.{IsSideOf, opposite_of};
ghost use Rattle.bl_node.specs.Standing.{OfAllInQuestion, Stands};
ghost use Rattle.bl_node.specs.Moves.{IsOpen, Moves};

use crate::state::{State, bound_by, narrow, propagate};
use crate::steps::{has_point, take_decision};
use crate::working::Working;
use bl_desc::Desc;
use bl_journal::MOST_BOUNDS;
use bl_problem::{Cut, Decision, Problem, Side as Bound};
use std::alloc::{AllocError, Global};

/// Decisions at the limit of bounds have no opposite.
const MOST_VALUE: i64 = 999_999_999;

// A node's description with one more decision, and the state of the work on it.
#[derive(Drop)]
pub struct Side {
    pub desc: Desc<Cut>,
    pub state: State,
}

// The decision that each point meets that doesn't meet this one.
fn opposite(decision: Decision) -> Decision
    requires { IsWithin (10 ^ 9 - 1) decision.value }
    ensures { result ≡ opposite_of decision }
{
    let column = decision.column;
    match decision.side {
        Bound::AtLeast => Decision {
            column,
            side: Bound::AtMost,
            value: decision.value - 1,
        },
        Bound::AtMost => Decision {
            column,
            side: Bound::AtLeast,
            value: decision.value + 1,
        },
    }
}

// Whether the decision is on a column of the problem and has an opposite.
fn has_opposite(problem: &Problem, decision: Decision) -> bool
    ensures here { result ≡ true → IsDecision (length problem.now.columns) decision }
    ensures near { result ≡ true → IsWithin (10 ^ 9 - 1) decision.value }
{
    (decision.column as usize) < problem.columns().len()
        && -MOST_VALUE <= decision.value
        && decision.value <= MOST_VALUE
}

// The side of the decision. None where its box has no point.
fn side_of(
    problem: &Problem,
    parent: &Desc<Cut>,
    state: &State,
    decision: Decision,
) -> Result<Option<Side>, AllocError>
    requires within { IsOpen problem.now parent.now state.now }
    requires open { state.now.is_shut ≡ false }
    requires decision { IsDecision (length problem.now.columns) decision }
    requires room { state.now.work.decided < MOST_BOUNDS }
    ensures side { IfOk result
        (λ side. IfSome side (IsSideOf problem.now parent.now state.now decision)) }
    ensures empty { IfOk result (λ side. side ≡ None → (x : List _)
        → InBox state.now.work.desc.lows state.now.work.desc.highs x → ¬ (Meets x decision)) }
{
    let mut narrower = state.work.duplicate()?;
    take_decision(&mut narrower, decision);
    if !has_point(
        narrower.desc.lows.as_slice(),
        narrower.desc.highs.as_slice(),
    ) {
        return Ok(None);
    }
    let desc = narrower.desc.duplicate()?;
    let work = Working {
        desc: narrower.desc,
        found: None,
        best: narrower.best,
        low: narrower.low,
        decided: 0,
    };
    let state = State {
        work,
        limits: state.limits,
        made: 0,
        is_shut: false,
    };
    Ok(Some(Side { desc, state }))
}

// Whether the node is shut, and no point was found.
fn is_shut_empty(state: &State) -> bool
    ensures shut { result ≡ true → state.now.is_shut ≡ true }
    ensures none { result ≡ true → state.now.work.found ≡ None }
{
    match &state.work.found {
        None => state.is_shut,
        Some(_) => false,
    }
}

// Whether propagation or the bound of the multipliers shows that no point in question meets the
// decision.
fn is_closed(
    alloc: Global,
    problem: &Problem,
    parent: &Desc<Cut>,
    state: &State,
    decision: Decision,
    y: &[i64],
    d: i64,
) -> Result<bool, AllocError>
    requires within { IsOpen problem.now parent.now state.now }
    requires open { state.now.is_shut ≡ false }
    requires decision { IsDecision (length problem.now.columns) decision }
    requires room { state.now.work.decided < MOST_BOUNDS }
    ensures { IfOk result (λ closed. closed ≡ true → (cutoff : _)
        → Stands problem.now parent.now cutoff state.now.work
        → OfAllInQuestion problem.now parent.now state.now.work (λ x. ¬ (Meets x decision))) }
{
    let Some(side) = side_of(problem, parent, state, decision)? else {
        return Ok(true);
    };
    let Side { desc, mut state } = side;
    bound_by(problem, &desc, &mut state, y, d);
    propagate(alloc, problem, &desc, &mut state)?;
    bound_by(problem, &desc, &mut state, y, d);
    Ok(is_shut_empty(&state))
}

// Where the side of the decision is closed, the opposite decision narrows the box. Whether it is.
pub fn close_side(
    alloc: Global,
    problem: &Problem,
    parent: &Desc<Cut>,
    state: &mut State,
    decision: Decision,
    y: &[i64],
    d: i64,
) -> Result<bool, AllocError>
    requires { IsOpen problem.now parent.now state.old }
    ensures { IfOk result (λ closed. Moves problem.now parent.now state.old state.new) }
{
    if state.is_shut || MOST_BOUNDS <= state.work.decided || !has_opposite(problem, decision) {
        return Ok(false);
    }
    if !is_closed(alloc, problem, parent, state, decision, y, d)? {
        return Ok(false);
    }
    narrow(problem, parent, state, &[opposite(decision)]);
    Ok(true)
}
