// Rounds of proposals: each raises the low, tries points near its own, and narrows the box.
ghost use Rattle.std.specs.Prelude.{◌≡◌, ◌+◌, ◌<◌, ◌^◌, length, All, OnOk, IfOk, true, false};
ghost use Rattle.bl_problem.specs.Sums.{IsWithin};
ghost use Rattle.bl_node.specs.Names.{AreNamed};
ghost use Rattle.bl_node.specs.Standing.{IsNode};
ghost use Rattle.bl_node.specs.Moves.{IsOpen, Moves, CutMoves};

use crate::cutting::add_proposed;
use crate::dropping::drop_basic;
use crate::guess::{Guess, most_fractional, whole_below};
use crate::hints::{Hints, Multipliers, alone, padded};
use crate::limits::Limits;
use crate::node::has_two;
use crate::sides::close_side;
use crate::state::{State, bound_by, fix_by, offer, propagate, refute_by};
use crate::statuses::{Statuses, restate};
use bl_cover::Separate;
use bl_desc::Desc;
use bl_fixed::Fixed;
use bl_grid::lowered;
use bl_heur::{best_row_multiplier, guided_dive, round_point};
use bl_problem::{Cut, Decision, Problem, Side};
use bl_simplex::{Proposal, propose_below};
use std::alloc::{AllocError, Global};

/// The most rounds at a node before cuts.
const ROUNDS: usize = 5;

/// So many cuts in turn that raise no bound end the cutting.
const STALLS: usize = 6;

/// The greatest raw size of a point's entry at which a separator is asked.
const FARTHEST: u128 = 1 << 70;

// Whether the node isn't shut and its box has two points or more.
fn is_open(problem: &Problem, parent: &Desc<Cut>, state: &State) -> bool
    requires { IsOpen problem.now parent.now state.now }
    ensures { result ≡ true → state.now.is_shut ≡ false }
{
    !state.is_shut
        && has_two(
            state.work.desc.lows.as_slice(),
            state.work.desc.highs.as_slice(),
        )
}

// What the multipliers of the proposal show raises the low or shuts the node.
fn learn(problem: &Problem, parent: &Desc<Cut>, state: &mut State, proposal: &Proposal)
    requires { IsOpen problem.now parent.now state.old }
    ensures { Moves problem.now parent.now state.old state.new }
{
    refute_by(problem, parent, state, proposal.y.as_slice());
    bound_by(problem, parent, state, proposal.y.as_slice(), proposal.d);
}

// The point near the proposal's becomes the found one, if it is feasible and better.
fn try_points(
    alloc: Global,
    problem: &Problem,
    parent: &Desc<Cut>,
    state: &mut State,
    proposal: &Proposal,
) -> Result<(), AllocError>
    requires within { IsOpen problem.now parent.now state.old }
    requires node { IsNode problem.now parent.now }
    ensures { OnOk result (Moves problem.now parent.now state.old state.new) }
{
    if state.is_shut || proposal.point.len() != state.work.desc.lows.len() {
        return Ok(());
    }
    let point = round_point(alloc, problem, &state.work.desc, proposal.point.as_slice())?;
    if let Some(point) = point {
        offer(problem, parent, state, point);
    }
    Ok(())
}

// Now and then a dive by the proposal's point looks for a feasible one.
fn try_dive(
    alloc: Global,
    problem: &Problem,
    parent: &Desc<Cut>,
    state: &mut State,
    hints: &mut Hints,
    proposal: &Proposal,
) -> Result<(), AllocError>
    requires within { IsOpen problem.now parent.now state.old }
    requires node { IsNode problem.now parent.now }
    ensures { OnOk result (Moves problem.now parent.now state.old state.new) }
{
    if state.is_shut || !hints.is_dive_due(state.work.best.is_some()) {
        return Ok(());
    }
    let point = guided_dive(alloc, problem, &state.work.desc, proposal.point.as_slice())?;
    if let Some(point) = point {
        offer(problem, parent, state, point);
    }
    Ok(())
}

// The statuses of the proposal are kept, and its point tells where to go on.
fn keep(problem: &Problem, parent: &Desc<Cut>, state: &mut State, proposal: Proposal) -> Guess
    requires { IsOpen problem.now parent.now state.old }
    ensures { Moves problem.now parent.now state.old state.new }
{
    let statuses = Statuses {
        columns: proposal.column_status,
        rows: proposal.row_status,
        cuts: proposal.cut_status,
    };
    restate(problem, parent, state, statuses);
    Guess {
        point: proposal.point.into_vec(),
        branch: proposal.branch,
    }
}

// The multipliers of an earlier node shut the node or fix columns; those of its cuts are 0.
fn fix_by_hint(
    alloc: Global,
    problem: &Problem,
    parent: &Desc<Cut>,
    state: &mut State,
    hint: &Multipliers,
) -> Result<(), AllocError>
    requires { IsOpen problem.now parent.now state.old }
    ensures { OnOk result (Moves problem.now parent.now state.old state.new) }
{
    let (rows, d) = (hint.rows.as_slice(), hint.denominator);
    let cuts = state.work.desc.cuts.len();
    if cuts == 0 {
        return fix_by(alloc, problem, parent, state, rows, d);
    }
    let y = padded(alloc, rows, cuts)?;
    fix_by(alloc, problem, parent, state, y.as_slice(), d)
}

// The hints shut the node or fix columns, where there is a cutoff.
fn use_hints(
    alloc: Global,
    problem: &Problem,
    parent: &Desc<Cut>,
    state: &mut State,
    hints: &Hints,
) -> Result<(), AllocError>
    requires { IsOpen problem.now parent.now state.old }
    ensures { OnOk result (Moves problem.now parent.now state.old state.new) }
{
    if state.work.best.is_none() {
        return Ok(());
    }
    for hint in hints.recent() {
        fix_by_hint(alloc, problem, parent, state, hint)?;
    }
    propagate(alloc, problem, parent, state)
}

// Keeps the multipliers of the proposal as a hint.
fn keep_hint(
    alloc: Global,
    problem: &Problem,
    hints: &mut Hints,
    proposal: &Proposal,
) -> Result<(), AllocError> {
    let y = proposal.y.as_slice();
    match y.get(0..problem.rows().len()) {
        Some(rows) => hints.keep(alloc, rows, proposal.d),
        None => Ok(()),
    }
}

// Probes the column at the point's entry: a side that is closed decides the other.
fn probe(
    alloc: Global,
    problem: &Problem,
    parent: &Desc<Cut>,
    state: &mut State,
    proposal: &Proposal,
    column: u32,
) -> Result<(), AllocError>
    requires { IsOpen problem.now parent.now state.old }
    ensures { OnOk result (Moves problem.now parent.now state.old state.new) }
{
    let y = proposal.y.as_slice();
    let Some(entry) = proposal.point.as_slice().get(column as usize) else {
        return Ok(());
    };
    let at = whole_below(*entry);
    let below = Decision {
        column,
        side: Side::AtMost,
        value: at,
    };
    let above = Decision {
        column,
        side: Side::AtLeast,
        value: at.saturating_add(1),
    };
    if !close_side(alloc, problem, parent, state, below, y, proposal.d)? {
        close_side(alloc, problem, parent, state, above, y, proposal.d)?;
    }
    Ok(())
}

// Tests the sides whose penalties reach the cutoff: one that is closed decides the other.
fn test_sides(
    alloc: Global,
    problem: &Problem,
    parent: &Desc<Cut>,
    state: &mut State,
    proposal: &Proposal,
) -> Result<(), AllocError>
    requires { IsOpen problem.now parent.now state.old }
    ensures { OnOk result (Moves problem.now parent.now state.old state.new) }
{
    for tried in proposal.sides.as_slice() {
        let value = match tried.side {
            Side::AtMost => tried.at,
            Side::AtLeast => tried.at.saturating_add(1),
        };
        let decision = Decision {
            column: tried.column,
            side: tried.side,
            value,
        };
        close_side(
            alloc,
            problem,
            parent,
            state,
            decision,
            tried.y.as_slice(),
            tried.d,
        )?;
    }
    Ok(())
}

// Probes the columns whose entries are the most fractional, while no point is known: then bounds
// and fixing by reduced costs say little.
fn probe_all(
    alloc: Global,
    problem: &Problem,
    parent: &Desc<Cut>,
    state: &mut State,
    proposal: &Proposal,
) -> Result<(), AllocError>
    requires { IsOpen problem.now parent.now state.old }
    ensures { OnOk result (Moves problem.now parent.now state.old state.new) }
{
    if state.is_shut || state.work.best.is_some() {
        return Ok(());
    }
    for column in most_fractional(alloc, proposal.point.as_slice())? {
        probe(alloc, problem, parent, state, proposal, column)?;
    }
    Ok(())
}

// Where numbers are large, the best bound over one row raises the low, and its multiplier fixes
// columns.
fn bound_by_row(
    alloc: Global,
    problem: &Problem,
    parent: &Desc<Cut>,
    state: &mut State,
    hints: &mut Hints,
) -> Result<(), AllocError>
    requires { IsOpen problem.now parent.now state.old }
    ensures { OnOk result (Moves problem.now parent.now state.old state.new) }
{
    if state.is_shut || !hints.is_large(problem) {
        return Ok(());
    }
    let Some(best) = best_row_multiplier(alloc, problem, &state.work.desc)? else {
        return Ok(());
    };
    let cuts = state.work.desc.cuts.len();
    let lines = problem.rows().len().saturating_add(cuts);
    let y = alone(alloc, lines, best.row, best.value)?;
    bound_by(problem, parent, state, y.as_slice(), best.denominator);
    fix_by(
        alloc,
        problem,
        parent,
        state,
        y.as_slice(),
        best.denominator,
    )
}

// One round.
fn round(
    alloc: Global,
    problem: &Problem,
    parent: &Desc<Cut>,
    state: &mut State,
    hints: &mut Hints,
) -> Result<Guess, AllocError>
    requires within { IsOpen problem.now parent.now state.old }
    requires open { state.old.is_shut ≡ false }
    requires node { IsNode problem.now parent.now }
    ensures { IfOk result (λ guess. Moves problem.now parent.now state.old state.new) }
{
    let pivots = state.limits.pivots;
    let cutoff = match state.work.best {
        Some(best) => Some(lowered(problem, best)),
        None => None,
    };
    let prepared = hints.prepared(alloc, problem)?;
    let proposal = propose_below(alloc, problem, prepared, &state.work.desc, pivots, cutoff)?;
    learn(problem, parent, state, &proposal);
    bound_by_row(alloc, problem, parent, state, hints)?;
    try_points(alloc, problem, parent, state, &proposal)?;
    try_dive(alloc, problem, parent, state, hints, &proposal)?;
    if !state.is_shut {
        keep_hint(alloc, problem, hints, &proposal)?;
    }
    fix_by(
        alloc,
        problem,
        parent,
        state,
        proposal.y.as_slice(),
        proposal.d,
    )?;
    test_sides(alloc, problem, parent, state, &proposal)?;
    probe_all(alloc, problem, parent, state, &proposal)?;
    let guess = keep(problem, parent, state, proposal);
    propagate(alloc, problem, parent, state)?;
    Ok(guess)
}

// Rounds until no more bounds are decided.
fn settle_bounds(
    alloc: Global,
    problem: &Problem,
    parent: &Desc<Cut>,
    state: &mut State,
    hints: &mut Hints,
) -> Result<Option<Guess>, AllocError>
    requires within { IsOpen problem.now parent.now state.old }
    requires node { IsNode problem.now parent.now }
    ensures { IfOk result (λ guess. Moves problem.now parent.now state.old state.new) }
{
    let mut guess = None;
    for _ in 0..ROUNDS {
        if !is_open(problem, parent, state) {
            return Ok(guess);
        }
        let decided = state.work.decided;
        guess = Some(round(alloc, problem, parent, state, hints)?);
        if state.work.decided == decided {
            return Ok(guess);
        }
    }
    Ok(guess)
}

// Whether the point has an entry for each column, each of raw size at most 2^70.
fn is_near(problem: &Problem, point: &[Fixed]) -> bool
    ensures width { result ≡ true → length point.now ≡ length problem.now.columns }
    ensures near { result ≡ true → All (λ x. IsWithin (2 ^ 70) x.raw) point.now }
{
    for entry in point {
        if FARTHEST < entry.raw.unsigned_abs() {
            return false;
        }
    }
    point.len() == problem.columns().len()
}

// One cut that breaks the point, and a round with it. None where there is none.
fn cut_round<S: Separate>(
    alloc: Global,
    problem: &Problem,
    parent: &Desc<Cut>,
    separator: &S,
    state: &mut State,
    hints: &mut Hints,
    point: &[Fixed],
) -> Result<Option<Guess>, AllocError>
    requires within { IsOpen problem.now parent.now state.old }
    requires node { IsNode problem.now parent.now }
    requires named { AreNamed parent.now state.old }
    requires room { state.old.limits.serial + state.old.limits.new_cuts < 2 ^ 32 }
    ensures { IfOk result (λ guess. CutMoves (S.allows separator.now problem.now) problem.now
        parent.now state.old state.new) }
{
    if !is_open(problem, parent, state) || !is_near(problem, point) {
        return Ok(None);
    }
    if !add_proposed(alloc, problem, parent, separator, state, point)? {
        return Ok(None);
    }
    propagate(alloc, problem, parent, state)?;
    if !is_open(problem, parent, state) {
        return Ok(None);
    }
    Ok(Some(round(alloc, problem, parent, state, hints)?))
}

// Rounds with cuts, until the bound stays.
fn cut_rounds<S: Separate>(
    alloc: Global,
    problem: &Problem,
    parent: &Desc<Cut>,
    separator: &S,
    state: &mut State,
    hints: &mut Hints,
    first: &[Fixed],
) -> Result<Option<Guess>, AllocError>
    requires within { IsOpen problem.now parent.now state.old }
    requires node { IsNode problem.now parent.now }
    requires named { AreNamed parent.now state.old }
    requires room { state.old.limits.serial + state.old.limits.new_cuts < 2 ^ 32 }
    ensures { IfOk result (λ guess. CutMoves (S.allows separator.now problem.now) problem.now
        parent.now state.old state.new) }
{
    let mut last = cut_round(alloc, problem, parent, separator, state, hints, first)?;
    let mut stalls = 0;
    for _ in 1..state.limits.new_cuts.max(1) {
        let Some(guess) = last else {
            return Ok(None);
        };
        let low = state.work.low;
        let point = guess.point.as_slice();
        let next = cut_round(alloc, problem, parent, separator, state, hints, point)?;
        if next.is_none() {
            return Ok(Some(guess));
        }
        stalls = if low < state.work.low {
            0
        } else {
            1_usize.saturating_add(stalls)
        };
        if stalls == STALLS {
            return Ok(next);
        }
        last = next;
    }
    Ok(last)
}

// Whether the trial shows more than the state without its cuts.
fn is_worth(state: &State, trial: &State) -> bool {
    trial.is_shut || state.work.low < trial.work.low || trial.work.found.is_some()
}

// Rounds with cuts on a copy of the state, which takes its place where they raised the bound,
// without the cuts that are Basic at the end.
fn try_cuts<S: Separate>(
    alloc: Global,
    problem: &Problem,
    parent: &Desc<Cut>,
    separator: &S,
    state: &mut State,
    hints: &mut Hints,
    guess: Guess,
) -> Result<Guess, AllocError>
    requires within { IsOpen problem.now parent.now state.old }
    requires node { IsNode problem.now parent.now }
    requires named { AreNamed parent.now state.old }
    requires room { state.old.limits.serial + state.old.limits.new_cuts < 2 ^ 32 }
    ensures { IfOk result (λ guess. CutMoves (S.allows separator.now problem.now) problem.now
        parent.now state.old state.new) }
{
    let mut trial = state.duplicate()?;
    let point = guess.point.as_slice();
    let last = cut_rounds(alloc, problem, parent, separator, &mut trial, hints, point)?;
    if is_worth(state, &trial) {
        drop_basic(alloc, problem, parent, &mut trial)?;
        *state = trial;
        return Ok(last.unwrap_or(guess));
    }
    Ok(guess)
}

// Whether cuts are wanted: at the first node alone, since below they cost more than they bring.
fn wants_cuts(limits: &Limits) -> bool {
    0 < limits.new_cuts && limits.serial == 0
}

// Rounds, and then rounds with cuts where they are wanted.
pub fn improve<S: Separate>(
    alloc: Global,
    problem: &Problem,
    parent: &Desc<Cut>,
    separator: &S,
    state: &mut State,
    hints: &mut Hints,
) -> Result<Option<Guess>, AllocError>
    requires within { IsOpen problem.now parent.now state.old }
    requires node { IsNode problem.now parent.now }
    requires named { AreNamed parent.now state.old }
    requires room { state.old.limits.serial + state.old.limits.new_cuts < 2 ^ 32 }
    ensures { IfOk result (λ guess. CutMoves (S.allows separator.now problem.now) problem.now
        parent.now state.old state.new) }
{
    propagate(alloc, problem, parent, state)?;
    use_hints(alloc, problem, parent, state, hints)?;
    let Some(guess) = settle_bounds(alloc, problem, parent, state, hints)? else {
        return Ok(None);
    };
    if !wants_cuts(&state.limits) {
        return Ok(Some(guess));
    }
    let guess = try_cuts(alloc, problem, parent, separator, state, hints, guess)?;
    Ok(Some(guess))
}
