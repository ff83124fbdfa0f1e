//! Proposals.
ghost use Rattle.std.specs.Prelude.{◌≡◌, ◌+◌, ◌<◌, ◌≤◌, ◌^◌, ◌≤ℤ◌, length, pos, All, IfOk};
ghost use Rattle.std.specs.Prelude.{IfSome, unsigned_abs};
ghost use Rattle.bl_problem.specs.Sums.{IsWithin};
ghost use Rattle.bl_simplex.specs.Sides.{IsChoice, IsSideProposal};

use crate::answer::{Source, multipliers_of, point_of, statuses_of};
use crate::branching::{Choice, SideProposal, missing_to, weigh_columns};
use crate::simplex::{Ending, Simplex};
use bl_desc::{Desc, Status};
use bl_fixed::Fixed;
use bl_linear::{Form, Prepared};
use bl_mods::Items;
use bl_problem::{Cut, Problem};
use std::alloc::{AllocError, Global};

/// What a run of the method proposes.
#[derive(Drop)]
pub struct Proposal {
    /// A multiplier for each row and then for each cut, within ±2^40: for the node's bound, or,
    /// where no point is left, for showing that.
    pub y: Items<i64>,
    /// Their common denominator, from 1 to 2^20.
    pub d: i64,
    /// An entry for each column, of raw size at most 2^70.
    pub point: Items<Fixed>,
    /// The column to branch on, one whose entry is not whole: that whose weaker side gains most by
    /// the first pivot after it (penalties: Driebeek 1966, Tomlin 1971). None where there is none,
    /// or where no point is left.
    pub branch: Option<u32>,
    /// For some sides of columns multipliers that may show that they reach the cutoff.
    pub sides: Items<SideProposal>,
    /// Where each column, row and cut stands in the last basis.
    pub column_status: Items<Status>,
    pub row_status: Items<Status>,
    pub cut_status: Items<Status>,
    /// How many pivots were made.
    pub pivots: u32,
}

/// Runs the dual simplex method on the description's box, rows and cuts, at most that many pivots.
/// It begins with the basis that the statuses show where exactly as many are Basic as there are
/// rows and cuts and a factor of it can be made, else with that of all rows and cuts.
/// `AllocError` where there is no memory.
pub fn propose(
    alloc: Global,
    problem: &Problem,
    desc: &Desc<Cut>,
    pivots: u32,
) -> Result<Proposal, AllocError>
    requires few { length desc.now.cuts ≤ 200 }
    ensures multipliers { IfOk result (λ p. length p.y ≡ length problem.now.rows
        + length desc.now.cuts) }
    ensures near_multipliers { IfOk result (λ p. All (IsWithin (2 ^ 40)) p.y) }
    ensures positive { IfOk result (λ p. pos 1 ≤ℤ p.d) }
    ensures short { IfOk result (λ p. p.d ≤ℤ pos (2 ^ 20)) }
    ensures point { IfOk result (λ p. length p.point ≡ length problem.now.columns) }
    ensures near_point { IfOk result (λ p. All (λ x. unsigned_abs x.raw ≤ 2 ^ 70) p.point) }
    ensures branch { IfOk result (λ p. IfSome p.branch (λ c. c < length problem.now.columns)) }
    ensures sides { IfOk result (λ p. All
        (IsSideProposal (length problem.now.columns)
        (length problem.now.rows + length desc.now.cuts)) p.sides) }
    ensures columns { IfOk result (λ p. length p.column_status ≡ length problem.now.columns) }
    ensures rows { IfOk result (λ p. length p.row_status ≡ length problem.now.rows) }
    ensures cuts { IfOk result (λ p. length p.cut_status ≡ length desc.now.cuts) }
    ensures pivots { IfOk result (λ p. p.pivots ≤ pivots) }
{
    let prepared = Prepared::new(alloc, problem)?;
    propose_below(alloc, problem, &prepared, desc, pivots, None)
}

/// The same with what was prepared for the problem. Where a cutoff is given, in the problem's units
/// of value, and the method comes to an optimum below it, the proposal has multipliers too for
/// sides of fractional columns whose penalties reach the cutoff.
pub fn propose_below(
    alloc: Global,
    problem: &Problem,
    prepared: &Prepared,
    desc: &Desc<Cut>,
    pivots: u32,
    cutoff: Option<i128>,
) -> Result<Proposal, AllocError>
    requires few { length desc.now.cuts ≤ 200 }
    ensures multipliers { IfOk result (λ p. length p.y ≡ length problem.now.rows
        + length desc.now.cuts) }
    ensures near_multipliers { IfOk result (λ p. All (IsWithin (2 ^ 40)) p.y) }
    ensures positive { IfOk result (λ p. pos 1 ≤ℤ p.d) }
    ensures short { IfOk result (λ p. p.d ≤ℤ pos (2 ^ 20)) }
    ensures point { IfOk result (λ p. length p.point ≡ length problem.now.columns) }
    ensures near_point { IfOk result (λ p. All (λ x. unsigned_abs x.raw ≤ 2 ^ 70) p.point) }
    ensures branch { IfOk result (λ p. IfSome p.branch (λ c. c < length problem.now.columns)) }
    ensures sides { IfOk result (λ p. All
        (IsSideProposal (length problem.now.columns)
        (length problem.now.rows + length desc.now.cuts)) p.sides) }
    ensures columns { IfOk result (λ p. length p.column_status ≡ length problem.now.columns) }
    ensures rows { IfOk result (λ p. length p.row_status ≡ length problem.now.rows) }
    ensures cuts { IfOk result (λ p. length p.cut_status ≡ length desc.now.cuts) }
    ensures pivots { IfOk result (λ p. p.pivots ≤ pivots) }
{
    let (width, height) = (problem.columns().len(), problem.rows().len());
    let cuts = desc.cuts.len();
    let lines = height + cuts;
    let form = Form::new(alloc, prepared, desc)?;
    let status = initial_status(alloc, desc, width, height, cuts)?;
    let mut simplex = Simplex::new(alloc, form, status)?;
    let run = simplex.run(pivots)?;
    simplex.settle();
    let source = Source::of_ending(run.ending);
    let multipliers = multipliers_of(alloc, &simplex, source, lines)?;
    let columns = statuses_of(alloc, &simplex, 0, desc.column_status.as_slice(), width)?;
    let rows = statuses_of(alloc, &simplex, width, desc.row_status.as_slice(), height)?;
    let first_cut = width.saturating_add(height);
    let cuts = statuses_of(alloc, &simplex, first_cut, desc.cut_status.as_slice(), cuts)?;
    let (lows, highs) = (desc.lows.as_slice(), desc.highs.as_slice());
    let point = point_of(alloc, &simplex, lows, highs, width)?;
    let missing = missing_of(&simplex, run.ending, problem.offset(), cutoff);
    let choice = choice_of(
        alloc,
        &mut simplex,
        run.ending,
        point.as_slice(),
        lines,
        missing,
    )?;
    Ok(Proposal {
        y: Items::from_vec(multipliers.y),
        d: multipliers.d,
        point: Items::from_vec(point),
        branch: choice.branch,
        sides: Items::from_vec(choice.sides),
        column_status: Items::from_vec(columns),
        row_status: Items::from_vec(rows),
        cut_status: Items::from_vec(cuts),
        pivots: run.pivots,
    })
}

// What is missing to the cutoff, where there is one and the run came to an optimum.
fn missing_of(
    simplex: &Simplex<'_>,
    ending: Ending,
    offset: i128,
    cutoff: Option<i128>,
) -> Option<Fixed> {
    match (ending, cutoff) {
        (Ending::Optimal, Some(cutoff)) => Some(missing_to(simplex, offset, cutoff)),
        _ => None,
    }
}

// The column to branch on and the sides; none where no point is left.
fn choice_of(
    alloc: Global,
    simplex: &mut Simplex<'_>,
    ending: Ending,
    point: &[Fixed],
    height: usize,
    missing: Option<Fixed>,
) -> Result<Choice, AllocError>
    ensures { IfOk result (IsChoice (length point.now) height) }
{
    match ending {
        Ending::Infeasible { rises: _ } => Ok(Choice::none(alloc)),
        _ => weigh_columns(alloc, simplex, point, height, missing),
    }
}

// The statuses of all items.
fn initial_status(
    alloc: Global,
    desc: &Desc<Cut>,
    width: usize,
    height: usize,
    cuts: usize,
) -> Result<Vec<Status>, AllocError> {
    let count = width.saturating_add(height).saturating_add(cuts);
    let mut status = Vec::with_capacity(alloc, count)?;
    append(&mut status, desc.column_status.as_slice(), width)?;
    append(&mut status, desc.row_status.as_slice(), height)?;
    append(&mut status, desc.cut_status.as_slice(), cuts)?;
    Ok(status)
}

// Appends the first statuses of a list, so many of them; AtLow past its end.
fn append(to: &mut Vec<Status>, list: &[Status], count: usize) -> Result<(), AllocError> {
    for place in 0..count {
        to.push(list.get(place).copied().unwrap_or(Status::AtLow))?;
    }
    Ok(())
}
