// Cuts at the root: those that a separator proposes are kept where they raise the bound.
ghost use Rattle.std.specs.Prelude.{◌≡◌, ◌+◌, ◌<◌, ◌^◌, pos, ◌≤ℤ◌, length, All, IfOk, IfSome, Ok};
ghost use Rattle.std.specs.Prelude.{true, false};
ghost use Rattle.bl_problem.specs.Sums.{IsWithin};
ghost use Rattle.bl_bound.specs.Descriptions.{Describes};
ghost use Rattle.bl_cover.specs.Tries.{HasShape};
ghost use Rattle.bl_node.specs.Names.{AreNamed};
ghost use Rattle.bl_node.specs.Standing.{IsNode, IsMade};
ghost use Rattle.bl_node.specs.Moves.{IsOpen, CutMoves};
ghost use Rattle.bl_node.specs.Tried.{Gives};
ghost use Rattle.bl_cuts.specs.Answers.{derived_of};
ghost use Rattle.bl_cover.specs.Covers.{cover_of};

use crate::state::State;
use crate::steps::add_cut;
use bl_cover::{CoverFault, Separate, Try, cover_cut};
use bl_cuts::{CutFault, derive};
use bl_desc::Desc;
use bl_fixed::Fixed;
use bl_journal::MOST_CUTS;
use bl_mods::ItemId;
use bl_problem::{Cut, Problem};
use std::alloc::{AllocError, Global};

// The cut that the weights give. None where they are refused for another cause than want of memory.
fn derived(
    alloc: Global,
    problem: &Problem,
    desc: &Desc<Cut>,
    weights: &[i64],
    q: i64,
    id: ItemId,
) -> Result<Option<Cut>, AllocError>
    requires suits { Describes problem.now desc.now }
    requires weights { length weights.now ≡ length problem.now.rows + length desc.now.cuts }
    requires counted { pos 1 ≤ℤ q }
    ensures made { IfOk result (λ made. IfSome made (IsMade problem.now desc.now id)) }
    ensures gives { IfOk result (λ made. IfSome made
        (λ cut. derived_of problem.now desc.now.cuts weights.now q id ≡ Ok cut)) }
{
    match derive(alloc, problem, desc.cuts.as_slice(), weights, q, id) {
        Ok(cut) => Ok(Some(cut)),
        Err(CutFault::Memory) => Err(AllocError),
        Err(_) => Ok(None),
    }
}

// The cut of a cover. None where it is refused for another cause than want of memory.
fn covered(
    alloc: Global,
    problem: &Problem,
    desc: &Desc<Cut>,
    row: u32,
    columns: &[u32],
    id: ItemId,
) -> Result<Option<Cut>, AllocError>
    requires { row < length problem.now.rows }
    ensures made { IfOk result (λ made. IfSome made (IsMade problem.now desc.now id)) }
    ensures gives { IfOk result (λ made. IfSome made
        (λ cut. cover_of problem.now row columns.now id ≡ Ok cut)) }
{
    match cover_cut(alloc, problem, row, columns, id) {
        Ok(cut) => Ok(Some(cut)),
        Err(CoverFault::Memory) => Err(AllocError),
        Err(_) => Ok(None),
    }
}

// The cut that a try gives. None where it is refused for another cause than want of memory.
fn cut_of(
    alloc: Global,
    problem: &Problem,
    desc: &Desc<Cut>,
    tried: &Try,
    id: ItemId,
) -> Result<Option<Cut>, AllocError>
    requires suits { Describes problem.now desc.now }
    requires shape { HasShape problem.now desc.now tried.now }
    ensures made { IfOk result (λ made. IfSome made (IsMade problem.now desc.now id)) }
    ensures gives { IfOk result (λ made. IfSome made (Gives problem.now desc.now id tried.now)) }
{
    match tried {
        Try::Weights(pick) => derived(alloc, problem, desc, pick.weights.as_slice(), pick.q, id),
        Try::Cover { row, columns } => {
            covered(alloc, problem, desc, *row, columns.as_slice(), id)
        }
    }
}

// The cut that the separator proposes at the point is added. Whether there is one.
pub fn add_proposed<S: Separate>(
    alloc: Global,
    problem: &Problem,
    parent: &Desc<Cut>,
    separator: &S,
    state: &mut State,
    point: &[Fixed],
) -> Result<bool, AllocError>
    requires within { IsOpen problem.now parent.now state.old }
    requires open { state.old.is_shut ≡ false }
    requires named { AreNamed parent.now state.old }
    requires room { state.old.limits.serial + state.old.limits.new_cuts < 2 ^ 32 }
    requires width { length point.now ≡ length problem.now.columns }
    requires near { All (λ x. IsWithin (2 ^ 70) x.raw) point.now }
    ensures { IfOk result (λ added. CutMoves (S.allows separator.now problem.now) problem.now
        parent.now state.old state.new) }
{
    if state.limits.new_cuts <= state.made || MOST_CUTS <= state.work.desc.cuts.len() {
        return Ok(false);
    }
    let Some(tried) = separator.ask(alloc, problem, &state.work.desc, point)? else {
        return Ok(false);
    };
    let id = ItemId {
        seat: state.limits.seat,
        serial: state.limits.serial + state.made,
    };
    let Some(cut) = cut_of(alloc, problem, &state.work.desc, &tried, id)? else {
        return Ok(false);
    };
    add_cut(alloc, &mut state.work, cut)?;
    state.made += 1;
    Ok(true)
}
