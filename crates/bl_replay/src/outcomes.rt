//! The outcome that a put of a journal stands for.
ghost use Rattle.std.specs.Prelude.{◌≡◌, ◌<◌, IfOk};
ghost use Rattle.bl_problem.specs.Program.{IsProgram};
ghost use Rattle.bl_journal.specs.declared.entry.Entry.TheVariants.{Put};
ghost use Rattle.bl_journal.specs.Legality.{MayPut, step_of};
ghost use Rattle.bl_tree.specs.Views.{IsLeaseOf, IsPutFor, PiecesStored, extended, past_of};

use crate::pieces::{form_below, split_pieces};
use bl_journal::laws::{
    children_follow, descriptions_are_whole, newborns_are_stored, nodes_are_stable,
};
use bl_journal::{Next, Outcome, Step};
use bl_mods::Items;
use bl_problem::Cut;
use bl_rebuild::rebuild;
use bl_tree::{Lease, Tree};
use std::alloc::{AllocError, Global};

// What becomes of the node of a lease, with the pieces that its children are stored as.
fn next_again(
    alloc: Global,
    tree: &Tree,
    span: u32,
    seat: u32,
    lease: &Lease,
    found: &Option<Items<i64>>,
    low: i128,
    step: &Step,
) -> Result<Next, AllocError>
    requires program { IsProgram tree.now.problem }
    requires span { tree.now.settings.span ≡ span }
    requires some_span { 0 < span }
    requires leased { IsLeaseOf tree.now seat lease.now }
    requires allowed { MayPut tree.now.problem tree.now.settings (past_of tree.now) seat
        lease.now.id found.now low step.now }
    ensures step { IfOk result (λ next. step_of next ≡ step.now) }
    ensures pieces { IfOk result (λ next. PiecesStored
        (extended tree.now (Put seat lease.now.id found.now low step.now)) next) }
{
    children_follow();
    newborns_are_stored();
    nodes_are_stable();
    descriptions_are_whole();
    let _journal = tree.journal();
    match step {
        Step::Shut => Ok(Next::Shut),
        Step::Split { common, column, at } => {
            let parent = rebuild(lease.chain())?;
            let form = form_below(lease.depth(), span);
            let (left, right) = split_pieces(
                alloc,
                &parent,
                form,
                common.get(),
                *column as usize,
                *at,
            )?;
            Ok(Next::Split {
                common: common.share()?,
                column: *column,
                at: *at,
                left,
                right,
            })
        }
    }
}

// A copy of the point that was found, if one was.
fn found_again(found: &Option<Items<i64>>) -> Result<Option<Items<i64>>, AllocError>
    ensures { IfOk result (λ copy. copy ≡ found.now) }
{
    match found {
        None => Ok(None),
        Some(point) => Ok(Some(point.duplicate_all()?)),
    }
}

/// The outcome of the node of a lease, as a put of a journal has it. `AllocError` where there is no
/// memory.
pub fn outcome_again(
    alloc: Global,
    tree: &Tree,
    span: u32,
    seat: u32,
    lease: &Lease,
    found: &Option<Items<i64>>,
    low: i128,
    step: &Step,
) -> Result<Outcome, AllocError>
    requires program { IsProgram tree.now.problem }
    requires span { tree.now.settings.span ≡ span }
    requires some_span { 0 < span }
    requires leased { IsLeaseOf tree.now seat lease.now }
    requires allowed { MayPut tree.now.problem tree.now.settings (past_of tree.now) seat
        lease.now.id found.now low step.now }
    ensures found { IfOk result (λ outcome. outcome.found ≡ found.now) }
    ensures low { IfOk result (λ outcome. outcome.low ≡ low) }
    ensures step { IfOk result (λ outcome. step_of outcome.next ≡ step.now) }
    ensures fits { IfOk result (λ outcome. IsPutFor tree.now seat lease.now outcome) }
{
    let next = next_again(alloc, tree, span, seat, lease, found, low, step)?;
    let found = found_again(found)?;
    Ok(Outcome { found, low, next })
}
