// The outcomes of the work: a node that is shut, and one that is split.
ghost use Rattle.std.specs.Prelude.{◌≡◌, ◌+◌, ◌≤◌, ◌<◌, ◌^◌, pos, ◌+ℤ◌, length, IfOk};
ghost use Rattle.std.specs.Ordering.{int_eq};
ghost use Rattle.bl_mods.specs.Mods.{DiffersAt};
ghost use Rattle.bl_problem.specs.Sums.{IsWithin};
ghost use Rattle.bl_branch.specs.Rules.{Splits};
ghost use Rattle.bl_journal.specs.Descriptions.{left_child, right_child};
ghost use Rattle.bl_journal.specs.Pieces.{piece_below};
ghost use Rattle.bl_node.specs.Standing.{OfAllInQuestion, Stands, Narrows, IsNode};
ghost use Rattle.bl_journal.specs.declared.outcome.Next.TheVariants.{Shut};
ghost use Rattle.bl_node.specs.Outcomes.{HasFewStatuses, IsSplitOf, IsGood, common_of};

use crate::working::Working;
use bl_branch::Place;
use bl_desc::{Change, Desc, Form, Piece, between};
use bl_journal::{Next, Outcome};
use bl_mods::Shared;
use bl_problem::{Cut, Problem};
use std::alloc::{AllocError, Global};

// The description with another high of the column.
fn left_half(desc: &Desc<Cut>, column: usize, at: i64) -> Result<Desc<Cut>, AllocError>
    requires { column < length desc.now.highs }
    ensures { IfOk result (λ half. half ≡ left_child desc.now column at) }
{
    let mut half = desc.duplicate()?;
    half.highs.set(column, at);
    Ok(half)
}

// The description with another low of the column.
fn right_half(desc: Desc<Cut>, column: usize, at: i64) -> Desc<Cut>
    requires column { column < length desc.lows }
    requires near { IsWithin (10 ^ 9) at }
    ensures { result ≡ right_child desc column at }
{
    let mut half = desc;
    half.lows.set(column, at + 1);
    half
}

// The left child in a form: itself, or as the common change with its high.
fn left_piece(
    alloc: Global,
    parent: &Desc<Cut>,
    common: &Change<Cut>,
    form: Form,
    desc: &Desc<Cut>,
    place: Place,
) -> Result<Piece<Cut>, AllocError>
    requires common { common.now ≡ common_of parent.now desc.now }
    requires column { place.column < length desc.now.highs }
    requires other { DiffersAt int_eq parent.now.highs place.column place.at }
    ensures { IfOk result (λ piece.
        piece ≡ piece_below parent.now form (left_child desc.now place.column place.at)) }
{
    match form {
        Form::Explicit => {
            let child = left_half(desc, place.column as usize, place.at)?;
            Ok(Piece::Explicit(Shared::new(alloc, child)?))
        }
        Form::Relative => {
            let change = common.with_high(alloc, place.column, place.at)?;
            Ok(Piece::Relative(Shared::new(alloc, change)?))
        }
    }
}

// The right child in a form: itself, or as the common change with its low.
fn right_piece(
    alloc: Global,
    parent: &Desc<Cut>,
    common: &Change<Cut>,
    form: Form,
    desc: Desc<Cut>,
    place: Place,
) -> Result<Piece<Cut>, AllocError>
    requires common { common.now ≡ common_of parent.now desc }
    requires column { place.column < length desc.lows }
    requires near { IsWithin (10 ^ 9) place.at }
    requires other { DiffersAt int_eq parent.now.lows place.column (place.at +ℤ pos 1) }
    ensures { IfOk result (λ piece.
        piece ≡ piece_below parent.now form (right_child desc place.column place.at)) }
{
    match form {
        Form::Explicit => {
            let child = right_half(desc, place.column as usize, place.at);
            Ok(Piece::Explicit(Shared::new(alloc, child)?))
        }
        Form::Relative => {
            let change = common.with_low(alloc, place.column, place.at + 1)?;
            Ok(Piece::Relative(Shared::new(alloc, change)?))
        }
    }
}

// The outcome that splits the box so far at a place.
pub fn split(
    alloc: Global,
    problem: &Problem,
    parent: &Desc<Cut>,
    form: Form,
    place: Place,
    work: Working,
) -> Result<Outcome, AllocError>
    requires node { IsNode problem.now parent.now }
    requires narrows { Narrows problem.now parent.now work }
    requires few { HasFewStatuses parent.now work.desc }
    requires place { Splits work.desc place }
    ensures sound { IfOk result (λ o. (cutoff : _) → Stands problem.now parent.now cutoff work
        → IsGood problem.now parent.now cutoff o) }
    ensures split { IfOk result (IsSplitOf parent.now work form place) }
{
    let common = between(alloc, parent, &work.desc)?;
    let left = left_piece(alloc, parent, &common, form, &work.desc, place)?;
    let right = right_piece(alloc, parent, &common, form, work.desc, place)?;
    let common = Shared::new(alloc, common)?;
    let next = Next::Split {
        common,
        column: place.column,
        at: place.at,
        left,
        right,
    };
    Ok(Outcome {
        found: work.found,
        low: work.low,
        next,
    })
}

// The outcome where no point is in question.
pub fn shut(work: Working) -> Outcome
    ensures found { result.found ≡ work.found }
    ensures low { result.low ≡ work.low }
    ensures next { result.next ≡ Shut }
{
    Outcome {
        found: work.found,
        low: work.low,
        next: Next::Shut,
    }
}
