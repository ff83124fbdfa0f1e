//! What is stored of the children of a split, made from their parent's description.
ghost use Rattle.std.specs.Prelude.{◌≡◌, ◌<◌, ◌+◌, pos, ◌+ℤ◌, ◌<ℤ◌, length, slice_index_or, IfOk};
ghost use Rattle.bl_desc.specs.Changes.{changed};
ghost use Rattle.bl_journal.specs.Descriptions.{left_child, right_child};
ghost use Rattle.bl_journal.specs.Pieces.{form_at_birth, piece_below};
ghost use Rattle.bl_tree.specs.Jobs.{MayFollow};
ghost use Rattle.bl_replay.specs.Splits.{MaySplit};

use bl_desc::{Change, Desc, Form, Piece, apply, between};
use bl_mods::Shared;
use bl_problem::Cut;
use std::alloc::{AllocError, Global};

/// The form in which the children of a node at this depth are stored when they are born.
pub fn form_below(depth: u32, span: u32) -> Form
    requires { 0 < span }
    ensures { result ≡ form_at_birth span (depth + 1) }
{
    if (depth as u64 + 1) % (span as u64) == 0 {
        Form::Explicit
    } else {
        Form::Relative
    }
}

// The number after one that is below the column's high: it fits, since the high does.
fn next_after(highs: &[i64], column: usize, at: i64) -> i64
    requires column { column < length highs.now }
    requires below { at <ℤ slice_index_or highs.now column (pos 0) }
    ensures { result ≡ at +ℤ pos 1 }
{
    let _high = highs[column];
    at + 1
}

// The description with another high of the column.
fn left_half(desc: &Desc<Cut>, column: usize, at: i64) -> Result<Desc<Cut>, AllocError>
    requires { column < length desc.now.highs }
    ensures { IfOk result (λ half. half ≡ left_child desc.now column at) }
{
    let mut half = desc.duplicate()?;
    half.highs.set(column, at);
    Ok(half)
}

// The description with another low of the column.
fn right_half(desc: &Desc<Cut>, column: usize, at: i64) -> Result<Desc<Cut>, AllocError>
    requires low { column < length desc.now.lows }
    requires high { column < length desc.now.highs }
    requires below { at <ℤ slice_index_or desc.now.highs column (pos 0) }
    ensures { IfOk result (λ half. half ≡ right_child desc.now column at) }
{
    let mut half = desc.duplicate()?;
    let low = next_after(desc.highs.as_slice(), column, at);
    half.lows.set(column, low);
    Ok(half)
}

// A child in a form: itself, or as the change that makes it of its parent's description.
fn piece_of(
    alloc: Global,
    parent: &Desc<Cut>,
    form: Form,
    child: Desc<Cut>,
) -> Result<Piece<Cut>, AllocError>
    requires { MayFollow parent.now child }
    ensures { IfOk result (λ piece. piece ≡ piece_below parent.now form child) }
{
    match form {
        Form::Explicit => Ok(Piece::Explicit(Shared::new(alloc, child)?)),
        Form::Relative => {
            let change = between(alloc, parent, &child)?;
            Ok(Piece::Relative(Shared::new(alloc, change)?))
        }
    }
}

/// The pieces of the left and the right child of a split, in a form. `AllocError` where there is no
/// memory.
pub fn split_pieces(
    alloc: Global,
    parent: &Desc<Cut>,
    form: Form,
    common: &Change<Cut>,
    column: usize,
    at: i64,
) -> Result<(Piece<Cut>, Piece<Cut>), AllocError>
    requires { MaySplit parent.now common.now column at }
    ensures left { IfOk result (λ pieces. pieces.0
        ≡ piece_below parent.now form (left_child (changed common.now parent.now) column at)) }
    ensures right { IfOk result (λ pieces. pieces.1
        ≡ piece_below parent.now form (right_child (changed common.now parent.now) column at)) }
{
    let mut desc = parent.duplicate()?;
    apply(common, &mut desc)?;
    let left = piece_of(alloc, parent, form, left_half(&desc, column, at)?)?;
    let right = piece_of(alloc, parent, form, right_half(&desc, column, at)?)?;
    Ok((left, right))
}
