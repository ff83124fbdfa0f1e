//! Descriptions, and the forms in which they are kept.
ghost use Rattle.std.specs.Prelude.{◌≡◌, IfOk};
ghost use Rattle.bl_desc.specs.declared.desc.Status.TheVariants.{AtLow};
ghost use Rattle.bl_desc.specs.Weights.{weight_of, desc_weight_of, change_weight_of};
ghost use Rattle.bl_desc.specs.Weights.{HasShortLists, DescHasShortLists, ChangeHasShortLists};

use crate::change::Change;
use bl_mods::{Duplicate, Items, Shared};
use std::alloc::AllocError;

/// Where a column, row or cut stands in a basis.
#[derive(Clone, Copy, PartialEq, Eq, Debug)]
pub enum Status {
    Basic,
    AtLow,
    AtHigh,
}

impl Default for Status {
    fn default() -> Status
        ensures { result ≡ AtLow }
    {
        Status::AtLow
    }
}

impl Duplicate for Status {
    fn duplicate(&self) -> Result<Status, AllocError> {
        Ok(*self)
    }
}

/// How a node is kept: as a whole description, or as a change of its parent's.
#[derive(Clone, Copy, PartialEq, Eq, Debug)]
pub enum Form {
    Explicit,
    Relative,
}

/// The bounds of a node, one per column; its cuts; and the statuses of its columns, rows and cuts.
#[derive(Drop)]
pub struct Desc<C> {
    pub lows: Items<i64>,
    pub highs: Items<i64>,
    pub cuts: Items<Shared<C>>,
    pub column_status: Items<Status>,
    pub row_status: Items<Status>,
    pub cut_status: Items<Status>,
}

impl<C: Drop> Desc<C> {
    /// An equal description. `AllocError` where there is no memory.
    pub fn duplicate(&self) -> Result<Desc<C>, AllocError>
        ensures { IfOk result (λ copy. copy ≡ self.now) }
    {
        Ok(Desc {
            lows: self.lows.copy_all()?,
            highs: self.highs.copy_all()?,
            cuts: self.cuts.duplicate_all()?,
            column_status: self.column_status.copy_all()?,
            row_status: self.row_status.copy_all()?,
            cut_status: self.cut_status.copy_all()?,
        })
    }
}

/// What is kept of a node, shared with others.
#[derive(Drop)]
pub enum Piece<C> {
    Explicit(Shared<Desc<C>>),
    Relative(Shared<Change<C>>),
}

/// The number of entries of all lists of a piece. Takes no memory.
pub fn weight<C>(piece: &Piece<C>) -> u64
    requires { HasShortLists piece.now }
    ensures { result ≡ weight_of piece.now }
{
    match piece {
        Piece::Explicit(desc) => desc_weight(desc.get()),
        Piece::Relative(change) => change_weight(change.get()),
    }
}

fn desc_weight<C>(desc: &Desc<C>) -> u64
    requires { DescHasShortLists desc.now }
    ensures { result ≡ desc_weight_of desc.now }
{
    let bounds = desc.lows.len() + desc.highs.len();
    let statuses = desc.column_status.len() + desc.row_status.len() + desc.cut_status.len();
    (bounds + desc.cuts.len() + statuses) as u64
}

fn change_weight<C>(change: &Change<C>) -> u64
    requires { ChangeHasShortLists change.now }
    ensures { result ≡ change_weight_of change.now }
{
    let bounds = change.lows.entries().len() + change.highs.entries().len();
    let cuts = change.cuts.dropped.as_slice().len() + change.cuts.added.len();
    let statuses = change.columns.entries().len()
        + change.rows.entries().len()
        + change.fresh.entries().len();
    (bounds + cuts + statuses) as u64
}
