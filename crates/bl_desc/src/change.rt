//! Changes between descriptions.
ghost use Rattle.std.specs.Prelude.{◌≡◌, ◌≢◌, ◌<◌, ◌^◌, [], ◌∷◌, length, slice_set};
ghost use Rattle.std.specs.Prelude.{All, AllPairs, OnErr, OnOk, IfOk};
ghost use Rattle.std.specs.Ordering.{int_eq};
ghost use Rattle.bl_mods.specs.InTurn.{overlaid};
ghost use Rattle.bl_mods.specs.Mods.{written, differences, DiffersAt, IsPartThenFresh};
ghost use Rattle.bl_desc.specs.Changes.{changed, difference, cut_status_after, same_status, Fits};
ghost use Rattle.bl_desc.specs.Changes.{IsWhole};
ghost use Rattle.bl_desc.specs.Weights.{IsFewest, ChangeHasShortLists};

use crate::desc::{Desc, Status};
use bl_mods::{FieldMods, Item, Items, ListMods};
use std::alloc::{AllocError, Global};

/// New lows and highs of columns; cuts that are dropped and added; new statuses of columns, rows
/// and cuts. The places of `fresh` are those of the new list of cuts.
#[derive(Drop)]
pub struct Change<C> {
    pub lows: FieldMods<i64>,
    pub highs: FieldMods<i64>,
    pub cuts: ListMods<C>,
    pub columns: FieldMods<Status>,
    pub rows: FieldMods<Status>,
    pub fresh: FieldMods<Status>,
}

impl<C: Drop> Change<C> {
    ghost use Rattle.bl_desc.specs.Changes.{changed, nothing};
    ghost use Rattle.bl_desc.specs.declared.desc.Desc.{Desc as AnyDesc};

    /// The change of nothing. Takes no memory.
    pub fn new(alloc: Global) -> Change<C>
        ensures nothing { result ≡ nothing }
        ensures unchanged { (d : AnyDesc C) → changed result d ≡ d }
    {
        Change {
            lows: FieldMods::new(alloc),
            highs: FieldMods::new(alloc),
            cuts: ListMods::new(alloc),
            columns: FieldMods::new(alloc),
            rows: FieldMods::new(alloc),
            fresh: FieldMods::new(alloc),
        }
    }
}

impl<C: Item + Drop> Change<C> {
    ghost use Rattle.bl_desc.specs.Changes.{difference};
    ghost use Rattle.bl_desc.specs.declared.desc.Desc.{Desc as AnyDesc};

    /// The change with one more high. Where the change is the canonical difference from a parent
    /// to a child, it is the one to the child with this high of the column, if the parent has
    /// another. `AllocError` where there is no memory.
    pub fn with_high(&self, alloc: Global, column: u32, high: i64) -> Result<Change<C>, AllocError>
        ensures exact { IfOk result (λ change. change
            ≡ record self.now {
              highs = overlaid self.now.highs (record { place = column; entry = high } ∷ []);
            }) }
        ensures canonical { IfOk result (λ change. (parent child : AnyDesc C)
            → self.now ≡ difference C.id_of parent child → column < length child.highs
            → DiffersAt int_eq parent.highs column high
            → change ≡ difference C.id_of parent
            (record child { highs = slice_set child.highs column high })) }
    {
        let lows = self.lows.copy_all(alloc)?;
        let highs = self.highs.with_entry(alloc, column, high)?;
        self.with_bounds(alloc, lows, highs)
    }

    /// The change with one more low. Where the change is the canonical difference from a parent
    /// to a child, it is the one to the child with this low of the column, if the parent has
    /// another. `AllocError` where there is no memory.
    pub fn with_low(&self, alloc: Global, column: u32, low: i64) -> Result<Change<C>, AllocError>
        ensures exact { IfOk result (λ change. change
            ≡ record self.now {
              lows = overlaid self.now.lows (record { place = column; entry = low } ∷ []);
            }) }
        ensures canonical { IfOk result (λ change. (parent child : AnyDesc C)
            → self.now ≡ difference C.id_of parent child → column < length child.lows
            → DiffersAt int_eq parent.lows column low
            → change ≡ difference C.id_of parent
            (record child { lows = slice_set child.lows column low })) }
    {
        let lows = self.lows.with_entry(alloc, column, low)?;
        let highs = self.highs.copy_all(alloc)?;
        self.with_bounds(alloc, lows, highs)
    }

    // The same change but for the bounds.
    fn with_bounds(
        &self,
        alloc: Global,
        lows: FieldMods<i64>,
        highs: FieldMods<i64>,
    ) -> Result<Change<C>, AllocError>
        ensures { IfOk result (λ change. change ≡ record self.now { lows = lows; highs = highs }) }
    {
        Ok(Change {
            lows,
            highs,
            cuts: self.cuts.duplicate(alloc)?,
            columns: self.columns.copy_all(alloc)?,
            rows: self.rows.copy_all(alloc)?,
            fresh: self.fresh.copy_all(alloc)?,
        })
    }
}

/// Sets the bounds, drops cuts with their statuses, adds cuts at the end with status `AtLow`,
/// then sets the statuses. `AllocError` where there is no memory; the description is then as it
/// was.
pub fn apply<C: Drop>(change: &Change<C>, desc: &mut Desc<C>) -> Result<(), AllocError>
    requires whole { IsWhole desc.old }
    requires fits { Fits change.now desc.old }
    ensures ok { OnOk result (desc.new ≡ changed change.now desc.old) }
    ensures err { OnErr result (desc.new ≡ desc.old) }
{
    let cut_status = new_cut_status(change, &desc.cut_status)?;
    change.cuts.apply(&mut desc.cuts)?;
    desc.cut_status = cut_status;
    change.lows.apply_to(&mut desc.lows);
    change.highs.apply_to(&mut desc.highs);
    change.columns.apply_to(&mut desc.column_status);
    change.rows.apply_to(&mut desc.row_status);
    Ok(())
}

// The statuses of the cuts that a change leaves.
fn new_cut_status<C: Drop>(
    change: &Change<C>,
    status: &Items<Status>,
) -> Result<Items<Status>, AllocError>
    requires { All (λ m. m.place < length (cut_status_after change.now.cuts status.now))
        change.now.fresh }
    ensures { IfOk result (λ s. s
        ≡ written change.now.fresh (cut_status_after change.now.cuts status.now)) }
{
    let mut after = relisted_status(&change.cuts, status)?;
    change.fresh.apply_to(&mut after);
    Ok(after)
}

// The statuses of the cuts after some are dropped and others added.
fn relisted_status<C: Drop>(
    cuts: &ListMods<C>,
    status: &Items<Status>,
) -> Result<Items<Status>, AllocError>
    ensures { IfOk result (λ s. s ≡ cut_status_after cuts.now status.now) }
{
    let mut after = cuts.dropped.kept_of(status.allocator(), status.as_slice())?;
    for _ in 0..cuts.added.len() {
        after.push(Status::AtLow)?;
    }
    Ok(after)
}

/// The canonical difference: exactly the bounds and statuses that differ, and the dropped and
/// added cuts by id. Applied to the parent it gives the child, and no change with that effect
/// has fewer entries. `AllocError` where there is no memory.
pub fn between<C: Item + Drop>(
    alloc: Global,
    parent: &Desc<C>,
    child: &Desc<C>,
) -> Result<Change<C>, AllocError>
    requires parent { IsWhole parent.now }
    requires child { IsWhole child.now }
    requires columns { length parent.now.lows ≡ length child.now.lows }
    requires rows { length parent.now.row_status ≡ length child.now.row_status }
    requires short_columns { length parent.now.lows < 2 ^ 32 }
    requires short_rows { length parent.now.row_status < 2 ^ 32 }
    requires short_parent { length parent.now.cuts < 2 ^ 32 }
    requires short_child { length child.now.cuts < 2 ^ 32 }
    requires parent_ids { AllPairs (λ a b. C.id_of a ≢ C.id_of b) parent.now.cuts }
    requires child_ids { AllPairs (λ a b. C.id_of a ≢ C.id_of b) child.now.cuts }
    requires part { IsPartThenFresh C.id_of parent.now.cuts child.now.cuts }
    ensures canonical { IfOk result (λ change. change ≡ difference C.id_of parent.now child.now) }
    ensures applied { IfOk result (λ change. changed change parent.now ≡ child.now) }
    ensures fewest { IfOk result (λ change. IsFewest change parent.now child.now) }
    ensures fits { IfOk result (λ change. Fits change parent.now) }
    ensures short { IfOk result (λ change. ChangeHasShortLists change) }
{
    differing(alloc, parent, child)
}

// The canonical difference.
fn differing<C: Item + Drop>(
    alloc: Global,
    parent: &Desc<C>,
    child: &Desc<C>,
) -> Result<Change<C>, AllocError>
    requires parent { IsWhole parent.now }
    requires child { IsWhole child.now }
    requires columns { length parent.now.lows ≡ length child.now.lows }
    requires rows { length parent.now.row_status ≡ length child.now.row_status }
    requires short_columns { length parent.now.lows < 2 ^ 32 }
    requires short_rows { length parent.now.row_status < 2 ^ 32 }
    requires short_parent { length parent.now.cuts < 2 ^ 32 }
    requires short_child { length child.now.cuts < 2 ^ 32 }
    requires parent_ids { AllPairs (λ a b. C.id_of a ≢ C.id_of b) parent.now.cuts }
    requires child_ids { AllPairs (λ a b. C.id_of a ≢ C.id_of b) child.now.cuts }
    requires part { IsPartThenFresh C.id_of parent.now.cuts child.now.cuts }
    ensures { IfOk result (λ change. change ≡ difference C.id_of parent.now child.now) }
{
    let cuts = ListMods::diff(alloc, parent.cuts.as_slice(), child.cuts.as_slice())?;
    let left = relisted_status(&cuts, &parent.cut_status)?;
    Ok(Change {
        lows: FieldMods::diff(alloc, parent.lows.as_slice(), child.lows.as_slice())?,
        highs: FieldMods::diff(alloc, parent.highs.as_slice(), child.highs.as_slice())?,
        cuts,
        columns: status_diff(alloc, &parent.column_status, &child.column_status)?,
        rows: status_diff(alloc, &parent.row_status, &child.row_status)?,
        fresh: status_diff(alloc, &left, &child.cut_status)?,
    })
}

// The statuses that differ.
fn status_diff(
    alloc: Global,
    old: &Items<Status>,
    new: &Items<Status>,
) -> Result<FieldMods<Status>, AllocError>
    requires same_length { length old.now ≡ length new.now }
    requires short { length old.now < 2 ^ 32 }
    ensures { IfOk result (λ mods. mods ≡ differences same_status old.now new.now) }
{
    FieldMods::diff(alloc, old.as_slice(), new.as_slice())
}
