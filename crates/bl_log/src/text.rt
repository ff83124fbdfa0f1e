//! Entries as lines.
ghost use Rattle.std.specs.Prelude.{◌≡◌, ◌++◌, ◌∷◌, [], codes, All, OnOk, IfOk};
ghost use Rattle.std.specs.Fmt.{decimal};
ghost use Rattle.std.specs.String.{string_bytes};
ghost use Rattle.bl_log.specs.Spaced.{spaced, joined, listed};
ghost use Rattle.bl_log.specs.Fits.{IsU32, IsI128, Fits, FoundFits, StepFits, ChangeFits};
ghost use Rattle.bl_log.specs.Fits.{BoundsAndCutsFit, StatusesFit, ModsFit, PlacesFit, ListFits};
ghost use Rattle.bl_log.specs.Fits.{CutFits};
ghost use Rattle.bl_log.specs.Log.{natural, placed, cut, bounds_and_cuts, statuses, lists_of};
ghost use Rattle.bl_log.specs.Log.{form_word, put_head, found_point, next_step, line_of, text_of};

use crate::spell::{Spell, push_each, push_list, push_word};
use bl_desc::{Change, Form};
use bl_journal::{Entry, Journal, Step};
use bl_mods::{FieldMods, Items, Places, Shared};
use bl_problem::Cut;
use std::alloc::{AllocError, Global};

/// A line for each entry, in order, each with a line feed behind it. `AllocError` where there is
/// no memory.
pub fn log_text(alloc: Global, journal: &Journal) -> Result<Vec<u8>, AllocError>
    ensures text { IfOk result (λ text. text.items ≡ text_of journal.now.entries) }
    ensures fits { OnOk result (All Fits journal.now.entries) }
{
    let mut text = String::new(alloc);
    for entry in journal.entries() {
        push_line(&mut text, entry)?;
        text.push_str("\n")?;
    }
    Ok(text.into_bytes())
}

/// Adds the line of an entry.
pub(crate) fn push_line(text: &mut String, entry: &Entry) -> Result<(), AllocError>
    ensures laid { OnOk result (string_bytes text.new ≡ string_bytes text.old
        ++ line_of entry.now) }
    ensures fits { OnOk result (Fits entry.now) }
{
    match entry {
        Entry::Take { seat, id } => {
            text.push_str("take")?;
            push_two(text, seat, id)?;
        }
        Entry::Back { seat, id } => {
            text.push_str("back")?;
            push_two(text, seat, id)?;
        }
        Entry::Encode { seat, id, form } => {
            text.push_str("encode")?;
            push_two(text, seat, id)?;
            push_word(text, form_word(*form))?;
        }
        Entry::Free { seat, ids } => {
            text.push_str("free")?;
            seat.push(text)?;
            push_each(text, ids.as_slice())?;
        }
        Entry::Put {
            seat,
            id,
            found,
            low,
            next,
        } => {
            push_head(text, seat, id, low)?;
            push_found(text, found)?;
            push_next(text, next)?;
        }
    }
    Ok(())
}

// Adds the numbers of a seat and a node.
fn push_two(text: &mut String, seat: &u32, id: &u32) -> Result<(), AllocError>
    ensures laid { OnOk result (string_bytes text.new ≡ string_bytes text.old
        ++ spaced (decimal seat.now ∷ decimal id.now ∷ [])) }
    ensures fits { OnOk result (IsU32 seat.now × IsU32 id.now) }
{
    seat.push(text)?;
    id.push(text)?;
    Ok(())
}

// Adds the words of a put as far as the point that was found.
fn push_head(text: &mut String, seat: &u32, id: &u32, low: &i128) -> Result<(), AllocError>
    ensures laid { OnOk result (string_bytes text.new ≡ string_bytes text.old
        ++ joined (put_head seat.now id.now low.now)) }
    ensures fits { OnOk result (IsU32 seat.now × IsU32 id.now × IsI128 low.now) }
{
    text.push_str("put")?;
    push_two(text, seat, id)?;
    text.push_str(" low")?;
    low.push(text)?;
    text.push_str(" found")?;
    Ok(())
}

fn form_word(form: Form) -> &'static str
    ensures { result.now ≡ form_word form }
{
    match form {
        Form::Explicit => "explicit",
        Form::Relative => "relative",
    }
}

// Adds what becomes of the node, and says that this comes.
fn push_next(text: &mut String, next: &Step) -> Result<(), AllocError>
    ensures laid { OnOk result (string_bytes text.new ≡ string_bytes text.old ++ spaced (codes "next" ∷ next_step next.now)) }
    ensures fits { OnOk result (StepFits next.now) }
{
    text.push_str(" next")?;
    push_step(text, next)
}

// Adds the point that was found, or that there is none.
fn push_found(text: &mut String, found: &Option<Items<i64>>) -> Result<(), AllocError>
    ensures laid { OnOk result (string_bytes text.new ≡ string_bytes text.old
        ++ spaced (found_point found.now)) }
    ensures fits { OnOk result (FoundFits found.now) }
{
    match found {
        None => text.push_str(" none"),
        Some(point) => {
            text.push_str(" point")?;
            push_list(text, point.as_slice())
        }
    }
}

// Adds what becomes of the node.
fn push_step(text: &mut String, next: &Step) -> Result<(), AllocError>
    ensures laid { OnOk result (string_bytes text.new ≡ string_bytes text.old
        ++ spaced (next_step next.now)) }
    ensures fits { OnOk result (StepFits next.now) }
{
    match next {
        Step::Shut => text.push_str(" shut"),
        Step::Split { common, column, at } => {
            text.push_str(" split")?;
            column.push(text)?;
            at.push(text)?;
            push_change(text, common.get())?;
            Ok(())
        }
    }
}

// Adds the lists of a change.
fn push_change(text: &mut String, change: &Change<Cut>) -> Result<(), AllocError>
    ensures laid { OnOk result (string_bytes text.new ≡ string_bytes text.old
        ++ spaced (lists_of change.now)) }
    ensures fits { OnOk result (ChangeFits change.now) }
{
    push_bounds_and_cuts(text, change)?;
    push_statuses(text, change)?;
    Ok(())
}

fn push_bounds_and_cuts(text: &mut String, change: &Change<Cut>) -> Result<(), AllocError>
    ensures laid { OnOk result (string_bytes text.new ≡ string_bytes text.old
        ++ spaced (bounds_and_cuts change.now)) }
    ensures fits { OnOk result (BoundsAndCutsFit change.now) }
{
    push_mods(text, "lows", &change.lows)?;
    push_mods(text, "highs", &change.highs)?;
    push_dropped(text, &change.cuts.dropped)?;
    push_added(text, &change.cuts.added)?;
    Ok(())
}

fn push_statuses(text: &mut String, change: &Change<Cut>) -> Result<(), AllocError>
    ensures laid { OnOk result (string_bytes text.new ≡ string_bytes text.old
        ++ spaced (statuses change.now)) }
    ensures fits { OnOk result (StatusesFit change.now) }
{
    push_mods(text, "cols", &change.columns)?;
    push_mods(text, "rows", &change.rows)?;
    push_mods(text, "cuts", &change.fresh)?;
    Ok(())
}

fn push_mods<T: Spell + Copy + Default>(
    text: &mut String,
    name: &str,
    mods: &FieldMods<T>,
) -> Result<(), AllocError>
    ensures laid { OnOk result (string_bytes text.new ≡ string_bytes text.old
        ++ spaced (name.now ∷ listed (placed T.spelled) mods.now)) }
    ensures fits { OnOk result (ModsFit T.fits mods.now) }
{
    push_word(text, name)?;
    push_list(text, mods.entries())
}

fn push_dropped(text: &mut String, dropped: &Places) -> Result<(), AllocError>
    ensures laid { OnOk result (string_bytes text.new ≡ string_bytes text.old ++ spaced (codes "drop" ∷ listed natural dropped.now)) }
    ensures fits { OnOk result (PlacesFit dropped.now) }
{
    text.push_str(" drop")?;
    push_list(text, dropped.as_slice())
}

fn push_added(text: &mut String, added: &Items<Shared<Cut>>) -> Result<(), AllocError>
    ensures laid { OnOk result (string_bytes text.new ≡ string_bytes text.old ++ spaced (codes "add" ∷ listed cut added.now)) }
    ensures fits { OnOk result (ListFits CutFits added.now) }
{
    text.push_str(" add")?;
    push_list(text, added.as_slice())
}
