//! The numbers of each row.
ghost use Rattle.std.specs.Prelude.{◌≡◌, ◌<◌, ℕ, map, length, IfOk, OnOk, List, [], ◌∷◌, ◌++◌};
ghost use Rattle.std.specs.Prelude.{replicate, None, Some, if◌then◌else◌};
ghost use Rattle.bl_cards.specs.Said.{Cell};
ghost use Rattle.bl_num.specs.Exact.{at};
ghost use Rattle.bl_problem.specs.Rows.{coefficient_of};
ghost use Rattle.bl_mps.specs.Meaning.{entries_of, entry_of, is_zero};
ghost use Rattle.bl_cards.specs.Views.{cell_of};

use bl_cards::{Names, RowCell};
use bl_mods::Items;
use bl_num::Decimal;
use bl_problem::Term;
use std::alloc::{AllocError, Global};

/// A number of a row, not zero, and the place of its column.
#[derive(Clone, Copy)]
pub struct Entry {
    pub column: u32,
    pub number: Decimal,
}

/// The numbers of each row, in file order.
pub fn row_entries(
    alloc: Global,
    names: &Names<'_>,
    cells: &[RowCell<'_>],
) -> Result<Vec<Items<Entry>>, AllocError>
    ensures { IfOk result (λ entries. entries.items ≡ map (entries_of (map cell_of cells.now))
        names.now) }
{
    let mut entries = no_entries(alloc, names.len())?;
    for cell in cells {
        put_entry(&mut entries, names, cell)?;
    }
    Ok(entries)
}

/// As many empty lists.
fn no_entries(alloc: Global, count: usize) -> Result<Vec<Items<Entry>>, AllocError>
    ensures { IfOk result (λ entries. entries.items ≡ replicate count []) }
{
    let mut entries = Vec::new(alloc);
    for _ in 0..count {
        entries.push(Items::new(alloc))?;
    }
    Ok(entries)
}

/// Puts a number behind the others of its row. A zero is left out.
fn put_entry(
    entries: &mut Vec<Items<Entry>>,
    names: &Names<'_>,
    cell: &RowCell<'_>,
) -> Result<(), AllocError>
    ensures { (cells : List Cell) → entries.old.items ≡ map (entries_of cells) names.now
        → OnOk result (entries.new.items ≡ map (entries_of (cells ++ cell_of cell.now ∷ []))
        names.now) }
{
    let Some(entry) = nonzero(cell) else {
        return Ok(());
    };
    let Some(place) = names.find(cell.row) else {
        return Ok(());
    };
    if place < entries.len() {
        entries[place].push(entry)?;
    }
    Ok(())
}

/// The entry of a number, none for a zero.
fn nonzero(cell: &RowCell<'_>) -> Option<Entry>
    ensures { result ≡ (if is_zero cell.now.number then None
        else Some (entry_of (cell_of cell.now))) }
{
    if cell.number.mantissa == 0 {
        return None;
    }
    Some(Entry {
        column: cell.column,
        number: cell.number,
    })
}

/// The coefficient of each column, 0 where no term has it.
pub fn dense(alloc: Global, terms: &[Term], columns: usize) -> Result<Vec<i64>, AllocError>
    ensures width { IfOk result (λ numbers. length numbers.items ≡ columns) }
    ensures numbers { IfOk result (λ numbers. (j : ℕ) → j < columns → at numbers.items j
        ≡ coefficient_of terms.now j) }
{
    let mut numbers = vec![in alloc; 0i64; columns]?;
    let mut left = terms.len();
    while left > 0 {
        left -= 1;
        let term = terms[left];
        if (term.column as usize) < columns {
            numbers[term.column as usize] = term.coefficient;
        }
    }
    Ok(numbers)
}
