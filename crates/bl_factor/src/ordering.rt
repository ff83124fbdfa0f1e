// The order in which the places of a product are closed, so that it gets few entries: the
// pattern of the open entries is eliminated as bits, each time the column with the fewest of
// them, and in it the row with the fewest.
ghost use Rattle.std.specs.Prelude.{◌≡◌, length, IfOk};

use crate::pattern::Pattern;
use crate::sparse::Entry;
use std::alloc::{AllocError, Global};

/// So many open places at most are ordered by elimination; more of them by the entries of their
/// columns alone.
const MOST_ELIMINATED: usize = 4096;

/// The places in their order, and a rank for each row: of rows with large enough numbers the one
/// of the least rank is to be the pivot.
#[derive(Drop)]
pub(crate) struct Order {
    pub places: Vec<usize>,
    pub ranks: Vec<u32>,
}

// The order for these columns, of which some are open.
pub(crate) fn order_of(
    alloc: Global,
    columns: &[Option<Vec<Entry>>],
    is_open: &[bool],
) -> Result<Order, AllocError>
    ensures { IfOk result (λ order. length order.ranks.items ≡ length columns.now) }
{
    let mut order = Order {
        places: Vec::new(alloc),
        ranks: Vec::from_elem(alloc, u32::MAX, columns.len())?,
    };
    let open = open_of(alloc, is_open)?;
    if open.len() <= MOST_ELIMINATED {
        let pattern = pattern_of(alloc, columns, open.as_slice())?;
        order.eliminate(alloc, pattern, open.as_slice())?;
    } else {
        order.sort(columns, open)?;
    }
    Ok(order)
}

impl Order {
    ghost use Rattle.std.specs.Prelude.{◌≡◌, length};

    // Orders the open places by eliminating their pattern. Once it is so full that the order
    // makes little difference, the rest come by their counts.
    fn eliminate(
        &mut self,
        alloc: Global,
        mut pattern: Pattern,
        open: &[usize],
    ) -> Result<(), AllocError>
        ensures { length self.new.ranks.items ≡ length self.old.ranks.items }
    {
        let mut left = numbers_below(alloc, open.len())?;
        let mut rows = Vec::new(alloc);
        let mut columns = Vec::new(alloc);
        // No count is less.
        let mut least = 0;
        for rank in 0..open.len() {
            let counts = pattern.columns.counts.as_slice();
            let Some(column) = take_sparsest(&mut left, counts, least) else {
                break;
            };
            least = count_of(counts, column);
            self.places.push(named(open, column))?;
            pattern.columns.members(column, &mut rows)?;
            if let Some(row) = least_of(rows.as_slice(), pattern.rows.counts.as_slice()) {
                self.rank(named(open, row), rank);
                pattern.rows.members(row, &mut columns)?;
                pattern.eliminate(row, column, rows.as_slice(), columns.as_slice());
                // Only the counts of the row's columns are others now.
                least = least.min(least_count(
                    columns.as_slice(),
                    pattern.columns.counts.as_slice(),
                ));
            } else {
                pattern.drop_column(column);
            }
        }
        let counts = pattern.columns.counts.as_slice();
        left.sort_unstable_by_key(|number| count_of(counts, *number));
        append(&mut self.places, left.as_slice(), open)?;
        rank_rest(
            self.ranks.as_mut_slice(),
            pattern.rows.counts.as_slice(),
            open,
        );
        Ok(())
    }

    fn rank(&mut self, row: usize, rank: usize)
        ensures { length self.new.ranks.items ≡ length self.old.ranks.items }
    {
        if let Some(number) = self.ranks.get_mut(row) {
            *number = u32::try_from(rank).unwrap_or(u32::MAX);
        }
    }

    // Orders the open places by the entries of their columns.
    fn sort(&mut self, columns: &[Option<Vec<Entry>>], open: Vec<usize>) -> Result<(), AllocError>
        ensures { self.new.ranks ≡ self.old.ranks }
    {
        self.places = open;
        self.places
            .sort_unstable_by_key(|place| entries_at(columns, *place).len());
        Ok(())
    }
}

// The place with a number among the open ones.
fn named(open: &[usize], number: usize) -> usize {
    open.get(number).copied().unwrap_or(usize::MAX)
}

// The open places.
fn open_of(alloc: Global, is_open: &[bool]) -> Result<Vec<usize>, AllocError> {
    let mut open = Vec::new(alloc);
    for (place, flag) in is_open.iter().enumerate() {
        if *flag {
            open.push(place)?;
        }
    }
    Ok(open)
}

// The entries of the column of a place; none of a unit column.
fn entries_at(columns: &[Option<Vec<Entry>>], place: usize) -> &[Entry] {
    match columns.get(place) {
        Some(Some(column)) => column.as_slice(),
        _ => &[],
    }
}

// The entries of the open columns at the open rows.
fn pattern_of(
    alloc: Global,
    columns: &[Option<Vec<Entry>>],
    open: &[usize],
) -> Result<Pattern, AllocError> {
    let mut pattern = Pattern::new(alloc, open.len())?;
    let number_of = numbers_of(alloc, columns.len(), open)?;
    for (number, place) in open.iter().enumerate() {
        let entries = entries_at(columns, *place);
        insert_column(&mut pattern, number, entries, number_of.as_slice());
    }
    Ok(pattern)
}

// The number of each place among the open ones, and a large one for the others.
fn numbers_of(alloc: Global, size: usize, open: &[usize]) -> Result<Vec<usize>, AllocError> {
    let mut number_of = Vec::from_elem(alloc, usize::MAX, size)?;
    for (number, place) in open.iter().enumerate() {
        if let Some(slot) = number_of.get_mut(*place) {
            *slot = number;
        }
    }
    Ok(number_of)
}

fn insert_column(pattern: &mut Pattern, column: usize, entries: &[Entry], number_of: &[usize]) {
    for entry in entries {
        let row = named(number_of, entry.place as usize);
        if row != usize::MAX {
            pattern.insert(row, column);
        }
    }
}

// Ranks the rows that still count behind the others, those with few entries first.
fn rank_rest(ranks: &mut [u32], counts: &[u32], open: &[usize]) {
    let others = u32::try_from(open.len()).unwrap_or(u32::MAX);
    for (number, count) in counts.iter().enumerate() {
        if let Some(rank) = ranks.get_mut(named(open, number)) {
            *rank = (*rank).min(others.saturating_add(*count));
        }
    }
}

// Puts the open places with these numbers behind others.
fn append(places: &mut Vec<usize>, numbers: &[usize], open: &[usize]) -> Result<(), AllocError> {
    for number in numbers {
        places.push(named(open, *number))?;
    }
    Ok(())
}

// The numbers below another one.
fn numbers_below(alloc: Global, end: usize) -> Result<Vec<usize>, AllocError> {
    let mut numbers = Vec::with_capacity(alloc, end)?;
    for number in 0..end {
        numbers.push(number)?;
    }
    Ok(numbers)
}

// Takes the first column with the least count out of those that are left. None where all have
// entries in half of the rows that are left.
fn take_sparsest(left: &mut Vec<usize>, counts: &[u32], least: u32) -> Option<usize> {
    let position = position_of_least(left.as_slice(), counts, least)?;
    let column = *left.get(position)?;
    if (count_of(counts, column) as usize).saturating_mul(2) >= left.len() {
        return None;
    }
    Some(left.remove(position))
}

// Among these numbers the first with the least count.
fn least_of(numbers: &[usize], counts: &[u32]) -> Option<usize> {
    let position = position_of_least(numbers, counts, 1)?;
    numbers.get(position).copied()
}

// Where the first with the least count stands among these numbers. None is looked for after one
// of at most `enough`.
fn position_of_least(numbers: &[usize], counts: &[u32], enough: u32) -> Option<usize> {
    let mut best = None;
    let mut fewest = u32::MAX;
    for (position, number) in numbers.iter().enumerate() {
        let count = count_of(counts, *number);
        if count < fewest {
            best = Some(position);
            fewest = count;
            if fewest <= enough {
                break;
            }
        }
    }
    best
}

// The least count of these numbers.
fn least_count(numbers: &[usize], counts: &[u32]) -> u32 {
    let mut fewest = u32::MAX;
    for number in numbers {
        fewest = fewest.min(count_of(counts, *number));
    }
    fewest
}

fn count_of(counts: &[u32], number: usize) -> u32 {
    counts.get(number).copied().unwrap_or(u32::MAX)
}
