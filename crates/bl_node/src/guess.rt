// What a proposal says of where to go on.
ghost use Rattle.std.specs.Prelude.{◌≡◌, length, IfOk};

use bl_fixed::Fixed;
use std::alloc::{AllocError, Global};

/// One half, in units of 2^-40.
const HALF: i128 = 1 << 39;

/// One, in units of 2^-40.
const ONE: i128 = 1 << 40;

// A point near which to branch, and the column that the penalties choose.
#[derive(Drop)]
pub struct Guess {
    pub point: Vec<Fixed>,
    pub branch: Option<u32>,
}

// How far an entry is above the next whole number below it.
pub fn fraction(entry: Fixed) -> i128 {
    entry.raw & (ONE - 1)
}

// The entry of the chosen column is half way between two whole numbers, and no other entry is.
fn asked_entry(entry: Fixed, is_chosen: bool) -> Fixed {
    let part = fraction(entry);
    if is_chosen {
        Fixed {
            raw: entry.raw.saturating_sub(part).saturating_add(HALF),
        }
    } else if part == HALF {
        Fixed {
            raw: entry.raw.saturating_add(1),
        }
    } else {
        entry
    }
}

// The entries are those at which the rule is asked to choose the column.
fn ask(point: &mut [Fixed], chosen: usize)
    ensures { length point.new ≡ length point.old }
{
    for (j, entry) in point.iter_mut().enumerate() {
        *entry = asked_entry(*entry, j == chosen);
    }
}

// The point at which the rule is asked: it has one entry for each column, and the chosen
// column's is the most fractional.
pub fn asked_point(
    alloc: Global,
    width: usize,
    guess: Option<Guess>,
) -> Result<Vec<Fixed>, AllocError>
    ensures { IfOk result (λ point. length point.items ≡ width) }
{
    let guess = guess.unwrap_or(Guess {
        point: Vec::new(alloc),
        branch: None,
    });
    let chosen = match guess.branch {
        Some(column) => column as usize,
        None => width,
    };
    let mut point = guess.point;
    point.resize(width, Fixed { raw: 0 })?;
    ask(point.as_mut_slice(), chosen);
    Ok(point)
}

// The greatest whole number that isn't above the entry; 0 where that is beyond `i64`.
pub fn whole_below(entry: Fixed) -> i64 {
    i64::try_from(entry.raw >> 40).unwrap_or(0)
}

/// So many columns are probed at a proposal.
const MOST_PROBED: usize = 5;

// How far a fraction is from one half.
fn distance(part: i128) -> i128 {
    if part < HALF {
        HALF.saturating_sub(part)
    } else {
        part.saturating_sub(HALF)
    }
}

// Of the columns that aren't taken, one whose entry is nearest to one half. None where all
// others are whole.
fn next_fractional(point: &[Fixed], taken: &[u32]) -> Option<u32> {
    let mut nearest: Option<u32> = None;
    let mut least = HALF;
    let mut column = 0u32;
    for entry in point {
        let part = fraction(*entry);
        if part != 0 && distance(part) < least && !taken.contains(&column) {
            nearest = Some(column);
            least = distance(part);
        }
        column = column.wrapping_add(1);
    }
    nearest
}

// The columns with the most fractional entries, the nearest to one half first.
pub fn most_fractional(alloc: Global, point: &[Fixed]) -> Result<Vec<u32>, AllocError> {
    let mut columns = Vec::with_capacity(alloc, MOST_PROBED)?;
    for _ in 0..MOST_PROBED {
        match next_fractional(point, columns.as_slice()) {
            Some(column) => columns.push(column)?,
            None => return Ok(columns),
        }
    }
    Ok(columns)
}
