// The ratio test: which item enters the basis, so that reduced costs keep their signs but for a
// tolerance, and the pivot is large (Harris 1973).
use crate::basis::LEAST_PIVOT;
use crate::row::PivotRow;
use bl_desc::Status;
use bl_fixed::{Fixed, saturating_add};
use bl_linear::Form;
use bl_linear::numbers::{ZERO, at, is_less_ratio, put, size_of};
use std::alloc::AllocError;

/// A reduced cost of at most this raw size is taken for 0.
pub const COST_TOLERANCE: i128 = 1 << 8;

/// By so much a reduced cost may change its sign.
const TOLERANCE: Fixed = Fixed { raw: 1 << 14 };

/// An item that may enter: the sizes of its reduced cost and of its entry in the row.
#[derive(Clone, Copy)]
pub struct Candidate {
    pub item: u32,
    pub cost: Fixed,
    pub entry: Fixed,
}

impl Candidate {
    // The reduced cost with the tolerance.
    fn slack_cost(&self) -> Fixed {
        saturating_add(self.cost, TOLERANCE)
    }
}

// Lists the items that may enter where the leaving item's value rises, or falls. The reduced
// cost of an activity that stands at an end which is not its row's own is taken for 0; whether
// that changed one.
pub fn list_candidates(
    form: &Form<'_>,
    row: &PivotRow,
    status: &[Status],
    reduced: &mut [Fixed],
    rises: bool,
    candidates: &mut Vec<Candidate>,
) -> Result<bool, AllocError> {
    let mut has_shifted = false;
    candidates.clear();
    for item in row.filled() {
        let number = *item as usize;
        let entry = row.entry(number);
        if LEAST_PIVOT <= entry.raw.unsigned_abs()
            && may_enter(form, status, number, entry, rises)
        {
            if !stands_at_own_end(form, status, number) {
                has_shifted = has_shifted || COST_TOLERANCE < size_of(at(reduced, number)).raw;
                put(reduced, number, ZERO);
            }
            candidates.push(Candidate {
                item: *item,
                cost: size_of(at(reduced, number)),
                entry: size_of(entry),
            })?;
        }
    }
    Ok(has_shifted)
}

// Whether the item's move from its end lets the leaving value rise, or fall.
fn may_enter(form: &Form<'_>, status: &[Status], item: usize, entry: Fixed, rises: bool) -> bool {
    may_move(form, item) && (is_at_low(status, item) == (entry.raw < 0)) == rises
}

// Whether an item's ends differ.
pub fn may_move(form: &Form<'_>, item: usize) -> bool {
    form.low(item) != form.high(item)
}

pub fn is_at_low(status: &[Status], item: usize) -> bool {
    status.get(item) == Some(&Status::AtLow)
}

fn stands_at_own_end(form: &Form<'_>, status: &[Status], item: usize) -> bool {
    if is_at_low(status, item) {
        form.has_low(item)
    } else {
        form.has_high(item)
    }
}

// Whether the end at which an item does not stand is its own.
pub fn has_other_end(form: &Form<'_>, status: &[Status], item: usize) -> bool {
    if is_at_low(status, item) {
        form.has_high(item)
    } else {
        form.has_low(item)
    }
}

// The item with the greatest entry among those whose reduced costs come to 0 before any passes it
// by the tolerance.
pub fn best_of(candidates: &[Candidate]) -> Option<Candidate> {
    let limit = least_ratio(candidates)?;
    let mut best = limit;
    for candidate in candidates {
        if best.entry < candidate.entry && is_near(*candidate, limit) {
            best = *candidate;
        }
    }
    Some(best)
}

// Whether a candidate's reduced cost comes to 0 before that of the limit passes it by the
// tolerance.
pub fn is_near(candidate: Candidate, limit: Candidate) -> bool {
    !is_less_ratio(
        limit.slack_cost(),
        limit.entry,
        candidate.cost,
        candidate.entry,
    )
}

// The candidate whose reduced cost passes 0 by the tolerance first.
pub fn least_ratio(candidates: &[Candidate]) -> Option<Candidate> {
    let mut least = *candidates.first()?;
    for candidate in candidates {
        let is_less = is_less_ratio(
            candidate.slack_cost(),
            candidate.entry,
            least.slack_cost(),
            least.entry,
        );
        if is_less {
            least = *candidate;
        }
    }
    Some(least)
}

// Of the candidates with the least ratio of reduced cost and entry the first.
pub fn first_of(candidates: &[Candidate]) -> Option<Candidate> {
    let mut least = *candidates.first()?;
    for candidate in candidates {
        if is_less_ratio(candidate.cost, candidate.entry, least.cost, least.entry) {
            least = *candidate;
        }
    }
    Some(least)
}
