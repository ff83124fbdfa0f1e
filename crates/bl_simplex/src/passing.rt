// The long step rule: a leaving value may stay outside its end while items whose reduced costs
// change their signs go to their other ends (Fourer 1994).
use crate::ratio::{Candidate, has_other_end, is_near, least_ratio};
use bl_desc::Status;
use bl_fixed::{Fixed, saturating_add, saturating_mul, saturating_sub};
use bl_linear::Form;
use bl_linear::numbers::ZERO;
use std::alloc::AllocError;

// Takes from the candidates those that are passed, and lists them: group by group, whose reduced
// costs come to 0 first, while their moves leave the value outside its end and others are left.
pub fn pass(
    form: &Form<'_>,
    status: &[Status],
    distance: Fixed,
    candidates: &mut Vec<Candidate>,
    passed: &mut Vec<u32>,
) -> Result<(), AllocError> {
    passed.clear();
    let mut left = distance;
    for _ in 0..candidates.len() {
        let Some(limit) = least_ratio(candidates.as_slice()) else {
            return Ok(());
        };
        let group = group_of(form, status, candidates.as_slice(), limit);
        if group.count == candidates.len() || left <= group.gain {
            return Ok(());
        }
        left = saturating_sub(left, group.gain);
        take_out(limit, candidates, passed)?;
    }
    Ok(())
}

// How many candidates are near the limit, and how far their moves bring the leaving value.
#[derive(Clone, Copy)]
struct Group {
    count: usize,
    gain: Fixed,
}

fn group_of(
    form: &Form<'_>,
    status: &[Status],
    candidates: &[Candidate],
    limit: Candidate,
) -> Group {
    let mut group = Group {
        count: 0,
        gain: ZERO,
    };
    for candidate in candidates {
        if is_near(*candidate, limit) {
            group.count = group.count.saturating_add(1);
            group.gain = saturating_add(group.gain, gain_of(form, status, *candidate));
        }
    }
    group
}

// How far an item's move brings the leaving value: all the way where its other end is not its own.
fn gain_of(form: &Form<'_>, status: &[Status], candidate: Candidate) -> Fixed {
    let item = candidate.item as usize;
    if !has_other_end(form, status, item) {
        return Fixed { raw: i128::MAX };
    }
    saturating_mul(
        candidate.entry,
        saturating_sub(form.high(item), form.low(item)),
    )
}

// Moves the candidates near the limit to the passed items.
fn take_out(
    limit: Candidate,
    candidates: &mut Vec<Candidate>,
    passed: &mut Vec<u32>,
) -> Result<(), AllocError> {
    let mut kept = 0usize;
    for number in 0..candidates.len() {
        let Some(candidate) = candidates.get(number).copied() else {
            return Ok(());
        };
        if is_near(candidate, limit) {
            passed.push(candidate.item)?;
        } else {
            if let Some(slot) = candidates.get_mut(kept) {
                *slot = candidate;
            }
            kept = kept.saturating_add(1);
        }
    }
    candidates.truncate(kept);
    Ok(())
}
