//! The best point that was found, and what is known of it.
ghost use Rattle.std.specs.Prelude.{◌≡◌, IfSome, slice_get};
ghost use Rattle.bl_problem.specs.Points.{InBox, own_lows, own_highs, value_of};
ghost use Rattle.bl_journal.specs.Results.{lesser_of, final};
ghost use Rattle.bl_journal.specs.States.{value_less};
ghost use Rattle.bl_tree.specs.Records.{best_value_with, improves, place_with, found_in};
ghost use Rattle.bl_tree.specs.Records.{found_with};
ghost use Rattle.bl_tree.specs.Answers.{found_if, verdict_of, verdict_from};

use crate::answer::{Answer, Best};
use bl_journal::Entry;
use bl_mods::Items;
use bl_problem::Problem;

// The value of a point within the problem's bounds.
fn value_within(problem: &Problem, point: &[i64]) -> i128
    requires { InBox (own_lows problem.now) (own_highs problem.now) point.now }
    ensures { result ≡ value_of problem.now point.now }
{
    let _columns = problem.columns();
    problem.value(point)
}

/// What is best once an outcome came: the best value, the place of the entry that found it, and
/// whether the outcome's point is it.
#[derive(Clone, Copy)]
pub struct Improved {
    pub value: Option<i128>,
    pub place: usize,
    pub better: bool,
}

/// What is best after a put at the place `now`, where the best value and the place of its entry are
/// known. The found point's value is worked out once.
pub fn improve(
    problem: &Problem,
    best: Option<i128>,
    before: usize,
    found: &Option<Items<i64>>,
    now: usize,
) -> Improved
    requires { IfSome found.now (λ x. InBox (own_lows problem.now) (own_highs problem.now) x) }
    ensures value { result.value ≡ best_value_with problem.now best found.now }
    ensures place { result.place ≡ place_with problem.now best found.now before now }
    ensures better { result.better ≡ improves problem.now best found.now }
{
    let same = Improved {
        value: best,
        place: before,
        better: false,
    };
    let Some(point) = found else {
        return same;
    };
    let value = value_within(problem, point.as_slice());
    let new = Improved {
        value: Some(value),
        place: now,
        better: true,
    };
    match best {
        None => new,
        Some(old) => { if value < old { new } else { same } }
    }
}

/// The point that the entry at a place found, with its value.
pub fn found_at(entries: &[Entry], place: usize, value: i128) -> Option<Best<'_>>
    ensures { found_if result ≡ found_with value (found_in (slice_get entries.now place)) }
{
    if place >= entries.len() {
        return None;
    }
    match &entries[place] {
        Entry::Put {
            found: Some(point),
            ..
        } => Some(Best {
            value,
            point: point.as_slice(),
        }),
        _ => None,
    }
}

// The lesser of a number and the cutoff, if there is one.
fn lesser_value(low: i128, cutoff: Option<i128>) -> i128
    ensures { result ≡ lesser_of low cutoff }
{
    match cutoff {
        None => low,
        Some(cutoff) => cutoff.min(low),
    }
}

// The answer where no node is live. The cutoff is the best value less the gap.
fn final_answer(best: Option<Best<'_>>, gap: i128, cutoff: Option<i128>) -> Answer<'_>
    requires { cutoff ≡ value_less gap (found_if best) }
    ensures { verdict_of result ≡ final gap (found_if best.entry) }
{
    let Some(Best { value, point }) = best else {
        return Answer::Infeasible;
    };
    if gap > 0 {
        Answer::Within {
            value,
            bound: cutoff.unwrap_or(value),
            point,
        }
    } else {
        Answer::Optimal { value, point }
    }
}

/// The answer, from the best point, the gap, the best value less the gap, and the least low
/// number of the live nodes.
pub fn answer_from(
    best: Option<Best<'_>>,
    gap: i128,
    cutoff: Option<i128>,
    least: Option<i128>,
) -> Answer<'_>
    requires { cutoff ≡ value_less gap (found_if best) }
    ensures { verdict_of result ≡ verdict_from gap (found_if best.entry) least }
{
    match least {
        None => final_answer(best, gap, cutoff),
        Some(low) => Answer::Bounded {
            bound: lesser_value(low, cutoff),
            best,
        },
    }
}
