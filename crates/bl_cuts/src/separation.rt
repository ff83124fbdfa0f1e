//! The first cut from one row that a point breaks.
ghost use Rattle.std.specs.Prelude.{◌≡◌, ◌≤◌, ◌<◌, ◌+◌, ◌*◌, ◌^◌, ◌&&◌, ◌≤ℤ◌, length, pos};
ghost use Rattle.std.specs.Prelude.{int_lt, unsigned_abs, All, IfOk, IfSome, List, ℤ};
ghost use Rattle.bl_problem.specs.Sums.{IsWithin};
ghost use Rattle.bl_problem.specs.Rows.{AreTerms};
ghost use Rattle.bl_problem.specs.declared.cut.Cut.{Cut as TheCut};
ghost use Rattle.bl_problem.specs.Points.{own_lows};
ghost use Rattle.bl_bound.specs.Descriptions.{Describes};
ghost use Rattle.bl_cuts.specs.OneRow.{row_breaks, first_by_over, IsSplit, IsNear, IsReach};
ghost use Rattle.bl_cuts.specs.OneRow.{AreUnbroken};
ghost use Rattle.bl_cuts.specs.Separations.{row_at, first_size, first_in_row, is_broken};
ghost use Rattle.bl_cuts.specs.Separations.{first_broken, alone, IsCandidate};

use crate::one_row::{Split, is_out_of_reach, over_lows, reach, row_breaks, split_point};
use crate::pick::Pick;
use bl_desc::Desc;
use bl_fixed::Fixed;
use bl_mods::Items;
use bl_problem::{Cut, Problem, Term};
use std::alloc::{AllocError, Global};

// A row, the weight 1 or -1, and a divisor.
#[derive(Clone, Copy)]
pub struct Candidate {
    pub row: u32,
    pub weight: i64,
    pub q: i64,
}

// Whether the divisor is above 1 and the row's cut is broken. A divisor that gives no broken cut is
// listed, and not tried again.
fn is_broken(
    tried: &mut Vec<i64>,
    terms: &[Term],
    weight: i64,
    over: i128,
    q: i64,
    reach: Option<i128>,
    split: &Split,
) -> Result<bool, AllocError>
    requires few { length split.now.lows ≤ 1000 }
    requires terms { AreTerms (length split.now.lows) terms.now }
    requires weight { IsWithin 1 weight }
    requires over { IsWithin (3 * 10 ^ 30) over }
    requires near { IsNear (length split.now.lows) split.now }
    requires reach { IfSome reach (λ reach. (x : List ℤ) → IsSplit split.now x
        → IsReach split.now.lows x terms.now weight reach) }
    requires tried { (x : List ℤ) → IsSplit split.now x
        → AreUnbroken split.now.lows x terms.now weight over tried.old.items }
    ensures exact { IfOk result (λ broken. (x : List ℤ) → IsSplit split.now x → broken
        ≡ (int_lt (pos 1) q && row_breaks split.now.lows x terms.now weight over q)) }
    ensures tried { IfOk result (λ broken. (x : List ℤ) → IsSplit split.now x
        → AreUnbroken split.now.lows x terms.now weight over tried.new.items) }
{
    if q <= 1 {
        return Ok(false);
    }
    if is_out_of_reach(over, q, reach) {
        return Ok(false);
    }
    if tried.contains(&q) {
        return Ok(false);
    }
    if row_breaks(terms, weight, over, q, split) {
        return Ok(true);
    }
    tried.push(q)?;
    Ok(false)
}

// The size of a coefficient.
fn size(term: Term) -> i64
    requires { IsWithin (10 ^ 15) term.coefficient }
    ensures exact { result ≡ pos (unsigned_abs term.coefficient) }
    ensures near { IsWithin (10 ^ 15) result }
{
    term.coefficient.abs()
}

// The first of the terms' sizes above 1 at which the row's cut is broken.
fn first_size(
    alloc: Global,
    row: u32,
    weight: i64,
    over: i128,
    terms: &[Term],
    split: &Split,
) -> Result<Option<Candidate>, AllocError>
    requires few { length split.now.lows ≤ 1000 }
    requires terms { AreTerms (length split.now.lows) terms.now }
    requires weight { IsWithin 1 weight }
    requires over { IsWithin (3 * 10 ^ 30) over }
    requires near { IsNear (length split.now.lows) split.now }
    ensures exact { IfOk result (λ first. (x : List ℤ) → IsSplit split.now x → first
        ≡ first_size (λ c. row_breaks split.now.lows x terms.now weight over c.q) row weight
        terms.now) }
    ensures named { IfOk result (λ first. IfSome first (λ c. c.row ≡ row)) }
{
    let reach = reach(terms, weight, split);
    let mut tried = Vec::new(alloc);
    for term in terms {
        let q = size(*term);
        if is_broken(&mut tried, terms, weight, over, q, reach, split)? {
            return Ok(Some(Candidate { row, weight, q }));
        }
    }
    Ok(None)
}

// The first at an end, where that is there.
fn first_at_end(
    alloc: Global,
    row: u32,
    weight: i64,
    end: Option<i128>,
    terms: &[Term],
    split: &Split,
) -> Result<Option<Candidate>, AllocError>
    requires few { length split.now.lows ≤ 1000 }
    requires terms { AreTerms (length split.now.lows) terms.now }
    requires weight { IsWithin 1 weight }
    requires end { IfSome end (IsWithin (10 ^ 24)) }
    requires near { IsNear (length split.now.lows) split.now }
    ensures exact { IfOk result (λ first. (x : List ℤ) → IsSplit split.now x → first
        ≡ first_by_over split.now.lows x row weight end terms.now) }
    ensures named { IfOk result (λ first. IfSome first (λ c. c.row ≡ row)) }
{
    match end {
        Some(end) => {
            let over = over_lows(terms, weight, end, split);
            first_size(alloc, row, weight, over, terms, split)
        }
        None => Ok(None),
    }
}

// The first of a row: its high end comes first.
fn first_in_row(
    alloc: Global,
    problem: &Problem,
    row: u32,
    split: &Split,
) -> Result<Option<Candidate>, AllocError>
    requires row { row < length problem.now.rows }
    requires lows { split.now.lows ≡ own_lows problem.now }
    requires near { IsNear (length split.now.lows) split.now }
    ensures exact { IfOk result (λ first. (cuts : List TheCut) (x : List ℤ) → IsSplit split.now x
        → first ≡ first_in_row (is_broken problem.now cuts x) row (row_at problem.now.rows row)) }
    ensures named { IfOk result (λ first. IfSome first (λ c. c.row ≡ row)) }
{
    let rows = problem.rows();
    let line = &rows[row as usize];
    let terms = line.terms.as_slice();
    match first_at_end(alloc, row, 1, line.high, terms, split)? {
        Some(candidate) => Ok(Some(candidate)),
        None => first_at_end(alloc, row, -1, line.low, terms, split),
    }
}

// The weight at one place, and 0 elsewhere.
fn weights(alloc: Global, count: usize, candidate: Candidate) -> Result<Items<i64>, AllocError>
    requires { candidate.row < count }
    ensures { IfOk result (λ weights. weights ≡ alone count candidate.row candidate.weight) }
{
    let mut weights = Items::from_vec(Vec::from_elem(alloc, 0, count)?);
    weights.set(candidate.row as usize, candidate.weight);
    Ok(weights)
}

/// The first cut from one row that the point breaks, as weights and a divisor for `derive`. For
/// each row in order, for each end that it has, high first, the weight is 1 (high) or -1 (low) on
/// that row alone, and the divisor is each coefficient's size above 1, in order of terms. It is
/// broken where `derive` gives a cut whose sum at the point is above its right side, exactly in
/// units of 2^-40. `point` has one entry per column. None comes exactly where none is broken;
/// `AllocError` only for want of memory.
pub fn separate(
    alloc: Global,
    problem: &Problem,
    desc: &Desc<Cut>,
    point: &[Fixed],
) -> Result<Option<Pick>, AllocError>
    requires suits { Describes problem.now desc.now }
    requires width { length point.now ≡ length problem.now.columns }
    requires near { All (λ x. IsWithin (2 ^ 70) x.raw) point.now }
    ensures exact { IfOk result (λ pick. pick ≡ first_broken problem.now desc.now.cuts point.now) }
    ensures candidate { IfOk result (λ pick. IfSome pick (IsCandidate problem.now desc.now.cuts)) }
    ensures width { IfOk result (λ pick. IfSome pick
        (λ pick. length pick.weights ≡ length problem.now.rows + length desc.now.cuts)) }
    ensures counted { IfOk result (λ pick. IfSome pick (λ pick. pos 1 ≤ℤ pick.q)) }
{
    let split = split_point(alloc, problem.columns(), point)?;
    let count = problem.rows().len() + desc.cuts.len();
    for row in 0..problem.rows().len() {
        if let Some(candidate) = first_in_row(alloc, problem, row as u32, &split)? {
            let weights = weights(alloc, count, candidate)?;
            let q = candidate.q;
            return Ok(Some(Pick { weights, q }));
        }
    }
    Ok(None)
}
