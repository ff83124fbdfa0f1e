// What the candidates of one row give, by that row alone.
ghost use Rattle.std.specs.Prelude.{◌≡◌, ◌≤◌, ◌*◌, ◌^◌, ◌≤ℤ◌, length, pos, All, List, ℤ, IfOk};
ghost use Rattle.std.specs.Prelude.{OnOk, IfSome, IsTrue};
ghost use Rattle.bl_problem.specs.Sums.{IsWithin};
ghost use Rattle.bl_problem.specs.Rows.{AreTerms};
ghost use Rattle.bl_problem.specs.Points.{lows_of};
ghost use Rattle.bl_problem.specs.Program.{IsColumn};
ghost use Rattle.bl_cuts.specs.Separations.{raws_of};
ghost use Rattle.bl_cuts.specs.OneRow.{quotient_of, over_lows, quotients_sum, row_breaks};
ghost use Rattle.bl_cuts.specs.OneRow.{IsSplit, IsNear, IsPushed, AreAboveLows, IsReach};
ghost use Rattle.bl_cuts.specs.OneRow.{IsOutOfReach};

use bl_fixed::Fixed;
use bl_mods::Items;
use bl_num::{ceil_div, floor_div, product};
use bl_problem::{Column, Term};
use std::alloc::{AllocError, Global};

// The raw number of 1.
const UNIT: i128 = 1 << 40;

// The columns' lows, and a point's entries as whole numbers of units and parts of one.
#[derive(Drop)]
pub struct Split {
    pub lows: Items<i64>,
    pub wholes: Items<i64>,
    pub parts: Items<i64>,
}

// Appends a column's low, and splits its entry.
fn push(split: &mut Split, low: i64, entry: Fixed) -> Result<(), AllocError>
    requires { IsWithin (2 ^ 70) entry.raw }
    ensures { OnOk result (IsPushed split.old low entry.raw split.new) }
{
    split.lows.push(low)?;
    split.wholes.push(entry.raw.div_euclid(UNIT) as i64)?;
    split.parts.push(entry.raw.rem_euclid(UNIT) as i64)?;
    Ok(())
}

// Splits a point's entries.
pub fn split_point(alloc: Global, columns: &[Column], point: &[Fixed]) -> Result<Split, AllocError>
    requires columns { All IsColumn columns.now }
    requires width { length point.now ≡ length columns.now }
    requires near { All (λ x. IsWithin (2 ^ 70) x.raw) point.now }
    ensures lows { IfOk result (λ split. split.lows ≡ lows_of columns.now) }
    ensures split { IfOk result (λ split. IsSplit split (raws_of point.now)) }
    ensures near { IfOk result (IsNear (length columns.now)) }
{
    let mut split = Split {
        lows: Items::new(alloc),
        wholes: Items::new(alloc),
        parts: Items::new(alloc),
    };
    for j in 0..columns.len() {
        push(&mut split, columns[j].low, point[j])?;
    }
    Ok(split)
}

// The weighted coefficient, divided and rounded down.
fn quotient(term: Term, weight: i64, q: i64) -> i64
    requires weight { IsWithin 1 weight }
    requires small { IsWithin (10 ^ 15) term.coefficient }
    requires counted { pos 1 ≤ℤ q }
    ensures exact { result ≡ quotient_of weight q term }
    ensures near { IsWithin (10 ^ 15) result }
{
    (weight * term.coefficient).div_euclid(q)
}

// The sum of quotient times entry.
fn quotients_sum(terms: &[Term], weight: i64, q: i64, entries: &[i64]) -> i128
    requires few { length entries.now ≤ 1000 }
    requires terms { AreTerms (length entries.now) terms.now }
    requires weight { IsWithin 1 weight }
    requires counted { pos 1 ≤ℤ q }
    requires near { All (IsWithin (2 ^ 40)) entries.now }
    ensures exact { result ≡ quotients_sum weight q terms.now entries.now }
    ensures near { IsWithin (2 * 10 ^ 30) result }
{
    let mut sum: i128 = 0;
    for term in terms {
        sum += product(quotient(*term, weight, q), entries[term.column as usize]);
    }
    sum
}

// What the weighted end leaves over the lows.
pub fn over_lows(terms: &[Term], weight: i64, end: i128, split: &Split) -> i128
    requires few { length split.now.lows ≤ 1000 }
    requires terms { AreTerms (length split.now.lows) terms.now }
    requires weight { IsWithin 1 weight }
    requires end { IsWithin (10 ^ 24) end }
    requires near { IsNear (length split.now.lows) split.now }
    ensures exact { result ≡ over_lows split.now.lows terms.now weight end }
    ensures near { IsWithin (3 * 10 ^ 30) result }
{
    weight as i128 * end - quotients_sum(terms, weight, 1, split.lows.as_slice())
}

// Whether the point breaks the row's cut.
pub fn row_breaks(terms: &[Term], weight: i64, over: i128, q: i64, split: &Split) -> bool
    requires few { length split.now.lows ≤ 1000 }
    requires terms { AreTerms (length split.now.lows) terms.now }
    requires weight { IsWithin 1 weight }
    requires over { IsWithin (3 * 10 ^ 30) over }
    requires counted { pos 1 ≤ℤ q }
    requires near { IsNear (length split.now.lows) split.now }
    ensures { (x : List ℤ) → IsSplit split.now x → result
        ≡ row_breaks split.now.lows x terms.now weight over q }
{
    let right = floor_div(over, q as i128) + quotients_sum(terms, weight, q, split.lows.as_slice());
    let wholes = quotients_sum(terms, weight, q, split.wholes.as_slice());
    let parts = quotients_sum(terms, weight, q, split.parts.as_slice());
    right < wholes + ceil_div(parts, UNIT)
}

// Whether each entry on the terms' columns is at least the low.
fn is_above_lows(terms: &[Term], split: &Split) -> bool
    requires terms { AreTerms (length split.now.lows) terms.now }
    requires near { IsNear (length split.now.lows) split.now }
    ensures { IsTrue result → AreAboveLows split.now terms.now }
{
    let (lows, wholes) = (split.lows.as_slice(), split.wholes.as_slice());
    for term in terms {
        if wholes[term.column as usize] < lows[term.column as usize] {
            return false;
        }
    }
    true
}

// How far over the lows the weighted sum of the entries reaches, in whole units rounded up; None
// where an entry is below its low. A divisor whose multiple is not below it gives no broken cut.
pub fn reach(terms: &[Term], weight: i64, split: &Split) -> Option<i128>
    requires few { length split.now.lows ≤ 1000 }
    requires terms { AreTerms (length split.now.lows) terms.now }
    requires weight { IsWithin 1 weight }
    requires near { IsNear (length split.now.lows) split.now }
    ensures reach { IfSome result (λ reach. (x : List ℤ) → IsSplit split.now x
        → IsReach split.now.lows x terms.now weight reach) }
{
    if !is_above_lows(terms, split) {
        return None;
    }
    let lows = quotients_sum(terms, weight, 1, split.lows.as_slice());
    let wholes = quotients_sum(terms, weight, 1, split.wholes.as_slice());
    let parts = quotients_sum(terms, weight, 1, split.parts.as_slice());
    Some(wholes - lows + ceil_div(parts, UNIT))
}

// Whether the multiple of the divisor nearest below is not below the reach.
pub fn is_out_of_reach(over: i128, q: i64, reach: Option<i128>) -> bool
    requires over { IsWithin (3 * 10 ^ 30) over }
    requires counted { pos 1 ≤ℤ q }
    ensures { IsTrue result → IsOutOfReach over q reach }
{
    match reach {
        Some(reach) => reach <= q as i128 * floor_div(over, q as i128),
        None => false,
    }
}
