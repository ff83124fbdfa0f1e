//! The rule that splits at the entry whose fraction is nearest to one half.
ghost use Rattle.std.specs.Prelude.{◌≡◌, ℕ, ◌+◌, ◌<◌, ◌≤◌, ◌^◌, ◌≤ℤ◌, ◌<ℤ◌, pos, length};
ghost use Rattle.bl_num.specs.Exact.{at};
ghost use Rattle.bl_fixed.specs.Fixed.{one, floor_of};
ghost use Rattle.bl_branch.specs.Rules.{IsSplittable, Splits};
ghost use Rattle.bl_branch.specs.Fractions.{fraction_of, gap_of, floor_within, IsNearest};
ghost use Rattle.bl_branch.specs.Fractions.{IsMostFractional};

use crate::halving::half;
use crate::place::Place;
use bl_desc::Desc;
use bl_fixed::Fixed;
use bl_problem::Cut;

/// The bits behind the point.
const FRACTION_BITS: u32 = 40;

/// The raw number of 1.
const ONE: i128 = 1 << FRACTION_BITS;

// What the number is above its floor, in units of 2^-40.
fn fraction(value: Fixed) -> i128
    ensures exact { result ≡ fraction_of value }
    ensures low { pos 0 ≤ℤ result }
    ensures high { result <ℤ one }
{
    value.raw.rem_euclid(ONE)
}

// How far the number's fraction is from one half, in units of 2^-41.
fn gap(value: Fixed) -> u128
    ensures { result ≡ gap_of value }
{
    (2 * fraction(value) - ONE).unsigned_abs()
}

// The nearest of the columns up to j: the one before it, or j itself where its entry's fraction is
// nearer to one half. A column of one value is none.
fn nearer(
    lows: &[i64],
    highs: &[i64],
    point: &[Fixed],
    nearest: Option<usize>,
    j: usize,
) -> Option<usize>
    requires highs { length highs.now ≡ length lows.now }
    requires width { length point.now ≡ length lows.now }
    requires here { j < length lows.now }
    requires earlier { IsNearest lows.now highs.now point.now j nearest }
    ensures { IsNearest lows.now highs.now point.now (j + 1) result }
{
    if highs[j] <= lows[j] {
        return nearest;
    }
    match nearest {
        None => Some(j),
        Some(k) => {
            if gap(point[j]) < gap(point[k]) {
                Some(j)
            } else {
                Some(k)
            }
        }
    }
}

// The first of the columns of more than one value whose entry's fraction is nearest to one half.
// None where no column has more than one value.
fn nearest(lows: &[i64], highs: &[i64], point: &[Fixed]) -> Option<usize>
    requires highs { length highs.now ≡ length lows.now }
    requires width { length point.now ≡ length lows.now }
    ensures { IsNearest lows.now highs.now point.now (length lows.now) result }
{
    let mut nearest: Option<usize> = None;
    for j in 0..lows.len() {
        nearest = nearer(lows, highs, point, nearest, j);
    }
    nearest
}

// The number rounded down.
fn floor(value: Fixed) -> i128
    ensures { result ≡ floor_of value.raw one }
{
    value.raw >> FRACTION_BITS
}

// The number rounded down, and moved to between low and last.
#[tactic(auto, using(std::proofs::lemmas::Int::clamps))]
fn floor_between(value: Fixed, low: i64, last: i64) -> i64
    requires { low ≤ℤ last }
    ensures exact { result ≡ floor_within value low last }
    ensures above { low ≤ℤ result }
    ensures below { result ≤ℤ last }
{
    let floor = floor(value);
    if floor <= low as i128 {
        return low;
    }
    if last as i128 <= floor {
        return last;
    }
    floor as i64
}

/// Of the columns whose low is below their high, the first whose entry's fraction is nearest to
/// one half, at the floor of the entry, moved to between low and high less 1. Where all their
/// entries are whole it is the place of `half`. Takes no memory.
pub fn most_fractional(desc: &Desc<Cut>, point: &[Fixed]) -> Place
    requires { IsSplittable desc.now point.now }
    ensures fractional { IsMostFractional desc.now point.now result }
    ensures splits { Splits desc.now result }
{
    let lows = desc.lows.as_slice();
    let highs = desc.highs.as_slice();
    let Some(column) = nearest(lows, highs, point) else {
        return half(desc, point);
    };
    if fraction(point[column]) == 0 {
        return half(desc, point);
    }
    Place {
        column: column as u32,
        at: floor_between(point[column], lows[column], highs[column] - 1),
    }
}
