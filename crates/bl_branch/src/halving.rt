//! The rule that halves the widest column.
ghost use Rattle.std.specs.Prelude.{◌≡◌, ◌<◌, ◌+◌, ◌^◌, ◌<ℤ◌, length, All};
ghost use Rattle.bl_num.specs.Exact.{at};
ghost use Rattle.bl_problem.specs.Sums.{IsWithin};
ghost use Rattle.bl_branch.specs.Rules.{IsSplittable, Splits};
ghost use Rattle.bl_branch.specs.Widest.{IsFirstWidest, IsWidest, IsMiddle, IsHalf};

use crate::place::Place;
use bl_desc::Desc;
use bl_fixed::Fixed;
use bl_problem::Cut;

// The first widest of the columns up to j: the one before it, or j itself where that is wider. A
// column of one value is none.
fn wider(lows: &[i64], highs: &[i64], widest: Option<usize>, j: usize) -> Option<usize>
    requires here { j < length lows.now }
    requires there { j < length highs.now }
    requires low_near { All (IsWithin (10 ^ 9)) lows.now }
    requires high_near { All (IsWithin (10 ^ 9)) highs.now }
    requires earlier { IsWidest lows.now highs.now j widest }
    ensures { IsWidest lows.now highs.now (j + 1) result }
{
    let width = highs[j] - lows[j];
    match widest {
        None => { if width > 0 { Some(j) } else { None } }
        Some(k) => {
            if width > highs[k] - lows[k] {
                Some(j)
            } else {
                Some(k)
            }
        }
    }
}

// The first of the widest columns. None where none has more than one value.
fn widest(lows: &[i64], highs: &[i64]) -> Option<usize>
    requires same { length highs.now ≡ length lows.now }
    requires low_near { All (IsWithin (10 ^ 9)) lows.now }
    requires high_near { All (IsWithin (10 ^ 9)) highs.now }
    ensures { IsWidest lows.now highs.now (length lows.now) result }
{
    let mut widest: Option<usize> = None;
    for j in 0..lows.len() {
        widest = wider(lows, highs, widest, j);
    }
    widest
}

// The middle of two numbers, rounded down.
fn middle(low: i64, high: i64) -> i64
    requires low { IsWithin (10 ^ 9) low }
    requires high { IsWithin (10 ^ 9) high }
    requires apart { low <ℤ high }
    ensures { IsMiddle low high result }
{
    low + (high - low) / 2
}

/// The first column of the greatest width, at the middle of its low and high, rounded down. The
/// point decides nothing. Takes no memory.
pub fn half(desc: &Desc<Cut>, _point: &[Fixed]) -> Place
    requires { IsSplittable desc.now _point.now }
    ensures half { IsHalf desc.now result }
    ensures splits { Splits desc.now result }
{
    let lows = desc.lows.as_slice();
    let highs = desc.highs.as_slice();
    match widest(lows, highs) {
        Some(column) => Place {
            column: column as u32,
            at: middle(lows[column], highs[column]),
        },
        None => Place { column: 0, at: 0 },
    }
}
