// The least sum of a line's terms within bounds.
ghost use Rattle.std.specs.Prelude.{◌≡◌, ◌≤◌, ◌^◌, pos, ◌+ℤ◌, ◌-ℤ◌, ◌*ℤ◌, neg_ℤ, ◌≤ℤ◌, length, All};
ghost use Rattle.std.specs.Int.{int_min};
ghost use Rattle.bl_num.specs.Exact.{floor_of};
ghost use Rattle.bl_problem.specs.Sums.{IsWithin};
ghost use Rattle.bl_problem.specs.Rows.{AreTerms};
ghost use Rattle.bl_prop.specs.Limits.{IsSlack};
ghost use Rattle.bl_prop.specs.Passes.{turned, least_of};

use bl_num::{floor_div, product};
use bl_problem::Term;

// The coefficient, negated where that is asked.
pub fn turned(coefficient: i64, negate: bool) -> i64
    requires { IsWithin (10 ^ 15) coefficient }
    ensures value { result ≡ turned negate coefficient }
    ensures small { IsWithin (10 ^ 15) result }
{
    if negate { -coefficient } else { coefficient }
}

// The lesser of coefficient times low and coefficient times high.
fn least_part(term: Term, negate: bool, low: i64, high: i64) -> i128
    requires coefficient { IsWithin (10 ^ 15) term.coefficient }
    requires low { IsWithin (10 ^ 9) low }
    requires high { IsWithin (10 ^ 9) high }
    ensures value { result ≡ int_min (turned negate term.coefficient *ℤ low)
        (turned negate term.coefficient *ℤ high) }
    ensures small { IsWithin (10 ^ 24) result }
{
    let coefficient = turned(term.coefficient, negate);
    product(coefficient, low).min(product(coefficient, high))
}

// The least that the sum of the terms can be within the bounds.
pub fn least_sum(terms: &[Term], negate: bool, lows: &[i64], highs: &[i64]) -> i128
    requires few { length lows.now ≤ 1000 }
    requires highs { length highs.now ≡ length lows.now }
    requires terms { AreTerms (length lows.now) terms.now }
    requires near_lows { All (IsWithin (10 ^ 9)) lows.now }
    requires near_highs { All (IsWithin (10 ^ 9)) highs.now }
    ensures exact { result ≡ least_of negate terms.now lows.now highs.now }
    ensures small { IsWithin (10 ^ 27) result }
{
    let mut sum: i128 = 0;
    for term in terms {
        let j = term.column as usize;
        sum += least_part(*term, negate, lows[j], highs[j]);
    }
    sum
}

// The most that an entry can be where its positive coefficient has that slack above its low.
pub fn most(low: i64, slack: i128, coefficient: i64) -> i128
    requires near { IsWithin (10 ^ 9) low }
    requires slack { IsSlack slack }
    requires positive { pos 1 ≤ℤ coefficient }
    ensures value { result ≡ low +ℤ floor_of slack coefficient }
    ensures above { pos 0 ≤ℤ (result +ℤ pos (10 ^ 9)) }
{
    low as i128 + floor_div(slack, coefficient as i128)
}

// The least that an entry can be where its negative coefficient has that slack below its high.
pub fn least(high: i64, slack: i128, coefficient: i64) -> i128
    requires near { IsWithin (10 ^ 9) high }
    requires slack { IsSlack slack }
    requires negative { pos 1 ≤ℤ neg_ℤ coefficient }
    ensures value { result ≡ high -ℤ floor_of slack (neg_ℤ coefficient) }
    ensures below { result ≤ℤ pos (10 ^ 9) }
{
    high as i128 - floor_div(slack, -(coefficient as i128))
}
