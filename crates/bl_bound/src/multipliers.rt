//! What multipliers show of a problem and a description.
ghost use Rattle.std.specs.Prelude.{◌≡◌, ◌+◌, ◌↔◌, length, pos, ◌≤ℤ◌, ◌<ℤ◌, List, ℤ, IfSome};
ghost use Rattle.std.specs.Prelude.{IsSomeAnd, IsTrue};
ghost use Rattle.bl_problem.specs.Points.{value_of};
ghost use Rattle.bl_bound.specs.Bounds.{multiplier_sum_of, bound_of};
ghost use Rattle.bl_bound.specs.Descriptions.{Describes, IsLeft};

use crate::sums::multiplier_sum;
use bl_desc::Desc;
use bl_num::ceil_div;
use bl_problem::{Cut, Problem};

/// The bound that the multipliers `y`, one for each row and then for each cut, give over the common
/// denominator `d` (weak duality), in units of 10^-scale: no feasible point of the description's
/// box that meets its cuts has a smaller value. `None` exactly where an end that a multiplier
/// asks for is missing, or where a product or a partial sum leaves `i128`. Takes no memory.
pub fn bound(problem: &Problem, desc: &Desc<Cut>, y: &[i64], d: i64) -> Option<i128>
    requires suits { Describes problem.now desc.now }
    requires multipliers { length y.now ≡ length problem.now.rows + length desc.now.cuts }
    requires counted { pos 1 ≤ℤ d }
    ensures exact { result ≡ bound_of problem.now desc.now y.now d }
    ensures below { IfSome result (λ b. (x : List ℤ) → IsLeft problem.now desc.now x
        → b ≤ℤ value_of problem.now x) }
{
    let sum = multiplier_sum(problem, desc, y, d)?;
    Some(ceil_div(sum, d as i128))
}

/// Whether the multipliers `y`, one for each row and then for each cut, show that no feasible point
/// of the description's box meets its cuts: the sum of `bound` without costs and offset is there
/// and is positive. Takes no memory.
pub fn empty(problem: &Problem, desc: &Desc<Cut>, y: &[i64]) -> bool
    requires suits { Describes problem.now desc.now }
    requires multipliers { length y.now ≡ length problem.now.rows + length desc.now.cuts }
    ensures exact { IsTrue result
        ↔ IsSomeAnd (multiplier_sum_of problem.now desc.now y.now (pos 0)) (λ s. pos 0 <ℤ s) }
    ensures none { IsTrue result → (x : List ℤ) → ¬ (IsLeft problem.now desc.now x) }
{
    match multiplier_sum(problem, desc, y, 0) {
        Some(sum) => 0 < sum,
        None => false,
    }
}
