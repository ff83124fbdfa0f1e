//! Reduced costs, kept beside the bound that is made with them.
ghost use Rattle.std.specs.Prelude.{◌≡◌, ◌+◌, length, pos, ◌≤ℤ◌, List, ℤ, IfOk, IfSome};
ghost use Rattle.bl_problem.specs.Points.{value_of};
ghost use Rattle.bl_bound.specs.Descriptions.{Describes, IsLeft};
ghost use Rattle.bl_bound.specs.Reduced.{IsReduced, bound_by};

use crate::sums::reduce;
use bl_desc::Desc;
use bl_num::ceil_div;
use bl_problem::{Cut, Problem};
use std::alloc::{AllocError, Global};
use std::marker::Model;

/// What multipliers make of a problem and a description: each column's reduced cost, and the
/// exact sum of the bound, both over a common denominator. One pass over the nonzeros gives both.
#[derive(Drop)]
pub struct ReducedCosts {
    costs: Vec<Option<i128>>,
    denominator: i64,
    sum: Option<i128>,
}

impl Model for ReducedCosts {
    ghost use Rattle.std.specs.Prelude.{pos, ◌≤ℤ◌};
    ghost use Rattle.bl_bound.specs.Reduced.{Reduced};

    ghost Value = { Reduced };

    ghost view = { λ s. record { costs = s.costs.items; denominator = s.denominator; sum = s.sum } };

    ghost invariant = { λ s. pos 1 ≤ℤ s.denominator };
}

impl ReducedCosts {
    /// The reduced costs of the multipliers `y`, one for each row and then for each cut, over the
    /// common denominator `d`. `AllocError` where there is no memory for one number a column.
    pub fn new(
        alloc: Global,
        problem: &Problem,
        desc: &Desc<Cut>,
        y: &[i64],
        d: i64,
    ) -> Result<ReducedCosts, AllocError>
        requires suits { Describes problem.now desc.now }
        requires multipliers { length y.now ≡ length problem.now.rows + length desc.now.cuts }
        requires counted { pos 1 ≤ℤ d }
        ensures reduced { IfOk result (IsReduced problem.now desc.now y.now) }
        ensures denominator { IfOk result (λ reduced. reduced.denominator ≡ d) }
        ensures below { IfOk result (λ reduced. IfSome (bound_by reduced) (λ b.
            (x : List ℤ) → IsLeft problem.now desc.now x → b ≤ℤ value_of problem.now x)) }
    {
        let mut costs = vec![in alloc; None; problem.columns().len()]?;
        let sum = reduce(costs.as_mut_slice(), problem, desc, y, d);
        Ok(ReducedCosts {
            costs,
            denominator: d,
            sum,
        })
    }

    /// The bound, as `bound` gives it, in units of 10^-scale: `None` exactly where there is no
    /// sum.
    pub fn bound(&self) -> Option<i128>
        ensures { result ≡ bound_by self.now }
    {
        Some(ceil_div(self.sum?, self.denominator as i128))
    }

    /// The exact sum: the bound before it is divided by the denominator and rounded. `None` where
    /// a needed end is missing, or where a product or a partial sum leaves `i128`.
    pub fn sum(&self) -> Option<i128>
        ensures { result ≡ self.now.sum }
    {
        self.sum
    }

    /// The common denominator.
    pub fn denominator(&self) -> i64
        ensures value { result ≡ self.now.denominator }
        ensures counted { pos 1 ≤ℤ result }
    {
        self.denominator
    }

    /// One reduced cost for each column: `None` where a product or a partial sum leaves `i128`.
    pub fn costs(&self) -> &[Option<i128>]
        ensures { result.now ≡ self.now.costs }
    {
        self.costs.as_slice()
    }
}
