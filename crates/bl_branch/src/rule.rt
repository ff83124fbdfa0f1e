//! Stored branching rules.
ghost use Rattle.std.specs.Prelude.{◌≡◌, ◌<◌, ◌≤ℤ◌, List, length};
ghost use Rattle.bl_branch.specs.Rules.{IsSplittable, Splits};
ghost use Rattle.bl_branch.specs.Calls.{IsRule, Answers};

use crate::place::Place;
use bl_desc::Desc;
use bl_fixed::Fixed;
use bl_problem::Cut;

/// A closure that answers, for each box of two points or more, a place that splits it.
///
/// A struct's type can't keep a fact about a closure of any type. So `new` asks for the fact
/// `IsRule` and gives it back, and whoever calls `choose` hands it on. Another crate passes a rule
/// of this one by a closure that calls it: `BranchRule::new(|desc, point| half(desc, point))`.
#[derive(Drop)]
pub struct BranchRule<F> {
    closure: F,
}

impl<F: Fn(&Desc<Cut>, &[Fixed]) -> Place> BranchRule<F> {
    /// The rule of a closure that answers such places. Takes no memory.
    pub fn new(closure: F) -> BranchRule<F>
        requires { IsRule F.Fn closure }
        ensures keeps { result.closure ≡ closure }
        ensures rule { IsRule F.Fn result.closure }
    {
        BranchRule { closure }
    }

    /// The place that the rule answers for a whole description whose box has two points or more,
    /// at a point of one entry per column, in units of 2^-40.
    pub fn choose(&self, desc: &Desc<Cut>, point: &[Fixed]) -> Place
        requires rule { IsRule F.Fn self.now.closure }
        requires splittable { IsSplittable desc.now point.now }
        ensures splits { Splits desc.now result }
        ensures answers { Answers F.Fn self.now.closure desc.now point.now result }
    {
        (self.closure)(desc, point)
    }
}
