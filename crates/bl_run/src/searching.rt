//! The search of a problem's tree, with the rules and the separator that the words choose.
ghost use Rattle.std.specs.Prelude.{◌≡◌, ◌≤◌, ◌≤ℤ◌, IfOk, pos};
ghost use Rattle.bl_branch.specs.Fractions.{IsMostFractional};
ghost use Rattle.bl_branch.specs.Rules.{IsSplittable, Splits};
ghost use Rattle.bl_branch.specs.Widest.{IsHalf};
ghost use Rattle.bl_journal.specs.declared.limits.TheConstants.{LARGEST_GAP, MOST_NODES};
ghost use Rattle.bl_journal.specs.declared.limits.TheConstants.{MOST_SPAN, MOST_WORKERS};
ghost use Rattle.bl_run.specs.Splitting.{IsSplitBy};
ghost use Rattle.bl_search.specs.Places.{SplitsAt};
ghost use Rattle.bl_search.specs.Searches.{IsSearched};
ghost use Rattle.bl_tree.specs.Views.{past_of};

use bl_branch::{BranchRule, Place, half, most_fractional};
use bl_cover::{CutKinds, KindSeparator};
use bl_desc::Desc;
use bl_fixed::Fixed;
use bl_journal::Settings;
use bl_problem::{Cut, Problem};
use bl_search::{EndedSearch, search_tree};
use bl_worker::{Gate, search_shared};
use std::alloc::{AllocError, Global};
use std::sync::{Arc, Wait};
use std::thread::Threads;

// Splits the column whose entry is nearest to the middle of two whole numbers.
fn by_fraction(desc: &Desc<Cut>, point: &[Fixed]) -> Place
    requires { IsSplittable desc.now point.now }
    ensures place { IsMostFractional desc.now point.now result }
    ensures splits { Splits desc.now result }
{
    most_fractional(desc, point)
}

// Splits the widest column in the middle.
fn by_half(desc: &Desc<Cut>, point: &[Fixed]) -> Place
    requires { IsSplittable desc.now point.now }
    ensures place { IsHalf desc.now result }
    ensures splits { Splits desc.now result }
{
    half(desc, point)
}

// The search by seat 0 with cuts of these kinds, where each split is in the middle or else by a
// fraction.
pub fn search_one(
    alloc: Global,
    problem: &Arc<Problem>,
    settings: Settings,
    cuts: CutKinds,
    in_middle: bool,
) -> Result<EndedSearch, AllocError>
    requires nodes { settings.nodes ≤ MOST_NODES }
    requires some_span { 1 ≤ settings.span }
    requires few_spans { settings.span ≤ MOST_SPAN }
    requires some_gap { pos 0 ≤ℤ settings.gap }
    requires few_gaps { settings.gap ≤ℤ LARGEST_GAP }
    ensures searched { IfOk result (λ search. IsSearched problem.now.value settings 0 search) }
    ensures places { IfOk result (λ search. SplitsAt (IsSplitBy in_middle) problem.now.value
        (past_of search.tree)) }
{
    let separator = KindSeparator::new(cuts);
    if in_middle {
        let rule = BranchRule::new(by_half);
        search_tree(alloc, problem, settings, &rule, &separator)
    } else {
        let rule = BranchRule::new(by_fraction);
        search_tree(alloc, problem, settings, &rule, &separator)
    }
}

// The search by so many workers with cuts of these kinds, where each split is in the middle or
// else by a fraction.
pub fn search_many<R: Threads + Wait + Sync, G: Gate>(
    rt: &R,
    alloc: Global,
    problem: &Arc<Problem>,
    settings: Settings,
    workers: u32,
    cuts: CutKinds,
    middle: bool,
    gate: &G,
) -> Result<EndedSearch, AllocError>
    requires some_workers { 1 ≤ workers }
    requires few_workers { workers ≤ MOST_WORKERS }
    requires nodes { settings.nodes ≤ MOST_NODES }
    requires some_span { 1 ≤ settings.span }
    requires few_spans { settings.span ≤ MOST_SPAN }
    requires some_gap { pos 0 ≤ℤ settings.gap }
    requires few_gaps { settings.gap ≤ℤ LARGEST_GAP }
    ensures searched { IfOk result
        (λ search. IsSearched problem.now.value settings workers search) }
    ensures places { IfOk result
        (λ search. SplitsAt (IsSplitBy middle) problem.now.value (past_of search.tree)) }
{
    let separator = KindSeparator::new(cuts);
    if middle {
        let rule = BranchRule::new(by_half);
        search_shared(
            rt, alloc, problem, settings, workers, &rule, &separator, gate,
        )
    } else {
        let rule = BranchRule::new(by_fraction);
        search_shared(
            rt, alloc, problem, settings, workers, &rule, &separator, gate,
        )
    }
}
