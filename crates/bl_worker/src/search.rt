//! The search of many seats.
ghost use Rattle.std.specs.Prelude.{◌≡◌, ◌≢◌, pos, ◌≤ℤ◌, ◌<◌, ◌≤◌, [], IfOk, All, false};
ghost use Rattle.bl_branch.specs.Calls.{IsRule};
ghost use Rattle.bl_journal.specs.declared.limits.TheConstants.{LARGEST_GAP, MOST_NODES};
ghost use Rattle.bl_journal.specs.declared.limits.TheConstants.{MOST_SPAN, MOST_WORKERS};
ghost use Rattle.bl_tree.specs.Views.{past_of};
ghost use Rattle.bl_search.specs.Searches.{IsSearched, IsEndedHistory};
ghost use Rattle.bl_search.specs.Places.{MayAnswer, SplitsAt};
ghost use Rattle.bl_worker.specs.declared.worker.WorkerEnd.TheVariants.{Memory};
ghost use Rattle.bl_worker.specs.Searches.{IsWorkedThrough, IsWoundUp};

use crate::gate::Gate;
use crate::run::run_workers;
use crate::worker::WorkerEnd;
use bl_branch::{BranchRule, Place};
use bl_cover::Separate;
use bl_desc::Desc;
use bl_fixed::Fixed;
use bl_journal::Settings;
use bl_journal::laws::replies_end_searches;
use bl_problem::{Cut, Problem};
use bl_search::{EndedSearch, free_all};
use bl_shared::SharedTree;
use bl_tree::{Taken, Tree};
use bl_turn::NoMemory;
use std::alloc::{AllocError, Global};
use std::sync::{Arc, Wait};
use std::thread::Threads;

// Whether a worker ended for want of memory.
fn any_failed(ends: &[WorkerEnd]) -> bool
    ensures { result ≡ false → All (λ end. end ≢ Memory) ends.now }
{
    for end in ends {
        if *end == WorkerEnd::Memory {
            return true;
        }
    }
    false
}

// Shares a new tree, and runs the workers on it. `AllocError` where there is no memory.
fn work_through<
    R: Threads + Wait + Sync,
    G: Gate,
    F: Fn(&Desc<Cut>, &[Fixed]) -> Place + Sync,
    S: Separate,
>(
    rt: &R,
    alloc: Global,
    tree: Tree,
    workers: u32,
    problem: &Problem,
    rule: &BranchRule<F>,
    separator: &S,
    span: u32,
    gate: &G,
) -> Result<Tree, AllocError>
    requires fresh { tree.history ≡ [] }
    requires problem { tree.problem ≡ problem.now }
    requires span { tree.settings.span ≡ span }
    requires some_span { 0 < span }
    requires some_workers { 1 ≤ workers }
    requires few_workers { workers ≤ MOST_WORKERS }
    requires rule { IsRule F.Fn rule.now.closure }
    ensures worked { IfOk result (IsWorkedThrough workers tree) }
    ensures places { IfOk result (λ t.
        SplitsAt (MayAnswer F.Fn rule.now.closure) t.problem (past_of t)) }
{
    let (shared, mut seat) = match SharedTree::new(alloc, tree) {
        Ok(made) => made,
        Err(NoMemory { value: _ }) => return Err(AllocError),
    };
    let ended = run_workers(
        rt, alloc, &shared, &mut seat, workers, problem, rule, separator, span, gate,
    );
    let tree = shared.close(seat);
    let ends = ended?;
    if any_failed(ends.as_slice()) {
        return Err(AllocError);
    }
    Ok(tree)
}

// Tells whether the budget of a search that is over was spent. `AllocError` where there is no
// memory.
fn end(workers: u32, mut tree: Tree) -> Result<EndedSearch, AllocError>
    requires { IsWoundUp workers tree }
    ensures tree { IfOk result (λ search. search.tree ≡ tree) }
    ensures ended { IfOk result (λ search.
        IsEndedHistory tree.problem tree.settings workers search.limited tree.history) }
{
    replies_end_searches();
    let _journal = tree.journal();
    match tree.take(0)? {
        Taken::Done => Ok(EndedSearch {
            tree,
            limited: false,
        }),
        Taken::Spent => Ok(EndedSearch {
            tree,
            limited: true,
        }),
        Taken::Idle => unreachable!(),
        Taken::Node(lease) => {
            tree.back(0, lease);
            unreachable!()
        }
    }
}

/// Searches the tree of a problem by these settings, with so many workers, 1 to 64, each in a
/// thread where one can be had. Each split is at a place that the rule may answer for the node's
/// description after the common change, and the separator proposes cuts. `AllocError` where
/// there is no memory, also for a worker.
pub fn search_shared<
    R: Threads + Wait + Sync,
    G: Gate,
    F: Fn(&Desc<Cut>, &[Fixed]) -> Place + Sync,
    S: Separate,
>(
    rt: &R,
    alloc: Global,
    problem: &Arc<Problem>,
    settings: Settings,
    workers: u32,
    rule: &BranchRule<F>,
    separator: &S,
    gate: &G,
) -> Result<EndedSearch, AllocError>
    requires nodes { settings.nodes ≤ MOST_NODES }
    requires some_span { 0 < settings.span }
    requires few_spans { settings.span ≤ MOST_SPAN }
    requires some_gap { pos 0 ≤ℤ settings.gap }
    requires few_gaps { settings.gap ≤ℤ LARGEST_GAP }
    requires some_workers { 1 ≤ workers }
    requires few_workers { workers ≤ MOST_WORKERS }
    requires rule { IsRule F.Fn rule.now.closure }
    ensures searched { IfOk result (λ search.
        IsSearched problem.now.value settings workers search) }
    ensures places { IfOk result (λ search.
        SplitsAt (MayAnswer F.Fn rule.now.closure) problem.now.value (past_of search.tree)) }
{
    let tree = Tree::new(alloc, Arc::try_clone(problem)?, settings)?;
    let mut tree = work_through(
        rt,
        alloc,
        tree,
        workers,
        problem,
        rule,
        separator,
        settings.span,
        gate,
    )?;
    free_all(&mut tree)?;
    let _journal = tree.journal();
    end(workers, tree)
}
