//! The search: seat 0 takes a node, works on it, puts it back and tidies up, until no node is
//! live or the budget is spent.
ghost use Rattle.std.specs.Prelude.{◌≡◌, pos, ◌≤ℤ◌, ◌<◌, ◌≤◌, ◌+◌, ◌%◌, ◌==◌, IfOk, OnErr, OnOk};
ghost use Rattle.std.specs.Prelude.{IfSome};
ghost use Rattle.bl_tree.specs.Views.{IsLeaseOf, extended, past_of};
ghost use Rattle.bl_tree.specs.Answers.{IsBorn};
ghost use Rattle.bl_search.specs.Searches.{IsBetweenTurns, EndsTurn, PutsIn, IsStoredWhole};
ghost use Rattle.bl_search.specs.Searches.{AreStoredWhole, IsFreed, HasTidied, count_with};
ghost use Rattle.bl_search.specs.Searches.{IsSearched, IsEndedHistory, last_reply};
ghost use Rattle.bl_search.specs.Searches.{AreSerialsBelow};
ghost use Rattle.bl_search.specs.Places.{MayAnswer, SplitsAt};
ghost use Rattle.bl_branch.specs.Calls.{IsRule};
ghost use Rattle.bl_journal.specs.declared.limits.TheConstants.{LARGEST_GAP, MOST_NODES, MOST_SPAN};
ghost use Rattle.bl_journal.specs.declared.entry.Entry.TheVariants.{Back};
ghost use Rattle.bl_journal.specs.Replies.{take_reply};
ghost use Rattle.bl_journal.specs.Tidying.{splits_of};

use crate::leased::{Worked, work_on};
use bl_branch::{BranchRule, Place};
use bl_cover::Separate;
use bl_desc::{Desc, Form};
use bl_fixed::Fixed;
use bl_journal::Settings;
use bl_journal::laws::{budget_holds, replies_end_searches};
use bl_node::Hints;
use bl_problem::{Cut, Problem};
use bl_tree::laws::plans_make_jobs;
use bl_tree::{Born, Freed, Lease, Planned, Taken, Tree, encode};
use std::alloc::{AllocError, Global};
use std::sync::Arc;

/// After each split whose count this divides, both children are stored whole.
const SPLITS: u32 = 4;

/// How a turn of the search ended.
#[derive(Clone, Copy, PartialEq, Eq)]
pub enum Turn {
    /// A node was taken, its outcome was put in, and the tree was tidied. So many puts have
    /// split by now, and serial numbers from this one on are free for cuts.
    Worked { splits: u32, serial: u32 },
    /// No node is live.
    Done,
    /// A live node waits, and the budget is spent.
    Spent,
}

// What was born by a put, if it split, and the first serial number that is free for cuts.
struct Finished {
    born: Option<Born>,
    serial: u32,
}

// Works on the node of a lease and puts the outcome in, or hands the node back where there is no
// memory.
fn finish<F: Fn(&Desc<Cut>, &[Fixed]) -> Place, S: Separate>(
    alloc: Global,
    problem: &Problem,
    tree: &mut Tree,
    lease: Lease,
    rule: &BranchRule<F>,
    separator: &S,
    hints: &mut Hints,
    span: u32,
    serial: u32,
) -> Result<Finished, AllocError>
    requires problem { tree.old.problem ≡ problem.now }
    requires span { tree.old.settings.span ≡ span }
    requires some_span { 0 < span }
    requires leased { IsLeaseOf tree.old 0 lease }
    requires rule { IsRule F.Fn rule.now.closure }
    requires serials { AreSerialsBelow 0 serial (past_of tree.old) }
    requires places { SplitsAt (MayAnswer F.Fn rule.now.closure) problem.now (past_of tree.old) }
    ensures put { IfOk result (λ f. PutsIn tree.old lease f.born tree.new) }
    ensures serials { IfOk result (λ f. AreSerialsBelow 0 f.serial (past_of tree.new)) }
    ensures places { IfOk result
        (λ f. SplitsAt (MayAnswer F.Fn rule.now.closure) problem.now (past_of tree.new)) }
    ensures waits { OnErr result (tree.new ≡ extended tree.old (Back 0 lease.id)) }
{
    let _journal = tree.journal();
    match work_on(
        alloc, problem, &lease, rule, separator, hints, span, 0, serial,
    ) {
        Ok(Worked { outcome, serial }) => {
            let born = tree.put(0, lease, outcome);
            Ok(Finished { born, serial })
        }
        Err(error) => {
            tree.back(0, lease);
            Err(error)
        }
    }
}

// Stores a node whole, unless it is freed. What is to be stored is made without the tree.
fn store_whole(alloc: Global, tree: &mut Tree, id: u32) -> Result<(), AllocError>
    requires { IsBorn tree.old id }
    ensures { OnOk result (IsStoredWhole tree.old id tree.new) }
{
    plans_make_jobs();
    match tree.plan(id, Form::Explicit)? {
        Planned::Chain(plan) => {
            let job = encode(alloc, &plan)?;
            tree.install(0, job)?;
            Ok(())
        }
        Planned::Gone => Ok(()),
        Planned::Same => Ok(()),
        Planned::Fixed => Ok(()),
    }
}

// Stores both children whole, unless they are freed.
fn store_both(alloc: Global, tree: &mut Tree, born: Born) -> Result<(), AllocError>
    requires left { IsBorn tree.old born.left }
    requires right { IsBorn tree.old born.right }
    ensures { OnOk result (AreStoredWhole tree.old born tree.new) }
{
    store_whole(alloc, tree, born.left)?;
    store_whole(alloc, tree, born.right)
}

/// Frees nodes by seat 0 until none may be freed. `AllocError` where there is no memory.
pub fn free_all(tree: &mut Tree) -> Result<(), AllocError>
    ensures { OnOk result (IsFreed tree.old tree.new) }
{
    while let Freed::Chain(_) = tree.free(0)? {}
    Ok(())
}

// Tidies up after a put: after each fourth split both children are stored whole; then nodes are
// freed until none may be. The answer is how many puts have split.
fn tidy(alloc: Global, tree: &mut Tree, born: Option<Born>, splits: u32) -> Result<u32, AllocError>
    requires left { IfSome born (λ b. IsBorn tree.old b.left) }
    requires right { IfSome born (λ b. IsBorn tree.old b.right) }
    requires few { splits ≤ MOST_NODES }
    ensures count { IfOk result (λ count. count ≡ count_with splits born) }
    ensures tidied { IfOk result (λ count. HasTidied tree.old born count tree.new) }
{
    let mut count = splits;
    if let Some(born) = born {
        count += 1;
        if count % SPLITS == 0 {
            store_both(alloc, tree, born)?;
        }
    }
    free_all(tree)?;
    Ok(count)
}

// Takes a node, if a live one waits and the budget allows it, works on it and tidies up.
fn take_turn<F: Fn(&Desc<Cut>, &[Fixed]) -> Place, S: Separate>(
    alloc: Global,
    problem: &Problem,
    tree: &mut Tree,
    rule: &BranchRule<F>,
    separator: &S,
    hints: &mut Hints,
    span: u32,
    splits: u32,
    serial: u32,
) -> Result<Turn, AllocError>
    requires problem { tree.old.problem ≡ problem.now }
    requires span { tree.old.settings.span ≡ span }
    requires some_span { 0 < span }
    requires between { IsBetweenTurns tree.old }
    requires splits { splits ≡ splits_of 0 (past_of tree.old) }
    requires few { splits ≤ MOST_NODES }
    requires rule { IsRule F.Fn rule.now.closure }
    requires serials { AreSerialsBelow 0 serial (past_of tree.old) }
    requires places { SplitsAt (MayAnswer F.Fn rule.now.closure) problem.now (past_of tree.old) }
    ensures turn { IfOk result (λ turn. EndsTurn tree.old turn tree.new) }
    ensures places { IfOk result (λ turn. SplitsAt (MayAnswer F.Fn rule.now.closure) problem.now
        (past_of tree.new)) }
{
    match tree.take(0)? {
        Taken::Node(lease) => {
            let Finished { born, serial } = finish(
                alloc, problem, tree, lease, rule, separator, hints, span, serial,
            )?;
            let splits = tidy(alloc, tree, born, splits)?;
            Ok(Turn::Worked { splits, serial })
        }
        Taken::Idle => Ok(Turn::Done),
        Taken::Done => Ok(Turn::Done),
        Taken::Spent => Ok(Turn::Spent),
    }
}

/// A search that has ended: its tree, and whether its budget was spent.
#[derive(Drop)]
pub struct EndedSearch {
    pub tree: Tree,
    pub limited: bool,
}

// The search ends with a reply of the tree.
fn end(tree: Tree, limited: bool) -> EndedSearch
    requires between { IsBetweenTurns tree }
    requires reply { take_reply tree.problem tree.settings (past_of tree) ≡ last_reply limited }
    ensures tree { result.tree ≡ tree }
    ensures limited { result.limited ≡ limited }
    ensures ended { IsEndedHistory tree.problem tree.settings 0 limited tree.history }
{
    replies_end_searches();
    let _journal = tree.journal();
    EndedSearch { tree, limited }
}

/// Searches the tree of a problem by these settings. Each split is at a place that the rule may
/// answer for the node's description after the common change, and the separator proposes cuts.
/// `AllocError` where there is no memory.
pub fn search_tree<F: Fn(&Desc<Cut>, &[Fixed]) -> Place, S: Separate>(
    alloc: Global,
    problem: &Arc<Problem>,
    settings: Settings,
    rule: &BranchRule<F>,
    separator: &S,
) -> Result<EndedSearch, AllocError>
    requires nodes { settings.nodes ≤ MOST_NODES }
    requires some_span { 0 < settings.span }
    requires few_spans { settings.span ≤ MOST_SPAN }
    requires some_gap { pos 0 ≤ℤ settings.gap }
    requires few_gaps { settings.gap ≤ℤ LARGEST_GAP }
    requires rule { IsRule F.Fn rule.now.closure }
    ensures searched { IfOk result (λ search. IsSearched problem.now.value settings 0 search) }
    ensures places { IfOk result (λ search. SplitsAt (MayAnswer F.Fn rule.now.closure)
        problem.now.value (past_of search.tree)) }
{
    budget_holds();
    let mut tree = Tree::new(alloc, Arc::try_clone(problem)?, settings)?;
    // A root that is not live is freed before the first take.
    free_all(&mut tree)?;
    let mut splits = 0;
    let mut serial = 0;
    let mut hints = Hints::new(alloc);
    for turn in 0..settings.nodes + 1 {
        match take_turn(
            alloc,
            problem,
            &mut tree,
            rule,
            separator,
            &mut hints,
            settings.span,
            splits,
            serial,
        )? {
            Turn::Worked {
                splits: count,
                serial: next,
            } => {
                splits = count;
                serial = next;
            }
            Turn::Done => return Ok(end(tree, false)),
            Turn::Spent => return Ok(end(tree, true)),
        }
    }
    // Not reached: each turn used a node more.
    let _journal = tree.journal();
    Ok(end(tree, true))
}
