//! The loop of one worker.
ghost use Rattle.std.specs.Prelude.{◌≡◌, ◌<◌, IfOk, OnOk, OnErr, IfSome, []};
ghost use Rattle.bl_turn.specs.Seats.{view_of, number, mine};
ghost use Rattle.bl_tree.specs.Views.{IsLeaseOf};
ghost use Rattle.bl_tree.specs.Answers.{IsBorn};
ghost use Rattle.bl_branch.specs.Calls.{IsRule};
ghost use Rattle.bl_search.specs.Places.{MayAnswer};
ghost use Rattle.bl_shared.specs.Calls.{IsSeatOf, tree_seen, BacksIn};
ghost use Rattle.bl_worker.specs.Splits.{SplitsOwnAt};
ghost use Rattle.bl_worker.specs.Loops.{HandsIn, IsKeptUp, IsStoredWhole, HasTidied, count_with};
ghost use Rattle.bl_worker.specs.Loops.{IsBetween, AreOwnSerialsBelow, Rounds, Fails, HasLooped};

use crate::calls::{free, install, put, take};
use crate::gate::Gate;
use bl_branch::{BranchRule, Place};
use bl_cover::Separate;
use bl_desc::{Desc, Form};
use bl_fixed::Fixed;
use bl_node::Hints;
use bl_problem::{Cut, Problem};
use bl_search::{Worked, work_on};
use bl_shared::{SharedTree, TreeSeat};
use bl_tree::laws::plans_make_jobs;
use bl_tree::{Born, Freed, Lease, Planned, Taken, encode};
use std::alloc::{AllocError, Global};
use std::sync::Wait;

/// After each split whose count this divides, both children are stored whole.
const SPLITS: u32 = 4;

/// Why a worker ended.
#[derive(Clone, Copy, Debug, PartialEq, Eq)]
pub enum WorkerEnd {
    /// No node is live.
    Done,
    /// A live node waits, and as many nodes are used as may be.
    Spent,
    /// There was no memory. A lease in hand was given back first.
    Memory,
}

// How a round ended.
#[derive(Clone, Copy, Debug, PartialEq, Eq)]
pub enum Round {
    /// A node was worked on. So many puts have split since the last fourth split, and new cuts are
    /// numbered from `serial` on.
    Worked { splits: u32, serial: u32 },
    /// No live node waited, and one was out: it was slept until a node was put or given back.
    Idle,
    Done,
    Spent,
}

// What was born by a put, if it split, and the first serial number that is free for the seat's
// cuts.
struct Finished {
    born: Option<Born>,
    serial: u32,
}

// Works on the node of a lease and hands the outcome in, or gives the node back where there is no
// memory.
fn finish<R: Wait, G: Gate, F: Fn(&Desc<Cut>, &[Fixed]) -> Place, S: Separate>(
    rt: &R,
    alloc: Global,
    tree: &SharedTree,
    seat: &mut TreeSeat,
    problem: &Problem,
    rule: &BranchRule<F>,
    separator: &S,
    hints: &mut Hints,
    span: u32,
    gate: &G,
    lease: Lease,
    serial: u32,
) -> Result<Finished, AllocError>
    requires seat { IsSeatOf tree.now seat.old }
    requires problem { (tree_seen (view_of seat.old)).problem ≡ problem.now }
    requires span { (tree_seen (view_of seat.old)).settings.span ≡ span }
    requires some { 0 < span }
    requires leased { IsLeaseOf (tree_seen (view_of seat.old)) (number seat.old) lease }
    requires serials { AreOwnSerialsBelow serial (view_of seat.old) }
    requires rule { IsRule F.Fn rule.now.closure }
    requires places { SplitsOwnAt (MayAnswer F.Fn rule.now.closure) (view_of seat.old) }
    ensures seat { IsSeatOf tree.now seat.new }
    ensures put { IfOk result (λ f. HandsIn (view_of seat.old) lease f.born (view_of seat.new)) }
    ensures serials { IfOk result (λ f. AreOwnSerialsBelow f.serial (view_of seat.new)) }
    ensures back { OnErr result (BacksIn (view_of seat.old) lease (view_of seat.new)) }
    ensures places { SplitsOwnAt (MayAnswer F.Fn rule.now.closure) (view_of seat.new) }
{
    let worker = seat.number();
    match work_on(
        alloc, problem, &lease, rule, separator, hints, span, worker, serial,
    ) {
        Ok(Worked { outcome, serial }) => {
            let born = put(rt, tree, seat, gate, lease, outcome);
            Ok(Finished { born, serial })
        }
        Err(error) => {
            tree.back(rt, seat, lease);
            Err(error)
        }
    }
}

// Stores a node whole, unless it is freed. What is to be stored is made without the lock.
fn store_whole<R: Wait, G: Gate>(
    rt: &R,
    alloc: Global,
    tree: &SharedTree,
    seat: &mut TreeSeat,
    gate: &G,
    id: u32,
) -> Result<(), AllocError>
    requires seat { IsSeatOf tree.now seat.old }
    requires born { IsBorn (tree_seen (view_of seat.old)) id }
    ensures seat { IsSeatOf tree.now seat.new }
    ensures kept { IsKeptUp (view_of seat.old) (view_of seat.new) }
    ensures whole { OnOk result (IsStoredWhole id (view_of seat.new)) }
{
    plans_make_jobs();
    match tree.plan(rt, seat, id, Form::Explicit)? {
        Planned::Chain(plan) => {
            let job = encode(alloc, &plan)?;
            install(rt, tree, seat, gate, job)?;
            Ok(())
        }
        Planned::Gone => Ok(()),
        Planned::Same => Ok(()),
        Planned::Fixed => Ok(()),
    }
}

// Frees nodes until none may be freed.
fn free_all<R: Wait, G: Gate>(
    rt: &R,
    tree: &SharedTree,
    seat: &mut TreeSeat,
    gate: &G,
) -> Result<(), AllocError>
    requires seat { IsSeatOf tree.now seat.old }
    ensures seat { IsSeatOf tree.now seat.new }
    ensures kept { IsKeptUp (view_of seat.old) (view_of seat.new) }
{
    for _ in rt.forever() {
        match free(rt, tree, seat, gate)? {
            Freed::Chain(_) => {}
            Freed::Nothing => return Ok(()),
        }
    }
    unreachable!()
}

// Tidies up after a put: after each fourth split both children are stored whole; then nodes are
// freed until none may be. The answer is how many puts have split since the last fourth one.
fn tidy<R: Wait, G: Gate>(
    rt: &R,
    alloc: Global,
    tree: &SharedTree,
    seat: &mut TreeSeat,
    gate: &G,
    born: Option<Born>,
    splits: u32,
) -> Result<u32, AllocError>
    requires seat { IsSeatOf tree.now seat.old }
    requires left { IfSome born (λ b. IsBorn (tree_seen (view_of seat.old)) b.left) }
    requires right { IfSome born (λ b. IsBorn (tree_seen (view_of seat.old)) b.right) }
    requires few { splits < 4 }
    ensures seat { IsSeatOf tree.now seat.new }
    ensures kept { IsKeptUp (view_of seat.old) (view_of seat.new) }
    ensures count { IfOk result (λ count. count ≡ count_with splits born) }
    ensures tidied { IfOk result (λ count.
        HasTidied (view_of seat.old) born count (view_of seat.new)) }
{
    let mut count = splits;
    if let Some(born) = born {
        count = (count + 1) % SPLITS;
        if count == 0 {
            store_whole(rt, alloc, tree, seat, gate, born.left)?;
            store_whole(rt, alloc, tree, seat, gate, born.right)?;
        }
    }
    free_all(rt, tree, seat, gate)?;
    Ok(count)
}

// Takes a node, if a live one waits and the budget allows it, works on it and tidies up.
fn run_round<R: Wait, G: Gate, F: Fn(&Desc<Cut>, &[Fixed]) -> Place, S: Separate>(
    rt: &R,
    alloc: Global,
    tree: &SharedTree,
    seat: &mut TreeSeat,
    problem: &Problem,
    rule: &BranchRule<F>,
    separator: &S,
    hints: &mut Hints,
    span: u32,
    gate: &G,
    splits: u32,
    serial: u32,
) -> Result<Round, AllocError>
    requires seat { IsSeatOf tree.now seat.old }
    requires problem { (tree_seen (view_of seat.old)).problem ≡ problem.now }
    requires span { (tree_seen (view_of seat.old)).settings.span ≡ span }
    requires some { 0 < span }
    requires between { IsBetween (view_of seat.old) splits }
    requires few { splits < 4 }
    requires serials { AreOwnSerialsBelow serial (view_of seat.old) }
    requires rule { IsRule F.Fn rule.now.closure }
    requires places { SplitsOwnAt (MayAnswer F.Fn rule.now.closure) (view_of seat.old) }
    ensures seat { IsSeatOf tree.now seat.new }
    ensures ok { IfOk result (λ round.
        Rounds (view_of seat.old) splits serial round (view_of seat.new)) }
    ensures err { OnErr result (Fails (view_of seat.old) (view_of seat.new)) }
    ensures places { SplitsOwnAt (MayAnswer F.Fn rule.now.closure) (view_of seat.new) }
{
    match take(rt, tree, seat, gate)? {
        Taken::Node(lease) => {
            let Finished { born, serial } = finish(
                rt, alloc, tree, seat, problem, rule, separator, hints, span, gate, lease, serial,
            )?;
            let splits = tidy(rt, alloc, tree, seat, gate, born, splits)?;
            Ok(Round::Worked { splits, serial })
        }
        Taken::Idle => Ok(Round::Idle),
        Taken::Done => Ok(Round::Done),
        Taken::Spent => Ok(Round::Spent),
    }
}

/// Takes nodes of the tree that the seat is at, works on them, hands the outcomes in and tidies up,
/// until a take is answered Done or Spent or there is no memory; where no live node waits but
/// one is out it tries again. Each split of the seat is at a place that the rule may answer for
/// the node's description after the common change, and the separator proposes cuts, which the
/// seat numbers from 0 on. The problem and the span are the tree's, and the seat has no entry
/// yet. Each node that it takes it puts in or, at `Memory` alone, gives back.
pub fn worker_loop<R: Wait, G: Gate, F: Fn(&Desc<Cut>, &[Fixed]) -> Place, S: Separate>(
    rt: &R,
    alloc: Global,
    tree: &SharedTree,
    seat: &mut TreeSeat,
    problem: &Problem,
    rule: &BranchRule<F>,
    separator: &S,
    span: u32,
    gate: &G,
) -> WorkerEnd
    requires seat { IsSeatOf tree.now seat.old }
    requires problem { (tree_seen (view_of seat.old)).problem ≡ problem.now }
    requires span { (tree_seen (view_of seat.old)).settings.span ≡ span }
    requires some { 0 < span }
    requires fresh { mine seat.old ≡ [] }
    requires rule { IsRule F.Fn rule.now.closure }
    ensures seat { IsSeatOf tree.now seat.new }
    ensures looped { HasLooped (view_of seat.old) result (view_of seat.new) }
    ensures places { SplitsOwnAt (MayAnswer F.Fn rule.now.closure) (view_of seat.new) }
{
    let mut splits = 0;
    let mut serial = 0;
    let mut hints = Hints::new(alloc);
    for _ in rt.forever() {
        match run_round(
            rt, alloc, tree, seat, problem, rule, separator, &mut hints, span, gate, splits, serial,
        ) {
            Ok(
                Round::Worked {
                    splits: count,
                    serial: next,
                },
            ) => {
                splits = count;
                serial = next;
            }
            Ok(Round::Idle) => {}
            Ok(Round::Done) => return WorkerEnd::Done,
            Ok(Round::Spent) => return WorkerEnd::Spent,
            Err(AllocError) => return WorkerEnd::Memory,
        }
    }
    unreachable!()
}
