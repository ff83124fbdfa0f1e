//! All workers of a search.
ghost use Rattle.std.specs.Prelude.{◌≡◌, ◌<◌, ◌≤◌, ℕ, [], length, map, vec_capacity};
ghost use Rattle.std.specs.Prelude.{slice_index_or, All, IfOk, OnErr};
ghost use Rattle.bl_branch.specs.Calls.{IsRule};
ghost use Rattle.bl_turn.specs.Seats.{view_of, number, given, seen};
ghost use Rattle.bl_search.specs.Places.{MayAnswer};
ghost use Rattle.bl_shared.specs.Calls.{IsSeatOf, tree_seen};
ghost use Rattle.bl_worker.specs.Jobs.{AreWorkerSeats, IsReady, HasRun, HaveJoined};
ghost use Rattle.bl_journal.specs.Seats.{HasNoneOut};
ghost use Rattle.bl_journal.specs.declared.limits.TheConstants.{MOST_WORKERS};
ghost use Rattle.bl_worker.specs.Ends.{HasNoneByWorkers, HaveEnded, SplitByWorkersAt};

use crate::gate::Gate;
use crate::worker::{WorkerEnd, worker_loop};
use bl_branch::{BranchRule, Place};
use bl_cover::Separate;
use bl_desc::Desc;
use bl_fixed::Fixed;
use bl_journal::laws::{holders_are_told, searches_end, seats_stay_tidy};
use bl_problem::{Cut, Problem};
use bl_shared::{SharedTree, TreeSeat};
use std::alloc::{AllocError, Global};
use std::sync::Wait;
use std::thread;
use std::thread::Threads;

// A worker's seat, and how the worker ended.
#[derive(Drop)]
pub struct Job {
    pub seat: TreeSeat,
    pub end: WorkerEnd,
}

// Splits a seat for each worker.
fn split_all(tree: &SharedTree, seat: &mut TreeSeat, workers: u32, jobs: &mut Vec<Job>)
    requires seat { IsSeatOf tree.now seat.old }
    requires first { number seat.old ≡ 0 }
    requires none_given { given seat.old ≡ 0 }
    requires few { workers ≤ MOST_WORKERS }
    requires empty { jobs.old.items ≡ [] }
    requires room { workers ≤ vec_capacity jobs.old }
    ensures seat { IsSeatOf tree.now seat.new }
    ensures view { view_of seat.new ≡ record (view_of seat.old) { given = workers } }
    ensures count { length jobs.new.items ≡ workers }
    ensures seats { AreWorkerSeats tree.now (view_of seat.old) jobs.new.items }
{
    'seats: while jobs.len() < workers as usize {
        jobs.push_reserved(Job {
            seat: tree.split(seat),
            end: WorkerEnd::Memory,
        });
    }
}

// Runs a worker at each seat, each in a thread where one can be had.
fn run_all<
    R: Threads + Wait + Sync,
    G: Gate,
    F: Fn(&Desc<Cut>, &[Fixed]) -> Place + Sync,
    S: Separate,
>(
    rt: &R,
    alloc: Global,
    tree: &SharedTree,
    jobs: &mut [Job],
    problem: &Problem,
    rule: &BranchRule<F>,
    separator: &S,
    span: u32,
    gate: &G,
)
    requires some { 0 < span }
    requires workers { 0 < length jobs.old }
    requires ready { All (IsReady tree.now problem.now span) jobs.old }
    requires rule { IsRule F.Fn rule.now.closure }
    ensures count { length jobs.new ≡ length jobs.old }
    ensures run { (i : ℕ) (d : _) → i < length jobs.old
        → HasRun (MayAnswer F.Fn rule.now.closure) tree.now
        (slice_index_or jobs.old i d) (slice_index_or jobs.new i d) }
{
    let threads = jobs.len();
    thread::for_each_mut(
        rt,
        jobs,
        threads,
        &|_, job|
            requires ready { IsReady tree.now problem.now span job.now }
            requires some { 0 < span }
            requires rule { IsRule F.Fn rule.now.closure }
            ensures { HasRun (MayAnswer F.Fn rule.entry.now.closure) tree.entry.now
                job.entry.now job.exit.now }
        {
            job.end = worker_loop(
                rt,
                alloc,
                tree,
                &mut job.seat,
                problem,
                rule,
                separator,
                span,
                gate,
            );
        },
    );
}

// How the workers ended, by their numbers.
fn ends_of(jobs: &[Job], ends: &mut Vec<WorkerEnd>)
    requires empty { ends.old.items ≡ [] }
    requires room { length jobs.now ≤ vec_capacity ends.old }
    ensures { ends.new.items ≡ map (λ j. j.end) jobs.now }
{
    for job in jobs {
        ends.push_reserved(job.end);
    }
}

// Takes the seats in, the last one first.
fn join_all(tree: &SharedTree, seat: &mut TreeSeat, mut jobs: Vec<Job>)
    requires seat { IsSeatOf tree.now seat.old }
    requires first { number seat.old ≡ 0 }
    requires seats { All (λ j. IsSeatOf tree.now j.seat) jobs.items }
    ensures seat { IsSeatOf tree.now seat.new }
    ensures joined { HaveJoined (view_of seat.old) jobs.items (view_of seat.new) }
{
    while let Some(job) = jobs.pop() {
        tree.join(seat, job.seat);
    }
}

/// Runs so many workers, 1 to 64, each in a thread where one can be had, and takes their seats in
/// again. The answer says how each ended, by its number from 1 on. `AllocError` only where there is
/// no memory for the lists of the workers; nothing has happened then.
///
/// The seat is seat 0 and has given none yet; no node is out, and no entry is by a worker's number.
/// The problem and the span are the tree's.
pub fn run_workers<
    R: Threads + Wait + Sync,
    G: Gate,
    F: Fn(&Desc<Cut>, &[Fixed]) -> Place + Sync,
    S: Separate,
>(
    rt: &R,
    alloc: Global,
    tree: &SharedTree,
    seat: &mut TreeSeat,
    workers: u32,
    problem: &Problem,
    rule: &BranchRule<F>,
    separator: &S,
    span: u32,
    gate: &G,
) -> Result<Vec<WorkerEnd>, AllocError>
    requires seat { IsSeatOf tree.now seat.old }
    requires first { number seat.old ≡ 0 }
    requires none_given { given seat.old ≡ 0 }
    requires some_workers { 1 ≤ workers }
    requires few_workers { workers ≤ MOST_WORKERS }
    requires none_out { HasNoneOut (seen seat.old) }
    requires others { HasNoneByWorkers workers (seen seat.old) }
    requires problem { (tree_seen (view_of seat.old)).problem ≡ problem.now }
    requires span { (tree_seen (view_of seat.old)).settings.span ≡ span }
    requires some { 0 < span }
    requires rule { IsRule F.Fn rule.now.closure }
    ensures seat { IsSeatOf tree.now seat.new }
    ensures ended { IfOk result (λ ends.
        HaveEnded workers (view_of seat.old) ends.items (view_of seat.new)) }
    ensures places { IfOk result (λ _. SplitByWorkersAt workers (MayAnswer F.Fn rule.now.closure)
        (tree_seen (view_of seat.new))) }
    ensures err { OnErr result (view_of seat.new ≡ view_of seat.old) }
{
    holders_are_told();
    searches_end();
    seats_stay_tidy();
    let mut jobs = Vec::with_capacity(alloc, workers as usize)?;
    let mut ends = Vec::with_capacity(alloc, workers as usize)?;
    split_all(tree, seat, workers, &mut jobs);
    run_all(
        rt,
        alloc,
        tree,
        jobs.as_mut_slice(),
        problem,
        rule,
        separator,
        span,
        gate,
    );
    ends_of(jobs.as_slice(), &mut ends);
    join_all(tree, seat, jobs);
    Ok(ends)
}
