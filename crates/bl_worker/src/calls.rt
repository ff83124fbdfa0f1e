//! The tree's calls of a worker, which passes the gate at each.
ghost use Rattle.std.specs.Prelude.{◌≡◌, IfOk, OnErr};
ghost use Rattle.bl_turn.specs.Seats.{view_of, number};
ghost use Rattle.bl_tree.specs.Views.{IsPutFor};
ghost use Rattle.bl_tree.specs.Jobs.{IsJobOf};
ghost use Rattle.bl_shared.specs.Calls.{IsSeatOf, tree_seen};
ghost use Rattle.bl_shared.specs.Calls.{TakesIn, PutsIn, InstallsIn, FreesIn, LooksIn};

use crate::gate::{Gate, Moment};
use bl_journal::Outcome;
use bl_shared::{SharedTree, TreeSeat};
use bl_tree::{Born, Freed, Installed, Job, Lease, Taken};
use std::alloc::AllocError;
use std::sync::Wait;

// Takes a node, if a live one waits and the budget allows it. At Idle it sleeps until a node is
// put or given back.
pub(crate) fn take<R: Wait, G: Gate>(
    rt: &R,
    tree: &SharedTree,
    seat: &mut TreeSeat,
    gate: &G,
) -> Result<Taken, AllocError>
    requires seat { IsSeatOf tree.now seat.old }
    ensures seat { IsSeatOf tree.now seat.new }
    ensures taken { IfOk result (λ t. TakesIn (view_of seat.old) t (view_of seat.new)) }
    ensures err { OnErr result (LooksIn (view_of seat.old) (view_of seat.new)) }
{
    let worker = seat.number();
    gate.pass(worker, Moment::BeforeTake);
    let taken = tree.take_or_sleep(rt, seat);
    gate.pass(worker, Moment::AfterTake);
    taken
}

// Hands in the outcome of the work on a node.
pub(crate) fn put<R: Wait, G: Gate>(
    rt: &R,
    tree: &SharedTree,
    seat: &mut TreeSeat,
    gate: &G,
    lease: Lease,
    outcome: Outcome,
) -> Option<Born>
    requires seat { IsSeatOf tree.now seat.old }
    requires fits { IsPutFor (tree_seen (view_of seat.old)) (number seat.old) lease outcome }
    ensures seat { IsSeatOf tree.now seat.new }
    ensures put { PutsIn (view_of seat.old) lease outcome result (view_of seat.new) }
{
    let worker = seat.number();
    gate.pass(worker, Moment::BeforePut);
    let born = tree.put(rt, seat, lease, outcome);
    gate.pass(worker, Moment::AfterPut);
    born
}

// Stores a node as a job has it.
pub(crate) fn install<R: Wait, G: Gate>(
    rt: &R,
    tree: &SharedTree,
    seat: &mut TreeSeat,
    gate: &G,
    job: Job,
) -> Result<Installed, AllocError>
    requires seat { IsSeatOf tree.now seat.old }
    requires job { IsJobOf (tree_seen (view_of seat.old)) job }
    ensures seat { IsSeatOf tree.now seat.new }
    ensures installed { IfOk result (λ answer.
        InstallsIn (view_of seat.old) job answer (view_of seat.new)) }
    ensures err { OnErr result (LooksIn (view_of seat.old) (view_of seat.new)) }
{
    gate.pass(seat.number(), Moment::BeforeInstall);
    tree.install(rt, seat, job)
}

// Frees a chain of nodes, if any may be freed.
pub(crate) fn free<R: Wait, G: Gate>(
    rt: &R,
    tree: &SharedTree,
    seat: &mut TreeSeat,
    gate: &G,
) -> Result<Freed, AllocError>
    requires seat { IsSeatOf tree.now seat.old }
    ensures seat { IsSeatOf tree.now seat.new }
    ensures freed { IfOk result (λ answer. FreesIn (view_of seat.old) answer (view_of seat.new)) }
    ensures err { OnErr result (LooksIn (view_of seat.old) (view_of seat.new)) }
{
    gate.pass(seat.number(), Moment::BeforeFree);
    tree.free(rt, seat)
}
