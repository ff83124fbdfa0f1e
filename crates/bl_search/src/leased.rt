//! The work on the node of a lease, by any seat.
ghost use Rattle.std.specs.Prelude.{◌≡◌, ◌<◌, ◌≤◌, ◌+◌, ◌^◌, ◌%◌, ◌==◌, IfOk};
ghost use Rattle.bl_branch.specs.Calls.{IsRule};
ghost use Rattle.bl_journal.specs.Legality.{most_new_cuts};
ghost use Rattle.bl_tree.specs.Views.{TreeView};
ghost use Rattle.bl_search.specs.Searches.{AreLimitsAt, MayBeWorkedOn, IsWorkedOut};
ghost use Rattle.bl_search.specs.Places.{MayAnswer};

use bl_branch::{BranchRule, Place};
use bl_cover::Separate;
use bl_desc::Desc;
use bl_fixed::Fixed;
use bl_journal::Outcome;
use bl_journal::laws::{
    children_follow, cuts_were_added, leases_are_workable, newborns_are_stored,
};
use bl_node::{Hints, Limits, work_hinted};
use bl_problem::{Cut, Problem};
use bl_rebuild::rebuild;
use bl_tree::Lease;
use std::alloc::{AllocError, Global};

/// From this serial number on a seat adds no more cuts.
const LAST_SERIAL: u32 = 4_294_967_000;

// How many cuts the work on a node at this depth may add.
fn new_cuts(depth: u32) -> u32
    ensures { result ≡ most_new_cuts depth }
{
    if depth == 0 {
        20
    } else if depth <= 8 {
        2
    } else {
        0
    }
}

// The same, as far as there are serial numbers for them.
fn new_cuts_from(depth: u32, serial: u32) -> u32
    ensures few { result ≤ most_new_cuts depth }
    ensures room { serial + result < 2 ^ 32 }
{
    if serial < LAST_SERIAL {
        new_cuts(depth)
    } else {
        0
    }
}

// Whether the children of a node at this depth are stored whole.
fn bears_whole(depth: u32, span: u32) -> bool
    requires { 0 < span }
    ensures { result ≡ ((depth + 1) % span == 0) }
{
    (depth as u64 + 1) % (span as u64) == 0
}

// What the work of a seat on a node at this depth may do.
fn limits_at(problem: &Problem, depth: u32, span: u32, seat: u32, serial: u32) -> Limits
    requires { 0 < span }
    ensures { AreLimitsAt span depth seat serial result }
{
    let size = problem.columns().len() + problem.rows().len();
    Limits {
        pivots: 4 * (size as u32 + 200) + 100,
        new_cuts: new_cuts_from(depth, serial),
        explicit: bears_whole(depth, span),
        seat,
        serial,
    }
}

/// The outcome of some work, and the first serial number that is free for the seat's next cuts.
pub struct Worked {
    pub outcome: Outcome,
    pub serial: u32,
}

/// Works on the node of a seat's lease. Its cuts take serial numbers from `serial` on. Wherever the
/// lease stands, then or later, the outcome may be put in. `AllocError` where there is no memory.
pub fn work_on<F: Fn(&Desc<Cut>, &[Fixed]) -> Place, S: Separate>(
    alloc: Global,
    problem: &Problem,
    lease: &Lease,
    rule: &BranchRule<F>,
    separator: &S,
    hints: &mut Hints,
    span: u32,
    seat: u32,
    serial: u32,
) -> Result<Worked, AllocError>
    requires leased { (t : TreeView) × MayBeWorkedOn problem.now span seat serial lease.now t }
    requires some_span { 0 < span }
    requires rule { IsRule F.Fn rule.now.closure }
    ensures { IfOk result (λ w. (t : TreeView) → MayBeWorkedOn problem.now span seat serial
        lease.now t
        → IsWorkedOut (MayAnswer F.Fn rule.now.closure) problem.now seat w.serial lease.now
        w.outcome t) }
{
    leases_are_workable();
    children_follow();
    newborns_are_stored();
    cuts_were_added();
    let _columns = problem.columns();
    let limits = limits_at(problem, lease.depth(), span, seat, serial);
    let desc = rebuild(lease.chain())?;
    let outcome = work_hinted(
        alloc,
        problem,
        &desc,
        lease.cutoff(),
        rule,
        separator,
        &limits,
        hints,
    )?;
    Ok(Worked {
        outcome,
        serial: serial + limits.new_cuts,
    })
}
