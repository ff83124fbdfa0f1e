//! Workers side by side: how they end, what their tree answers, and that one goes on while another
//! is held.
ghost use Rattle.std.specs.Prelude.{◌≡◌, ◌<◌, [], IfOk};
ghost use Rattle.bl_journal.specs.Seats.{HasNoneOut};
ghost use Rattle.bl_worker.specs.Ends.{HasNoneByWorkers};

use crate::search::{ODDER, Silent, by_half, problem as read_problem};
use bl_branch::BranchRule;
use bl_cover::{CutKinds, KindSeparator};
use bl_hold::{Hold, HoldGate};
use bl_journal::{Order, Settings};
use bl_problem::Problem;
use bl_shared::{NoMemory, SharedTree};
use bl_tree::{Answer, Tree};
use bl_worker::{Gate, Moment, OpenGate, WorkerEnd, run_workers, worker_loop};
use std::alloc::{AllocError, Global};
use std::sync::{Arc, Wait};
use std::test::Fail;
use std::thread::Threads;

/// Two columns of costs 2 and 3, and the row 2X + 3Y >= 7.
const COVERING: &[u8] = b"NAME          ROWA
ROWS
 N  COST
 G  R1
COLUMNS
    MARKER                 'MARKER'                 'INTORG'
    X         COST               2   R1                 2
    Y         COST               3   R1                 3
    MARKER                 'MARKER'                 'INTEND'
RHS
    RHS       R1                 7
BOUNDS
 UP BND       X                 10
 UP BND       Y                 10
ENDATA
";

/// Each node whose depth this divides is stored whole.
const SPAN: u32 = 8;

/// A worker is held for so many turns of the gate's loop at most.
const TURNS: u32 = 10_000_000;

/// The tree after two workers, and how they ended.
fn tree_after<R: Threads + Wait + Sync, G: Gate>(
    rt: &R,
    alloc: Global,
    tree: Tree,
    problem: &Problem,
    gate: &G,
) -> Result<(Tree, Vec<WorkerEnd>), AllocError>
    requires problem { tree.problem ≡ problem.now }
    requires span { tree.settings.span ≡ 8 }
    requires none_out { HasNoneOut tree.history }
    requires others { HasNoneByWorkers 2 tree.history }
{
    let (shared, mut seat) = match SharedTree::new(alloc, tree) {
        Ok(made) => made,
        Err(NoMemory { value: _ }) => return Err(AllocError),
    };
    let rule = BranchRule::new(by_half);
    let silent = Silent {};
    let ends = run_workers(
        rt, alloc, &shared, &mut seat, 2, problem, &rule, &silent, SPAN, gate,
    );
    let tree = shared.close(seat);
    Ok((tree, ends?))
}

/// How the loop of one worker on the tree ends.
fn end_of<R: Wait>(
    rt: &R,
    alloc: Global,
    tree: Tree,
    problem: &Problem,
) -> Result<WorkerEnd, AllocError>
    requires fresh { tree.history ≡ [] }
    requires problem { tree.problem ≡ problem.now }
    requires span { tree.settings.span ≡ 8 }
{
    let (shared, mut seat) = match SharedTree::new(alloc, tree) {
        Ok(made) => made,
        Err(NoMemory { value: _ }) => return Err(AllocError),
    };
    let rule = BranchRule::new(by_half);
    let rows = KindSeparator::new(CutKinds::Rows);
    let end = worker_loop(
        rt, alloc, &shared, &mut seat, problem, &rule, &rows, SPAN, &OpenGate,
    );
    let _tree = shared.close(seat);
    Ok(end)
}

#[test]
fn two_workers_solve(rt: HostRuntime) -> Result<(), Fail> {
    let alloc = rt.alloc();
    let problem = read_problem(alloc, COVERING)?;
    let settings = Settings {
        nodes: 241,
        span: SPAN,
        order: Order::Best,
        gap: 0,
    };
    let tree = Tree::new(alloc, Arc::try_clone(&problem)?, settings)?;
    let (tree, ends) = tree_after(&rt, alloc, tree, &problem, &OpenGate)?;
    assert!(rt; ends.as_slice() == [WorkerEnd::Done, WorkerEnd::Done].as_slice());
    match tree.answer() {
        Answer::Optimal { value, point: _ } => assert_eq!(rt; value, 7),
        _ => panic!(rt; "an optimal point was wanted"),
    }
    Ok(())
}

#[test]
fn a_spent_budget_ends_a_loop(rt: HostRuntime) -> Result<(), Fail> {
    let alloc = rt.alloc();
    let problem = read_problem(alloc, COVERING)?;
    let settings = Settings {
        nodes: 0,
        span: SPAN,
        order: Order::Best,
        gap: 0,
    };
    let tree = Tree::new(alloc, Arc::try_clone(&problem)?, settings)?;
    assert_eq!(rt; end_of(&rt, alloc, tree, &problem)?, WorkerEnd::Spent);
    Ok(())
}

#[test]
fn one_works_while_the_other_is_held(rt: HostRuntime) -> Result<(), Fail> {
    let alloc = rt.alloc();
    let problem = read_problem(alloc, ODDER)?;
    let settings = Settings {
        nodes: 12,
        span: SPAN,
        order: Order::Best,
        gap: 0,
    };
    let tree = Tree::new(alloc, Arc::try_clone(&problem)?, settings)?;
    // worker 2 takes nothing before worker 1 has split the root and taken a child, with which it
    // is held until worker 2 has put
    let holds = [
        Hold {
            worker: 1,
            moment: Moment::AfterTake,
            passing: 2,
            until_worker: 2,
            until_moment: Moment::AfterPut,
            until_passing: 1,
        },
        Hold {
            worker: 2,
            moment: Moment::BeforeTake,
            passing: 1,
            until_worker: 1,
            until_moment: Moment::AfterTake,
            until_passing: 2,
        },
    ];
    let gate = HoldGate::new(alloc, holds.to_vec(alloc)?, TURNS)?;
    let (_tree, ends) = tree_after(&rt, alloc, tree, &problem, &gate)?;
    assert!(rt; ends.as_slice() == [WorkerEnd::Spent, WorkerEnd::Spent].as_slice());
    assert!(rt; gate.released(0));
    assert!(rt; gate.released(1));
    Ok(())
}
