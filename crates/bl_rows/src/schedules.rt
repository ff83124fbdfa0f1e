//! Searches under many schedules, each made by holds that a number gives.
ghost use Rattle.std.specs.Prelude.{◌≡◌, ◌<◌, ◌≤◌, pos, ◌≤ℤ◌};
ghost use Rattle.bl_journal.specs.declared.limits.TheConstants.{LARGEST_GAP, MOST_NODES};
ghost use Rattle.bl_journal.specs.declared.limits.TheConstants.{MOST_SPAN, MOST_WORKERS};

use crate::replays::{is_replayed, told};
use crate::search::by_half;
use bl_branch::BranchRule;
use bl_cover::{CutKinds, KindSeparator};
use bl_gen::make;
use bl_hold::{Hold, HoldGate};
use bl_journal::{Order, Settings};
use bl_problem::Problem;
use bl_search::search_tree;
use bl_worker::{Moment, search_shared};
use std::alloc::{AllocError, Global};
use std::sync::{Arc, Wait};
use std::test::Fail;
use std::thread::Threads;

/// A hold ends after so many turns of the gate's loop.
const TURNS: u32 = 25;

/// So many schedules of each search, whose tree has some ten nodes.
const SCHEDULES: u32 = 125;

const MOMENTS: [Moment; 6] = [
    Moment::BeforeTake,
    Moment::AfterTake,
    Moment::BeforePut,
    Moment::AfterPut,
    Moment::BeforeInstall,
    Moment::BeforeFree,
];

/// Numbers of a linear congruence.
#[derive(Drop)]
struct Draws {
    state: u32,
}

impl Draws {
    /// The next number, below the bound.
    fn draw(&mut self, bound: u32) -> u32
        requires { 0 < bound }
        ensures { result < bound }
    {
        let product = self.state.wrapping_mul(1_664_525);
        self.state = product.wrapping_add(1_013_904_223);
        (self.state >> 16) % bound
    }

    /// The next of the numbers 1 to 4.
    fn passing(&mut self) -> u32 {
        self.draw(4) + 1
    }

    fn moment(&mut self) -> Moment {
        MOMENTS[self.draw(6) as usize]
    }
}

/// The holds of a schedule of so many workers: one to six.
fn some_holds(alloc: Global, draws: &mut Draws, workers: u32) -> Result<Vec<Hold>, AllocError>
    requires some { 0 < workers }
    requires few { workers ≤ MOST_WORKERS }
{
    let mut holds = Vec::new(alloc);
    for _ in 0..=draws.draw(6) {
        holds.push(Hold {
            worker: draws.draw(workers) + 1,
            moment: draws.moment(),
            passing: draws.passing(),
            until_worker: draws.draw(workers) + 1,
            until_moment: draws.moment(),
            until_passing: draws.passing(),
        })?;
    }
    Ok(holds)
}

/// The settings of a search with this span and order.
fn settings(span: u32, order: Order) -> Settings
    ensures { result ≡ record { nodes = 1000; span = span; order = order; gap = pos 0 } }
{
    Settings {
        nodes: 1_000,
        span,
        order,
        gap: 0,
    }
}

/// Whether a search of so many workers that pass the gate answers with this text, and a replay
/// of its journal's text with the same.
fn is_alike<R: Threads + Wait + Sync>(
    rt: &R,
    alloc: Global,
    problem: &Arc<Problem>,
    settings: Settings,
    workers: u32,
    gate: &HoldGate,
    text: &[u8],
) -> Result<bool, AllocError>
    requires nodes { settings.nodes ≤ MOST_NODES }
    requires some_span { 0 < settings.span }
    requires few_spans { settings.span ≤ MOST_SPAN }
    requires some_gap { pos 0 ≤ℤ settings.gap }
    requires few_gaps { settings.gap ≤ℤ LARGEST_GAP }
    requires some_workers { 1 ≤ workers }
    requires few_workers { workers ≤ MOST_WORKERS }
{
    let rule = BranchRule::new(by_half);
    let rows = KindSeparator::new(CutKinds::Rows);
    let search = search_shared(rt, alloc, problem, settings, workers, &rule, &rows, gate)?;
    if told(alloc, problem, &search.tree, false)?.as_slice() != text {
        return Ok(false);
    }
    is_replayed(alloc, problem, settings, workers, &search)
}

/// The text of the answer of one seat. None where the tree is too small to tell.
fn text_alone(
    alloc: Global,
    problem: &Arc<Problem>,
    settings: Settings,
) -> Result<Option<Vec<u8>>, AllocError>
    requires nodes { settings.nodes ≤ MOST_NODES }
    requires some_span { 0 < settings.span }
    requires few_spans { settings.span ≤ MOST_SPAN }
    requires some_gap { pos 0 ≤ℤ settings.gap }
    requires few_gaps { settings.gap ≤ℤ LARGEST_GAP }
{
    let rule = BranchRule::new(by_half);
    let rows = KindSeparator::new(CutKinds::Rows);
    let alone = search_tree(alloc, problem, settings, &rule, &rows)?;
    if alone.tree.glance().used < 5 {
        return Ok(None);
    }
    Ok(Some(told(alloc, problem, &alone.tree, false)?))
}

/// The number of the first schedule under which the answer is not that of one seat, or a replay
/// differs; the first one where the tree is too small to tell.
fn first_unlike<R: Threads + Wait + Sync>(
    rt: &R,
    alloc: Global,
    problem: Problem,
    settings: Settings,
    start: u32,
) -> Result<Option<u32>, AllocError>
    requires nodes { settings.nodes ≤ MOST_NODES }
    requires some_span { 0 < settings.span }
    requires few_spans { settings.span ≤ MOST_SPAN }
    requires some_gap { pos 0 ≤ℤ settings.gap }
    requires few_gaps { settings.gap ≤ℤ LARGEST_GAP }
{
    let problem = Arc::new(alloc, problem)?;
    let Some(text) = text_alone(alloc, &problem, settings)? else {
        return Ok(Some(0));
    };
    let mut draws = Draws { state: start };
    for number in 0..SCHEDULES {
        let workers = draws.draw(3) + 2;
        let gate = HoldGate::new(alloc, some_holds(alloc, &mut draws, workers)?, TURNS)?;
        if !is_alike(rt, alloc, &problem, settings, workers, &gate, &text)? {
            return Ok(Some(number));
        }
    }
    Ok(None)
}

#[test]
fn schedules_of_six_columns(rt: HostRuntime) -> Result<(), Fail> {
    let alloc = rt.alloc();
    let problem = make(alloc, 16, 6, 3)?;
    let unlike = first_unlike(&rt, alloc, problem, settings(1, Order::Best), 1)?;
    assert_eq!(rt; unlike, None);
    Ok(())
}

#[test]
fn schedules_of_six_columns_by_depth(rt: HostRuntime) -> Result<(), Fail> {
    let alloc = rt.alloc();
    let problem = make(alloc, 16, 6, 3)?;
    let unlike = first_unlike(&rt, alloc, problem, settings(3, Order::Depth), 2)?;
    assert_eq!(rt; unlike, None);
    Ok(())
}

#[test]
fn schedules_of_seven_columns(rt: HostRuntime) -> Result<(), Fail> {
    let alloc = rt.alloc();
    let problem = make(alloc, 20, 7, 4)?;
    let unlike = first_unlike(&rt, alloc, problem, settings(8, Order::Best), 3)?;
    assert_eq!(rt; unlike, None);
    Ok(())
}

#[test]
fn schedules_of_seven_columns_by_depth(rt: HostRuntime) -> Result<(), Fail> {
    let alloc = rt.alloc();
    let problem = make(alloc, 20, 7, 4)?;
    let unlike = first_unlike(&rt, alloc, problem, settings(1, Order::Depth), 4)?;
    assert_eq!(rt; unlike, None);
    Ok(())
}

#[test]
fn schedules_of_eight_columns(rt: HostRuntime) -> Result<(), Fail> {
    let alloc = rt.alloc();
    let problem = make(alloc, 20, 8, 3)?;
    let unlike = first_unlike(&rt, alloc, problem, settings(2, Order::Best), 5)?;
    assert_eq!(rt; unlike, None);
    Ok(())
}

#[test]
fn schedules_of_eight_columns_by_depth(rt: HostRuntime) -> Result<(), Fail> {
    let alloc = rt.alloc();
    let problem = make(alloc, 20, 8, 3)?;
    let unlike = first_unlike(&rt, alloc, problem, settings(2, Order::Depth), 6)?;
    assert_eq!(rt; unlike, None);
    Ok(())
}

#[test]
fn schedules_of_nine_columns(rt: HostRuntime) -> Result<(), Fail> {
    let alloc = rt.alloc();
    let problem = make(alloc, 20, 9, 2)?;
    let unlike = first_unlike(&rt, alloc, problem, settings(8, Order::Best), 7)?;
    assert_eq!(rt; unlike, None);
    Ok(())
}

#[test]
fn schedules_of_nine_columns_by_depth(rt: HostRuntime) -> Result<(), Fail> {
    let alloc = rt.alloc();
    let problem = make(alloc, 20, 9, 2)?;
    let unlike = first_unlike(&rt, alloc, problem, settings(4, Order::Depth), 8)?;
    assert_eq!(rt; unlike, None);
    Ok(())
}
