//! Trees that are made again of the text of their journal.
ghost use Rattle.std.specs.Prelude.{◌≡◌, ◌≤◌, ◌<◌, pos, ◌≤ℤ◌};
ghost use Rattle.bl_journal.specs.declared.limits.TheConstants.{LARGEST_GAP, MOST_NODES, MOST_SPAN};
ghost use Rattle.bl_search.specs.Searches.{IsSearched};

use crate::search::{by_half, problem};
use bl_branch::BranchRule;
use bl_cover::{CutKinds, KindSeparator};
use bl_journal::{Order, Settings};
use bl_log::{LogFault, log_text, read_log};
use bl_problem::Problem;
use bl_replay::replay;
use bl_report::answer_text;
use bl_search::{EndedSearch, search_tree};
use bl_tree::Tree;
use std::alloc::{AllocError, Global};
use std::sync::Arc;
use std::test::Fail;

/// An equation that no whole numbers meet, since its right side is odd, over columns of one unit
/// and of five.
const ODDEST: &[u8] = b"NAME
ROWS
 N  COST
 E  R1
COLUMNS
    M  'MARKER'  'INTORG'
    W  COST  2  R1  2
    X  COST  3  R1  4
    Y  COST  4  R1  2
    Z  COST  5  R1  6
    M  'MARKER'  'INTEND'
RHS
    RHS  R1  21
BOUNDS
 UP BND W 5
 UP BND X 1
 UP BND Y 5
 UP BND Z 1
ENDATA
";

/// The text of the tree's answer, with or without the point.
pub(crate) fn told(
    alloc: Global,
    problem: &Problem,
    tree: &Tree,
    with_columns: bool,
) -> Result<Vec<u8>, AllocError> {
    answer_text(alloc, problem, &tree.answer(), with_columns)
}

/// Whether the text of the tree's journal reads back, and a replay of what is read has the
/// tree's answer and holds as much.
pub(crate) fn is_replayed(
    alloc: Global,
    problem: &Arc<Problem>,
    settings: Settings,
    workers: u32,
    search: &EndedSearch,
) -> Result<bool, AllocError>
    requires nodes { settings.nodes ≤ MOST_NODES }
    requires some_span { 0 < settings.span }
    requires few_spans { settings.span ≤ MOST_SPAN }
    requires some_gap { pos 0 ≤ℤ settings.gap }
    requires few_gaps { settings.gap ≤ℤ LARGEST_GAP }
    requires searched { IsSearched problem.now.value settings workers search.now }
{
    let tree = &search.tree;
    let text = log_text(alloc, tree.journal())?;
    if text.len() > 1_000_000 {
        return Ok(false);
    }
    let journal = match read_log(alloc, &text) {
        Ok(journal) => journal,
        Err(LogFault::Memory) => return Err(AllocError),
        Err(LogFault::Line { .. }) => return Ok(false),
    };
    let again = replay(alloc, Arc::try_clone(problem)?, settings, &journal)?;
    let is_alike = told(alloc, problem, &again, true)? == told(alloc, problem, tree, true)?;
    Ok(is_alike && again.held() == tree.held() && again.glance() == tree.glance())
}

#[test]
fn replays_answer_alike(rt: HostRuntime) -> Result<(), Fail> {
    let alloc = rt.alloc();
    let rule = BranchRule::new(by_half);
    let rows = KindSeparator::new(CutKinds::Both);
    let problem = problem(alloc, ODDEST)?;
    for (nodes, span, order) in [
        (0u32, 1u32, Order::Best),
        (5, 1, Order::Best),
        (30, 3, Order::Depth),
        (1_000, 8, Order::Depth),
    ] {
        let settings = Settings {
            nodes,
            span,
            order,
            gap: 0,
        };
        let search = search_tree(alloc, &problem, settings, &rule, &rows)?;
        assert!(rt; is_replayed(alloc, &problem, settings, 0, &search)?);
    }
    Ok(())
}
