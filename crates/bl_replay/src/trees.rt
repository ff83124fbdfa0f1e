//! The tree that a journal was written by, made again.
ghost use Rattle.std.specs.Prelude.{◌≡◌, ◌<◌, ◌≤◌, pos, ◌≤ℤ◌, [], IfOk, OnOk};
ghost use Rattle.bl_problem.specs.Program.{IsProgram};
ghost use Rattle.bl_journal.specs.declared.limits.TheConstants.{LARGEST_GAP, MOST_NODES, MOST_SPAN};
ghost use Rattle.bl_journal.specs.Legality.{IsLegal};

use crate::entries::enter;
use crate::leases::{Leases, let_all_go};
use bl_journal::{Entry, Journal, Settings};
use bl_problem::Problem;
use bl_tree::Tree;
use std::alloc::{AllocError, Global};
use std::sync::Arc;

// Does the entries of a legal history again, from its beginning.
fn enter_all(
    alloc: Global,
    tree: &mut Tree,
    leases: &mut Leases,
    span: u32,
    entries: &[Entry],
) -> Result<(), AllocError>
    requires program { IsProgram tree.old.problem }
    requires span { tree.old.settings.span ≡ span }
    requires some_span { 0 < span }
    requires new { tree.old.history ≡ [] }
    requires legal { IsLegal tree.old.problem tree.old.settings entries.now }
    ensures { OnOk result (tree.new ≡ record {
      problem = tree.old.problem;
      settings =
          tree.old.settings;
      history = entries.now;
    }) }
{
    for entry in entries {
        enter(alloc, tree, leases, span, entry)?;
    }
    Ok(())
}

/// The tree of a problem after a legal history: each entry of the journal is done again, from
/// the first to the last. `AllocError` where there is no memory.
///
/// Nothing of the search's mathematics is tested again: the caller knows that the journal is
/// legal, as the one that a search leaves is, and so what is read back of its text.
pub fn replay(
    alloc: Global,
    problem: Arc<Problem>,
    settings: Settings,
    journal: &Journal,
) -> Result<Tree, AllocError>
    requires span { 0 < settings.span }
    requires short { settings.span ≤ MOST_SPAN }
    requires few { settings.nodes ≤ MOST_NODES }
    requires gap_some { pos 0 ≤ℤ settings.gap }
    requires gap_few { settings.gap ≤ℤ LARGEST_GAP }
    requires legal { IsLegal problem.value settings journal.now.entries }
    ensures { IfOk result (λ tree. tree
        ≡ record { problem = problem.value; settings = settings; history = journal.now.entries }) }
{
    let _columns = problem.columns();
    let mut tree = Tree::new(alloc, problem, settings)?;
    let mut leases = Leases::new(alloc);
    let entered = enter_all(
        alloc,
        &mut tree,
        &mut leases,
        settings.span,
        journal.entries(),
    );
    let_all_go(&mut tree, leases);
    entered?;
    Ok(tree)
}
