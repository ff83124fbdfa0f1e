// The statuses of the description so far.
ghost use Rattle.std.specs.Prelude.{◌≡◌, cond, length, OnOk};
ghost use Rattle.bl_desc.specs.Changes.{same_status, IsWhole};
ghost use Rattle.bl_mods.specs.Mods.{differences};
ghost use Rattle.bl_node.specs.Moves.{IsOpen, Moves};
ghost use Rattle.bl_node.specs.Outcomes.{HasFewStatuses};
ghost use Rattle.bl_node.specs.Standing.{IsNode, Narrows, IsRestated};

use crate::state::State;
use crate::working::Working;
use bl_desc::{Desc, Status};
use bl_mods::Items;
use bl_problem::{Cut, Problem};
use std::alloc::AllocError;

/// A common change sets at most 512 statuses. Those of at most 200 cuts always may differ.
const MOST_OTHERS: usize = 312;

// Where a basis has its columns, rows and cuts.
#[derive(Drop)]
pub struct Statuses {
    pub columns: Items<Status>,
    pub rows: Items<Status>,
    pub cuts: Items<Status>,
}

// The description so far gets other statuses, if they are as many.
pub fn restate(problem: &Problem, parent: &Desc<Cut>, state: &mut State, statuses: Statuses)
    requires { IsOpen problem.now parent.now state.old }
    ensures { Moves problem.now parent.now state.old state.new }
{
    let desc = &state.work.desc;
    if statuses.columns.len() != desc.column_status.len()
        || statuses.rows.len() != desc.row_status.len()
        || statuses.cuts.len() != desc.cut_status.len()
    {
        return;
    }
    state.work.desc.column_status = statuses.columns;
    state.work.desc.row_status = statuses.rows;
    state.work.desc.cut_status = statuses.cuts;
}

// 1 for two statuses that differ, else 0.
fn unlike_count(old: Status, new: Status) -> usize
    ensures { result ≡ cond (same_status old new) 0 1 }
{
    if old == new { 0 } else { 1 }
}

// How many entries differ.
fn count_unlike(old: &[Status], new: &[Status]) -> usize
    requires { length new.now ≡ length old.now }
    ensures { result ≡ length (differences same_status old.now new.now) }
{
    let mut count = 0;
    for j in 0..old.len() {
        count += unlike_count(old[j], new[j]);
    }
    count
}

// Where too many statuses differ from the parent's, those of columns and rows become the
// parent's again.
pub fn settle(problem: &Problem, parent: &Desc<Cut>, work: &mut Working) -> Result<(), AllocError>
    requires node { IsNode problem.now parent.now }
    requires narrows { Narrows problem.now parent.now work.old }
    ensures few { OnOk result (HasFewStatuses parent.now work.new.desc) }
    ensures same { OnOk result (IsRestated work.old work.new) }
{
    let columns = count_unlike(
        parent.column_status.as_slice(),
        work.desc.column_status.as_slice(),
    );
    let rows = count_unlike(
        parent.row_status.as_slice(),
        work.desc.row_status.as_slice(),
    );
    if columns > MOST_OTHERS || rows > MOST_OTHERS - columns {
        let columns = parent.column_status.copy_all()?;
        let rows = parent.row_status.copy_all()?;
        work.desc.column_status = columns;
        work.desc.row_status = rows;
    }
    Ok(())
}
