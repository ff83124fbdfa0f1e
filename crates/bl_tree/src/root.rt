//! The root of a tree.
ghost use Rattle.std.specs.Prelude.{◌≡◌, ◌≤◌, ◌++◌, replicate, take, length, IfOk};
ghost use Rattle.bl_problem.specs.Points.{lows_of, highs_of, own_lows, own_highs, trivial_bound_of};
ghost use Rattle.bl_journal.specs.Descriptions.{root_desc};
ghost use Rattle.bl_tree.specs.Records.{root_record};
ghost use Rattle.bl_desc.specs.declared.desc.Status.TheVariants.{AtLow};

use crate::record::Record;
use crate::search::has_point;
use bl_desc::{Desc, Piece, Status};
use bl_journal::State;
use bl_mods::{Items, Shared};
use bl_problem::{Column, Cut, Problem};
use std::alloc::{AllocError, Global};

/// The columns' own lows.
pub fn own_lows(alloc: Global, columns: &[Column]) -> Result<Items<i64>, AllocError>
    ensures { IfOk result (λ lows. lows ≡ lows_of columns.now) }
{
    let mut lows = Items::new(alloc);
    for column in columns {
        lows.push(column.low)?;
    }
    Ok(lows)
}

/// The columns' own highs.
pub fn own_highs(alloc: Global, columns: &[Column]) -> Result<Items<i64>, AllocError>
    ensures { IfOk result (λ highs. highs ≡ highs_of columns.now) }
{
    let mut highs = Items::new(alloc);
    for column in columns {
        highs.push(column.high)?;
    }
    Ok(highs)
}

/// So many statuses `AtLow`.
fn all_at_low(alloc: Global, count: usize) -> Result<Items<Status>, AllocError>
    ensures { IfOk result (λ list. list ≡ replicate count AtLow) }
{
    let mut list = Items::new(alloc);
    for _ in 0..count {
        list.push(Status::AtLow)?;
    }
    Ok(list)
}

/// The root's description: the problem's own bounds, no cut, and each status `AtLow`.
pub fn describe_root(alloc: Global, problem: &Problem) -> Result<Desc<Cut>, AllocError>
    ensures { IfOk result (λ desc. desc ≡ root_desc problem.now) }
{
    let columns = problem.columns();
    let rows = problem.rows();
    Ok(Desc {
        lows: own_lows(alloc, columns)?,
        highs: own_highs(alloc, columns)?,
        cuts: Items::new(alloc),
        column_status: all_at_low(alloc, columns.len())?,
        row_status: all_at_low(alloc, rows.len())?,
        cut_status: Items::new(alloc),
    })
}

/// The record of the root: it waits, and is stored whole.
pub fn root_record(low: i128, desc: Shared<Desc<Cut>>) -> Record
    ensures { result ≡ root_record low desc }
{
    let has_point = has_point(desc.get().lows.as_slice(), desc.get().highs.as_slice());
    Record {
        parent: None,
        children: None,
        depth: 0,
        low,
        stage: State::Waiting,
        has_point,
        piece: Some(Piece::Explicit(desc)),
    }
}

/// The root's low number: what its box alone gives.
pub fn root_low(problem: &Problem, desc: &Desc<Cut>) -> i128
    requires { desc.now ≡ root_desc problem.now }
    ensures { result ≡ trivial_bound_of problem.now (own_lows problem.now) (own_highs problem.now) }
{
    let _columns = problem.columns();
    problem.trivial_bound(desc.lows.as_slice(), desc.highs.as_slice())
}
