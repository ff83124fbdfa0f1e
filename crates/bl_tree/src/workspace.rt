//! A problem with the room for the bounds of one box.
ghost use Rattle.std.specs.Prelude.{◌≡◌, ◌<◌, ◌<ℤ◌, pos, slice_index_or, length, IfOk};
ghost use Rattle.bl_desc.specs.Changes.{Fits, changed};
ghost use Rattle.bl_journal.specs.Descriptions.{left_child, right_child};
ghost use Rattle.bl_tree.specs.Records.{box_has_point};
ghost use Rattle.bl_tree.specs.Chains.{IsApplicable, described_by};

use crate::bounds::{have_points, write_bounds};
use crate::root::{own_highs, own_lows};
use bl_desc::Change;
use bl_mods::{Items, Shared};
use bl_problem::{Cut, Problem};
use bl_rebuild::Chain;
use std::alloc::{AllocError, Global};
use std::marker::Model;
use std::sync::Arc;

/// A problem, and the room for the bounds of one box, so that a look at a box takes no memory.
/// Contracts see the problem.
#[derive(Drop)]
pub struct Workspace {
    problem: Shared<Problem>,
    // One entry per column. What they are says nothing.
    lows: Items<i64>,
    highs: Items<i64>,
}

impl Model for Workspace {
    ghost use Rattle.std.specs.Prelude.{◌≡◌, length};
    ghost use Rattle.bl_problem.specs.Program.{Program};

    ghost Value = { Program };

    ghost view = { λ w. w.problem };

    ghost invariant = { λ w. (length w.lows ≡ length w.problem.columns)
        × (length w.highs ≡ length w.problem.columns) };
}

impl Workspace {
    /// `AllocError` where there is no memory.
    pub fn new(alloc: Global, problem: Arc<Problem>) -> Result<Workspace, AllocError>
        ensures { IfOk result (λ w. w ≡ problem.value) }
    {
        let problem = Shared::from_arc(problem);
        let lows = own_lows(alloc, problem.get().columns())?;
        let highs = own_highs(alloc, problem.get().columns())?;
        Ok(Workspace {
            problem,
            lows,
            highs,
        })
    }

    /// The problem.
    pub fn get(&self) -> &Problem
        ensures { result.now ≡ self.now }
    {
        self.problem.get()
    }

    /// Whether the boxes of the two children have a point, where the node that a chain stands
    /// for is split after a change. Takes no memory.
    pub fn have_points(
        &mut self,
        chain: &Chain<Cut>,
        common: &Change<Cut>,
        column: usize,
        at: i64,
    ) -> (bool, bool)
        requires chain { IsApplicable chain.now }
        requires fits { Fits common.now (described_by chain.now) }
        requires width { length (described_by chain.now).lows ≡ length self.old.columns }
        requires column { column < length self.old.columns }
        requires below { at <ℤ slice_index_or (changed common.now (described_by chain.now)).highs
            column (pos 0) }
        ensures same { self.new ≡ self.old }
        ensures left { result.0 ≡ box_has_point
            (left_child (changed common.now (described_by chain.now)) column at) }
        ensures right { result.1 ≡ box_has_point
            (right_child (changed common.now (described_by chain.now)) column at) }
    {
        write_bounds(chain, &mut self.lows, &mut self.highs);
        have_points(&mut self.lows, &mut self.highs, common, column, at)
    }
}
