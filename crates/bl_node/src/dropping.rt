// Cuts of the root that the last proposal leaves Basic are dropped: they have room to spare there.
ghost use Rattle.std.specs.Prelude.{◌≡◌, ◌+◌, ◌≤◌, ◌<◌, ◌^◌, length, All, IfOk, OnOk, false};
ghost use Rattle.bl_node.specs.Names.{AreNamed, AreNumbered, IsRenamedFrom, DropsCuts};
ghost use Rattle.bl_node.specs.Moves.{IsOpen, MovesBy};

use crate::state::State;
use bl_desc::{Desc, Status};
use bl_mods::{ItemId, Items, Shared};
use bl_problem::{Cut, Problem};
use std::alloc::{AllocError, Global};

// Cuts that aren't Basic, with their statuses, and how many they are.
#[derive(Drop)]
struct Tight {
    cuts: Items<Shared<Cut>>,
    statuses: Items<Status>,
    count: u32,
}

// The cut by another name.
fn renamed(alloc: Global, cut: &Cut, id: ItemId) -> Result<Shared<Cut>, AllocError>
    ensures { IfOk result (λ other. other ≡ record cut.now { id = id }) }
{
    let cut = Cut {
        id,
        terms: cut.terms.copy_all()?,
        right: cut.right,
    };
    Shared::new(alloc, cut)
}

// Those of the cuts that aren't Basic, numbered on from the serial number.
fn tight_cuts(
    alloc: Global,
    cuts: &[Shared<Cut>],
    statuses: &[Status],
    seat: u32,
    serial: u32,
) -> Result<Tight, AllocError>
    requires width { length statuses.now ≡ length cuts.now }
    requires room { serial + length cuts.now < 2 ^ 32 }
    ensures numbered { IfOk result (λ tight. AreNumbered seat serial tight.cuts) }
    ensures few { IfOk result (λ tight. length tight.cuts ≤ length cuts.now) }
    ensures from { IfOk result (λ tight. All (IsRenamedFrom cuts.now) tight.cuts) }
    ensures statuses { IfOk result (λ tight. length tight.statuses ≡ length tight.cuts) }
    ensures count { IfOk result (λ tight. tight.count ≡ length tight.cuts) }
{
    let mut tight = Tight {
        cuts: Items::with_room(alloc, cuts.len())?,
        statuses: Items::with_room(alloc, cuts.len())?,
        count: 0,
    };
    for at in 0..cuts.len() {
        if statuses[at] == Status::Basic {
            continue;
        }
        let id = ItemId {
            seat,
            serial: serial + tight.count,
        };
        let cut = renamed(alloc, cuts[at].get(), id)?;
        tight.cuts.push(cut)?;
        tight.statuses.push(statuses[at])?;
        tight.count += 1;
    }
    Ok(tight)
}

// At a node without cuts of its own, the new ones that are Basic are dropped, and the others are
// numbered on from the first serial number.
pub fn drop_basic(
    alloc: Global,
    problem: &Problem,
    parent: &Desc<Cut>,
    state: &mut State,
) -> Result<(), AllocError>
    requires within { IsOpen problem.now parent.now state.old }
    requires named { AreNamed parent.now state.old }
    requires room { state.old.limits.serial + state.old.limits.new_cuts < 2 ^ 32 }
    ensures { OnOk result
        (MovesBy (DropsCuts parent.now) problem.now parent.now state.old state.new) }
{
    if state.is_shut || !parent.cuts.is_empty() {
        return Ok(());
    }
    let desc = &state.work.desc;
    let tight = tight_cuts(
        alloc,
        desc.cuts.as_slice(),
        desc.cut_status.as_slice(),
        state.limits.seat,
        state.limits.serial,
    )?;
    state.work.desc.cuts = tight.cuts;
    state.work.desc.cut_status = tight.statuses;
    state.made = tight.count;
    Ok(())
}
