//! The entries of a journal, done again by the calls of a tree.
ghost use Rattle.std.specs.Prelude.{◌≡◌, ◌<◌, OnOk};
ghost use Rattle.bl_problem.specs.Program.{IsProgram};
ghost use Rattle.bl_journal.specs.declared.entry.Entry.TheVariants.{Take, Put, Back, Encode, Free};
ghost use Rattle.bl_journal.specs.Replies.{take_reply, gives};
ghost use Rattle.bl_journal.specs.States.{state_of};
ghost use Rattle.bl_journal.specs.declared.state.State.TheVariants.{Out as out};
ghost use Rattle.bl_journal.specs.Freeing.{IsFreeChain};
ghost use Rattle.bl_journal.specs.Legality.{IsAllowed, MayPut, MayEncode};
ghost use Rattle.bl_tree.specs.Views.{extended, past_of};
ghost use Rattle.bl_replay.specs.Leases.{HasLeases};

use crate::leases::{Leases, keep};
use crate::outcomes::outcome_again;
use bl_desc::Form;
use bl_journal::{Entry, Step};
use bl_mods::Items;
use bl_tree::laws::plans_make_jobs;
use bl_tree::{Freed, Installed, Planned, Taken, Tree, encode};
use std::alloc::{AllocError, Global};

// Takes a node again, and keeps its lease.
fn take_again(tree: &mut Tree, leases: &mut Leases, seat: u32, id: u32) -> Result<(), AllocError>
    requires held { HasLeases tree.old leases.old }
    requires allowed { take_reply tree.old.problem tree.old.settings (past_of tree.old) ≡ gives id }
    ensures entry { OnOk result (tree.new ≡ extended tree.old (Take seat id)) }
    ensures held { OnOk result (HasLeases tree.new leases.new) }
{
    let _journal = tree.journal();
    match tree.take(seat)? {
        Taken::Node(lease) => {
            keep(tree, leases, id, lease)?;
            Ok(())
        }
        Taken::Idle => unreachable!(),
        Taken::Done => unreachable!(),
        Taken::Spent => unreachable!(),
    }
}

// Puts the outcome of a node in again.
fn put_again(
    alloc: Global,
    tree: &mut Tree,
    leases: &mut Leases,
    span: u32,
    seat: u32,
    id: u32,
    found: &Option<Items<i64>>,
    low: i128,
    step: &Step,
) -> Result<(), AllocError>
    requires program { IsProgram tree.old.problem }
    requires span { tree.old.settings.span ≡ span }
    requires some_span { 0 < span }
    requires held { HasLeases tree.old leases.old }
    requires allowed { MayPut tree.old.problem tree.old.settings (past_of tree.old) seat id
        found.now low step.now }
    ensures entry { OnOk result
        (tree.new ≡ extended tree.old (Put seat id found.now low step.now)) }
    ensures held { OnOk result (HasLeases tree.new leases.new) }
{
    let _journal = tree.journal();
    let Some(held) = leases.get(&id) else {
        unreachable!()
    };
    let outcome = outcome_again(alloc, tree, span, seat, held, found, low, step)?;
    let Some(lease) = leases.remove(&id) else {
        unreachable!()
    };
    tree.put(seat, lease, outcome);
    Ok(())
}

// Gives a node back again.
fn back_again(tree: &mut Tree, leases: &mut Leases, seat: u32, id: u32)
    requires held { HasLeases tree.old leases.old }
    requires allowed { state_of (past_of tree.old) id ≡ out seat }
    ensures entry { tree.new ≡ extended tree.old (Back seat id) }
    ensures held { HasLeases tree.new leases.new }
{
    let _journal = tree.journal();
    let Some(lease) = leases.remove(&id) else {
        unreachable!()
    };
    tree.back(seat, lease);
}

// Stores a node in another form again.
fn encode_again(
    alloc: Global,
    tree: &mut Tree,
    leases: &Leases,
    seat: u32,
    id: u32,
    form: Form,
) -> Result<(), AllocError>
    requires held { HasLeases tree.old leases.now }
    requires allowed { MayEncode tree.old.problem tree.old.settings (past_of tree.old) id form }
    ensures entry { OnOk result (tree.new ≡ extended tree.old (Encode seat id form)) }
    ensures held { OnOk result (HasLeases tree.new leases.now) }
{
    plans_make_jobs();
    let _journal = tree.journal();
    let Planned::Chain(plan) = tree.plan(id, form)? else {
        unreachable!()
    };
    let job = encode(alloc, &plan)?;
    tree.install(seat, job)?;
    Ok(())
}

// Frees a chain of nodes again.
fn free_again(
    tree: &mut Tree,
    leases: &Leases,
    seat: u32,
    ids: &Items<u32>,
) -> Result<(), AllocError>
    requires held { HasLeases tree.old leases.now }
    requires allowed { IsFreeChain tree.old.problem tree.old.settings (past_of tree.old) ids.now }
    ensures entry { OnOk result (tree.new ≡ extended tree.old (Free seat ids.now)) }
    ensures held { OnOk result (HasLeases tree.new leases.now) }
{
    let _journal = tree.journal();
    tree.free(seat)?;
    Ok(())
}

/// Does an entry again that may come next. `AllocError` where there is no memory.
pub fn enter(
    alloc: Global,
    tree: &mut Tree,
    leases: &mut Leases,
    span: u32,
    entry: &Entry,
) -> Result<(), AllocError>
    requires program { IsProgram tree.old.problem }
    requires span { tree.old.settings.span ≡ span }
    requires some_span { 0 < span }
    requires held { HasLeases tree.old leases.old }
    requires allowed { IsAllowed tree.old.problem tree.old.settings (past_of tree.old) entry.now }
    ensures entry { OnOk result (tree.new ≡ extended tree.old entry.now) }
    ensures held { OnOk result (HasLeases tree.new leases.new) }
{
    match entry {
        Entry::Take { seat, id } => take_again(tree, leases, *seat, *id),
        Entry::Put {
            seat,
            id,
            found,
            low,
            next,
        } => put_again(alloc, tree, leases, span, *seat, *id, found, *low, next),
        Entry::Back { seat, id } => {
            back_again(tree, leases, *seat, *id);
            Ok(())
        }
        Entry::Encode { seat, id, form } => encode_again(alloc, tree, leases, *seat, *id, *form),
        Entry::Free { seat, ids } => free_again(tree, leases, *seat, ids),
    }
}
