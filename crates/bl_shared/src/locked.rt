//! The tree as the value of a lock.
ghost use Rattle.std.specs.Prelude.{◌≡◌, IfOk, OnErr};
ghost use Rattle.bl_journal.specs.declared.entry.Entry.TheVariants.{Back};
ghost use Rattle.bl_tree.specs.Views.{IsLegalTree, IsLeaseOf, IsPutFor, extended, put_entry};
ghost use Rattle.bl_tree.specs.Answers.{IsBorn, born_for, glance_for};
ghost use Rattle.bl_tree.specs.Calls.{Takes, Frees, Plans, Installs};
ghost use Rattle.bl_tree.specs.Jobs.{IsJobOf};

use bl_desc::Form;
use bl_journal::{Entry, Outcome, Settings};
use bl_problem::Problem;
use bl_tree::{Born, Freed, Glance, Job, Lease, Planned, SpentJob, Taken, Tree};
use bl_turn::Told;
use std::alloc::AllocError;

/// What no call changes of a tree: its problem and its settings. No value is ever made.
#[derive(Drop)]
pub struct TreeBase {
    pub problem: Problem,
    pub settings: Settings,
}

/// A tree under a lock. It stands for its history.
#[derive(Drop)]
pub struct LockedTree {
    pub tree: Tree,
}

impl Told for LockedTree {
    ghost use Rattle.bl_journal.specs.Legality.{seat_of};

    type Entry = Entry;

    type Base = TreeBase;

    ghost by = { seat_of };

    ghost told = { λ l. l.tree.history };

    ghost base = { λ l. record { problem = l.tree.problem; settings = l.tree.settings } };
}

// The tree's calls, each with the fact that the history is legal.
impl LockedTree {
    pub(crate) fn read(&self)
        ensures { IsLegalTree self.now.tree }
    {
        let _journal = self.tree.journal();
    }

    pub(crate) fn take(&mut self, seat: u32) -> Result<Taken, AllocError>
        ensures taken { IfOk result (λ t. Takes self.old.tree seat t self.new.tree) }
        ensures err { OnErr result (self.new ≡ self.old) }
        ensures before { IsLegalTree self.old.tree }
        ensures after { IsLegalTree self.new.tree }
    {
        self.read();
        let answer = self.tree.take(seat);
        self.read();
        answer
    }

    pub(crate) fn put(&mut self, seat: u32, lease: Lease, outcome: Outcome) -> Option<Born>
        requires { IsPutFor self.old.tree seat lease outcome }
        ensures entry { self.new.tree ≡ extended self.old.tree (put_entry seat lease.id outcome) }
        ensures born { result ≡ born_for self.old.tree outcome.next }
        ensures after { IsLegalTree self.new.tree }
    {
        let born = self.tree.put(seat, lease, outcome);
        self.read();
        born
    }

    pub(crate) fn back(&mut self, seat: u32, lease: Lease)
        requires { IsLeaseOf self.old.tree seat lease }
        ensures entry { self.new.tree ≡ extended self.old.tree (Back seat lease.id) }
        ensures after { IsLegalTree self.new.tree }
    {
        self.tree.back(seat, lease);
        self.read();
    }

    pub(crate) fn plan(&self, id: u32, form: Form) -> Result<Planned, AllocError>
        requires { IsBorn self.now.tree id }
        ensures planned { IfOk result (λ planned. Plans self.now.tree id form planned) }
        ensures legal { IsLegalTree self.now.tree }
    {
        self.read();
        self.tree.plan(id, form)
    }

    pub(crate) fn install(&mut self, seat: u32, job: Job) -> Result<SpentJob, AllocError>
        requires { IsJobOf self.old.tree job }
        ensures installed { IfOk result (λ answer.
            Installs self.old.tree seat job answer self.new.tree) }
        ensures err { OnErr result (self.new ≡ self.old) }
        ensures before { IsLegalTree self.old.tree }
        ensures after { IsLegalTree self.new.tree }
    {
        self.read();
        let answer = self.tree.install(seat, job);
        self.read();
        answer
    }

    pub(crate) fn free(&mut self, seat: u32) -> Result<Freed, AllocError>
        ensures freed { IfOk result (λ answer. Frees self.old.tree seat answer self.new.tree) }
        ensures err { OnErr result (self.new ≡ self.old) }
        ensures before { IsLegalTree self.old.tree }
        ensures after { IsLegalTree self.new.tree }
    {
        self.read();
        let answer = self.tree.free(seat);
        self.read();
        answer
    }

    pub(crate) fn glance(&self) -> Glance
        ensures glance { result ≡ glance_for self.now.tree }
        ensures legal { IsLegalTree self.now.tree }
    {
        self.read();
        self.tree.glance()
    }
}
