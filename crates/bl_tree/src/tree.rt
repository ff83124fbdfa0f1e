//! The tree over a plain list of records.
ghost use Rattle.std.specs.Prelude.{◌≡◌, ◌<◌, ◌≤◌, ◌+◌, [], OnErr, IfOk, IfSome, option_copied};
ghost use Rattle.bl_journal.specs.declared.entry.Entry.TheVariants.{Put};

use crate::answer::{Answer, Best, Born, Encoding, Freed, Glance, freed_nodes};
use crate::freeable::{add, add_if, add_two, first_to_go, refresh};
use crate::freeing::free_up;
use crate::incumbent::{Improved, answer_from, found_at, improve};
use crate::lease::{Lease, Taken, number_of, parts_of};
use crate::nodes::NodeStore;
use crate::numbers::copy_into;
use crate::plan::{Installed, Job, Plan, Planned, SpentJob, installed_as, spent_job};
use crate::queue::{first_if_open, first_open, join_children, join_if, key_of, leave};
use crate::record::{Record, new_record};
use crate::records::{make_room, store};
use crate::root::{describe_root, root_low, root_record};
use crate::search::{least_live, piece_of, weight_of_all};
use crate::workspace::Workspace;
use bl_desc::{Form, Piece};
use bl_journal::laws::descriptions_are_whole;
use bl_journal::{Entry, Journal, Next, Order, Outcome, Settings, State, Step};
use bl_mods::{Items, Shared};
use bl_pool::{Key, Pool};
use bl_problem::{Cut, Problem};
use bl_rebuild::Chain;
use std::alloc::{AllocError, Global};
use std::marker::Model;
use std::sync::Arc;

// The entry of a put.
fn put_of(seat: u32, id: u32, found: Option<Items<i64>>, low: i128, next: Step) -> Entry
    ensures { result ≡ Put seat id found low next }
{
    Entry::Put {
        seat,
        id,
        found,
        low,
        next,
    }
}

/// The search tree: its problem, its settings, its history, and what is kept of its nodes.
/// Contracts see the first three.
#[derive(Drop)]
pub struct Tree {
    problem: Workspace,
    settings: Settings,
    journal: Journal,
    kept: NodeStore,
}

impl Model for Tree {
    ghost use Rattle.bl_tree.specs.Views.{TreeView};

    ghost Value = { TreeView };

    ghost use Rattle.bl_tree.specs.Kept.{IsTree};

    ghost view = { λ t. record {
      problem = t.problem;
      settings = t.settings;
      history =
          t.journal.entries;
    } };

    ghost invariant = { IsTree };
}

impl Tree {
    ghost use Rattle.bl_tree.specs.Views.{IsLegalTree, IsLeaseOf, IsPutFor, extended, put_entry};
    ghost use Rattle.bl_tree.specs.Answers.{IsBorn, born_for, glance_for, stored_for, held_for};
    ghost use Rattle.bl_tree.specs.Answers.{found_if, verdict_of, verdict_for, encoding_for};
    ghost use Rattle.bl_tree.specs.Answers.{related_for, is_freed_if};
    ghost use Rattle.bl_tree.specs.Views.{past_of};
    ghost use Rattle.bl_journal.specs.States.{best_of, cutoff_for};
    ghost use Rattle.bl_journal.specs.Results.{IsTrueFor, live_ids, lows_of};
    ghost use Rattle.bl_tree.specs.Records.{least_if};
    ghost use Rattle.bl_journal.specs.declared.limits.TheConstants.{LARGEST_GAP, MOST_NODES};
    ghost use Rattle.bl_journal.specs.declared.limits.TheConstants.{MOST_SPAN};
    ghost use Rattle.std.specs.Prelude.{pos, ◌≤ℤ◌, false, Some};
    ghost use Rattle.bl_tree.specs.Calls.{Takes, Frees, IsPlanFor, Plans, Installs};
    ghost use Rattle.bl_tree.specs.Jobs.{IsJobOf};
    ghost use Rattle.bl_tree.specs.declared.answer.Encoding.TheVariants.{Open};
    ghost use Rattle.bl_desc.specs.declared.desc.Form.TheVariants.{Explicit, Relative};
    ghost use Rattle.bl_journal.specs.Births.{node_at};
    ghost use Rattle.bl_journal.specs.States.{is_spanned};
    ghost use Rattle.bl_tree.specs.Chains.{StandsFor};
    ghost use Rattle.bl_tree.specs.Views.{pieces_of};
    ghost use Rattle.bl_journal.specs.Pieces.{chain_of};
    ghost use Rattle.bl_journal.specs.Freeing.{first_freeable};
    ghost use Rattle.bl_journal.specs.Replies.{next_of};
    ghost use Rattle.bl_journal.specs.Descriptions.{full_of};
    ghost use Rattle.bl_journal.specs.States.{state_of};
    ghost use Rattle.bl_journal.specs.declared.state.State.TheVariants.{Freed as freed};
    ghost use Rattle.std.specs.Prelude.{◌≢◌};
    ghost use Rattle.bl_journal.specs.declared.entry.Entry.TheVariants.{Back};

    /// The history, which is legal.
    pub fn journal(&self) -> &Journal
        ensures entries { result.now.entries ≡ self.now.history }
        ensures legal { IsLegalTree self.now }
    {
        &self.journal
    }

    /// The tree of a problem before anything happened: its root waits.
    pub fn new(alloc: Global, problem: Arc<Problem>, settings: Settings) -> Result<Tree, AllocError>
        requires span { 0 < settings.span }
        requires short { settings.span ≤ MOST_SPAN }
        requires few { settings.nodes ≤ MOST_NODES }
        requires gap_some { pos 0 ≤ℤ settings.gap }
        requires gap_few { settings.gap ≤ℤ LARGEST_GAP }
        ensures { IfOk result (λ tree. tree
            ≡ record { problem = problem.value; settings = settings; history = [] }) }
    {
        let problem = Workspace::new(alloc, problem)?;
        let desc = describe_root(alloc, problem.get())?;
        let low = root_low(problem.get(), &desc);
        let mut records = Vec::new(alloc);
        let record = root_record(low, Shared::new(alloc, desc)?);
        let mut waiting = Pool::new(alloc, settings.order);
        waiting.reserve(1, 1)?;
        join_if(&mut waiting, key_of(0, &record), record.has_point);
        records.push(record)?;
        let mut candidates = Pool::new(alloc, Order::Best);
        candidates.reserve(1, 1)?;
        add(&mut candidates, 0);
        Ok(Tree {
            problem,
            settings,
            journal: Journal::new(alloc),
            kept: NodeStore {
                records,
                waiting,
                candidates,
                fell: false,
                outs: 0,
                used: 0,
                best: None,
                best_place: 0,
            },
        })
    }

    /// The history, which is legal, as a journal of its own.
    pub fn into_journal(self) -> Journal
        ensures entries { result.entries ≡ self.history }
        ensures legal { IsLegalTree self }
    {
        self.journal
    }

    /// What is stored of a node. None exactly where the node is not born, or freed.
    pub fn stored(&self, id: u32) -> Option<&Piece<Cut>>
        ensures { option_copied result ≡ stored_for self.now id }
    {
        piece_of(&self.kept.records, id as usize)
    }

    /// How many entries the stored pieces have.
    pub fn held(&self) -> u64
        ensures { result ≡ held_for self.now }
    {
        let _columns = self.problem.get().columns();
        weight_of_all(&self.kept.records)
    }

    // The best point that was found, if one was.
    fn incumbent(&self) -> Option<Best<'_>>
        ensures { found_if result ≡ best_of self.now.problem (past_of self.now) }
    {
        let value = self.kept.best?;
        found_at(self.journal.entries(), self.kept.best_place, value)
    }

    // The best value less the gap, if a point was found.
    fn cutoff(&self) -> Option<i128>
        ensures { result ≡ cutoff_for self.now.problem self.now.settings (past_of self.now) }
    {
        let _columns = self.problem.get().columns();
        let value = self.kept.best?;
        Some(value - self.settings.gap)
    }

    // The least low number of the live nodes. Where no node is out and the order is best first, the
    // pool's first key has it.
    fn least_low(&self) -> Option<i128>
        ensures { result ≡ least_if (lows_of self.now.problem (past_of self.now)
            (live_ids self.now.problem self.now.settings (past_of self.now))) }
    {
        let cutoff = self.cutoff();
        if self.kept.outs == 0 && self.settings.order == Order::Best {
            let key = first_if_open(&self.kept.waiting, cutoff)?;
            return Some(key.low);
        }
        least_live(&self.kept.records, cutoff)
    }

    /// What the search knows: the best point and whether it is optimal or within the gap, or
    /// that no point is feasible, or a bound.
    pub fn answer(&self) -> Answer<'_>
        ensures answer { verdict_of result ≡ verdict_for self.now }
        ensures means { IsTrueFor self.now.problem (verdict_of result) }
        ensures legal { IsLegalTree self.now }
    {
        let cutoff = self.cutoff();
        let least = self.least_low();
        answer_from(self.incumbent(), self.settings.gap, cutoff, least)
    }

    /// The numbers of the tree.
    pub fn glance(&self) -> Glance
        ensures { result ≡ glance_for self.now }
    {
        Glance {
            nodes: self.kept.records.len() as u32,
            used: self.kept.used,
            out: self.kept.outs,
            best: self.kept.best,
        }
    }

    // The first live waiting node in the order. The keys that come before its own go.
    fn next_live(&mut self) -> Option<u32>
        ensures next { result ≡ next_of self.old.problem self.old.settings (past_of self.old) }
        ensures same { self.new ≡ self.old }
    {
        let cutoff = self.cutoff();
        let key = first_open(&mut self.kept.waiting, cutoff)?;
        Some(key.id)
    }

    /// Hands out the first live waiting node in the order.
    pub fn take(&mut self, seat: u32) -> Result<Taken, AllocError>
        ensures taken { IfOk result (λ t. Takes self.old seat t self.new) }
        ensures err { OnErr result (self.new ≡ self.old) }
    {
        let Some(id) = self.next_live() else {
            if self.kept.outs > 0 {
                return Ok(Taken::Idle);
            }
            return Ok(Taken::Done);
        };
        if self.kept.used >= self.settings.nodes {
            return Ok(Taken::Spent);
        }
        let cutoff = self.cutoff();
        let chain = self.chain_to(id)?;
        // Room for this take, and for the put or the back of each lease.
        let leases = self.kept.outs as usize + 1;
        self.journal.reserve(leases + 1)?;
        make_room(
            &mut self.kept.records,
            &mut self.kept.waiting,
            &mut self.kept.candidates,
            leases,
        )?;
        let record = &mut self.kept.records[id as usize];
        let depth = record.depth;
        let low = record.low;
        record.stage = State::Out { seat };
        leave(&mut self.kept.waiting, id);
        self.kept.outs += 1;
        self.kept.used += 1;
        self.journal.push_reserved(Entry::Take { seat, id });
        Ok(Taken::Node(Lease {
            id,
            depth,
            low,
            cutoff,
            chain,
        }))
    }

    // The chain of pieces that stands for the description of a node that is not freed.
    fn chain_to(&self, id: u32) -> Result<Chain<Cut>, AllocError>
        requires born { IsBorn self.now id }
        requires stands { state_of (past_of self.now) id ≢ freed }
        ensures pieces { IfOk result (λ chain. pieces_of chain
            ≡ chain_of self.now.problem self.now.settings (past_of self.now) id) }
        ensures sound { IfOk result
            (λ chain. StandsFor chain (full_of self.now.problem (past_of self.now) id)) }
    {
        let record = &self.kept.records[id as usize];
        let Some(piece) = &record.piece else {
            unreachable!()
        };
        match piece {
            Piece::Explicit(desc) => Ok(Chain::begin(
                *self.kept.records.allocator(),
                desc.share()?,
            )),
            Piece::Relative(change) => {
                let Some(parent) = record.parent else {
                    unreachable!()
                };
                let mut chain = self.chain_to(parent)?;
                chain.push(change.share()?);
                Ok(chain)
            }
        }
    }

    /// Hands in the outcome of the work on a node.
    pub fn put(&mut self, seat: u32, lease: Lease, outcome: Outcome) -> Option<Born>
        requires { IsPutFor self.old seat lease outcome }
        ensures entry { self.new ≡ extended self.old (put_entry seat lease.id outcome) }
        ensures born { result ≡ born_for self.old outcome.next }
    {
        let (id, chain) = parts_of(lease);
        let Outcome { found, low, next } = outcome;
        let problem = self.problem.get();
        let now = self.journal.len();
        let Improved {
            value,
            place,
            better,
        } = improve(problem, self.kept.best, self.kept.best_place, &found, now);
        self.kept.best = value;
        self.kept.best_place = place;
        self.kept.fell |= better;
        self.kept.outs -= 1;
        add(&mut self.kept.candidates, id);
        match next {
            Next::Shut => {
                self.kept.records[id as usize].stage = State::Shut;
                self.journal
                    .push_reserved(put_of(seat, id, found, low, Step::Shut));
                None
            }
            Next::Split {
                common,
                column,
                at,
                left,
                right,
            } => {
                let (left_open, right_open) = self
                    .problem
                    .have_points(&chain, common.get(), column as usize, at);
                let count = self.kept.records.len() as u32;
                let parent = &mut self.kept.records[id as usize];
                parent.stage = State::Split;
                parent.children = Some(count);
                let depth = parent.depth + 1;
                let child_low = parent.low.max(low);
                self.kept
                    .records
                    .push_reserved(new_record(id, depth, child_low, left_open, left));
                self.kept
                    .records
                    .push_reserved(new_record(id, depth, child_low, right_open, right));
                let key = Key {
                    id: count,
                    low: child_low,
                    depth,
                };
                join_children(&mut self.kept.waiting, key, left_open, right_open);
                add_two(&mut self.kept.candidates, count);
                let step = Step::Split { common, column, at };
                self.journal
                    .push_reserved(put_of(seat, id, found, low, step));
                Some(Born {
                    left: count,
                    right: count + 1,
                })
            }
        }
    }

    /// Makes the node of the lease wait again.
    pub fn back(&mut self, seat: u32, lease: Lease)
        requires { IsLeaseOf self.old seat lease }
        ensures { self.new ≡ extended self.old (Back seat lease.id) }
    {
        let id = number_of(lease);
        let record = &mut self.kept.records[id as usize];
        record.stage = State::Waiting;
        join_if(&mut self.kept.waiting, key_of(id, record), record.has_point);
        add(&mut self.kept.candidates, id);
        self.kept.outs -= 1;
        self.kept.used -= 1;
        self.journal.push_reserved(Entry::Back { seat, id });
    }

    /// Lets a lease go, which is then not spent: the tree stays as it is, and the node stays out.
    pub fn let_go(&mut self, lease: Lease)
        ensures { self.new ≡ self.old }
    {
        number_of(lease);
    }

    // Whether the node is freed; not where there is none.
    fn is_gone(&self, id: Option<u32>) -> bool
        requires { IfSome id (IsBorn self.now) }
        ensures { result ≡ is_freed_if self.now id }
    {
        match id {
            Some(id) => self.kept.records[id as usize].is_gone(),
            None => false,
        }
    }

    // How a node stands to a form.
    fn encoding(&self, id: u32, form: Form) -> Encoding
        requires { IsBorn self.now id }
        ensures { result ≡ encoding_for self.now id form }
    {
        let record = &self.kept.records[id as usize];
        let Some(piece) = &record.piece else {
            return Encoding::Gone;
        };
        match piece {
            Piece::Explicit(_) => match form {
                Form::Explicit => Encoding::Same,
                Form::Relative => self.relating(id),
            },
            Piece::Relative(_) => match form {
                Form::Explicit => Encoding::Open,
                Form::Relative => Encoding::Same,
            },
        }
    }

    // How an explicit node stands to the relative form.
    fn relating(&self, id: u32) -> Encoding
        requires { IsBorn self.now id }
        ensures { result ≡ related_for self.now id }
    {
        let record = &self.kept.records[id as usize];
        if record.depth % self.settings.span == 0 {
            Encoding::Fixed
        } else if self.is_gone(record.parent) {
            Encoding::Gone
        } else {
            Encoding::Open
        }
    }

    // The plan to store a node whole.
    fn whole_plan(&self, id: u32) -> Result<Plan, AllocError>
        requires born { IsBorn self.now id }
        requires stands { state_of (past_of self.now) id ≢ freed }
        ensures { IfOk result (λ plan. IsPlanFor self.now id Explicit plan) }
    {
        let chain = self.chain_to(id)?;
        Ok(Plan {
            id,
            chain,
            above: None,
        })
    }

    // The plan to store a node relative to its parent.
    fn relative_plan(&self, id: u32, parent: u32) -> Result<Plan, AllocError>
        requires born { IsBorn self.now id }
        requires stands { state_of (past_of self.now) id ≢ freed }
        requires spanned { is_spanned self.now.problem self.now.settings (past_of self.now) id
            ≡ false }
        requires parent { (node_at self.now.problem (past_of self.now) id).parent ≡ Some parent }
        requires parent_stands { state_of (past_of self.now) parent ≢ freed }
        ensures { IfOk result (λ plan. IsPlanFor self.now id Relative plan) }
    {
        descriptions_are_whole();
        let _columns = self.problem.get().columns();
        let above = self.chain_to(parent)?;
        let chain = self.chain_to(id)?;
        Ok(Plan {
            id,
            chain,
            above: Some(above),
        })
    }

    // The plan to store a node in a form in which it may be stored.
    fn plan_for(&self, id: u32, form: Form) -> Result<Plan, AllocError>
        requires born { IsBorn self.now id }
        requires open { encoding_for self.now id form ≡ Open }
        ensures { IfOk result (λ plan. IsPlanFor self.now id form plan) }
    {
        match form {
            Form::Explicit => self.whole_plan(id),
            Form::Relative => {
                let Some(parent) = self.kept.records[id as usize].parent else {
                    unreachable!()
                };
                self.relative_plan(id, parent)
            }
        }
    }

    /// Plans to store a node that is born in another form. The plan shares the tree's pieces: it
    /// is encoded without the tree, and what is made of it is installed. `AllocError` where the
    /// count of owners of a piece can't grow.
    pub fn plan(&self, id: u32, form: Form) -> Result<Planned, AllocError>
        requires { IsBorn self.now id }
        ensures { IfOk result (λ planned. Plans self.now id form planned) }
    {
        match self.encoding(id, form) {
            Encoding::Gone => Ok(Planned::Gone),
            Encoding::Same => Ok(Planned::Same),
            Encoding::Fixed => Ok(Planned::Fixed),
            Encoding::Open => Ok(Planned::Chain(self.plan_for(id, form)?)),
        }
    }

    /// Stores a node as a job has it. The piece that is left over comes back with the answer.
    /// `AllocError` where there is no memory; the tree is then as it was.
    pub fn install(&mut self, seat: u32, job: Job) -> Result<SpentJob, AllocError>
        requires { IsJobOf self.old job }
        ensures installed { IfOk result (λ answer. Installs self.old seat job answer self.new) }
        ensures err { OnErr result (self.new ≡ self.old) }
    {
        let Job { id, form, piece } = job;
        let encoding = self.encoding(id, form);
        if encoding != Encoding::Open {
            return Ok(spent_job(installed_as(encoding), Some(piece)));
        }
        let outs = self.kept.outs as usize;
        self.journal.reserve(outs + 1)?;
        self.kept.candidates.reserve(3 * outs + 1, 0)?;
        let (parent, before) = store(&mut self.kept.records, id as usize, piece);
        add_if(&mut self.kept.candidates, parent);
        self.journal.push_reserved(Entry::Encode { seat, id, form });
        Ok(spent_job(Installed::Made, before))
    }

    // The least node that may be freed. The candidates before it go.
    fn next_to_go(&mut self) -> Result<Option<u32>, AllocError>
        ensures next { IfOk result (λ first. first
            ≡ first_freeable self.old.problem self.old.settings (past_of self.old)) }
        ensures same { self.new ≡ self.old }
    {
        let cutoff = self.cutoff();
        let room = 3 * self.kept.outs as usize;
        refresh(
            &mut self.kept.candidates,
            self.kept.fell,
            &self.kept.records,
            cutoff,
            room,
        )?;
        self.kept.fell = false;
        Ok(first_to_go(&mut self.kept.candidates, &self.kept.records, cutoff))
    }

    /// Frees the least node that may be freed, and then each parent in turn as long as it may
    /// be. What was stored of them comes back with their numbers. `Nothing` exactly where no
    /// node may be freed. `AllocError` where there is no memory; the tree is then as it was.
    pub fn free(&mut self, seat: u32) -> Result<Freed, AllocError>
        ensures freed { IfOk result (λ answer. Frees self.old seat answer self.new) }
        ensures err { OnErr result (self.new ≡ self.old) }
    {
        let least = self.next_to_go()?;
        let Some(first) = least else {
            return Ok(Freed::Nothing);
        };
        let cutoff = self.cutoff();
        let alloc = *self.kept.records.allocator();
        self.journal.reserve(self.kept.outs as usize + 1)?;
        let most = self.kept.records[first as usize].depth as usize + 1;
        let mut ids = Vec::with_capacity(alloc, most)?;
        let mut chain = Vec::with_capacity(alloc, most)?;
        let mut pieces = Vec::with_capacity(alloc, most)?;
        free_up(&mut self.kept.records, cutoff, first, &mut ids, &mut pieces);
        ids.shrink_to_fit();
        copy_into(&ids, &mut chain);
        leave(&mut self.kept.waiting, first);
        let ids = Items::from_vec(ids);
        self.journal.push_reserved(Entry::Free { seat, ids });
        Ok(Freed::Chain(freed_nodes(chain, pieces)))
    }
}
