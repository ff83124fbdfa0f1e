//! The shared tree and its calls.
ghost use Rattle.std.specs.Prelude.{◌≡◌, ◌<◌, ◌≤◌, ◌++◌, ℕ, length, All, Contains, IfOk, IfErr};
ghost use Rattle.std.specs.Prelude.{OnErr};
ghost use Rattle.bl_turn.specs.Entries.{entries_by, FromOneTo, BeginsWith};
ghost use Rattle.bl_turn.specs.Views.{new_view, split_view, joined_view};
ghost use Rattle.bl_turn.specs.Seats.{view_of, number, base_of, given, seen, mine, ended};
ghost use Rattle.bl_journal.specs.Legality.{seat_of};
ghost use Rattle.bl_tree.specs.Views.{IsLegalTree, IsLeaseOf, IsPutFor};
ghost use Rattle.bl_tree.specs.Answers.{IsBorn};
ghost use Rattle.bl_tree.specs.Jobs.{IsJobOf};
ghost use Rattle.bl_shared.specs.Calls.{IsSeatOf, first_seat, tree_seen};
ghost use Rattle.bl_shared.specs.Calls.{TakesIn, PutsIn, BacksIn, PlansIn, InstallsIn, FreesIn};
ghost use Rattle.bl_shared.specs.Calls.{GlancesIn, LooksIn};

use crate::locked::LockedTree;
use bl_desc::Form;
use bl_journal::Outcome;
use bl_tree::laws::jobs_stay;
use bl_tree::{Born, Freed, Glance, Installed, Job, Lease, Planned, Taken, Tree};
use bl_turn::{NoMemory, Seat, Turn};
use std::alloc::{AllocError, Global};
use std::sync::Wait;

/// A seat at a shared tree, by which one thread calls it.
///
/// It has seen the tree's history up to and with its last call. A call's conditions are read at
/// what the seat has seen: others may have called since, and what held for the seat then holds
/// still.
pub type TreeSeat = Seat<LockedTree>;

/// A search tree that threads share.
///
/// Each call is one turn at the lock. It is the tree's call of its name, at the history that the
/// turn finds: what the seat had seen, and then entries of others. After it the seat has seen
/// that history and the call's own entry, if it has one. All turns fall into one legal history.
pub struct SharedTree {
    turn: Turn<LockedTree>,
}

impl SharedTree {
    /// Shares a tree, and gives its seat 0, which has seen the tree's history.
    ///
    /// `NoMemory` where there is no memory for the lock; the tree comes back in it.
    pub fn new(alloc: Global, tree: Tree) -> Result<(SharedTree, TreeSeat), NoMemory<Tree>>
        ensures seat { IfOk result (λ t. IsSeatOf t.0 t.1) }
        ensures view { IfOk result (λ t. view_of t.1 ≡ first_seat tree) }
        ensures legal { IsLegalTree tree }
        ensures err { IfErr result (λ n. n.value ≡ tree) }
    {
        let _journal = tree.journal();
        match Turn::new(alloc, LockedTree { tree }) {
            Ok((turn, seat)) => Ok((SharedTree { turn }, seat)),
            Err(NoMemory { value }) => {
                let LockedTree { tree } = value;
                Err(NoMemory { value: tree })
            }
        }
    }

    /// Gives one more seat, 64 at most. It has the next number, and has seen what seat 0 has.
    pub fn split(&self, seat: &mut TreeSeat) -> TreeSeat
        requires seat { IsSeatOf self.now seat.old }
        requires first { number seat.old ≡ 0 }
        requires room { given seat.old < 64 }
        ensures seat { IsSeatOf self.now seat.new }
        ensures view { view_of seat.new ≡ split_view (view_of seat.old) }
        ensures new_seat { IsSeatOf self.now result }
        ensures new_view { view_of result ≡ new_view seat_of (view_of seat.old) }
    {
        self.turn.split(seat)
    }

    /// Takes another seat into seat 0, which has then seen what either has, and keeps the other's
    /// number and entries.
    pub fn join(&self, seat: &mut TreeSeat, other: TreeSeat)
        requires seat { IsSeatOf self.now seat.old }
        requires first { number seat.old ≡ 0 }
        requires other { IsSeatOf self.now other }
        ensures seat { IsSeatOf self.now seat.new }
        ensures view { view_of seat.new ≡ joined_view (view_of seat.old) (view_of other) }
        ensures others { (es : _) × (seen seat.new ≡ seen seat.old ++ es)
            × FromOneTo seat_of (given seat.old) es }
        ensures met { BeginsWith (seen seat.new) (seen other) }
        ensures base { base_of seat.old ≡ base_of other }
        ensures own { entries_by seat_of 0 (seen seat.new) ≡ mine seat.new }
        ensures ended { All (λ p. entries_by seat_of p.0 (seen seat.new) ≡ p.1) (ended seat.new) }
    {
        self.turn.join(seat, other);
    }

    /// Ends the sharing, once seat 0 took in all seats that it gave, and hands the tree back.
    ///
    /// Its history is what seat 0 has seen. The entries of each number that had a seat are those
    /// that the seat made.
    pub fn close(self, seat: TreeSeat) -> Tree
        requires seat { IsSeatOf self seat }
        requires first { number seat ≡ 0 }
        requires all { length (ended seat) ≡ given seat }
        ensures tree { result ≡ tree_seen (view_of seat) }
        ensures legal { IsLegalTree result }
        ensures own { entries_by seat_of 0 (seen seat) ≡ mine seat }
        ensures ended { All (λ p. entries_by seat_of p.0 (seen seat) ≡ p.1) (ended seat) }
        ensures every { (n : ℕ) → 1 ≤ n → n ≤ given seat
            → Contains (ended seat) (n, entries_by seat_of n (seen seat)) }
    {
        let SharedTree { turn } = self;
        let LockedTree { tree } = turn.close(seat);
        tree
    }

    /// Takes the first live waiting node in the order.
    ///
    /// `AllocError` where there is no memory; the tree is then as it was.
    pub fn take<R: Wait>(&self, rt: &R, seat: &mut TreeSeat) -> Result<Taken, AllocError>
        requires seat { IsSeatOf self.now seat.old }
        ensures seat { IsSeatOf self.now seat.new }
        ensures taken { IfOk result (λ t. TakesIn (view_of seat.old) t (view_of seat.new)) }
        ensures err { OnErr result (LooksIn (view_of seat.old) (view_of seat.new)) }
    {
        self.take_with(rt, seat, false)
    }

    /// Takes as `take` does. Where that is answered Idle it sleeps before it answers, until some
    /// seat puts or gives back, if none did since. Call it where other threads have the nodes
    /// that are out, and take again after Idle.
    ///
    /// `AllocError` where there is no memory; the tree is then as it was.
    pub fn take_or_sleep<R: Wait>(&self, rt: &R, seat: &mut TreeSeat) -> Result<Taken, AllocError>
        requires seat { IsSeatOf self.now seat.old }
        ensures seat { IsSeatOf self.now seat.new }
        ensures taken { IfOk result (λ t. TakesIn (view_of seat.old) t (view_of seat.new)) }
        ensures err { OnErr result (LooksIn (view_of seat.old) (view_of seat.new)) }
    {
        self.take_with(rt, seat, true)
    }

    // Takes, and sleeps at Idle if that is wished.
    fn take_with<R: Wait>(
        &self,
        rt: &R,
        seat: &mut TreeSeat,
        sleeps: bool,
    ) -> Result<Taken, AllocError>
        requires seat { IsSeatOf self.now seat.old }
        ensures seat { IsSeatOf self.now seat.new }
        ensures taken { IfOk result (λ t. TakesIn (view_of seat.old) t (view_of seat.new)) }
        ensures err { OnErr result (LooksIn (view_of seat.old) (view_of seat.new)) }
    {
        let number = seat.number();
        let mut held = self.turn.enter(rt, seat);
        match held.value().take(number) {
            Ok(Taken::Node(lease)) => {
                held.commit();
                held.leave();
                Ok(Taken::Node(lease))
            }
            Ok(Taken::Idle) => {
                let count = held.look();
                held.leave();
                if sleeps {
                    self.turn.sleep(rt, count);
                }
                Ok(Taken::Idle)
            }
            Ok(Taken::Done) => {
                held.look();
                held.leave();
                Ok(Taken::Done)
            }
            Ok(Taken::Spent) => {
                held.look();
                held.leave();
                Ok(Taken::Spent)
            }
            Err(error) => {
                held.look();
                held.leave();
                Err(error)
            }
        }
    }

    /// Hands in the outcome of the work on a node, and tells which children were born.
    pub fn put<R: Wait>(
        &self,
        rt: &R,
        seat: &mut TreeSeat,
        lease: Lease,
        outcome: Outcome,
    ) -> Option<Born>
        requires seat { IsSeatOf self.now seat.old }
        requires fits { IsPutFor (tree_seen (view_of seat.old)) (number seat.old) lease outcome }
        ensures seat { IsSeatOf self.now seat.new }
        ensures put { PutsIn (view_of seat.old) lease outcome result (view_of seat.new) }
    {
        let number = seat.number();
        let mut held = self.turn.enter(rt, seat);
        held.value().read();
        let born = held.value().put(number, lease, outcome);
        held.commit();
        held.leave();
        self.turn.wake();
        born
    }

    /// Makes the node of the lease wait again.
    pub fn back<R: Wait>(&self, rt: &R, seat: &mut TreeSeat, lease: Lease)
        requires seat { IsSeatOf self.now seat.old }
        requires leased { IsLeaseOf (tree_seen (view_of seat.old)) (number seat.old) lease }
        ensures seat { IsSeatOf self.now seat.new }
        ensures back { BacksIn (view_of seat.old) lease (view_of seat.new) }
    {
        let number = seat.number();
        let mut held = self.turn.enter(rt, seat);
        held.value().read();
        held.value().back(number, lease);
        held.commit();
        held.leave();
        self.turn.wake();
    }

    /// Plans to store a node in another form. The plan is encoded without the lock, and what is
    /// made of it is installed: what either says of its node stays so, whatever is entered
    /// meanwhile.
    ///
    /// `AllocError` where there is no memory.
    pub fn plan<R: Wait>(
        &self,
        rt: &R,
        seat: &mut TreeSeat,
        id: u32,
        form: Form,
    ) -> Result<Planned, AllocError>
        requires seat { IsSeatOf self.now seat.old }
        requires born { IsBorn (tree_seen (view_of seat.old)) id }
        ensures seat { IsSeatOf self.now seat.new }
        ensures planned { IfOk result (λ planned.
            PlansIn (view_of seat.old) id form planned (view_of seat.new)) }
        ensures err { OnErr result (LooksIn (view_of seat.old) (view_of seat.new)) }
    {
        let mut held = self.turn.enter(rt, seat);
        match held.value().plan(id, form) {
            Ok(planned) => {
                held.look();
                held.leave();
                Ok(planned)
            }
            Err(error) => {
                held.look();
                held.leave();
                Err(error)
            }
        }
    }

    /// Stores a node as a job has it. The piece that is left over goes after the turn.
    ///
    /// `AllocError` where there is no memory; the tree is then as it was.
    pub fn install<R: Wait>(
        &self,
        rt: &R,
        seat: &mut TreeSeat,
        job: Job,
    ) -> Result<Installed, AllocError>
        requires seat { IsSeatOf self.now seat.old }
        requires job { IsJobOf (tree_seen (view_of seat.old)) job }
        ensures seat { IsSeatOf self.now seat.new }
        ensures installed { IfOk result (λ answer.
            InstallsIn (view_of seat.old) job answer (view_of seat.new)) }
        ensures err { OnErr result (LooksIn (view_of seat.old) (view_of seat.new)) }
    {
        jobs_stay();
        let number = seat.number();
        let mut held = self.turn.enter(rt, seat);
        match held.value().install(number, job) {
            Ok(spent) => match spent.installed() {
                Installed::Made => {
                    held.commit();
                    held.leave();
                    Ok(Installed::Made)
                }
                Installed::Same => {
                    held.look();
                    held.leave();
                    Ok(Installed::Same)
                }
                Installed::Gone => {
                    held.look();
                    held.leave();
                    Ok(Installed::Gone)
                }
            },
            Err(error) => {
                held.look();
                held.leave();
                Err(error)
            }
        }
    }

    /// Frees the least node that may be freed, and then each parent in turn as long as it may
    /// be. What was stored of them comes back with their numbers, so that it goes after the
    /// turn.
    ///
    /// `AllocError` where there is no memory; the tree is then as it was.
    pub fn free<R: Wait>(&self, rt: &R, seat: &mut TreeSeat) -> Result<Freed, AllocError>
        requires seat { IsSeatOf self.now seat.old }
        ensures seat { IsSeatOf self.now seat.new }
        ensures freed { IfOk result
            (λ answer. FreesIn (view_of seat.old) answer (view_of seat.new)) }
        ensures err { OnErr result (LooksIn (view_of seat.old) (view_of seat.new)) }
    {
        let number = seat.number();
        let mut held = self.turn.enter(rt, seat);
        match held.value().free(number) {
            Ok(Freed::Chain(nodes)) => {
                held.commit();
                held.leave();
                Ok(Freed::Chain(nodes))
            }
            Ok(Freed::Nothing) => {
                held.look();
                held.leave();
                Ok(Freed::Nothing)
            }
            Err(error) => {
                held.look();
                held.leave();
                Err(error)
            }
        }
    }

    /// The counts of the tree and its best value.
    pub fn glance<R: Wait>(&self, rt: &R, seat: &mut TreeSeat) -> Glance
        requires seat { IsSeatOf self.now seat.old }
        ensures seat { IsSeatOf self.now seat.new }
        ensures glance { GlancesIn (view_of seat.old) result (view_of seat.new) }
    {
        let mut held = self.turn.enter(rt, seat);
        let glance = held.value().glance();
        held.look();
        held.leave();
        glance
    }
}
