//! The lock.
ghost use Rattle.std.specs.Prelude.{◌≡◌, ◌≢◌, ◌<◌, ◌≤◌, ℕ, [], ◌∷◌, IfOk, IfErr};
ghost use Rattle.bl_turn.specs.declared.view.Slot.TheVariants.{Home};

use crate::held::Held;
use crate::rule::{Board, Enter, Give, Leave, Look, Meet, Show};
use crate::seat::Seat;
use crate::told::Told;
use crate::view::Slot;
use atomic_table::{Refused, Table};
use std::alloc::{AllocFailed, Global};
use std::hint::spin_loop;
use std::snapshot::Snapshot;
use std::sync::Wait;
use std::sync::atomic::AtomicU64;
use std::sync::atomic::Ordering::SeqCst;

// The word that is 1 while a seat has the turn, and else 0.
const BUSY: usize = 0;

// The word that counts the entries since the lock was made.
const COUNT: usize = 1;

// The lock's one slot, where the value is while no seat has the turn.
const HOME: usize = 0;

// How often a seat looks at a turn that another has before it sleeps: a few microseconds in all,
// within which a short turn ends.
const LOOKS: u32 = 400;

/// A lock round a value that stands for a list of entries. Seats take turns at it.
///
/// It cannot be dropped: `close` ends it and hands the value back.
pub struct Turn<V: Told> {
    board: Board<V>,
    // How many seats sleep until the turn is free, or are about to.
    waiting: AtomicU64,
    // How many threads sleep until an entry comes, or are about to.
    pub(crate) asleep: AtomicU64,
    ghost sized: { (board.shared.table_id.words ≡ 2) × (board.shared.table_id.slots ≡ 1) },
}

/// There was no memory for a lock, and this is the value that it was to keep.
#[derive(Drop)]
pub struct NoMemory<V> {
    pub value: V,
}

fn taken<V>(slot: Slot<V>) -> V
    requires { (x : _) × (slot ≡ Home x) }
    ensures { slot ≡ Home result }
{
    match slot {
        Slot::Home(value) => value,
        Slot::Out => unreachable!(),
        Slot::Noted(_) => unreachable!(),
    }
}

// Lets a slot go that has no value.
fn discard<V>(slot: Slot<V>)
    requires { (x : _) → slot ≢ Home x }
{
    match slot {
        Slot::Home(_value) => unreachable!(),
        Slot::Out => {}
        Slot::Noted(_) => {}
    }
}

fn one_slot<V>(alloc: Global, value: V) -> Result<Vec<Slot<V>>, NoMemory<V>>
    ensures ok { IfOk result (λ v. v.items ≡ Home value ∷ []) }
    ensures err { IfErr result (λ n. n.value ≡ value) }
{
    let mut slots = Vec::new(alloc);
    match slots.push(Slot::Home(value)) {
        Ok(()) => Ok(slots),
        Err(AllocFailed { value }) => {
            slots.destroy_empty();
            Err(NoMemory {
                value: taken(value),
            })
        }
    }
}

fn value_back<V>(mut slots: Vec<Slot<V>>, note: &Snapshot<V>) -> V
    requires { slots.items ≡ Home note.now.value ∷ [] }
    ensures { result ≡ note.now.value }
{
    let value = slots.pop().unwrap();
    slots.destroy_empty();
    taken(value)
}

impl<V: Told> Turn<V> {
    ghost use Rattle.std.specs.Prelude.{◌+◌, ◌-◌, ◌%◌, ◌^◌, ◌++◌, length, All, Contains, Some};
    ghost use Rattle.bl_turn.specs.declared.view.Slot.TheVariants.{Out, Noted};
    ghost use Rattle.bl_turn.specs.declared.view.Stage.TheVariants.{In, Shown};
    ghost use Rattle.bl_turn.specs.Entries.{entries_by, FromOneTo, BeginsWith};
    ghost use Rattle.bl_turn.specs.Views.{first_view, split_view, new_view, joined_view, GoesOn};
    ghost use Rattle.bl_turn.specs.Accounts.{after_enter, after_show};
    ghost use Rattle.bl_turn.specs.Plays.{Tries};
    ghost use Rattle.bl_turn.specs.Seats.{view_of, number, base_of, seen, mine, given, ended};
    ghost use Rattle.bl_turn.specs.Seats.{length_at_start, IsOf, SameLock, IsAway};
    ghost use Rattle.bl_turn.specs.Turns.{seat_of, value_of, history, IsIn, IsTurnOf};

    /// Makes a lock round the value, and its seat 0, which has seen the value's list.
    ///
    /// Where there is no memory the value comes back.
    pub fn new(alloc: Global, value: V) -> Result<(Turn<V>, Seat<V>), NoMemory<V>>
        ensures seat { IfOk result (λ t. IsOf t.0 t.1 × IsAway t.1) }
        ensures view { IfOk result
            (λ t. view_of t.1 ≡ first_view V.by (V.told value) (V.base value)) }
        ensures start { IfOk result (λ t. length_at_start t.1 ≡ length (V.told value)) }
        ensures err { IfErr result (λ n. n.value ≡ value) }
    {
        let note = Snapshot::of(&value);
        let slots = one_slot(alloc, value)?;
        match Table::new(alloc, &[0, 0], slots, &note) {
            Ok((board, place)) => Ok((
                Turn {
                    board,
                    waiting: AtomicU64::new(0),
                    asleep: AtomicU64::new(0),
                },
                Seat {
                    place,
                    number: 0,
                    given: 0,
                },
            )),
            Err(Refused { slots }) => Err(NoMemory {
                value: value_back(slots, &note),
            }),
        }
    }

    /// Gives one more seat, 64 at most. It has the next number, and has seen what seat 0 has.
    pub fn split(&self, seat: &mut Seat<V>) -> Seat<V>
        requires seat { IsOf self.now seat.old × IsAway seat.old }
        requires first { number seat.old ≡ 0 }
        requires room { given seat.old < 64 }
        ensures seat { IsOf self.now seat.new × IsAway seat.new }
        ensures view { view_of seat.new ≡ split_view (view_of seat.old) }
        ensures new_seat { IsOf self.now result × IsAway result }
        ensures new_view { view_of result ≡ new_view V.by (view_of seat.old) }
    {
        let place = self.board.shared.split_seat::<Give<V>>(&mut seat.place);
        seat.given += 1;
        Seat {
            place,
            number: seat.given,
            given: 0,
        }
    }

    /// Waits until no other seat has the turn, and takes it. The value then stands for the whole
    /// history.
    ///
    /// It first looks for a while whether the turn is free, and then sleeps until a seat leaves.
    pub fn enter<'a, R: Wait>(&'a self, rt: &R, seat: &'a mut Seat<V>) -> Held<'a, V>
        requires seat { IsOf self.now seat.old × IsAway seat.old }
        ensures borrow { IsTurnOf seat.entry result }
        ensures turn { IsIn result × SameLock seat.old (seat_of result) }
        ensures view { view_of (seat_of result) ≡ view_of seat.old }
        ensures value { history result ≡ V.told (value_of result) }
        ensures base { base_of seat.old ≡ Some (V.base (value_of result)) }
        ensures history { GoesOn V.by (view_of seat.old) (history result) }
    {
        let value = self.lock(rt, seat);
        Held {
            seat,
            turn: self,
            value,
        }
    }

    /// Takes another seat into seat 0, which has then seen what either has, and keeps the
    /// other's entries.
    pub fn join(&self, seat: &mut Seat<V>, other: Seat<V>)
        requires seat { IsOf self.now seat.old × IsAway seat.old }
        requires first { number seat.old ≡ 0 }
        requires other { IsOf self.now other × IsAway other }
        ensures seat { IsOf self.now seat.new × IsAway seat.new }
        ensures view { view_of seat.new ≡ joined_view (view_of seat.old) (view_of other) }
        ensures others { (es : _) × (seen seat.new ≡ seen seat.old ++ es)
            × FromOneTo V.by (given seat.old) es }
        ensures met { BeginsWith (seen seat.new) (seen other) }
        ensures base { base_of seat.old ≡ base_of other }
        ensures own { entries_by V.by 0 (seen seat.new) ≡ mine seat.new }
        ensures ended { All (λ p. entries_by V.by p.0 (seen seat.new) ≡ p.1) (ended seat.new) }
    {
        let shared = &self.board.shared;
        let Seat {
            place,
            number: _,
            given: _,
        } = other;
        shared.load::<Look<V>>(&mut seat.place, BUSY);
        shared.join_seat::<Meet<V>>(&mut seat.place, place);
        shared.load::<Look<V>>(&mut seat.place, BUSY);
    }

    /// Sleeps until `wake` is called, if no entry was committed since the `look` that answered
    /// this count. Where one was it returns at once. It may also return for no reason, so look
    /// again after it. It changes nothing. Leave the turn first: the others wait for it.
    ///
    /// No wake-up is lost where each thread that commits an entry calls `wake` after it, since
    /// every step is sequentially consistent. A thread that sleeps is first counted, and then
    /// the system reads the count of entries and lets it sleep if that is still the same. A
    /// commit first adds to the count of entries, and then `wake` reads how many sleep. So
    /// either `wake` finds that some do and wakes all, or the new count keeps the thread awake.
    /// The count is taken modulo 2^32: so many entries between a look and a sleep are not seen.
    pub fn sleep<R: Wait>(&self, rt: &R, count: u32) {
        self.asleep.fetch_add(1, SeqCst);
        self.board.shared.park(rt, COUNT, count);
        self.asleep.fetch_sub(1, SeqCst);
    }

    /// Wakes all threads that sleep until an entry comes, by a call of the system that is left
    /// out where none does. It changes nothing. Call it after a commit, best once the turn has
    /// ended.
    pub fn wake(&self) {
        if self.asleep.load(SeqCst) != 0 {
            self.board.shared.wake_all(COUNT);
        }
    }

    /// Ends the lock, once seat 0 took in all seats that it gave, and hands the value back.
    pub fn close(self, seat: Seat<V>) -> V
        requires seat { IsOf self seat × IsAway seat }
        requires first { number seat ≡ 0 }
        requires all { length (ended seat) ≡ given seat }
        ensures base { base_of seat ≡ Some (V.base result) }
        ensures seen { V.told result ≡ seen seat }
        ensures own { entries_by V.by 0 (V.told result) ≡ mine seat }
        ensures ended { All (λ p. entries_by V.by p.0 (V.told result) ≡ p.1) (ended seat) }
        ensures every { (n : ℕ) → 1 ≤ n → n ≤ given seat
            → Contains (ended seat) (n, entries_by V.by n (V.told result)) }
    {
        let Turn {
            board,
            waiting: _,
            asleep: _,
        } = self;
        let Seat {
            place,
            number: _,
            given: _,
        } = seat;
        let mut closed = board.close_with(place);
        let slot = closed.take(HOME);
        closed.free();
        taken(slot)
    }

    // Waits for the turn, and takes the value out of the slot.
    pub(crate) fn lock<R: Wait>(&self, rt: &R, seat: &mut Seat<V>) -> V
        requires seat { IsOf self.now seat.old × IsAway seat.old }
        ensures seat { IsOf self.now seat.new }
        ensures turn { seat.new.place.me
            ≡ (after_enter seat.old.place.me.0 (V.told result), (0, Out) ∷ []) }
        ensures base { base_of seat.old ≡ Some (V.base result) }
        ensures history { GoesOn V.by (view_of seat.old) (V.told result) }
    {
        for _ in rt.forever() {
            if self.try_or_wait(rt, seat) {
                return taken(self.board.shared.exchange(&mut seat.place, HOME, Slot::Out));
            }
        }
        unreachable!()
    }

    // Tries to take the turn. Where another seat has it, it waits until it may be worth another
    // call.
    //
    // No wake-up is lost, since every step is sequentially consistent. A seat that will sleep
    // first adds itself to `waiting`, then tries once more, and only then asks the system to let
    // it sleep while busy is 1. A seat that leaves first stores 0 in busy, and then reads
    // `waiting`. If it reads a number that the other is not yet in, the other's try comes after
    // its store, so that it finds busy 0, or 1 from a later turn, whose seat leaves later and
    // then reads that number. If the other is in it, one sleeper is woken, or the other is not
    // asleep yet: then the system finds that busy is not 1 and lets it go on, or that it is 1
    // from a later turn. A seat that is woken takes itself off `waiting`, and adds itself again
    // before it sleeps again.
    fn try_or_wait<R: Wait>(&self, rt: &R, seat: &mut Seat<V>) -> bool
        requires seat { IsOf self.now seat.old × IsAway seat.old }
        ensures seat { IsOf self.now seat.new }
        ensures tried { Tries V.by V.told V.base seat.old.place.me result seat.new.place.me }
    {
        if self.try_once(seat) {
            return true;
        }
        if self.is_free_soon() {
            return false;
        }
        self.waiting.fetch_add(1, SeqCst);
        let took = self.try_once(seat);
        if !took {
            self.board.shared.park(rt, BUSY, 1);
        }
        self.waiting.fetch_sub(1, SeqCst);
        took
    }

    // Tries to take the turn.
    fn try_once(&self, seat: &mut Seat<V>) -> bool
        requires seat { IsOf self.now seat.old × IsAway seat.old }
        ensures seat { IsOf self.now seat.new }
        ensures tried { Tries V.by V.told V.base seat.old.place.me result seat.new.place.me }
    {
        let shared = &self.board.shared;
        shared.compare_exchange::<Enter<V>>(&mut seat.place, BUSY, 0, 1) == 0
    }

    // Looks until the turn is free, but not for long.
    fn is_free_soon(&self) -> bool {
        for _ in 0..LOOKS {
            if self.board.shared.peek(BUSY) == 0 {
                return true;
            }
            spin_loop();
        }
        false
    }

    // Notes the value in the slot, adds to the count of entries, and answers the low 32 bits
    // that the count had.
    pub(crate) fn show(&self, seat: &mut Seat<V>, value: &V, add: u64) -> u32
        requires seat { IsOf self.now seat.old }
        requires turn { (seat.old.place.me.0.stage ≡ In) × (seat.old.place.me.1 ≡ (0, Out) ∷ []) }
        requires list { (es : _) × (V.told value.now ≡ seat.old.place.me.0.found ++ es)
            × All (λ e. V.by e ≡ number seat.old) es × (length es ≡ add) }
        ensures seat { IsOf self.now seat.new }
        ensures turn { (seat.new.place.me.0
            ≡ after_show V.by seat.old.place.me.0 (V.told value.now))
            × ((n : _) × (seat.new.place.me.1 ≡ (0, Noted n) ∷ [])) }
        ensures history { GoesOn V.by (view_of seat.old) seat.old.place.me.0.found }
        ensures count { result ≡ (length seat.old.place.me.0.found - seat.old.place.me.0.first) %
            2 ^ 32 }
    {
        let shared = &self.board.shared;
        discard(shared.exchange(&mut seat.place, HOME, Slot::Noted(Snapshot::of(value))));
        let found = shared.fetch_add::<Show<V>>(&mut seat.place, COUNT, add);
        (found % (1 << 32)) as u32
    }

    // Puts the value into the slot, and gives the turn back.
    pub(crate) fn unlock(&self, seat: &mut Seat<V>, value: V)
        requires seat { IsOf self.now seat.old }
        requires turn { (seat.old.place.me.0.stage ≡ Shown)
            × ((n : _) × (seat.old.place.me.1 ≡ (0, Noted n) ∷ [])) }
        requires same { V.told value ≡ seen seat.old }
        requires base { base_of seat.old ≡ Some (V.base value) }
        ensures seat { IsOf self.now seat.new × IsAway seat.new }
        ensures view { view_of seat.new ≡ view_of seat.old }
    {
        let shared = &self.board.shared;
        discard(shared.exchange(&mut seat.place, HOME, Slot::Home(value)));
        shared.store::<Leave<V>>(&mut seat.place, BUSY, 0);
        if self.waiting.load(SeqCst) != 0 {
            shared.wake_one(BUSY);
        }
    }
}
