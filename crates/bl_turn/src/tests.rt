//! A list of entries under the lock, in turns of one thread and in threads, some of which sleep.
ghost use Rattle.std.specs.Prelude.{◌≡◌, ◌+◌, [], ◌∷◌, ◌++◌, length, vec_len, All, IfOk, OnErr};
ghost use Rattle.bl_turn.specs.Seats.{number, given, ended, IsOf, IsAway};

use crate::seat::Seat;
use crate::told::Told;
use crate::turn::Turn;
use std::alloc::{AllocError, AllocFailed, Global};
use std::process::Abort;
use std::sync::Wait;
use std::sync::atomic::Ordering::SeqCst;
use std::thread;
use std::thread::Threads;

#[derive(Clone, Copy, Debug, PartialEq, Eq)]
struct Entry {
    seat: u32,
    n: u32,
}

#[derive(Drop)]
struct Log {
    name: u32,
    entries: Vec<Entry>,
}

impl Told for Log {
    type Entry = Entry;

    type Base = u32;

    ghost by = { λ e. e.seat };

    ghost told = { λ l. l.entries.items };

    ghost base = { λ l. l.name };
}

impl Log {
    fn add(&mut self, seat: u32, n: u32) -> Result<(), AllocError>
        ensures ok { IfOk result (λ _. self.new.entries.items
            ≡ self.old.entries.items ++ record { seat = seat; n = n } ∷ []) }
        ensures err { OnErr result (self.new.entries.items ≡ self.old.entries.items) }
        ensures name { self.new.name ≡ self.old.name }
    {
        match self.entries.push(Entry { seat, n }) {
            Ok(()) => Ok(()),
            Err(AllocFailed { value: _ }) => Err(AllocError),
        }
    }
}

// A turn that adds an entry where there is memory, and else only looks.
fn note<R: Wait>(rt: &R, turn: &Turn<Log>, seat: &mut Seat<Log>, n: u32) -> Result<(), AllocError>
    requires seat { IsOf turn.now seat.old × IsAway seat.old }
    ensures seat { IsOf turn.now seat.new × IsAway seat.new }
    ensures number { number seat.new ≡ number seat.old }
    ensures kept { (given seat.new ≡ given seat.old) × (ended seat.new ≡ ended seat.old) }
{
    let number = seat.number();
    let mut held = turn.enter(rt, seat);
    match held.value().add(number, n) {
        Ok(()) => {
            held.commit();
            held.leave();
            Ok(())
        }
        Err(failed) => {
            held.look();
            held.leave();
            Err(failed)
        }
    }
}

// A turn that looks, counts the entries, and answers what `sleep` takes too.
fn count<R: Wait>(rt: &R, turn: &Turn<Log>, seat: &mut Seat<Log>) -> (usize, u32)
    requires seat { IsOf turn.now seat.old × IsAway seat.old }
    ensures seat { IsOf turn.now seat.new × IsAway seat.new }
    ensures number { number seat.new ≡ number seat.old }
    ensures kept { (given seat.new ≡ given seat.old) × (ended seat.new ≡ ended seat.old) }
{
    let mut held = turn.enter(rt, seat);
    let count = held.value().entries.len();
    let low = held.look();
    held.leave();
    (count, low)
}

// A turn that adds an entry, or finds so many.
fn take_turn<R: Wait + Abort>(
    rt: &R,
    turn: &Turn<Log>,
    seat: &mut Seat<Log>,
    adds: Option<u32>,
    so_far: usize,
)
    requires seat { IsOf turn.now seat.old × IsAway seat.old }
    ensures seat { IsOf turn.now seat.new × IsAway seat.new }
    ensures number { number seat.new ≡ number seat.old }
    ensures kept { (given seat.new ≡ given seat.old) × (ended seat.new ≡ ended seat.old) }
{
    match adds {
        Some(n) => assert!(rt; note(rt, turn, seat, n).is_ok(), "memory"),
        None => assert_eq!(rt; count(rt, turn, seat).0, so_far),
    }
}

fn lock<R: Abort>(rt: &R, alloc: Global) -> (Turn<Log>, Seat<Log>)
    ensures seat { IsOf result.0 result.1 × IsAway result.1 }
    ensures view { (number result.1 ≡ 0) × (given result.1 ≡ 0) × (ended result.1 ≡ []) }
{
    let log = Log {
        name: 7,
        entries: Vec::new(alloc),
    };
    let Ok(made) = Turn::new(alloc, log) else {
        panic!(rt; "memory")
    };
    made
}

// The log after these turns: who has the turn, and the entry that it adds or none.
fn log_after<R: Wait + Abort>(rt: &R, alloc: Global, turns: &[(u32, Option<u32>)]) -> Log {
    let (turn, mut first) = lock(rt, alloc);
    let mut one = turn.split(&mut first);
    let mut two = turn.split(&mut first);
    assert_eq!(rt; (one.number(), two.number(), first.given()), (1, 2, 2));
    let mut so_far = 0;
    for &(who, adds) in turns {
        match who {
            0 => take_turn(rt, &turn, &mut first, adds, so_far),
            1 => take_turn(rt, &turn, &mut one, adds, so_far),
            _ => take_turn(rt, &turn, &mut two, adds, so_far),
        }
        so_far += usize::from(adds.is_some());
    }
    turn.join(&mut first, two);
    turn.join(&mut first, one);
    turn.close(first)
}

#[test]
fn turns_stand_in_their_order(rt: HostRuntime) {
    let table: [&[(u32, Option<u32>)]; 3] = [
        &[],
        &[(1, Some(5))],
        &[
            (0, Some(1)),
            (2, Some(2)),
            (1, None),
            (1, Some(3)),
            (2, None),
            (2, Some(4)),
            (0, None),
        ],
    ];
    for turns in table {
        let log = log_after(&rt, rt.alloc(), turns);
        let mut entries = log.entries.iter();
        for &(seat, adds) in turns {
            if let Some(n) = adds {
                assert_eq!(rt; entries.next(), Some(&Entry { seat, n }));
            }
        }
        assert_eq!(rt; entries.next(), None);
        assert_eq!(rt; log.name, 7);
    }
}

const THREADS: usize = 4;

const EACH: u32 = 100_000;

// Adds so many entries, with the numbers from 0.
fn note_all<R: Wait + Abort>(rt: &R, turn: &Turn<Log>, seat: &mut Seat<Log>)
    requires seat { IsOf turn.now seat.old × IsAway seat.old }
    ensures seat { IsOf turn.now seat.new × IsAway seat.new }
{
    for n in 0..EACH {
        assert!(rt; note(rt, turn, seat, n).is_ok(), "memory");
    }
}

fn split_all<R: Abort>(
    rt: &R,
    alloc: Global,
    turn: &Turn<Log>,
    first: &mut Seat<Log>,
) -> Vec<Seat<Log>>
    requires seat { IsOf turn.now first.old × IsAway first.old }
    requires view { (number first.old ≡ 0) × (given first.old ≡ 0) × (ended first.old ≡ []) }
    ensures seat { IsOf turn.now first.new × IsAway first.new }
    ensures view { (number first.new ≡ 0) × (given first.new ≡ vec_len result)
        × (ended first.new ≡ []) }
    ensures seats { All (λ s. IsOf turn.now s × IsAway s) result.items }
{
    let mut seats = Vec::new(alloc);
    'seats: while seats.len() < THREADS {
        assert!(rt; seats.push(turn.split(first)).is_ok(), "memory");
    }
    seats
}

fn work<R: Threads + Wait + Abort + Sync>(rt: &R, turn: &Turn<Log>, seats: &mut [Seat<Log>])
    requires seats { All (λ s. IsOf turn.now s × IsAway s) seats.old }
    ensures seats { All (λ s. IsOf turn.now s × IsAway s) seats.new }
    ensures count { length seats.new ≡ length seats.old }
{
    thread::for_each_mut(rt, seats, THREADS, &|_, seat| note_all(rt, turn, seat));
}

// Takes turns and sleeps between them, until there is an entry.
fn await_entry<R: Wait>(rt: &R, turn: &Turn<Log>, seat: &mut Seat<Log>)
    requires seat { IsOf turn.now seat.old × IsAway seat.old }
    ensures seat { IsOf turn.now seat.new × IsAway seat.new }
{
    for _ in rt.forever() {
        let (entries, low) = count(rt, turn, seat);
        if entries != 0 {
            return;
        }
        turn.sleep(rt, low);
    }
    unreachable!()
}

// Adds an entry once so many threads sleep, and wakes them.
fn wake_others<R: Wait + Abort>(rt: &R, turn: &Turn<Log>, seat: &mut Seat<Log>, others: u64)
    requires seat { IsOf turn.now seat.old × IsAway seat.old }
    ensures seat { IsOf turn.now seat.new × IsAway seat.new }
{
    for _ in rt.forever() {
        if turn.asleep.load(SeqCst) == others {
            break;
        }
        thread::yield_now();
    }
    assert!(rt; note(rt, turn, seat, 0).is_ok(), "memory");
    turn.wake();
}

// The first seat's thread wakes those of the others.
fn sleep_all<R: Threads + Wait + Abort + Sync>(rt: &R, turn: &Turn<Log>, seats: &mut [Seat<Log>])
    requires seats { All (λ s. IsOf turn.now s × IsAway s) seats.old }
    ensures seats { All (λ s. IsOf turn.now s × IsAway s) seats.new }
    ensures count { length seats.new ≡ length seats.old }
{
    thread::for_each_mut(
        rt,
        seats,
        THREADS,
        &|i, seat| match i {
            0 => wake_others(rt, turn, seat, THREADS as u64 - 1),
            _ => await_entry(rt, turn, seat),
        },
    );
}

fn join_all(turn: &Turn<Log>, first: &mut Seat<Log>, mut seats: Vec<Seat<Log>>)
    requires seat { IsOf turn.now first.old × IsAway first.old }
    requires view { (number first.old ≡ 0) × (given first.old ≡ vec_len seats)
        × (ended first.old ≡ []) }
    requires seats { All (λ s. IsOf turn.now s × IsAway s) seats.items }
    ensures seat { IsOf turn.now first.new × IsAway first.new }
    ensures view { (number first.new ≡ 0) × (length (ended first.new) ≡ given first.new) }
{
    while let Some(seat) = seats.pop() {
        turn.join(first, seat);
    }
}

#[test]
fn threads_lose_no_entry(rt: HostRuntime) {
    let (turn, mut first) = lock(&rt, rt.alloc());
    let mut seats = split_all(&rt, rt.alloc(), &turn, &mut first);
    work(&rt, &turn, seats.as_mut_slice());
    join_all(&turn, &mut first, seats);
    let log = turn.close(first);
    let mut next = [0; THREADS + 1];
    for entry in &log.entries {
        let at = entry.seat as usize;
        assert!(rt; 0 < at && at <= THREADS && entry.n < EACH, "{entry:?}");
        assert_eq!(rt; entry.n, next[at], "in the order of {at}");
        next[at] += 1;
    }
    assert_eq!(rt; next, [0, EACH, EACH, EACH, EACH]);
}

#[test]
fn sleepers_wake(rt: HostRuntime) {
    let (turn, mut first) = lock(&rt, rt.alloc());
    let mut seats = split_all(&rt, rt.alloc(), &turn, &mut first);
    sleep_all(&rt, &turn, seats.as_mut_slice());
    join_all(&turn, &mut first, seats);
    let log = turn.close(first);
    assert_eq!(rt; log.entries.len(), 1);
}

#[test]
fn entry_before_sleep_keeps_awake(rt: HostRuntime) {
    let (turn, mut first) = lock(&rt, rt.alloc());
    let (_, low) = count(&rt, &turn, &mut first);
    assert!(rt; note(&rt, &turn, &mut first, 0).is_ok(), "memory");
    turn.sleep(&rt, low);
    turn.wake();
    assert_eq!(rt; turn.close(first).entries.len(), 1);
}
