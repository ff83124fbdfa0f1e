//! Runs by workers that are held at the gate.
use crate::runs::{BEST, cover, words_of};
use bl_hold::{Hold, HoldGate};
use bl_io::{MemorySink, MemorySource};
use bl_journal::{Entry, Journal};
use bl_log::{log_text, read_log};
use bl_run::{Ended, Gate, Moment, run};
use std::alloc::{AllocError, Global};
use std::sync::Wait;
use std::test::Fail;
use std::thread::Threads;

/// A worker waits for each of seven others for so many turns of the gate's loop at most.
const TURNS: u32 = 1_000_000;

/// Each of the workers 1 to 8 is held at its first take until all eight have come to theirs.
fn until_all_come(alloc: Global) -> Result<Vec<Hold>, AllocError> {
    let mut holds = Vec::new(alloc);
    for place in 0..64u32 {
        holds.push(Hold {
            worker: place / 8 + 1,
            moment: Moment::BeforeTake,
            passing: 1,
            until_worker: place % 8 + 1,
            until_moment: Moment::BeforeTake,
            until_passing: 1,
        })?;
    }
    Ok(holds)
}

/// How a run over these bytes ended whose workers pass the gate, and what it wrote.
pub(crate) fn run_held<R: Threads + Wait + Sync, G: Gate>(
    rt: &R,
    alloc: Global,
    bytes: Vec<u8>,
    words: &[String],
    gate: &G,
) -> Result<(Ended, MemorySink), AllocError> {
    let mut source = MemorySource::new(bytes, 65_536, Vec::new(alloc));
    let mut sink = MemorySink::new(alloc, 65_536, 65_536, Vec::new(alloc))?;
    let ended = run(rt, alloc, words, &mut source, &mut sink, gate);
    Ok((ended, sink))
}

/// What an entry tells.
#[derive(Clone, Copy, Debug, PartialEq, Eq)]
enum Kind {
    Take,
    Put,
    Back,
    Encode,
    Free,
}

/// The seat that made an entry, and what it tells.
fn kind_of(entry: &Entry) -> (u32, Kind) {
    match entry {
        Entry::Take { seat, .. } => (*seat, Kind::Take),
        Entry::Put { seat, .. } => (*seat, Kind::Put),
        Entry::Back { seat, .. } => (*seat, Kind::Back),
        Entry::Encode { seat, .. } => (*seat, Kind::Encode),
        Entry::Free { seat, .. } => (*seat, Kind::Free),
    }
}

/// How many entries of the kind the seat made.
fn entries_by(journal: &Journal, seat: u32, kind: Kind) -> u64 {
    let mut count = 0u64;
    for entry in journal.entries() {
        let (by, made) = kind_of(entry);
        if by == seat && made == kind {
            count = count.saturating_add(1);
        }
    }
    count
}

/// Whether the passings of a worker suit what its seat did.
fn has_passed_as_told(gate: &HoldGate, journal: &Journal, worker: u32) -> bool {
    let takes = entries_by(journal, worker, Kind::Take);
    let puts = entries_by(journal, worker, Kind::Put);
    let frees = entries_by(journal, worker, Kind::Free);
    let encodes = entries_by(journal, worker, Kind::Encode);
    gate.passings(worker, Moment::BeforeTake) > takes
        && gate.passings(worker, Moment::AfterTake) > takes
        && gate.passings(worker, Moment::BeforePut) == puts
        && gate.passings(worker, Moment::AfterPut) == puts
        && gate.passings(worker, Moment::BeforeFree) == puts.saturating_add(frees)
        && gate.passings(worker, Moment::BeforeInstall) >= encodes
}

/// Whether all that seat 0 did was to free nodes.
fn only_frees(journal: &Journal) -> bool {
    for kind in [Kind::Take, Kind::Put, Kind::Back, Kind::Encode] {
        if entries_by(journal, 0, kind) != 0 {
            return false;
        }
    }
    true
}

#[test]
fn eight_workers_meet(rt: HostRuntime) -> Result<(), Fail> {
    let alloc = rt.alloc();
    let gate = HoldGate::new(alloc, until_all_come(alloc)?, TURNS)?;
    let words = words_of(alloc, &["--workers", "8"])?;
    let (ended, sink) = run_held(&rt, alloc, cover(alloc, &[])?, &words, &gate)?;
    for place in 0..64 {
        assert!(rt; gate.released(place), "the hold at {place}");
    }
    assert_eq!(rt; ended.status, 0);
    assert!(rt; sink.kept() == BEST);
    let Some(journal) = ended.journal else {
        return Err(Fail::new("there is no journal"));
    };
    assert!(rt; only_frees(&journal));
    for worker in 1..=8 {
        assert!(rt;
            has_passed_as_told(&gate, &journal, worker),
            "worker {worker}"
        );
    }
    Ok(())
}

/// Whether the log of a journal reads back, and is written the same again.
pub(crate) fn is_read_back(alloc: Global, journal: &Journal) -> Option<bool> {
    let text = log_text(alloc, journal).ok()?;
    if text.len() > 1_000_000 {
        return None;
    }
    let again = read_log(alloc, &text).ok()?;
    let twice = log_text(alloc, &again).ok()?;
    Some(twice.as_slice() == text.as_slice())
}

/// Worker 1 is held at its first passing of a moment until worker 2's first passing of another.
fn first_hold(moment: Moment, until_moment: Moment) -> Hold {
    Hold {
        worker: 1,
        moment,
        passing: 1,
        until_worker: 2,
        until_moment,
        until_passing: 1,
    }
}

#[test]
fn a_worker_is_held(rt: HostRuntime) -> Result<(), Fail> {
    let alloc = rt.alloc();
    let holds = [
        first_hold(Moment::AfterTake, Moment::BeforeTake),
        first_hold(Moment::BeforePut, Moment::BeforeTake),
        first_hold(Moment::BeforeFree, Moment::BeforeFree),
    ];
    for hold in holds {
        let gate = HoldGate::new(alloc, vec![in alloc; hold]?, 10_000)?;
        let words = words_of(alloc, &["--workers", "2"])?;
        let (ended, sink) = run_held(&rt, alloc, cover(alloc, &[])?, &words, &gate)?;
        assert_eq!(rt; ended.status, 0);
        assert!(rt; sink.kept() == BEST);
        let Some(journal) = ended.journal else {
            return Err(Fail::new("there is no journal"));
        };
        assert!(rt; is_read_back(alloc, &journal) == Some(true));
    }
    Ok(())
}
