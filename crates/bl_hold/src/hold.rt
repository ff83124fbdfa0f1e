//! A gate that holds workers until others have passed.
use crate::counts::{Counts, zeros};
use bl_worker::{Gate, Moment};
use std::alloc::{AllocError, Global};
use std::sync::atomic::{AtomicU64, Ordering};
use std::thread;

/// The passing of a worker that is held, and the one of a worker that it is held until. The
/// passings of a worker at a moment are counted from 1.
#[derive(Clone, Copy, Debug, PartialEq, Eq)]
pub struct Hold {
    pub worker: u32,
    pub moment: Moment,
    pub passing: u32,
    pub until_worker: u32,
    pub until_moment: Moment,
    pub until_passing: u32,
}

/// A gate that counts the passings of the workers 0 to 64 and holds some of them. A hold ends
/// when the other passing has come, or after so many turns of its loop. Where several holds are
/// of one passing, each begins when the one before it has ended.
#[derive(Drop)]
pub struct HoldGate {
    holds: Vec<Hold>,
    turns: u32,
    counts: Counts,
    released: Vec<AtomicU64>,
}

impl HoldGate {
    /// A gate with these holds, each of at most so many turns.
    pub fn new(alloc: Global, holds: Vec<Hold>, turns: u32) -> Result<HoldGate, AllocError> {
        let counts = Counts::new(alloc)?;
        let released = zeros(alloc, holds.len())?;
        Ok(HoldGate {
            holds,
            turns,
            counts,
            released,
        })
    }

    /// Whether the hold at this place, counted from 0, ended because the other passing had come.
    pub fn released(&self, place: usize) -> bool {
        match self.released.get(place) {
            Some(word) => word.load(Ordering::SeqCst) != 0,
            None => false,
        }
    }

    /// How often the worker, of number 0 to 64, has passed the moment. 0 of any other.
    pub fn passings(&self, worker: u32, moment: Moment) -> u64 {
        self.counts.passings(worker, moment)
    }

    // Whether the passing that a hold waits for has come within the turns.
    fn comes_in_time(&self, hold: &Hold) -> bool {
        for _ in 0..self.turns {
            let passings = self.counts.passings(hold.until_worker, hold.until_moment);
            if passings >= u64::from(hold.until_passing) {
                return true;
            }
            thread::yield_now();
        }
        false
    }

    // Holds the worker that passes, where the hold at the place is of this passing.
    fn hold_at(&self, place: usize, hold: &Hold, worker: u32, moment: Moment, passing: u64) {
        let is_meant = hold.worker == worker
            && hold.moment == moment
            && u64::from(hold.passing) == passing;
        if is_meant && self.comes_in_time(hold) {
            if let Some(word) = self.released.get(place) {
                word.store(1, Ordering::SeqCst);
            }
        }
    }
}

impl Gate for HoldGate {
    fn pass(&self, worker: u32, moment: Moment) {
        let passing = self.counts.count(worker, moment);
        for (place, hold) in self.holds.iter().enumerate() {
            self.hold_at(place, hold, worker, moment, passing);
        }
    }
}
