//! How often each worker has passed each moment.
use bl_worker::Moment;
use std::alloc::{AllocError, Global};
use std::sync::atomic::{AtomicU64, Ordering};

// The workers' numbers are below this.
const WORKERS: usize = 65;

const MOMENTS: usize = 6;

// So many words that are 0.
pub(crate) fn zeros(alloc: Global, count: usize) -> Result<Vec<AtomicU64>, AllocError> {
    let mut words = Vec::new(alloc);
    for _ in 0..count {
        words.push(AtomicU64::new(0))?;
    }
    Ok(words)
}

/// The counts of the workers 0 to 64, at each moment.
#[derive(Drop)]
pub(crate) struct Counts {
    words: Vec<AtomicU64>,
}

impl Counts {
    pub(crate) fn new(alloc: Global) -> Result<Counts, AllocError> {
        let words = zeros(alloc, WORKERS * MOMENTS)?;
        Ok(Counts { words })
    }

    fn word(&self, worker: u32, moment: Moment) -> Option<&AtomicU64> {
        let row = match moment {
            Moment::BeforeTake => 0,
            Moment::AfterTake => 1,
            Moment::BeforePut => 2,
            Moment::AfterPut => 3,
            Moment::BeforeInstall => 4,
            Moment::BeforeFree => 5,
        };
        if worker as usize >= WORKERS {
            return None;
        }
        self.words.get(row * WORKERS + worker as usize)
    }

    // Counts a passing, and tells which one it is, from 1 on. 0 where the worker is not counted.
    pub(crate) fn count(&self, worker: u32, moment: Moment) -> u64 {
        match self.word(worker, moment) {
            Some(word) => word.fetch_add(1, Ordering::SeqCst).saturating_add(1),
            None => 0,
        }
    }

    // The passings so far.
    pub(crate) fn passings(&self, worker: u32, moment: Moment) -> u64 {
        match self.word(worker, moment) {
            Some(word) => word.load(Ordering::SeqCst),
            None => 0,
        }
    }
}
