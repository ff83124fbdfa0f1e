// Multipliers of earlier nodes, which are tried before a node's own are made.
use bl_heur::has_large_numbers;
use bl_problem::Problem;
use bl_simplex::Prepared;
use std::alloc::{AllocError, Global};

/// So many are kept.
const MOST_HINTS: usize = 2;

/// A dive follows one in so many proposals while no point is known.
const DIVES_WITHOUT_POINT: u32 = 8;

/// A dive follows one in so many proposals once a point is known.
const DIVES: u32 = 32;

// A multiplier for each row, and their common denominator.
#[derive(Drop)]
pub struct Multipliers {
    pub rows: Vec<i64>,
    pub denominator: i64,
}

impl Multipliers {
    // Other multipliers take the place of these, in their room.
    fn become_those(&mut self, rows: &[i64], denominator: i64) -> Result<(), AllocError> {
        self.rows.clear();
        self.rows.extend_from_slice(rows)?;
        self.denominator = denominator;
        Ok(())
    }
}

/// What the work on earlier nodes of the same problem leaves to that on later ones: the multipliers
/// of the last few proposals, the linear program as the simplex wants it, how many proposals there
/// were, and whether the problem has large numbers. Nothing rests on them.
#[derive(Drop)]
pub struct Hints {
    recent: Vec<Multipliers>,
    next: usize,
    prepared: Option<Prepared>,
    proposals: u32,
    is_large: Option<bool>,
}

impl Hints {
    /// No hints yet. Takes no memory.
    pub fn new(alloc: Global) -> Hints {
        Hints {
            recent: Vec::new(alloc),
            next: 0,
            prepared: None,
            proposals: 0,
            is_large: None,
        }
    }

    // Counts a proposal. Whether a dive is to follow it.
    pub fn is_dive_due(&mut self, is_point_known: bool) -> bool {
        let before = self.proposals;
        self.proposals = before.wrapping_add(1);
        if is_point_known {
            before % DIVES == 0
        } else {
            before % DIVES_WITHOUT_POINT == 0
        }
    }

    // The problem's linear program, made at the first call.
    pub fn prepared(&mut self, alloc: Global, problem: &Problem) -> Result<&Prepared, AllocError> {
        if self.prepared.is_none() {
            self.prepared = Some(Prepared::new(alloc, problem)?);
        }
        match &self.prepared {
            Some(prepared) => Ok(prepared),
            None => Err(AllocError),
        }
    }

    // Whether the problem has large numbers, which is found out at the first call.
    pub fn is_large(&mut self, problem: &Problem) -> bool {
        if let Some(is_large) = self.is_large {
            return is_large;
        }
        let is_large = has_large_numbers(problem);
        self.is_large = Some(is_large);
        is_large
    }

    // The hints, in no order.
    pub fn recent(&self) -> &[Multipliers] {
        self.recent.as_slice()
    }

    // Keeps the multipliers of the rows, in the place of the oldest where there are many. Where
    // there is no memory, that is lost.
    pub fn keep(
        &mut self,
        alloc: Global,
        rows: &[i64],
        denominator: i64,
    ) -> Result<(), AllocError> {
        if self.recent.len() < MOST_HINTS {
            let rows = Vec::from_slice(alloc, rows)?;
            self.recent.push(Multipliers { rows, denominator })?;
            return Ok(());
        }
        if let Some(oldest) = self.recent.get_mut(self.next) {
            oldest.become_those(rows, denominator)?;
        }
        let next = self.next.saturating_add(1);
        self.next = if next < MOST_HINTS { next } else { 0 };
        Ok(())
    }
}

// The multipliers of the rows, and zeros for the cuts.
pub fn padded(alloc: Global, rows: &[i64], cuts: usize) -> Result<Vec<i64>, AllocError> {
    let mut y = Vec::with_capacity(alloc, rows.len().saturating_add(cuts))?;
    y.extend_from_slice(rows)?;
    for _ in 0..cuts {
        y.push(0)?;
    }
    Ok(y)
}

// Multipliers of so many rows and cuts that are 0 but for one.
pub fn alone(alloc: Global, lines: usize, row: usize, value: i64) -> Result<Vec<i64>, AllocError> {
    let mut y = vec![in alloc; 0_i64; lines]?;
    if let Some(entry) = y.get_mut(row) {
        *entry = value;
    }
    Ok(y)
}
