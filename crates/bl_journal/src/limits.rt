//! The limits of a search and of its nodes.

/// The most nodes that a search may take.
pub const MOST_NODES: u32 = 100_000;

/// The greatest span.
pub const MOST_SPAN: u32 = 64;

/// The most workers of a search.
pub const MOST_WORKERS: u32 = 64;

/// The largest gap: 10^36, in units of 10^-scale of the objective.
pub const LARGEST_GAP: i128 = 1_000_000_000_000_000_000_000_000_000_000_000_000;

/// The most cuts of a node.
pub const MOST_CUTS: usize = 200;

/// The most bounds that the common change of a split sets.
pub const MOST_BOUNDS: usize = 256;

/// The most statuses that the common change of a split sets.
pub const MOST_STATUSES: usize = 512;
