// What the work on a node may do.

/// What the work on a node may do.
#[derive(Clone, Copy, Debug, PartialEq, Eq)]
pub struct Limits {
    /// The most pivots of one proposal.
    pub pivots: u32,
    /// The most cuts that are added.
    pub new_cuts: u32,
    /// Whether the children are stored whole.
    pub explicit: bool,
    /// The seat that new cuts carry.
    pub seat: u32,
    /// The serial number of the first new cut.
    pub serial: u32,
}
