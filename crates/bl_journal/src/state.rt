//! Where a node stands.

/// Where a node stands, by the last entry that says so.
#[derive(Clone, Copy, PartialEq, Eq)]
pub enum State {
    /// It waits to be handed out.
    Waiting,
    /// It is out with this seat.
    Out { seat: u32 },
    /// Its box was split between two children.
    Split,
    /// It has no better point.
    Shut,
    /// It is no longer stored.
    Freed,
}
