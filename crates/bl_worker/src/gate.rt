//! Moments at which a worker may be watched.

/// A moment of a worker's loop.
#[derive(Clone, Copy, Debug, PartialEq, Eq)]
pub enum Moment {
    /// Before each take.
    BeforeTake,
    /// After each take, whatever it answered.
    AfterTake,
    /// Before each put.
    BeforePut,
    /// After each put.
    AfterPut,
    /// Before each wish that a node be stored whole.
    BeforeInstall,
    /// Before each wish to free nodes.
    BeforeFree,
}

/// What a worker passes at each moment of its loop. It answers nothing, and whatever it does, the
/// worker's contract holds; tests watch and hold workers by it.
pub trait Gate: Sync {
    /// The worker of this number passes. The number is that of its seat.
    fn pass(&self, worker: u32, moment: Moment);
}

/// A gate that is passed at once.
#[derive(Clone, Copy, Debug, PartialEq, Eq)]
pub struct OpenGate;

impl Gate for OpenGate {
    fn pass(&self, _worker: u32, _moment: Moment) {}
}
