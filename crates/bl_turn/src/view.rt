//! What proofs know of a seat, and what is in the one slot of the lock's table. No view and no
//! account is ever made.
use std::collections::LinkedList;
use std::snapshot::Snapshot;

/// What a seat knows of the history.
pub struct View<E, B> {
    pub number: u64,
    /// The base of the lock's value. Each seat that was not joined has it.
    pub base: Option<B>,
    /// A beginning of the history.
    pub seen: LinkedList<E>,
    /// The entries of `seen` that carry the seat's number.
    pub mine: LinkedList<E>,
    /// The number of seats that seat 0 gave.
    pub given: u64,
    /// The seats that were joined into seat 0, each with its `mine`.
    pub ended: LinkedList<(u64, LinkedList<E>)>,
}

/// Where a seat stands.
pub enum Stage {
    Away,
    /// It has the turn, and neither committed nor looked yet.
    In,
    /// It has the turn, and committed or looked.
    Shown,
    /// It was joined into seat 0.
    Spent,
}

/// What the table keeps of a seat.
pub struct Account<E, B> {
    pub stage: Stage,
    pub view: View<E, B>,
    /// The length of the history when the lock was made.
    pub first: u64,
    /// The history that its last turn found.
    pub found: LinkedList<E>,
    /// What it had seen before its last join.
    pub before: LinkedList<E>,
    /// What the other seat of its last join had seen.
    pub met: LinkedList<E>,
    /// The base of that other seat.
    pub met_base: Option<B>,
}

/// The place of the value in the table.
pub enum Slot<V> {
    Home(V),
    Out,
    /// The value is out, and this is a note of it.
    Noted(Snapshot<V>),
}
