//! A value that stands for a list of entries.
ghost use Rattle.std.specs.Prelude.{ℕ, List};

/// A value that stands for a list of entries. It has no calls: contracts alone see what it means.
pub trait Told {
    /// One event of the history.
    type Entry;
    /// Plain data that no turn changes.
    type Base;
    /// The number of the seat that made the entry.
    ghost by: { Self.Entry → ℕ };
    /// The entries that the value stands for, the oldest first.
    ghost told: { Self → List Self.Entry };
    /// The value's base.
    ghost base: { Self → Self.Base };
}
