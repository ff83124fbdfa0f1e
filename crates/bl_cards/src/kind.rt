//! The kinds of faults, sections, rows and cards.

/// What is wrong with a line, or at the ENDATA line with the whole.
#[derive(Clone, Copy, Debug, PartialEq, Eq)]
pub enum What {
    /// A section line that is unknown, repeated or out of order, or a data line where no section
    /// takes one.
    Section,
    /// Another number of words than the section's lines have, an unknown kind of row or bound,
    /// or an unknown or missing sense.
    Words,
    /// A number that is not spelled as one.
    Number,
    /// A number beyond the limits.
    TooWide,
    /// A row that ROWS does not name.
    UnknownRow,
    /// A column that COLUMNS does not name.
    UnknownColumn,
    /// A name or a number that stands already.
    Twice,
    /// A column that does not take whole numbers.
    NotWhole,
    /// A column without a low or a high end.
    Unbounded,
    /// A bound that is not a whole number.
    FractionBound,
    /// More than 1,000 columns, or rows with ends.
    TooMany,
    /// No row of kind N.
    NoObjective,
    /// A marker line that is not of the form, or out of order.
    Marker,
    /// No ENDATA line.
    NoEnd,
}

/// A section of a file, in the order of a file. `Start` is before the first one.
#[derive(Clone, Copy, Debug, PartialEq, Eq)]
pub enum Section {
    Start,
    Name,
    Objsense,
    Rows,
    Columns,
    Rhs,
    Ranges,
    Bounds,
    End,
}

/// What a row is for: the first row of kind N is the objective, and the numbers of further ones
/// are passed over.
#[derive(Clone, Copy, Debug, PartialEq, Eq)]
pub enum Role {
    Objective,
    Extra,
    AtMost,
    AtLeast,
    Equal,
}

/// What a bound card does.
#[derive(Clone, Copy, Debug, PartialEq, Eq)]
pub enum Act {
    /// UP
    High,
    /// LO
    Low,
    /// FX
    Both,
    /// FR
    Free,
    /// MI
    NoLow,
    /// PL
    NoHigh,
    /// BV
    Binary,
    /// UI
    WholeHigh,
    /// LI
    WholeLow,
}
