//! The integer program that is solved.
ghost use Rattle.std.specs.Prelude.{◌≡◌, ◌≢◌, ◌≤◌, ◌-◌, ◌^◌, ◌↔◌, ◌≤ℤ◌, ℤ, negsuc, List, length};
ghost use Rattle.std.specs.Prelude.{All, IsTrue};
ghost use Rattle.bl_problem.specs.Sums.{IsWithin};

use crate::name::Name;
use crate::point::{is_in_box, least_sum, meets_rows, value_sum};
use bl_mods::Items;
use std::marker::Model;

/// A coefficient of a row, at most 10^15 in size and never zero.
#[derive(Clone, Copy, Debug, PartialEq, Eq)]
pub struct Term {
    /// The number of the column, from 0.
    pub column: u32,
    pub coefficient: i64,
}

/// A column, whose entry is a whole number from `low` to `high`. Where `low` is above `high`
/// there is none.
#[derive(Drop)]
pub struct Column {
    pub name: Name,
    /// Within ±10^9.
    pub low: i64,
    /// Within ±10^9.
    pub high: i64,
    /// Within ±10^15, in units of 10^-scale of the problem.
    pub cost: i64,
}

/// A row: the sum of its terms lies from `low` to `high`, where these are there.
#[derive(Drop)]
pub struct Row {
    pub name: Name,
    /// In rising order of columns.
    pub terms: Items<Term>,
    /// Within ±10^24.
    pub low: Option<i128>,
    /// Within ±10^24.
    pub high: Option<i128>,
}

/// Whether the file asked for the least or the greatest value of its objective.
#[derive(Clone, Copy, Debug, PartialEq, Eq)]
pub enum Sense {
    Min,
    Max,
}

/// An integer program whose value is to be minimised: at most 1,000 columns and 1,000 rows.
/// Where the file's objective is to be maximised, costs and offset are the negatives of the
/// file's, so that less is better inside, and values are shown negated.
#[derive(Drop)]
pub struct Problem {
    columns: Items<Column>,
    rows: Items<Row>,
    objective: Name,
    scale: u32,
    offset: i128,
    sense: Sense,
}

impl Model for Problem {
    ghost use Rattle.bl_problem.specs.Program.{Program, IsProgram};

    ghost Value = { Program };

    ghost view = { λ p. record {
      columns = p.columns;
      rows = p.rows;
      objective =
          p.objective;
      scale = p.scale;
      offset = p.offset;
      sense = p.sense;
    } };

    ghost invariant = { λ p. IsProgram (record {
      columns = p.columns;
      rows = p.rows;
      objective =
          p.objective;
      scale = p.scale;
      offset = p.offset;
      sense = p.sense;
    }) };
}

impl Problem {
    ghost use Rattle.bl_problem.specs.Program.{IsProgram};
    ghost use Rattle.bl_problem.specs.Points.{InBox, IsFeasible, value_of, shown_of};
    ghost use Rattle.bl_problem.specs.Points.{trivial_bound_of};

    /// The problem of these parts. Takes no memory.
    pub fn new(
        columns: Vec<Column>,
        rows: Vec<Row>,
        objective: Name,
        scale: u32,
        offset: i128,
        sense: Sense,
    ) -> Problem
        requires { IsProgram (record {
          columns = columns.items;
          rows = rows.items;
          objective =
              objective;
          scale = scale;
          offset = offset;
          sense = sense;
        }) }
        ensures { result ≡ record {
          columns = columns.items;
          rows = rows.items;
          objective =
              objective;
          scale = scale;
          offset = offset;
          sense = sense;
        } }
    {
        Problem {
            columns: Items::from_vec(columns),
            rows: Items::from_vec(rows),
            objective,
            scale,
            offset,
            sense,
        }
    }

    /// The columns, in file order.
    pub fn columns(&self) -> &[Column]
        ensures columns { result.now ≡ self.now.columns }
        ensures program { IsProgram self.now }
    {
        self.columns.as_slice()
    }

    /// The rows beside the objective, in file order.
    pub fn rows(&self) -> &[Row]
        ensures rows { result.now ≡ self.now.rows }
        ensures program { IsProgram self.now }
    {
        self.rows.as_slice()
    }

    /// The objective's name.
    pub fn objective(&self) -> &Name
        ensures { result.now ≡ self.now.objective }
    {
        &self.objective
    }

    /// How many decimal places values have: they are in units of 10^-scale.
    pub fn scale(&self) -> u32
        ensures { result ≡ self.now.scale }
    {
        self.scale
    }

    /// The objective's constant, in units of 10^-scale.
    pub fn offset(&self) -> i128
        ensures { result ≡ self.now.offset }
    {
        self.offset
    }

    /// What the file asked for: the least or the greatest value.
    pub fn sense(&self) -> Sense
        ensures { result ≡ self.now.sense }
    {
        self.sense
    }

    /// A value or a bound in the file's sense, in units of 10^-scale: negated where the
    /// objective is maximised.
    pub fn shown(&self, value: i128) -> i128
        requires { value ≢ negsuc (2 ^ 127 - 1) }
        ensures { result ≡ shown_of self.now value }
    {
        match self.sense {
            Sense::Min => value,
            Sense::Max => -value,
        }
    }

    /// The value of a point, in units of 10^-scale: the offset and the sum of cost times entry.
    pub fn value(&self, point: &[i64]) -> i128
        requires width { length point.now ≡ length self.now.columns }
        requires near { All (IsWithin (10 ^ 9)) point.now }
        ensures { result ≡ value_of self.now point.now }
    {
        value_sum(self.columns(), self.offset, point)
    }

    /// Whether the point has one entry for each column, within its bounds, and meets each row.
    pub fn is_feasible(&self, point: &[i64]) -> bool
        ensures { IsTrue result ↔ IsFeasible self.now point.now }
    {
        is_in_box(self.columns(), point) && meets_rows(self.rows(), point)
    }

    /// The bound that a box of one low and one high for each column gives, in units of
    /// 10^-scale: the offset, and for each column the lesser of cost times low and cost times
    /// high.
    pub fn trivial_bound(&self, lows: &[i64], highs: &[i64]) -> i128
        requires low_width { length lows.now ≡ length self.now.columns }
        requires high_width { length highs.now ≡ length self.now.columns }
        requires low_near { All (IsWithin (10 ^ 9)) lows.now }
        requires high_near { All (IsWithin (10 ^ 9)) highs.now }
        ensures exact { result ≡ trivial_bound_of self.now lows.now highs.now }
        ensures below { (x : List ℤ) → InBox lows.now highs.now x → result ≤ℤ value_of self.now x }
    {
        least_sum(self.columns(), self.offset, lows, highs)
    }
}
