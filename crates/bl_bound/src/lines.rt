//! The rows and the cuts as one list of lines.
ghost use Rattle.std.specs.Prelude.{◌≡◌, ◌+◌, ◌<◌, length};
ghost use Rattle.bl_bound.specs.Lines.{line_at, lines_of, line_of};

use bl_mods::Shared;
use bl_problem::{Cut, Row, Term};

/// A row or a cut, borrowed: the sum of its terms lies from `low` to `high`, where these are there.
#[derive(Clone, Copy)]
pub struct LineRef<'a> {
    /// In rising order of columns.
    pub terms: &'a [Term],
    pub low: Option<i128>,
    pub high: Option<i128>,
}

/// The line at a place: the rows come first, then the cuts, which have a high end alone.
pub fn line<'a>(rows: &'a [Row], cuts: &'a [Shared<Cut>], place: usize) -> LineRef<'a>
    requires { place < length rows.now + length cuts.now }
    ensures { line_of result ≡ line_at (lines_of rows.now cuts.now) place }
{
    if place < rows.len() {
        row_line(&rows[place])
    } else {
        cut_line(cuts[place - rows.len()].get())
    }
}

fn row_line(row: &Row) -> LineRef<'_>
    ensures { line_of result ≡ record {
      terms = row.now.terms;
      low = row.now.low;
      high =
          row.now.high;
    } }
{
    LineRef {
        terms: row.terms.as_slice(),
        low: row.low,
        high: row.high,
    }
}

fn cut_line(cut: &Cut) -> LineRef<'_>
    ensures { line_of result ≡ record {
      terms = cut.now.terms;
      low = None;
      high =
          Some cut.now.right;
    } }
{
    LineRef {
        terms: cut.terms.as_slice(),
        low: None,
        high: Some(cut.right),
    }
}
