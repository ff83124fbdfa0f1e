//! RHS and RANGES, which stand only where they have a line.
ghost use Rattle.std.specs.Prelude.{◌≡◌, ◌++◌, ◌∷◌, [], ◌≤◌, ◌^◌, map, codes, OnOk, length};
ghost use Rattle.bl_problem.specs.Rows.{AreEnds};
ghost use Rattle.bl_write.specs.Layout.{ended};
ghost use Rattle.bl_write.specs.Written.{constant_of, heading, nonzero, number_line, range_of};
ghost use Rattle.bl_write.specs.Written.{ranges_of, right_of, right_side, rights_of, set_lines};
ghost use Rattle.bl_write.specs.Written.{width_of};

use crate::line::{push_heading, push_nonzero};
use bl_problem::{Problem, Row};
use std::alloc::{AllocError, Global};

/// RHS: the negative of the objective's constant in the file's sense, and the right sides.
pub fn push_rights(alloc: Global, text: &mut Vec<u8>, problem: &Problem) -> Result<(), AllocError>
    ensures { OnOk result (text.new.items ≡ text.old.items ++ ended (set_lines (codes "RHS") (codes "RHS") (rights_of problem.now))) }
{
    let start = text.len();
    push_heading(text, b"RHS")?;
    let headed = text.len();
    push_constant(alloc, text, problem)?;
    push_right_sides(alloc, text, problem.rows())?;
    if text.len() == headed {
        text.truncate(start);
    }
    Ok(())
}

/// RANGES: how far the ends of a row with two different ones are apart.
pub fn push_ranges(alloc: Global, text: &mut Vec<u8>, problem: &Problem) -> Result<(), AllocError>
    ensures { OnOk result (text.new.items ≡ text.old.items ++ ended (set_lines (codes "RANGES") (codes "RNG") (ranges_of problem.now))) }
{
    let start = text.len();
    push_heading(text, b"RANGES")?;
    let headed = text.len();
    push_widths(alloc, text, problem)?;
    if text.len() == headed {
        text.truncate(start);
    }
    Ok(())
}

fn push_constant(alloc: Global, text: &mut Vec<u8>, problem: &Problem) -> Result<(), AllocError>
    ensures { OnOk result (text.new.items ≡ text.old.items ++ ended (map (number_line (codes "RHS")) (nonzero (constant_of problem.now ∷ [])))) }
{
    let _columns = problem.columns();
    let constant = -problem.shown(problem.offset());
    let name = problem.objective().bytes();
    push_nonzero(alloc, text, b"RHS", name, constant, problem.scale())
}

// The high end where it stands, else the low one.
fn right_side_of(row: &Row) -> i128
    ensures { result ≡ right_side row.now.low row.now.high }
{
    match (row.low, row.high) {
        (_, Some(high)) => high,
        (Some(low), None) => low,
        (None, None) => 0,
    }
}

fn push_right_sides(alloc: Global, text: &mut Vec<u8>, rows: &[Row]) -> Result<(), AllocError>
    ensures { OnOk result (text.new.items ≡ text.old.items ++ ended (map (number_line (codes "RHS")) (nonzero (map right_of rows.now)))) }
{
    for row in rows {
        push_nonzero(alloc, text, b"RHS", row.name.bytes(), right_side_of(row), 0)?;
    }
    Ok(())
}

// How far the ends are apart, where both stand.
fn width(row: &Row) -> i128
    requires { AreEnds row.now.low row.now.high }
    ensures { result ≡ width_of row.now.low row.now.high }
{
    match (row.low, row.high) {
        (Some(low), Some(high)) => high - low,
        _ => 0,
    }
}

fn push_widths(alloc: Global, text: &mut Vec<u8>, problem: &Problem) -> Result<(), AllocError>
    ensures { OnOk result (text.new.items ≡ text.old.items ++ ended (map (number_line (codes "RNG")) (ranges_of problem.now))) }
{
    let rows = problem.rows();
    for i in 0..rows.len() {
        let row = &rows[i];
        push_nonzero(alloc, text, b"RNG", row.name.bytes(), width(row), 0)?;
    }
    Ok(())
}
