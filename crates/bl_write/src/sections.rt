//! The sections but COLUMNS.
ghost use Rattle.std.specs.Prelude.{◌≡◌, ◌++◌, ◌∷◌, [], ◌≤◌, ◌^◌, map, codes, OnOk};
ghost use Rattle.bl_problem.specs.declared.problem.Row.{Row};
ghost use Rattle.bl_problem.specs.Sums.{IsWithin};
ghost use Rattle.bl_write.specs.Layout.{ended};
ghost use Rattle.bl_write.specs.Written.{back_lines, bound_line, bounds_lines, ends_lines};
ghost use Rattle.bl_write.specs.Written.{front_lines, kind_of, row_line, rows_lines, sense_lines};

use crate::line::{Field, push_heading, push_line};
use crate::sets::{push_ranges, push_rights};
use bl_num::decimal_text;
use bl_problem::{Column, Problem, Row, Sense};
use std::alloc::{AllocError, Global};

/// The lines up to COLUMNS.
pub fn push_front(text: &mut Vec<u8>, problem: &Problem) -> Result<(), AllocError>
    ensures { OnOk result (text.new.items ≡ text.old.items ++ ended (front_lines problem.now)) }
{
    let name = Field {
        column: 1,
        word: b"NAME",
    };
    push_line(
        text,
        name,
        &[Field {
            column: 15,
            word: b"BLIS",
        }],
    )?;
    push_sense(text, problem.sense())?;
    push_heading(text, b"ROWS")?;
    push_row(text, b"N", problem.objective().bytes())?;
    push_rows(text, problem.rows())
}

fn push_sense(text: &mut Vec<u8>, sense: Sense) -> Result<(), AllocError>
    ensures { OnOk result (text.new.items ≡ text.old.items ++ ended (sense_lines sense)) }
{
    match sense {
        Sense::Min => Ok(()),
        Sense::Max => {
            push_heading(text, b"OBJSENSE")?;
            push_line(
                text,
                Field {
                    column: 5,
                    word: b"MAX",
                },
                &[],
            )
        }
    }
}

// A row's kind and name.
fn push_row(text: &mut Vec<u8>, kind: &[u8], name: &[u8]) -> Result<(), AllocError>
    ensures { OnOk result (text.new.items ≡ text.old.items
        ++ ended (row_line kind.now name.now ∷ [])) }
{
    push_line(
        text,
        Field {
            column: 2,
            word: kind,
        },
        &[Field {
            column: 5,
            word: name,
        }],
    )
}

// `E` where both ends are equal, `L` where both stand and differ or the high one stands alone,
// `G` where the low one does.
fn push_kind(text: &mut Vec<u8>, row: &Row) -> Result<(), AllocError>
    ensures { OnOk result (text.new.items ≡ text.old.items
        ++ ended (row_line (kind_of row.now.low row.now.high) row.now.name ∷ [])) }
{
    let name = row.name.bytes();
    match (row.low, row.high) {
        (Some(_), None) => push_row(text, b"G", name),
        (Some(low), Some(high)) if low == high => push_row(text, b"E", name),
        _ => push_row(text, b"L", name),
    }
}

fn push_rows(text: &mut Vec<u8>, rows: &[Row]) -> Result<(), AllocError>
    ensures { OnOk result (text.new.items ≡ text.old.items
        ++ ended (map (λ (r : Row). row_line (kind_of r.low r.high) r.name) rows.now)) }
{
    for row in rows {
        push_kind(text, row)?;
    }
    Ok(())
}

/// The lines behind COLUMNS.
pub fn push_back(alloc: Global, text: &mut Vec<u8>, problem: &Problem) -> Result<(), AllocError>
    ensures { OnOk result (text.new.items ≡ text.old.items ++ ended (back_lines problem.now)) }
{
    push_rights(alloc, text, problem)?;
    push_ranges(alloc, text, problem)?;
    push_bounds(alloc, text, problem.columns())?;
    push_heading(text, b"ENDATA")
}

// BOUNDS, where there is a column.
fn push_bounds(alloc: Global, text: &mut Vec<u8>, columns: &[Column]) -> Result<(), AllocError>
    ensures { OnOk result (text.new.items ≡ text.old.items ++ ended (bounds_lines columns.now)) }
{
    if columns.is_empty() {
        return Ok(());
    }
    push_heading(text, b"BOUNDS")?;
    push_ends(alloc, text, columns)
}

fn push_ends(alloc: Global, text: &mut Vec<u8>, columns: &[Column]) -> Result<(), AllocError>
    ensures { OnOk result (text.new.items ≡ text.old.items ++ ended (ends_lines columns.now)) }
{
    for column in columns {
        push_bound(alloc, text, b"LO", column.name.bytes(), column.low)?;
        push_bound(alloc, text, b"UP", column.name.bytes(), column.high)?;
    }
    Ok(())
}

// A bound of a column.
fn push_bound(
    alloc: Global,
    text: &mut Vec<u8>,
    kind: &[u8],
    name: &[u8],
    end: i64,
) -> Result<(), AllocError>
    ensures { OnOk result (text.new.items ≡ text.old.items
        ++ ended (bound_line kind.now name.now end ∷ [])) }
{
    let number = decimal_text(alloc, i128::from(end), 0)?;
    let set = Field {
        column: 5,
        word: b"BND",
    };
    let name = Field {
        column: 15,
        word: name,
    };
    let number = Field {
        column: 25,
        word: number.as_slice(),
    };
    push_line(
        text,
        Field {
            column: 2,
            word: kind,
        },
        &[set, name, number],
    )
}
