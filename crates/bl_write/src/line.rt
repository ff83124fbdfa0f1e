//! Lines of fields.
ghost use Rattle.std.specs.Prelude.{◌≡◌, ◌≤◌, ◌-◌, ◌++◌, ◌∷◌, [], length, map, replicate, OnOk};
ghost use Rattle.bl_num.specs.Texts.{text_of};
ghost use Rattle.bl_write.specs.Layout.{ended, fields_from, gap, laid, spaced};
ghost use Rattle.bl_write.specs.Written.{heading, nonzero, number_line};
ghost use Rattle.bl_write.specs.Views.{field_of};

use bl_num::decimal_text;
use std::alloc::{AllocError, Global};

/// A word, and the column at which it is to begin, counted from 1.
#[derive(Clone, Copy)]
pub struct Field<'a> {
    pub column: usize,
    pub word: &'a [u8],
}

fn push_blanks(text: &mut Vec<u8>, count: usize) -> Result<(), AllocError>
    ensures { OnOk result (text.new.items ≡ text.old.items ++ replicate count 32) }
{
    for _ in 0..count {
        text.push(b' ')?;
    }
    Ok(())
}

// A field of the line that begins at `start`, behind others.
fn push_field(text: &mut Vec<u8>, start: usize, field: Field<'_>) -> Result<(), AllocError>
    requires { start ≤ length text.old.items }
    ensures { OnOk result (text.new.items ≡ text.old.items
        ++ (replicate (gap (length text.old.items - start) field.entry.column) 32
        ++ field.entry.word.now)) }
{
    let place = text.len() - start;
    let blanks = field.column.saturating_sub(1).saturating_sub(place).max(1);
    push_blanks(text, blanks)?;
    text.extend_from_slice(field.word)
}

// Further fields of the line that begins at `start`.
fn push_fields(text: &mut Vec<u8>, start: usize, fields: &[Field<'_>]) -> Result<(), AllocError>
    requires { start ≤ length text.old.items }
    ensures { OnOk result (text.new.items ≡ text.old.items
        ++ spaced (fields_from (length text.old.items - start) (map field_of fields.now))) }
{
    for field in fields {
        push_field(text, start, *field)?;
    }
    Ok(())
}

/// A line of fields.
pub fn push_line(
    text: &mut Vec<u8>,
    first: Field<'_>,
    others: &[Field<'_>],
) -> Result<(), AllocError>
    ensures { OnOk result (text.new.items ≡ text.old.items
        ++ ended (laid (field_of first.entry) (map field_of others.now) ∷ [])) }
{
    let start = text.len();
    push_blanks(text, first.column.saturating_sub(1))?;
    text.extend_from_slice(first.word)?;
    push_fields(text, start, others)?;
    text.push(b'\n')?;
    Ok(())
}

/// A line that opens a section.
pub fn push_heading(text: &mut Vec<u8>, section: &[u8]) -> Result<(), AllocError>
    ensures { OnOk result (text.new.items ≡ text.old.items ++ ended (heading section.now ∷ [])) }
{
    push_line(
        text,
        Field {
            column: 1,
            word: section,
        },
        &[],
    )
}

/// A line with a column's or a set's name, and a number of a row in units of 10^-places.
pub fn push_number(
    alloc: Global,
    text: &mut Vec<u8>,
    first: &[u8],
    row: &[u8],
    value: i128,
    places: u32,
) -> Result<(), AllocError>
    requires { places ≤ 27 }
    ensures { OnOk result (text.new.items ≡ text.old.items
        ++ ended (number_line first.now
        (record { name = row.now; value = value; places = places }) ∷ [])) }
{
    let number = decimal_text(alloc, value, places)?;
    let row = Field {
        column: 15,
        word: row,
    };
    let number = Field {
        column: 25,
        word: number.as_slice(),
    };
    push_line(
        text,
        Field {
            column: 5,
            word: first,
        },
        &[row, number],
    )
}

/// Such a line where the number is not zero.
pub fn push_nonzero(
    alloc: Global,
    text: &mut Vec<u8>,
    first: &[u8],
    row: &[u8],
    value: i128,
    places: u32,
) -> Result<(), AllocError>
    requires { places ≤ 27 }
    ensures { OnOk result (text.new.items ≡ text.old.items
        ++ ended (map (number_line first.now)
        (nonzero (record { name = row.now; value = value; places = places } ∷ [])))) }
{
    if value == 0 {
        return Ok(());
    }
    push_number(alloc, text, first, row, value, places)
}
