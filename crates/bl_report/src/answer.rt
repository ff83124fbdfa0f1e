//! The text of an answer.
ghost use Rattle.std.specs.Prelude.{◌≡◌, ◌++◌, ◌≤◌, ◌-◌, ◌^◌, negsuc, length, drop, codes, IfOk};
ghost use Rattle.std.specs.Prelude.{OnOk};
ghost use Rattle.std.specs.Fmt.{signed_decimal};
ghost use Rattle.bl_num.specs.Texts.{text_of};
ghost use Rattle.bl_problem.specs.Points.{shown_of};
ghost use Rattle.bl_tree.specs.Answers.{verdict_of, found_if};
ghost use Rattle.bl_report.specs.Texts.{column_lines, column_line, shown_columns, value_line};
ghost use Rattle.bl_report.specs.Texts.{found_lines, best_lines, verdict_text};

use bl_num::decimal_text;
use bl_problem::{Column, Problem, Sense};
use bl_tree::{Answer, Best};
use std::alloc::{AllocError, Global};

/// The lines of an answer, `status` first and `end` last, with its values in the file's sense
/// and with a line for each column of its point where they are wanted. `AllocError` where there
/// is no memory.
pub fn answer_text(
    alloc: Global,
    problem: &Problem,
    answer: &Answer<'_>,
    with_columns: bool,
) -> Result<Vec<u8>, AllocError>
    ensures { IfOk result (λ text. text.items
        ≡ verdict_text problem.now with_columns (verdict_of answer.now)) }
{
    let mut text = Vec::new(alloc);
    match answer {
        Answer::Optimal { value, point } => {
            text.extend_from_slice(b"status optimal\n")?;
            push_found(alloc, &mut text, problem, *value, point, with_columns)?;
        }
        Answer::Within {
            value,
            bound: least,
            point,
        } => {
            text.extend_from_slice(b"status within\nbound ")?;
            push_value(alloc, &mut text, problem, *least)?;
            push_found(alloc, &mut text, problem, *value, point, with_columns)?;
        }
        Answer::Infeasible => text.extend_from_slice(b"status infeasible\n")?,
        Answer::Bounded { bound, best } => {
            text.extend_from_slice(b"status limit\nbound ")?;
            push_value(alloc, &mut text, problem, *bound)?;
            push_best(alloc, &mut text, problem, best, with_columns)?;
        }
    }
    text.extend_from_slice(b"end\n")?;
    Ok(text)
}

fn push_best(
    alloc: Global,
    text: &mut Vec<u8>,
    problem: &Problem,
    best: &Option<Best<'_>>,
    with_columns: bool,
) -> Result<(), AllocError>
    ensures { OnOk result (text.new.items ≡ text.old.items
        ++ best_lines problem.now with_columns (found_if best.now)) }
{
    match best {
        None => text.extend_from_slice(b"objective none\n"),
        Some(best) => push_found(alloc, text, problem, best.value, best.point, with_columns),
    }
}

fn push_found(
    alloc: Global,
    text: &mut Vec<u8>,
    problem: &Problem,
    value: i128,
    point: &[i64],
    with_columns: bool,
) -> Result<(), AllocError>
    ensures { OnOk result (text.new.items ≡ text.old.items
        ++ found_lines problem.now with_columns (record { value = value; point = point.now })) }
{
    text.extend_from_slice(b"objective ")?;
    push_value(alloc, text, problem, value)?;
    push_shown(alloc, text, problem.columns(), point, with_columns)
}

// The columns' lines, where they are wanted.
fn push_shown(
    alloc: Global,
    text: &mut Vec<u8>,
    columns: &[Column],
    point: &[i64],
    with_columns: bool,
) -> Result<(), AllocError>
    ensures { OnOk result (text.new.items ≡ text.old.items
        ++ shown_columns with_columns columns.now point.now) }
{
    if with_columns {
        push_columns(alloc, text, columns, point)
    } else {
        Ok(())
    }
}

// A value in the file's sense, in units of 10^-scale, and a line feed.
fn push_value(
    alloc: Global,
    text: &mut Vec<u8>,
    problem: &Problem,
    value: i128,
) -> Result<(), AllocError>
    ensures { OnOk result (text.new.items ≡ text.old.items ++ value_line problem.now value) }
{
    let number = value_text(alloc, problem, value)?;
    text.extend_from_slice(&number)?;
    text.extend_from_slice(b"\n")
}

// The text of a value in the file's sense, in units of 10^-scale.
fn value_text(alloc: Global, problem: &Problem, value: i128) -> Result<Vec<u8>, AllocError>
    ensures { IfOk result (λ text. text.items
        ≡ text_of (shown_of problem.now value) problem.now.scale) }
{
    let _columns = problem.columns();
    if value == i128::MIN {
        return least_text(alloc, problem);
    }
    let value = problem.shown(value);
    let number = decimal_text(alloc, value, problem.scale())?;
    Ok(number)
}

// The text of the least value of its type in the file's sense. Its negative has the same digits,
// and no sign.
#[tactic(auto, using(crate::proofs::Signs::signless))]
fn least_text(alloc: Global, problem: &Problem) -> Result<Vec<u8>, AllocError>
    ensures { IfOk result (λ text. text.items
        ≡ text_of (shown_of problem.now (negsuc (2 ^ 127 - 1))) problem.now.scale) }
{
    let _columns = problem.columns();
    let text = decimal_text(alloc, i128::MIN, problem.scale())?;
    match problem.sense() {
        Sense::Min => Ok(text),
        Sense::Max => without_first(alloc, &text),
    }
}

fn without_first(alloc: Global, text: &[u8]) -> Result<Vec<u8>, AllocError>
    ensures { IfOk result (λ rest. rest.items ≡ drop 1 text.now) }
{
    let mut rest = Vec::new(alloc);
    if let [_, bytes @ ..] = text {
        rest.extend_from_slice(bytes)?;
    }
    Ok(rest)
}

fn push_columns(
    alloc: Global,
    text: &mut Vec<u8>,
    columns: &[Column],
    point: &[i64],
) -> Result<(), AllocError>
    ensures { OnOk result (text.new.items ≡ text.old.items ++ column_lines columns.now point.now) }
{
    for j in 0..columns.len().min(point.len()) {
        push_column(alloc, text, &columns[j], point[j])?;
    }
    Ok(())
}

fn push_column(
    alloc: Global,
    text: &mut Vec<u8>,
    column: &Column,
    entry: i64,
) -> Result<(), AllocError>
    ensures { OnOk result (text.new.items ≡ text.old.items ++ column_line column.now entry) }
{
    text.extend_from_slice(b"col ")?;
    text.extend_from_slice(column.name.bytes())?;
    text.extend_from_slice(b" ")?;
    push_number(alloc, text, entry)?;
    text.extend_from_slice(b"\n")
}

pub fn push_number(alloc: Global, text: &mut Vec<u8>, number: i64) -> Result<(), AllocError>
    ensures { OnOk result (text.new.items ≡ text.old.items ++ signed_decimal number) }
{
    let digits = format!(in alloc; "{number}")?;
    text.extend_from_slice(digits.as_bytes())
}
