//! The problem that a file said.
ghost use Rattle.std.specs.Prelude.{◌≡◌, ◌≢◌, ◌≤◌, ◌<◌, ◌^◌, All, nat_abs, [], length, map, List};
ghost use Rattle.std.specs.Prelude.{slice_index_or, true, IfOk, None, Ok, ◌||◌};
ghost use Rattle.std.specs.List.{list_all};
ghost use Rattle.bl_num.specs.Exact.{at};
ghost use Rattle.bl_cards.specs.Said.{RowLine};
ghost use Rattle.bl_cards.specs.Lines.{is_limited, has_objective, objective_in};
ghost use Rattle.bl_mps.specs.Meaning.{finished, limited, keeps_limits, program_of, has_ends};
ghost use Rattle.bl_mps.specs.Meaning.{ends_or, binary, ends_set, end_or_zero, column_of};
ghost use Rattle.bl_mps.specs.Meaning.{columns_from, entries_of, row_in, row_of, row_within};
ghost use Rattle.bl_mps.specs.Meaning.{rows_of, places_of, objective_of, objective_in_units};
ghost use Rattle.bl_mps.specs.Meaning.{term_within, objective_within, all_ends, are_whole};
ghost use Rattle.bl_mps.specs.Meaning.{are_bounded, IsRowRead};
ghost use Rattle.bl_cards.specs.Coherence.{IsCoherent, AreRows};
ghost use Rattle.bl_cards.specs.Views.{Gives};
ghost use Rattle.bl_mps.specs.Views.{row_said};
ghost use Rattle.bl_problem.specs.declared.problem.Term.{Term};
ghost use Rattle.bl_problem.specs.Program.{IsName, IsRowName};
ghost use Rattle.bl_problem.specs.Rows.{coefficient_of};
ghost use Rattle.bl_problem.specs.Points.{in_sense};

use crate::ends::{Ends, column_ends, or_binary};
use crate::entries::{Entry, dense, row_entries};
use crate::scale::{offset, or_zero, places_of, row_ends, terms};
use bl_cards::{LineFault, Reader, Role, What, is_limited};
use bl_mods::Items;
use bl_num::Decimal;
use bl_problem::{Column, Name, Problem, Row, Sense, Term};
use std::alloc::{AllocError, Global};

/// A name of its own.
fn make_name(alloc: Global, bytes: &[u8]) -> Result<Name, AllocError>
    requires { bytes.now ≢ [] }
    ensures { IfOk result (λ name. name ≡ bytes.now) }
{
    let mut copy = Vec::new(alloc);
    copy.extend_from_slice(bytes)?;
    Ok(Name::new(copy))
}

/// A row from its numbers, TooWide where one is beyond the limits in the row's own units.
fn make_row(
    alloc: Global,
    name: &[u8],
    role: Role,
    entries: &[Entry],
    right: Decimal,
    range: Option<Decimal>,
) -> Result<Row, LineFault>
    requires name { name.now ≢ [] }
    requires limited { is_limited role ≡ true }
    requires read { IsRowRead (row_said entries.now right range) }
    ensures { Gives result
        (limited row_within (row_in (places_of (row_said entries.now right range))
        (record { name = name.now; role = role }) (row_said entries.now right range))) }
{
    let places = places_of(entries, right, range);
    let Some(ends) = row_ends(role, right, range, places) else {
        return Err(LineFault::Broken(What::TooWide));
    };
    match terms(alloc, entries, places) {
        Ok(terms) => Ok(Row {
            name: make_name(alloc, name)?,
            terms,
            low: ends.low,
            high: ends.high,
        }),
        Err(fault) => Err(fault),
    }
}

/// The row at a place, from its entries.
fn row_at(
    alloc: Global,
    reader: &Reader<'_>,
    place: usize,
    entries: &[Entry],
) -> Result<Row, LineFault>
    requires place { place < length reader.now.rows }
    requires coherent { IsCoherent reader.now }
    requires limited { (d : RowLine) → is_limited (slice_index_or reader.now.rows place d).role
        ≡ true }
    requires entries { (d : RowLine) → entries.now
        ≡ entries_of reader.now.columns.cells (slice_index_or reader.now.rows place d).name }
    ensures { (d : RowLine) → Gives result
        (limited row_within (row_of reader.now (slice_index_or reader.now.rows place d))) }
{
    let name = reader.rows().name(place);
    let right = or_zero(reader.rhs().number(name));
    let range = reader.ranges().number(name);
    make_row(
        alloc,
        name,
        reader.rows().role_at(place),
        entries,
        right,
        range,
    )
}

/// The rows with ends, from the entries of each row. TooWide where a number of one is beyond the
/// limits.
fn make_rows(
    alloc: Global,
    reader: &Reader<'_>,
    entries: &[Items<Entry>],
) -> Result<Items<Row>, LineFault>
    requires coherent { IsCoherent reader.now }
    requires entries { entries.now ≡ map (entries_of reader.now.columns.cells)
        (map (λ r. r.name) reader.now.rows) }
    ensures { Gives result (limited (list_all row_within) (rows_of reader.now)) }
{
    let mut rows = Items::new(alloc);
    for i in 0..reader.rows().len() {
        if is_limited(reader.rows().role_at(i)) {
            match row_at(alloc, reader, i, entries[i].as_slice()) {
                Ok(row) => rows.push(row)?,
                Err(fault) => return Err(fault),
            }
        }
    }
    Ok(rows)
}

/// A cost in the problem's sense.
fn cost_in(sense: Sense, cost: i64) -> i64
    requires { nat_abs cost ≤ 10 ^ 15 }
    ensures { result ≡ in_sense sense cost }
{
    match sense {
        Sense::Min => cost,
        Sense::Max => -cost,
    }
}

/// A constant in the problem's sense.
fn offset_in(sense: Sense, offset: i128) -> i128
    requires { nat_abs offset ≤ 10 ^ 24 }
    ensures { result ≡ in_sense sense offset }
{
    match sense {
        Sense::Min => offset,
        Sense::Max => -offset,
    }
}

/// The column at a place, from its ends and its number in the objective.
fn column_at(
    alloc: Global,
    reader: &Reader<'_>,
    place: usize,
    ends: Option<Ends>,
    cost: i64,
) -> Result<Column, AllocError>
    requires place { place < length reader.now.columns.names }
    requires names { All IsName reader.now.columns.names }
    requires ends { ends ≡ ends_set reader.now.bounds.given
        (slice_index_or reader.now.columns.names place []) }
    requires cost { nat_abs cost ≤ 10 ^ 15 }
    ensures { IfOk result (λ column. (costs : List Term) → cost ≡ coefficient_of costs place
        → column ≡ column_of reader.now costs place
        (slice_index_or reader.now.columns.names place [])) }
{
    let ends = or_binary(ends);
    Ok(Column {
        name: make_name(alloc, reader.columns().names().name(place))?,
        low: ends.low.unwrap_or(0),
        high: ends.high.unwrap_or(0),
        cost: cost_in(reader.sense(), cost),
    })
}

/// The columns, from their ends and the objective's terms.
fn make_columns(
    alloc: Global,
    reader: &Reader<'_>,
    ends: &[Option<Ends>],
    objective: &[Term],
) -> Result<Vec<Column>, AllocError>
    requires names { All IsName reader.now.columns.names }
    requires ends { ends.now ≡ all_ends reader.now }
    requires within { list_all term_within objective.now ≡ true }
    ensures { IfOk result (λ columns. columns.items ≡ columns_from reader.now objective.now 0
        reader.now.columns.names) }
{
    let count = reader.columns().names().len();
    let costs = dense(alloc, objective, count)?;
    let mut columns = Vec::new(alloc);
    for j in 0..count {
        columns.push(column_at(alloc, reader, j, ends[j], costs[j])?)?;
    }
    Ok(columns)
}

/// The objective as the file says it, in units of 10^-scale.
#[derive(Drop)]
pub struct ScaledObjective {
    pub name: Name,
    pub costs: Items<Term>,
    /// How many decimal places values have.
    pub scale: u32,
    pub offset: i128,
}

/// The objective from its numbers, TooWide where a cost or the constant is beyond the limits.
fn make_objective(
    alloc: Global,
    name: &[u8],
    entries: &[Entry],
    right: Decimal,
) -> Result<ScaledObjective, LineFault>
    requires name { name.now ≢ [] }
    requires read { IsRowRead (row_said entries.now right None) }
    ensures { Gives result (limited objective_within
        (objective_in_units name.now (row_said entries.now right None))) }
{
    let scale = places_of(entries, right, None);
    let Some(offset) = offset(right, scale) else {
        return Err(LineFault::Broken(What::TooWide));
    };
    match terms(alloc, entries, scale) {
        Ok(costs) => Ok(ScaledObjective {
            name: make_name(alloc, name)?,
            costs,
            scale,
            offset,
        }),
        Err(fault) => Err(fault),
    }
}

/// The objective at a place, from its entries.
fn objective_at(
    alloc: Global,
    reader: &Reader<'_>,
    place: usize,
    entries: &[Entry],
) -> Result<ScaledObjective, LineFault>
    requires place { place < length reader.now.rows }
    requires coherent { IsCoherent reader.now }
    requires name { (d : RowLine) → (slice_index_or reader.now.rows place d).name
        ≡ objective_in reader.now.rows }
    requires entries { entries.now
        ≡ entries_of reader.now.columns.cells (objective_in reader.now.rows) }
    ensures { Gives result (limited objective_within (objective_of reader.now)) }
{
    let name = reader.rows().name(place);
    let right = or_zero(reader.rhs().number(name));
    make_objective(alloc, name, entries, right)
}

/// Whether a column has both ends.
fn has_ends(ends: Option<Ends>) -> bool
    ensures { result ≡ has_ends (ends_or binary ends) }
{
    let ends = or_binary(ends);
    ends.low.is_some() && ends.high.is_some()
}

/// Whether each column has both ends.
fn are_bounded(ends: &[Option<Ends>]) -> bool
    ensures { result ≡ are_bounded ends.now }
{
    ends.iter().all(|&end| has_ends(end))
}

/// Whether a column stands in a marker stretch, or has a card that says that it is whole.
fn is_whole(in_stretch: bool, ends: Option<Ends>) -> bool
    ensures { result ≡ (in_stretch || (ends_or binary ends).is_whole) }
{
    in_stretch || or_binary(ends).is_whole
}

/// Whether each column stands in a marker stretch, or has a card that says that it is whole.
fn are_whole(ends: &[Option<Ends>], whole: &[bool]) -> bool
    requires { length whole.now ≡ length ends.now }
    ensures { result ≡ are_whole ends.now whole.now }
{
    for j in 0..ends.len() {
        if !is_whole(whole[j], ends[j]) {
            return false;
        }
    }
    true
}

/// The ends that the cards of each column set.
fn all_ends(alloc: Global, reader: &Reader<'_>) -> Result<Vec<Option<Ends>>, AllocError>
    ensures { IfOk result (λ ends. ends.items ≡ all_ends reader.now) }
{
    column_ends(alloc, reader.columns().names(), reader.bounds().cards())
}

/// The entries of each row.
fn all_entries(alloc: Global, reader: &Reader<'_>) -> Result<Vec<Items<Entry>>, AllocError>
    ensures { IfOk result (λ entries. entries.items ≡ map (entries_of reader.now.columns.cells)
        (map (λ r. r.name) reader.now.rows)) }
{
    row_entries(alloc, reader.rows().names(), reader.columns().cells())
}

/// The problem, from its objective in units, the ends of its columns and the entries of its
/// rows. TooWide where a number is beyond the limits.
fn build(
    alloc: Global,
    reader: &Reader<'_>,
    objective: ScaledObjective,
    ends: &[Option<Ends>],
    entries: &[Items<Entry>],
) -> Result<Problem, LineFault>
    requires coherent { IsCoherent reader.now }
    requires some { has_objective reader.now.rows ≡ true }
    requires objective { limited objective_within (objective_of reader.now) ≡ Ok objective }
    requires ends { ends.now ≡ all_ends reader.now }
    requires entries { entries.now ≡ map (entries_of reader.now.columns.cells)
        (map (λ r. r.name) reader.now.rows) }
    ensures { Gives result (limited keeps_limits (program_of reader.now)) }
{
    match make_rows(alloc, reader, entries) {
        Ok(rows) => {
            let columns = make_columns(alloc, reader, ends, objective.costs.as_slice())?;
            Ok(Problem::new(
                columns,
                rows.into_vec(),
                objective.name,
                objective.scale,
                offset_in(reader.sense(), objective.offset),
                reader.sense(),
            ))
        }
        Err(fault) => Err(fault),
    }
}

/// The problem that was said, or the first rule that the file as a whole breaks.
pub fn finish(alloc: Global, reader: &Reader<'_>) -> Result<Problem, LineFault>
    requires { IsCoherent reader.now }
    ensures { Gives result (finished reader.now) }
{
    let Some(place) = reader.rows().objective() else {
        return Err(LineFault::Broken(What::NoObjective));
    };
    let ends = all_ends(alloc, reader)?;
    if !are_whole(&ends, reader.columns().whole()) {
        return Err(LineFault::Broken(What::NotWhole));
    }
    if !are_bounded(&ends) {
        return Err(LineFault::Broken(What::Unbounded));
    }
    let entries = all_entries(alloc, reader)?;
    match objective_at(alloc, reader, place, entries[place].as_slice()) {
        Ok(objective) => build(alloc, reader, objective, &ends, &entries),
        Err(fault) => Err(fault),
    }
}
