//! The COLUMNS section.
ghost use Rattle.std.specs.Prelude.{◌≡◌, map, ◌<◌, length, OnOk, [], ◌∷◌};
ghost use Rattle.bl_cards.specs.Said.{no_columns};
ghost use Rattle.bl_cards.specs.Lines.{at_column, add_cell, put_cell, cell, cell_too};
ghost use Rattle.bl_cards.specs.Lines.{column_cell, column_line, columns_line, marker};
ghost use Rattle.bl_cards.specs.Lines.{marker_line, is_marker, is_extra};
ghost use Rattle.bl_cards.specs.Views.{Follows, cell_of};

use crate::fault::LineFault;
use crate::hashing::FileHash;
use crate::kind::{Role, What};
use crate::names::Names;
use crate::number::number;
use crate::rows::Rows;
use bl_num::Decimal;
use std::alloc::Global;
use std::marker::Model;

/// A number of COLUMNS: the place of its column, and its row's name.
#[derive(Clone, Copy)]
pub struct RowCell<'a> {
    pub column: u32,
    pub row: &'a [u8],
    pub number: Decimal,
}

/// The columns of a file so far, and their numbers.
#[derive(Drop)]
pub struct Columns<'a> {
    names: Names<'a>,
    whole: Vec<bool>,
    cells: Vec<RowCell<'a>>,
    is_open: bool,
    in_stretch: bool,
    /// The rows in which the last column has a number.
    here: Names<'a>,
}

impl<'a> Model for Columns<'a> {
    ghost use Rattle.std.specs.Prelude.{map};
    ghost use Rattle.bl_cards.specs.Said.{Grid};
    ghost use Rattle.bl_cards.specs.Views.{cell_of, IsGrid};

    ghost Value = { Grid };

    ghost view = { λ c. record {
      names = c.names;
      whole = c.whole.items;
      cells =
          map cell_of c.cells.items;
      is_open = c.is_open;
      in_stretch = c.in_stretch;
    } };

    ghost invariant = { λ c. IsGrid c.names c.whole.items (map cell_of c.cells.items) c.here };
}

/// Whether the words are those of a marker line.
fn is_marker(words: &[&[u8]]) -> bool
    ensures { result ≡ is_marker (map (λ w. w.now) words.now) }
{
    match words {
        [_, mark, ..] => *mark == b"'MARKER'".as_slice(),
        _ => false,
    }
}

impl<'a> Columns<'a> {
    pub(crate) fn new(alloc: Global, hash: FileHash) -> Columns<'a>
        ensures { result ≡ no_columns }
    {
        Columns {
            names: Names::new(alloc, hash),
            whole: Vec::new(alloc),
            cells: Vec::new(alloc),
            is_open: false,
            in_stretch: false,
            here: Names::new(alloc, hash),
        }
    }

    /// The columns' names.
    pub fn names(&self) -> &Names<'a>
        ensures { result.now ≡ self.now.names }
    {
        &self.names
    }

    /// Whether each column stands in a marker stretch.
    pub fn whole(&self) -> &[bool]
        ensures whole { result.now ≡ self.now.whole }
        ensures as_many { length self.now.whole ≡ length self.now.names }
    {
        &self.whole
    }

    /// The numbers, in file order.
    pub fn cells(&self) -> &[RowCell<'a>]
        ensures { map cell_of result.now ≡ self.now.cells }
    {
        &self.cells
    }

    /// Goes on with the open column, or starts a new one.
    fn start(&mut self, name: &'a [u8]) -> Result<(), LineFault>
        ensures said { Follows result (at_column self.old name.now) self.new }
        ensures some { OnOk result (0 < length self.new.names) }
    {
        match self.names.find(name) {
            Some(place) if self.is_open && place + 1 == self.names.len() => Ok(()),
            Some(_) => Err(LineFault::Broken(What::Twice)),
            None if self.names.len() >= 1000 => Err(LineFault::Broken(What::TooMany)),
            None => {
                self.whole.reserve(1)?;
                self.names.add(name)?;
                self.whole.push_reserved(self.in_stretch);
                self.here.clear();
                self.is_open = true;
                Ok(())
            }
        }
    }

    /// Puts a number of the last column.
    fn add(&mut self, row: &'a [u8], number: Decimal) -> Result<(), LineFault>
        requires { 0 < length self.old.names }
        ensures said { Follows result (add_cell self.old row.now number) self.new }
        ensures names { self.new.names ≡ self.old.names }
    {
        if self.here.find(row).is_some() {
            return Err(LineFault::Broken(What::Twice));
        }
        let column = (self.names.len() - 1) as u32;
        self.cells.reserve(1)?;
        self.here.add(row)?;
        self.cells.push_reserved(RowCell {
            column,
            row,
            number,
        });
        Ok(())
    }

    /// Puts a number, or passes it over where its row is an extra one.
    fn put(&mut self, row: &'a [u8], number: Decimal, role: Role) -> Result<(), LineFault>
        requires { 0 < length self.old.names }
        ensures said { Follows result (put_cell self.old row.now number role) self.new }
        ensures names { self.new.names ≡ self.old.names }
    {
        if matches!(role, Role::Extra) {
            return Ok(());
        }
        self.add(row, number)
    }

    /// Takes a row and a number.
    fn cell(&mut self, rows: &Rows<'a>, row: &'a [u8], word: &[u8]) -> Result<(), LineFault>
        requires { 0 < length self.old.names }
        ensures said { Follows result (cell rows.now self.old row.now word.now) self.new }
        ensures names { self.new.names ≡ self.old.names }
    {
        let Some(role) = rows.role(row) else {
            return Err(LineFault::Broken(What::UnknownRow));
        };
        match number(word) {
            Ok(number) => self.put(row, number, role),
            Err(fault) => Err(fault),
        }
    }

    /// Takes a column, a row and a number.
    fn column_cell(
        &mut self,
        rows: &Rows<'a>,
        name: &'a [u8],
        row: &'a [u8],
        word: &[u8],
    ) -> Result<(), LineFault>
        ensures said { Follows result (column_cell rows.now self.old name.now row.now word.now)
            self.new }
        ensures some { OnOk result (0 < length self.new.names) }
    {
        match self.start(name) {
            Ok(()) => self.cell(rows, row, word),
            Err(fault) => Err(fault),
        }
    }

    /// Takes a column, and two pairs of a row and a number.
    fn column_cells(
        &mut self,
        rows: &Rows<'a>,
        name: &'a [u8],
        first: (&'a [u8], &[u8]),
        second: (&'a [u8], &[u8]),
    ) -> Result<(), LineFault>
        ensures { Follows result (cell_too rows.now
            (column_cell rows.now self.old name.now first.entry.0.now first.entry.1.now)
            second.entry.0.now second.entry.1.now) self.new }
    {
        match self.column_cell(rows, name, first.0, first.1) {
            Ok(()) => self.cell(rows, second.0, second.1),
            Err(fault) => Err(fault),
        }
    }

    /// Takes a column, and one or two pairs of a row and a number.
    fn column_line(&mut self, rows: &Rows<'a>, words: &[&'a [u8]]) -> Result<(), LineFault>
        ensures { Follows result (column_line rows.now self.old (map (λ w. w.now) words.now))
            self.new }
    {
        match words {
            [name, row, word] => self.column_cell(rows, name, row, word),
            [name, row, word, row2, word2] => {
                self.column_cells(rows, name, (row, word), (row2, word2))
            }
            _ => Err(LineFault::Broken(What::Words)),
        }
    }

    /// Begins or ends a stretch of whole columns.
    fn marker(&mut self, word: &[u8]) -> Result<(), LineFault>
        ensures { Follows result (marker self.old word.now) self.new }
    {
        let begins = word == b"'INTORG'".as_slice();
        if !begins && word != b"'INTEND'".as_slice() {
            return Err(LineFault::Broken(What::Marker));
        }
        if begins == self.in_stretch {
            return Err(LineFault::Broken(What::Marker));
        }
        self.in_stretch = begins;
        self.is_open = false;
        Ok(())
    }

    /// Takes the words of a line of the section.
    pub(crate) fn line(&mut self, rows: &Rows<'a>, words: &[&'a [u8]]) -> Result<(), LineFault>
        ensures { Follows result (columns_line rows.now self.old (map (λ w. w.now) words.now))
            self.new }
    {
        if !is_marker(words) {
            return self.column_line(rows, words);
        }
        match words {
            [_, _, word] => self.marker(word),
            _ => Err(LineFault::Broken(What::Marker)),
        }
    }
}
