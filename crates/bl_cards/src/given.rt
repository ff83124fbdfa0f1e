//! The RHS and RANGES sections.
ghost use Rattle.std.specs.Prelude.{◌≡◌, map, [], ◌∷◌, ◌++◌, OnOk, OnErr, false};
ghost use Rattle.bl_cards.specs.Said.{no_set};
ghost use Rattle.bl_cards.specs.Lines.{has_given, add_given, given, given_two, given_line};
ghost use Rattle.bl_cards.specs.Lines.{with_set, is_first_set, is_passed, given_for};
ghost use Rattle.bl_cards.specs.Views.{Follows};

use crate::fault::LineFault;
use crate::hashing::FileHash;
use crate::kind::{Role, What};
use crate::names::Names;
use crate::number::number;
use crate::rows::Rows;
use bl_num::Decimal;
use std::alloc::{AllocError, Global};
use std::marker::Model;

/// The numbers that were given for rows, each at most once.
#[derive(Drop)]
pub struct Numbers<'a> {
    rows: Names<'a>,
    numbers: Vec<Decimal>,
}

impl<'a> Model for Numbers<'a> {
    ghost use Rattle.std.specs.Prelude.{List, ◌≡◌, length};
    ghost use Rattle.bl_cards.specs.Said.{Given};
    ghost use Rattle.bl_cards.specs.Views.{given_lines};

    ghost Value = { List Given };

    ghost view = { λ g. given_lines g.rows g.numbers.items };

    ghost invariant = { λ g. length g.numbers.items ≡ length g.rows };
}

impl<'a> Numbers<'a> {
    pub fn new(alloc: Global, hash: FileHash) -> Numbers<'a>
        ensures { result ≡ [] }
    {
        Numbers {
            rows: Names::new(alloc, hash),
            numbers: Vec::new(alloc),
        }
    }

    /// Whether a row has a number.
    pub fn has(&self, row: &[u8]) -> bool
        ensures { result ≡ has_given self.now row.now }
    {
        self.rows.find(row).is_some()
    }

    /// The number of a row.
    pub fn number(&self, row: &[u8]) -> Option<Decimal>
        ensures { result ≡ given_for self.now row.now }
    {
        let place = self.rows.find(row)?;
        Some(self.numbers[place])
    }

    /// Puts the number of a row that has none.
    pub fn push(&mut self, row: &'a [u8], number: Decimal) -> Result<(), AllocError>
        requires { has_given self.old row.now ≡ false }
        ensures ok { OnOk result (self.new ≡ self.old ++ record { row = row.now; number = number }
            ∷ []) }
        ensures err { OnErr result (self.new ≡ self.old) }
    {
        self.numbers.reserve(1)?;
        self.rows.add(row)?;
        self.numbers.push_reserved(number);
        Ok(())
    }
}

/// What a section of numbers for rows gave: its first set alone counts.
#[derive(Drop)]
pub struct RowNumbers<'a> {
    set: Option<&'a [u8]>,
    numbers: Numbers<'a>,
}

impl<'a> Model for RowNumbers<'a> {
    ghost use Rattle.bl_cards.specs.Said.{SetOf, Given};
    ghost use Rattle.bl_cards.specs.Views.{set_name};

    ghost Value = { SetOf Given };

    ghost view = { λ g. record { set = set_name g.set; given = g.numbers } };
}

/// Whether numbers on a row are passed over.
fn is_passed(with_objective: bool, role: Role) -> bool
    ensures { result ≡ is_passed with_objective role }
{
    match role {
        Role::Extra => true,
        Role::Objective => with_objective,
        Role::AtMost | Role::AtLeast | Role::Equal => false,
    }
}

impl<'a> RowNumbers<'a> {
    pub(crate) fn new(alloc: Global, hash: FileHash) -> RowNumbers<'a>
        ensures { result ≡ no_set }
    {
        RowNumbers {
            set: None,
            numbers: Numbers::new(alloc, hash),
        }
    }

    /// The number of a row.
    pub fn number(&self, row: &[u8]) -> Option<Decimal>
        ensures { result ≡ given_for self.now.given row.now }
    {
        self.numbers.number(row)
    }

    /// Whether a line of this set counts.
    fn counts(&self, name: &[u8]) -> bool
        ensures { result ≡ is_first_set self.now.set name.now }
    {
        match self.set {
            None => true,
            Some(first) => name == first,
        }
    }

    fn enter(&mut self, name: &'a [u8])
        ensures { self.new ≡ with_set self.old name.now }
    {
        self.set = Some(name);
    }

    /// Puts the number of a row.
    fn add(&mut self, row: &'a [u8], number: Decimal) -> Result<(), LineFault>
        ensures { Follows result (add_given self.old row.now number) self.new }
    {
        if self.numbers.has(row) {
            return Err(LineFault::Broken(What::Twice));
        }
        self.numbers.push(row, number)?;
        Ok(())
    }

    /// Takes a row and a number.
    fn take(
        &mut self,
        with_objective: bool,
        rows: &Rows<'a>,
        row: &'a [u8],
        word: &[u8],
    ) -> Result<(), LineFault>
        ensures { Follows result (given with_objective rows.now self.old row.now word.now)
            self.new }
    {
        let Some(role) = rows.role(row) else {
            return Err(LineFault::Broken(What::UnknownRow));
        };
        match number(word) {
            Ok(number) => {
                if is_passed(with_objective, role) {
                    return Ok(());
                }
                self.add(row, number)
            }
            Err(fault) => Err(fault),
        }
    }

    /// Takes two pairs of a row and a number.
    fn take_two(
        &mut self,
        with_objective: bool,
        rows: &Rows<'a>,
        first: (&'a [u8], &[u8]),
        second: (&'a [u8], &[u8]),
    ) -> Result<(), LineFault>
        ensures { Follows result (given_two with_objective rows.now self.old first.entry.0.now
            first.entry.1.now second.entry.0.now second.entry.1.now) self.new }
    {
        match self.take(with_objective, rows, first.0, first.1) {
            Ok(()) => self.take(with_objective, rows, second.0, second.1),
            Err(fault) => Err(fault),
        }
    }

    /// Takes the words of a line of the section. In RANGES numbers on the objective are passed
    /// over, too.
    pub(crate) fn line(
        &mut self,
        with_objective: bool,
        rows: &Rows<'a>,
        words: &[&'a [u8]],
    ) -> Result<(), LineFault>
        ensures { Follows result (given_line with_objective rows.now self.old
            (map (λ w. w.now) words.now)) self.new }
    {
        match words {
            [row, word] => self.take(with_objective, rows, row, word),
            [set, row, word] => {
                if !self.counts(set) {
                    return Ok(());
                }
                self.enter(set);
                self.take(with_objective, rows, row, word)
            }
            [row, word, row2, word2] => {
                self.take_two(with_objective, rows, (row, word), (row2, word2))
            }
            [set, row, word, row2, word2] => {
                if !self.counts(set) {
                    return Ok(());
                }
                self.enter(set);
                self.take_two(with_objective, rows, (row, word), (row2, word2))
            }
            _ => Err(LineFault::Broken(What::Words)),
        }
    }
}
