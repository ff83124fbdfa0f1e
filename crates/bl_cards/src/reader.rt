//! The reader, which takes the lines of a file in turn.
ghost use Rattle.std.specs.Prelude.{◌≡◌, ◌+◌, ◌<◌, ◌^◌, map, length, IfOk};
ghost use Rattle.bl_text.specs.Pieces.{lines_of, words_of};
ghost use Rattle.bl_cards.specs.declared.kind.Section.TheVariants.{Objsense};
ghost use Rattle.bl_cards.specs.Said.{nothing_said};
ghost use Rattle.bl_cards.specs.Lines.{data_line, section_line, sense_or_min};
ghost use Rattle.bl_cards.specs.Reading.{after_line, said_from, spoken, is_end};
ghost use Rattle.bl_cards.specs.Coherence.{IsCoherent};
ghost use Rattle.bl_cards.specs.Views.{Follows, Reads};

use crate::bounds::Bounds;
use crate::columns::Columns;
use crate::fault::{LineFault, ModelFault};
use crate::given::RowNumbers;
use crate::hashing::FileHash;
use crate::kind::{Section, What};
use crate::rows::Rows;
use crate::section::{is_end, may_follow, section_of};
use crate::sense::{lacks_word, opened_sense, sense_line, sense_or_min};
use bl_problem::Sense;
use bl_text::{is_blank, lines, words};
use std::alloc::{AllocError, Global};
use std::marker::Model;

/// What a file has said so far. Contracts see the lists of `specs/Said.antt`.
#[derive(Drop)]
pub struct Reader<'a> {
    section: Section,
    /// What OBJSENSE asked for, once its word came.
    sense: Option<Sense>,
    rows: Rows<'a>,
    columns: Columns<'a>,
    rhs: RowNumbers<'a>,
    ranges: RowNumbers<'a>,
    bounds: Bounds<'a>,
}

impl<'a> Model for Reader<'a> {
    ghost use Rattle.bl_cards.specs.Said.{Said};

    ghost Value = { Said };

    ghost view = { λ r. record {
      section = r.section;
      sense = r.sense;
      rows = r.rows;
      columns =
          r.columns;
      rhs = r.rhs;
      ranges = r.ranges;
      bounds = r.bounds;
    } };
}

/// What a whole file said, and the number of its ENDATA line, counted from 1.
#[derive(Drop)]
pub struct Whole<'a> {
    pub said: Reader<'a>,
    pub last: u32,
}

/// The words of a line, in order.
fn all_words<'a>(alloc: Global, line: &'a [u8]) -> Result<Vec<&'a [u8]>, AllocError>
    ensures { IfOk result (λ all. map (λ w. w.now) all.items ≡ words_of line.now) }
{
    let mut all = Vec::new(alloc);
    for word in words(line) {
        all.push(word)?;
    }
    Ok(all)
}

impl<'a> Reader<'a> {
    /// Nothing is said; names will be hashed so. Takes no memory.
    pub fn new(alloc: Global, hash: FileHash) -> Reader<'a>
        ensures nothing { result ≡ nothing_said }
        ensures coherent { IsCoherent result }
    {
        Reader {
            section: Section::Start,
            sense: None,
            rows: Rows::new(alloc, hash),
            columns: Columns::new(alloc, hash),
            rhs: RowNumbers::new(alloc, hash),
            ranges: RowNumbers::new(alloc, hash),
            bounds: Bounds::new(alloc),
        }
    }

    /// What the file asks for: the least or the greatest value of its objective, and the least
    /// without OBJSENSE.
    pub fn sense(&self) -> Sense
        ensures { result ≡ sense_or_min self.now.sense }
    {
        sense_or_min(self.sense)
    }

    /// The rows that ROWS names.
    pub fn rows(&self) -> &Rows<'a>
        ensures { result.now ≡ self.now.rows }
    {
        &self.rows
    }

    /// What COLUMNS gave.
    pub fn columns(&self) -> &Columns<'a>
        ensures { result.now ≡ self.now.columns }
    {
        &self.columns
    }

    /// The right sides.
    pub fn rhs(&self) -> &RowNumbers<'a>
        ensures { result.now ≡ self.now.rhs }
    {
        &self.rhs
    }

    /// The ranges.
    pub fn ranges(&self) -> &RowNumbers<'a>
        ensures { result.now ≡ self.now.ranges }
    {
        &self.ranges
    }

    /// The bound cards.
    pub fn bounds(&self) -> &Bounds<'a>
        ensures { result.now ≡ self.now.bounds }
    {
        &self.bounds
    }

    /// Whether the ENDATA line was taken.
    fn is_done(&self) -> bool
        ensures { result ≡ is_end self.now.section }
    {
        is_end(self.section)
    }

    /// Takes the words of a line of OBJSENSE.
    fn sense_line(&mut self, words: &[&'a [u8]]) -> Result<(), LineFault>
        ensures { Follows result (data_line Objsense self.old (map (λ w. w.now) words.now))
            self.new }
    {
        match sense_line(self.sense, words) {
            Ok(sense) => {
                self.sense = sense;
                Ok(())
            }
            Err(fault) => Err(fault),
        }
    }

    /// Takes the words of a data line of the section that is open.
    fn data_line(&mut self, words: &[&'a [u8]]) -> Result<(), LineFault>
        ensures { Follows result (data_line self.old.section self.old
            (map (λ w. w.now) words.now)) self.new }
    {
        match self.section {
            Section::Start | Section::Name | Section::End => Err(LineFault::Broken(What::Section)),
            Section::Objsense => self.sense_line(words),
            Section::Rows => self.rows.line(words),
            Section::Columns => self.columns.line(&self.rows, words),
            Section::Rhs => self.rhs.line(false, &self.rows, words),
            Section::Ranges => self.ranges.line(true, &self.rows, words),
            Section::Bounds => self.bounds.line(self.columns.names(), words),
        }
    }

    /// Opens the section that a section line names, and takes the sense that an OBJSENSE line
    /// gives.
    fn section_line(&mut self, name: &[u8], words: &[&'a [u8]]) -> Result<(), LineFault>
        ensures { Follows result (section_line self.old name.now (map (λ w. w.now) words.now))
            self.new }
    {
        let Some(next) = section_of(name) else {
            return Err(LineFault::Broken(What::Section));
        };
        if !may_follow(self.section, next) {
            return Err(LineFault::Broken(What::Section));
        }
        if lacks_word(self.section, self.sense) {
            return Err(LineFault::Broken(What::Words));
        }
        match opened_sense(next, self.sense, words) {
            Ok(sense) => {
                self.section = next;
                self.sense = sense;
                Ok(())
            }
            Err(fault) => Err(fault),
        }
    }

    /// Takes the words of a line that is no comment.
    fn spoken(&mut self, is_data: bool, words: &[&'a [u8]]) -> Result<(), LineFault>
        ensures { Follows result (spoken self.old is_data (map (λ w. w.now) words.now)) self.new }
    {
        match words {
            [] => Ok(()),
            [name, more @ ..] => {
                if is_data {
                    self.data_line(words)
                } else {
                    self.section_line(name, more)
                }
            }
        }
    }

    /// Takes a line.
    #[tactic(auto, unfolding(crate::specs::Reading::after_line))]
    fn line(&mut self, alloc: Global, line: &'a [u8]) -> Result<(), LineFault>
        ensures { Follows result (after_line self.old line.now) self.new }
    {
        match line {
            [] | [b'*', ..] => Ok(()),
            [first, ..] => match all_words(alloc, line) {
                Ok(words) => self.spoken(is_blank(*first), &words),
                Err(_) => Err(LineFault::Memory),
            },
        }
    }

    /// Takes the lines of a file of fewer than 2^32 - 1 bytes, up to the ENDATA line or to the
    /// first fault. `At` tells the first fault and its line, and comes exactly where a line
    /// breaks a rule or there is no ENDATA line; `Memory` comes only for want of memory.
    pub fn file(mut self, alloc: Global, bytes: &'a [u8]) -> Result<Whole<'a>, ModelFault>
        requires { length bytes.now + 1 < 2 ^ 32 }
        ensures said { Reads result (said_from 0 self.entry (lines_of bytes.now)) }
        ensures coherent { IsCoherent self.entry → IfOk result (λ whole. IsCoherent whole.said) }
    {
        let mut walk = lines(bytes);
        let mut last = 0;
        while let Some(line) = walk.next() {
            if self.is_done() {
                return Ok(Whole { said: self, last });
            }
            match self.line(alloc, line.bytes) {
                Ok(()) => {}
                Err(LineFault::Memory) => return Err(ModelFault::Memory),
                Err(LineFault::Broken(what)) => {
                    return Err(ModelFault::At {
                        line: line.number,
                        what,
                    });
                }
            }
            last = line.number;
        }
        if self.is_done() {
            Ok(Whole { said: self, last })
        } else {
            Err(ModelFault::At {
                line: last + 1,
                what: What::NoEnd,
            })
        }
    }
}
