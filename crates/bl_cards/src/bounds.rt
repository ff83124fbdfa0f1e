//! The BOUNDS section.
ghost use Rattle.std.specs.Prelude.{◌≡◌, ◌<◌, ◌^◌, map, [], ◌∷◌, unsigned_abs, IfOk};
ghost use Rattle.bl_cards.specs.Said.{no_set};
ghost use Rattle.bl_cards.specs.Lines.{act_of, has_number, bound_at, number_card, plain_card};
ghost use Rattle.bl_cards.specs.Lines.{number_words, plain_words, bounds_line, with_set};
ghost use Rattle.bl_cards.specs.Lines.{is_first_set};
ghost use Rattle.bl_cards.specs.Views.{Follows, Gives, card_of};

use crate::fault::LineFault;
use crate::kind::{Act, What};
use crate::names::Names;
use crate::number::bound;
use std::alloc::Global;
use std::marker::Model;

/// A card of BOUNDS. The number is 0 where the card has none.
#[derive(Clone, Copy)]
pub struct BoundCard<'a> {
    pub column: &'a [u8],
    pub act: Act,
    pub number: i64,
}

/// The bound cards of a file so far, in file order: those of the first set alone.
#[derive(Drop)]
pub struct Bounds<'a> {
    set: Option<&'a [u8]>,
    cards: Vec<BoundCard<'a>>,
}

impl<'a> Model for Bounds<'a> {
    ghost use Rattle.std.specs.Prelude.{map};
    ghost use Rattle.bl_cards.specs.Said.{SetOf, Card};
    ghost use Rattle.bl_cards.specs.Views.{card_of, set_name};

    ghost Value = { SetOf Card };

    ghost view = { λ b. record { set = set_name b.set; given = map card_of b.cards.items } };
}

/// What a card of this kind does.
fn act_of(kind: &[u8]) -> Option<Act>
    ensures { result ≡ act_of kind.now }
{
    if kind == b"UP".as_slice() {
        Some(Act::High)
    } else if kind == b"LO".as_slice() {
        Some(Act::Low)
    } else if kind == b"FX".as_slice() {
        Some(Act::Both)
    } else if kind == b"FR".as_slice() {
        Some(Act::Free)
    } else if kind == b"MI".as_slice() {
        Some(Act::NoLow)
    } else if kind == b"PL".as_slice() {
        Some(Act::NoHigh)
    } else if kind == b"BV".as_slice() {
        Some(Act::Binary)
    } else if kind == b"UI".as_slice() {
        Some(Act::WholeHigh)
    } else if kind == b"LI".as_slice() {
        Some(Act::WholeLow)
    } else {
        None
    }
}

/// Whether a card of this kind has a number.
fn has_number(act: Act) -> bool
    ensures { result ≡ has_number act }
{
    matches!(
        act,
        Act::High | Act::Low | Act::Both | Act::WholeHigh | Act::WholeLow
    )
}

impl<'a> Bounds<'a> {
    pub(crate) fn new(alloc: Global) -> Bounds<'a>
        ensures { result ≡ no_set }
    {
        Bounds {
            set: None,
            cards: Vec::new(alloc),
        }
    }

    /// The cards, in file order.
    pub fn cards(&self) -> &[BoundCard<'a>]
        ensures { map card_of result.now ≡ self.now.given }
    {
        &self.cards
    }

    /// Whether a line of this set counts.
    fn counts(&self, name: &[u8]) -> bool
        ensures { result ≡ is_first_set self.now.set name.now }
    {
        match self.set {
            None => true,
            Some(first) => name == first,
        }
    }

    fn enter(&mut self, name: &'a [u8])
        ensures { self.new ≡ with_set self.old name.now }
    {
        self.set = Some(name);
    }

    /// Takes a column and its bound.
    fn number_card(
        &mut self,
        columns: &Names<'a>,
        act: Act,
        column: &'a [u8],
        word: &[u8],
    ) -> Result<(), LineFault>
        ensures { Follows result (number_card columns.now act self.old column.now word.now)
            self.new }
    {
        if columns.find(column).is_none() {
            return Err(LineFault::Broken(What::UnknownColumn));
        }
        match bound(word) {
            Ok(number) => {
                self.cards.push(BoundCard {
                    column,
                    act,
                    number,
                })?;
                Ok(())
            }
            Err(fault) => Err(fault),
        }
    }

    /// Takes a column.
    fn plain_card(
        &mut self,
        columns: &Names<'a>,
        act: Act,
        column: &'a [u8],
    ) -> Result<(), LineFault>
        ensures { Follows result (plain_card columns.now act self.old column.now) self.new }
    {
        if columns.find(column).is_none() {
            return Err(LineFault::Broken(What::UnknownColumn));
        }
        self.cards.push(BoundCard {
            column,
            act,
            number: 0,
        })?;
        Ok(())
    }

    /// Takes what follows a kind that has a number.
    fn number_words(
        &mut self,
        columns: &Names<'a>,
        act: Act,
        words: &[&'a [u8]],
    ) -> Result<(), LineFault>
        ensures { Follows result (number_words columns.now act self.old
            (map (λ w. w.now) words.now)) self.new }
    {
        match words {
            [column, word] => self.number_card(columns, act, column, word),
            [set, column, word] => {
                if !self.counts(set) {
                    return Ok(());
                }
                self.enter(set);
                self.number_card(columns, act, column, word)
            }
            _ => Err(LineFault::Broken(What::Words)),
        }
    }

    /// Takes what follows another kind.
    fn plain_words(
        &mut self,
        columns: &Names<'a>,
        act: Act,
        words: &[&'a [u8]],
    ) -> Result<(), LineFault>
        ensures { Follows result (plain_words columns.now act self.old
            (map (λ w. w.now) words.now)) self.new }
    {
        match words {
            [column] => self.plain_card(columns, act, column),
            [set, column] | [set, column, _] => {
                if !self.counts(set) {
                    return Ok(());
                }
                self.enter(set);
                self.plain_card(columns, act, column)
            }
            _ => Err(LineFault::Broken(What::Words)),
        }
    }

    /// Takes the words of a line of the section.
    pub(crate) fn line(&mut self, columns: &Names<'a>, words: &[&'a [u8]]) -> Result<(), LineFault>
        ensures { Follows result (bounds_line columns.now self.old (map (λ w. w.now) words.now))
            self.new }
    {
        match words {
            [kind, words @ ..] => match act_of(kind) {
                Some(act) if has_number(act) => self.number_words(columns, act, words),
                Some(act) => self.plain_words(columns, act, words),
                None => Err(LineFault::Broken(What::Words)),
            },
            [] => Err(LineFault::Broken(What::Words)),
        }
    }
}
