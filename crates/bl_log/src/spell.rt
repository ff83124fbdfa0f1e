//! Values as words of a line.
ghost use Rattle.std.specs.Prelude.{◌≡◌, ◌++◌, ◌∷◌, ℕ, List, length, All, OnOk, IfOk, MatchResult};
ghost use Rattle.std.specs.String.{string_bytes};
ghost use Rattle.bl_log.specs.declared.fault.Miss.TheVariants.{Memory};
ghost use Rattle.bl_log.specs.Reading.{Reads};
ghost use Rattle.bl_log.specs.Spaced.{spaced, each, listed};
ghost use Rattle.bl_log.specs.Fits.{IsU32, IsI64, IsI128, IsStatus, ModFits, TermFits, CutFits};
ghost use Rattle.bl_log.specs.Fits.{ListFits};
ghost use Rattle.bl_log.specs.Log.{natural, integer, status, status_word, placed, term, cut};

use crate::fault::Miss;
use crate::tokens::{i64_in, i128_in, next_word, u32_in, usize_in};
use bl_desc::Status;
use bl_mods::{ItemId, Items, Mod, Shared};
use bl_problem::{Cut, Term};
use bl_text::WordWalk;
use std::alloc::{AllocError, Global};

/// A value that is written as words.
pub(crate) trait Spell {
    ghost use Rattle.std.specs.Prelude.{ℕ, List};

    ghost spelled: { Self → List (List ℕ) };

    ghost fits: { Self → Type 0 };

    /// Adds the words, with a space before each. `AllocError` where there is no memory.
    fn push(&self, text: &mut String) -> Result<(), AllocError>
        ensures laid { OnOk result (string_bytes text.new ≡ string_bytes text.old
            ++ spaced (spelled self.now)) }
        ensures fits { OnOk result (fits self.now) };

    /// Reads such a value from the words in front. `Words` where they spell none; `Memory` where
    /// there is no memory.
    fn read(alloc: Global, words: &mut WordWalk<'_>) -> Result<Self, Miss>
        ensures reads { Reads spelled fits words.old result words.new }
        ensures fits { IfOk result fits };
}

/// Adds a space and a word.
pub(crate) fn push_word(text: &mut String, word: &str) -> Result<(), AllocError>
    ensures { OnOk result (string_bytes text.new ≡ string_bytes text.old ++ 32 ∷ word.now) }
{
    text.push_str(" ")?;
    text.push_str(word)
}

impl Spell for u32 {
    ghost spelled = { natural };

    ghost fits = { IsU32 };

    fn push(&self, text: &mut String) -> Result<(), AllocError> {
        // The copy tells that the number is in the range of its type.
        let number = self.clone()?;
        write!(text, " {number}")?;
        Ok(())
    }

    fn read(_alloc: Global, words: &mut WordWalk<'_>) -> Result<u32, Miss> {
        let word = next_word(words)?;
        u32_in(word)
    }
}

impl Spell for i64 {
    ghost spelled = { integer };

    ghost fits = { IsI64 };

    fn push(&self, text: &mut String) -> Result<(), AllocError> {
        // The copy tells that the number is in the range of its type.
        let number = self.clone()?;
        write!(text, " {number}")?;
        Ok(())
    }

    fn read(_alloc: Global, words: &mut WordWalk<'_>) -> Result<i64, Miss> {
        let word = next_word(words)?;
        i64_in(word)
    }
}

impl Spell for i128 {
    ghost spelled = { integer };

    ghost fits = { IsI128 };

    fn push(&self, text: &mut String) -> Result<(), AllocError> {
        // The copy tells that the number is in the range of its type.
        let number = self.clone()?;
        write!(text, " {number}")?;
        Ok(())
    }

    fn read(_alloc: Global, words: &mut WordWalk<'_>) -> Result<i128, Miss> {
        let word = next_word(words)?;
        i128_in(word)
    }
}

impl Spell for Status {
    ghost spelled = { status };

    ghost fits = { IsStatus };

    fn push(&self, text: &mut String) -> Result<(), AllocError> {
        push_word(
            text,
            match self {
                Status::Basic => "B",
                Status::AtLow => "L",
                Status::AtHigh => "H",
            },
        )
    }

    fn read(_alloc: Global, words: &mut WordWalk<'_>) -> Result<Status, Miss> {
        let word = next_word(words)?;
        match word {
            [b'B'] => Ok(Status::Basic),
            [b'L'] => Ok(Status::AtLow),
            [b'H'] => Ok(Status::AtHigh),
            _ => Err(Miss::Words),
        }
    }
}

impl<T: Spell> Spell for Mod<T> {
    ghost spelled = { placed T.spelled };

    ghost fits = { ModFits T.fits };

    fn push(&self, text: &mut String) -> Result<(), AllocError> {
        self.place.push(text)?;
        self.entry.push(text)
    }

    fn read(alloc: Global, words: &mut WordWalk<'_>) -> Result<Mod<T>, Miss> {
        let place = u32::read(alloc, words)?;
        let entry = T::read(alloc, words)?;
        Ok(Mod { place, entry })
    }
}

impl Spell for Term {
    ghost spelled = { term };

    ghost fits = { TermFits };

    fn push(&self, text: &mut String) -> Result<(), AllocError> {
        self.column.push(text)?;
        self.coefficient.push(text)
    }

    fn read(alloc: Global, words: &mut WordWalk<'_>) -> Result<Term, Miss> {
        let column = u32::read(alloc, words)?;
        let coefficient = i64::read(alloc, words)?;
        Ok(Term {
            column,
            coefficient,
        })
    }
}

impl Spell for Shared<Cut> {
    ghost spelled = { cut };

    ghost fits = { CutFits };

    fn push(&self, text: &mut String) -> Result<(), AllocError> {
        let cut = self.get();
        cut.id.seat.push(text)?;
        cut.id.serial.push(text)?;
        cut.right.push(text)?;
        push_list(text, cut.terms.as_slice())
    }

    fn read(alloc: Global, words: &mut WordWalk<'_>) -> Result<Shared<Cut>, Miss> {
        let seat = u32::read(alloc, words)?;
        let serial = u32::read(alloc, words)?;
        let right = i128::read(alloc, words)?;
        let terms = read_list(alloc, words)?;
        let id = ItemId { seat, serial };
        Ok(Shared::new(alloc, Cut { id, terms, right })?)
    }
}

/// Adds the words of each.
pub(crate) fn push_each<T: Spell>(text: &mut String, list: &[T]) -> Result<(), AllocError>
    ensures laid { OnOk result (string_bytes text.new ≡ string_bytes text.old
        ++ spaced (each T.spelled list.now)) }
    ensures fits { OnOk result (ListFits T.fits list.now) }
{
    for x in list {
        x.push(text)?;
    }
    Ok(())
}

/// Adds how many there are, and the words of each.
pub(crate) fn push_list<T: Spell>(text: &mut String, list: &[T]) -> Result<(), AllocError>
    ensures laid { OnOk result (string_bytes text.new ≡ string_bytes text.old
        ++ spaced (listed T.spelled list.now)) }
    ensures fits { OnOk result (ListFits T.fits list.now) }
{
    write!(text, " {}", list.len())?;
    push_each(text, list)
}

/// Reads a list: how many elements there are, and the words of each.
pub(crate) fn read_list<T: Spell + Drop>(
    alloc: Global,
    words: &mut WordWalk<'_>,
) -> Result<Items<T>, Miss>
    ensures reads { Reads (listed T.spelled) (ListFits T.fits) words.old result words.new }
    ensures fits { IfOk result (ListFits T.fits) }
{
    let word = next_word(words)?;
    let count = usize_in(word)?;
    read_several(alloc, count, words)
}

// Reads so many elements.
fn read_several<T: Spell + Drop>(
    alloc: Global,
    count: usize,
    words: &mut WordWalk<'_>,
) -> Result<Items<T>, Miss>
    ensures reads { (xs : List T) (rest : List (List ℕ)) → length xs ≡ count → All T.fits xs
        → words.old ≡ each T.spelled xs ++ rest
        → MatchResult result (λ list. (list ≡ xs) × (words.new ≡ rest)) (λ e. e ≡ Memory) }
    ensures fits { IfOk result (ListFits T.fits) }
{
    let mut list = Items::new(alloc);
    for _ in 0..count {
        let element = T::read(alloc, words)?;
        list.push(element)?;
    }
    Ok(list)
}
