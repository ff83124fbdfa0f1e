//! Changes and entries, as they are read from words.
ghost use Rattle.std.specs.Prelude.{◌≡◌, ⊤, ◌++◌, ◌∷◌, [], ℕ, ℤ, List, codes, MatchResult, IfOk};
ghost use Rattle.std.specs.Prelude.{All, Option};
ghost use Rattle.std.specs.Fmt.{decimal, signed_decimal};
ghost use Rattle.bl_mods.specs.Rising.{AreRising, IsRising};
ghost use Rattle.bl_text.specs.Pieces.{words_of};
ghost use Rattle.bl_desc.specs.declared.desc.Form.{Form as AnyForm};
ghost use Rattle.bl_journal.specs.declared.entry.Entry.{Entry as AnyEntry};
ghost use Rattle.bl_journal.specs.declared.entry.Entry.TheVariants.{Take, Put, Back, Encode, Free};
ghost use Rattle.bl_journal.specs.declared.entry.Step.{Step as AnyStep};
ghost use Rattle.bl_journal.specs.declared.entry.Step.TheVariants.{Split};
ghost use Rattle.bl_problem.specs.declared.cut.Cut.{Cut as AnyCut};
ghost use Rattle.bl_desc.specs.declared.change.Change.{Change as AnyChange};
ghost use Rattle.bl_log.specs.declared.fault.Miss.TheVariants.{Memory, Words};
ghost use Rattle.bl_log.specs.Reading.{Reads};
ghost use Rattle.bl_log.specs.Spaced.{each, listed};
ghost use Rattle.bl_log.specs.Log.{natural, placed, cut, cut_lists, lists_of, form_word};
ghost use Rattle.bl_log.specs.Log.{found_point, next_step, words_in};
ghost use Rattle.bl_log.specs.Fits.{IsU32, IsI64, IsI128, Fits, FoundFits, StepFits, ChangeFits};
ghost use Rattle.bl_log.specs.Fits.{ModsFit, PlacesFit, CutListsFit};

use crate::fault::Miss;
use crate::spell::{Spell, read_list};
use crate::tokens::{next_word, pass_word, u32_in};
use bl_desc::{Change, Form};
use bl_journal::{Entry, Step};
use bl_mods::{FieldMods, Items, ListMods, Mod, Places, Shared};
use bl_problem::Cut;
use bl_text::{WordWalk, words};
use std::alloc::Global;

/// Reads the lists of a change.
pub(crate) fn read_change(alloc: Global, words: &mut WordWalk<'_>) -> Result<Change<Cut>, Miss>
    ensures reads { Reads lists_of ChangeFits words.old result words.new }
    ensures fits { IfOk result ChangeFits }
{
    let lows = read_mods(alloc, words, b"lows")?;
    let highs = read_mods(alloc, words, b"highs")?;
    let cuts = read_cut_lists(alloc, words)?;
    let columns = read_mods(alloc, words, b"cols")?;
    let rows = read_mods(alloc, words, b"rows")?;
    let fresh = read_mods(alloc, words, b"cuts")?;
    Ok(Change {
        lows,
        highs,
        cuts,
        columns,
        rows,
        fresh,
    })
}

// Reads the places of dropped cuts, and added cuts.
fn read_cut_lists(alloc: Global, words: &mut WordWalk<'_>) -> Result<ListMods<Cut>, Miss>
    ensures reads { Reads cut_lists CutListsFit words.old result words.new }
    ensures fits { IfOk result CutListsFit }
{
    pass_word(words, b"drop")?;
    let dropped = read_places(alloc, words)?;
    pass_word(words, b"add")?;
    let added = read_list(alloc, words)?;
    Ok(ListMods { dropped, added })
}

// Reads entries with their places, behind the name of their list.
fn read_mods<T: Spell + Copy + Default>(
    alloc: Global,
    words: &mut WordWalk<'_>,
    name: &[u8],
) -> Result<FieldMods<T>, Miss>
    ensures reads { Reads (λ mods. name.now ∷ listed (placed T.spelled) mods) (ModsFit T.fits)
        words.old result words.new }
    ensures fits { IfOk result (ModsFit T.fits) }
{
    pass_word(words, name)?;
    let list = read_list::<Mod<T>>(alloc, words)?;
    rising_mods(alloc, list.as_slice())
}

// The entries, where their places rise.
fn rising_mods<T: Copy + Default>(alloc: Global, list: &[Mod<T>]) -> Result<FieldMods<T>, Miss>
    ensures same { IfOk result (λ mods. (mods ≡ list.now) × AreRising list.now) }
    ensures rising { AreRising list.now → MatchResult result (λ _. ⊤) (λ e. e ≡ Memory) }
{
    let mut mods = FieldMods::new(alloc);
    let mut least = 0;
    for entry in list {
        if (entry.place as usize) < least {
            return Err(Miss::Words);
        }
        mods.push(entry.place, entry.entry)?;
        least = entry.place as usize + 1;
    }
    Ok(mods)
}

fn read_places(alloc: Global, words: &mut WordWalk<'_>) -> Result<Places, Miss>
    ensures reads { Reads (listed natural) PlacesFit words.old result words.new }
    ensures fits { IfOk result PlacesFit }
{
    let list = read_list::<u32>(alloc, words)?;
    rising_places(alloc, list.as_slice())
}

// The places, where they rise.
fn rising_places(alloc: Global, list: &[u32]) -> Result<Places, Miss>
    ensures same { IfOk result (λ places. (places ≡ list.now) × IsRising list.now) }
    ensures rising { IsRising list.now → MatchResult result (λ _. ⊤) (λ e. e ≡ Memory) }
{
    let mut places = Places::new(alloc);
    let mut least = 0;
    for place in list {
        if (*place as usize) < least {
            return Err(Miss::Words);
        }
        places.push(*place)?;
        least = *place as usize + 1;
    }
    Ok(places)
}

// Reads the point that was found, or that there is none.
fn read_found(alloc: Global, words: &mut WordWalk<'_>) -> Result<Option<Items<i64>>, Miss>
    ensures reads { Reads found_point FoundFits words.old result words.new }
    ensures fits { IfOk result FoundFits }
{
    let word = next_word(words)?;
    if word == b"none".as_slice() {
        return Ok(None);
    }
    if word != b"point".as_slice() {
        return Err(Miss::Words);
    }
    let point = read_list(alloc, words)?;
    Ok(Some(point))
}

// Reads what becomes of a node.
fn read_step(alloc: Global, words: &mut WordWalk<'_>) -> Result<Step, Miss>
    ensures reads { Reads next_step StepFits words.old result words.new }
    ensures fits { IfOk result StepFits }
{
    let word = next_word(words)?;
    if word == b"shut".as_slice() {
        return Ok(Step::Shut);
    }
    if word != b"split".as_slice() {
        return Err(Miss::Words);
    }
    read_split(alloc, words)
}

fn read_split(alloc: Global, words: &mut WordWalk<'_>) -> Result<Step, Miss>
    ensures reads { (common : AnyChange AnyCut) (column : ℕ) (at : ℤ) (rest : List (List ℕ))
        → IsU32 column → IsI64 at → ChangeFits common → words.old ≡ decimal column
        ∷ signed_decimal at ∷ (lists_of common ++ rest)
        → MatchResult result (λ y. (y ≡ Split common column at) × (words.new ≡ rest))
        (λ m. m ≡ Memory) }
    ensures fits { IfOk result StepFits }
{
    let column = u32::read(alloc, words)?;
    let at = i64::read(alloc, words)?;
    let change = read_change(alloc, words)?;
    let common = Shared::new(alloc, change)?;
    Ok(Step::Split { common, column, at })
}

/// Reads an entry from the words of a line; whether the line is exactly the entry's is left to
/// the caller. `Words` where they are those of no entry.
pub(crate) fn read_entry(alloc: Global, line: &[u8]) -> Result<Entry, Miss>
    ensures reads { (e : AnyEntry) → Fits e → words_of line.now ≡ words_in e
        → MatchResult result (λ y. y ≡ e) (λ m. m ≡ Memory) }
    ensures fits { IfOk result Fits }
{
    let mut walk = words(line);
    let kind = next_word(&mut walk)?;
    read_kind(alloc, kind, &mut walk)
}

// Reads an entry of a kind.
fn read_kind(alloc: Global, kind: &[u8], words: &mut WordWalk<'_>) -> Result<Entry, Miss>
    ensures reads { (e : AnyEntry) → Fits e → kind.now ∷ words.old ≡ words_in e
        → MatchResult result (λ y. y ≡ e) (λ m. m ≡ Memory) }
    ensures fits { IfOk result Fits }
{
    if kind == b"take".as_slice() {
        read_take(alloc, words)
    } else if kind == b"back".as_slice() {
        read_back(alloc, words)
    } else if kind == b"encode".as_slice() {
        read_encode(alloc, words)
    } else if kind == b"free".as_slice() {
        read_free(alloc, words)
    } else if kind == b"put".as_slice() {
        read_put(alloc, words)
    } else {
        Err(Miss::Words)
    }
}

fn read_take(alloc: Global, words: &mut WordWalk<'_>) -> Result<Entry, Miss>
    ensures reads { (seat id : ℕ) → IsU32 seat → IsU32 id → words.old ≡ decimal seat ∷ decimal id
        ∷ [] → MatchResult result (λ y. y ≡ Take seat id) (λ m. m ≡ Memory) }
    ensures fits { IfOk result Fits }
{
    let seat = u32::read(alloc, words)?;
    let id = u32::read(alloc, words)?;
    Ok(Entry::Take { seat, id })
}

fn read_back(alloc: Global, words: &mut WordWalk<'_>) -> Result<Entry, Miss>
    ensures reads { (seat id : ℕ) → IsU32 seat → IsU32 id → words.old ≡ decimal seat ∷ decimal id
        ∷ [] → MatchResult result (λ y. y ≡ Back seat id) (λ m. m ≡ Memory) }
    ensures fits { IfOk result Fits }
{
    let seat = u32::read(alloc, words)?;
    let id = u32::read(alloc, words)?;
    Ok(Entry::Back { seat, id })
}

fn read_encode(alloc: Global, words: &mut WordWalk<'_>) -> Result<Entry, Miss>
    ensures reads { (seat id : ℕ) (form : AnyForm) → IsU32 seat → IsU32 id → words.old
        ≡ decimal seat ∷ decimal id ∷ form_word form ∷ []
        → MatchResult result (λ y. y ≡ Encode seat id form) (λ m. m ≡ Memory) }
    ensures fits { IfOk result Fits }
{
    let seat = u32::read(alloc, words)?;
    let id = u32::read(alloc, words)?;
    let word = next_word(words)?;
    let form = form_in(word)?;
    Ok(Entry::Encode { seat, id, form })
}

fn form_in(word: &[u8]) -> Result<Form, Miss>
    ensures { (form : AnyForm) → word.now ≡ form_word form
        → MatchResult result (λ f. f ≡ form) (λ m. m ≡ Memory) }
{
    if word == b"explicit".as_slice() {
        Ok(Form::Explicit)
    } else if word == b"relative".as_slice() {
        Ok(Form::Relative)
    } else {
        Err(Miss::Words)
    }
}

fn read_free(alloc: Global, words: &mut WordWalk<'_>) -> Result<Entry, Miss>
    ensures reads { (seat : ℕ) (ids : List ℕ) → IsU32 seat → All IsU32 ids → words.old
        ≡ decimal seat ∷ each natural ids → MatchResult result (λ y. y ≡ Free seat ids)
        (λ m. m ≡ Memory) }
    ensures fits { IfOk result Fits }
{
    let seat = u32::read(alloc, words)?;
    let ids = read_rest(alloc, words)?;
    Ok(Entry::Free { seat, ids })
}

// Reads numbers as far as the end of the line.
fn read_rest(alloc: Global, words: &mut WordWalk<'_>) -> Result<Items<u32>, Miss>
    ensures reads { (ids : List ℕ) → All IsU32 ids → words.old ≡ each natural ids
        → MatchResult result (λ list. list ≡ ids) (λ m. m ≡ Memory) }
    ensures fits { IfOk result (All IsU32) }
{
    let mut ids = Items::new(alloc);
    while let Some(word) = words.next() {
        let id = u32_in(word)?;
        ids.push(id)?;
    }
    Ok(ids)
}

fn read_put(alloc: Global, words: &mut WordWalk<'_>) -> Result<Entry, Miss>
    ensures reads { (seat id : ℕ) (found : Option (List ℤ)) (low : ℤ) (next : AnyStep) → Fits (Put seat id found low next) → words.old ≡ decimal seat ∷ decimal id ∷ codes "low" ∷ signed_decimal low ∷ codes "found" ∷ (found_point found ++ (codes "next" ∷ (next_step next ++ []))) → MatchResult result (λ y. y ≡ Put seat id found low next) (λ m. m ≡ Memory) }
    ensures fits { IfOk result Fits }
{
    let seat = u32::read(alloc, words)?;
    let id = u32::read(alloc, words)?;
    pass_word(words, b"low")?;
    let low = i128::read(alloc, words)?;
    pass_word(words, b"found")?;
    let (found, next) = read_result(alloc, words)?;
    Ok(Entry::Put {
        seat,
        id,
        found,
        low,
        next,
    })
}

// Reads the point that was found, and what becomes of the node.
fn read_result(alloc: Global, words: &mut WordWalk<'_>) -> Result<(Option<Items<i64>>, Step), Miss>
    ensures reads { (found : Option (List ℤ)) (next : AnyStep) → FoundFits found → StepFits next → words.old ≡ found_point found ++ (codes "next" ∷ (next_step next ++ [])) → MatchResult result (λ y. (y.0 ≡ found) × (y.1 ≡ next)) (λ m. m ≡ Memory) }
    ensures fits { IfOk result (λ y. FoundFits y.0 × StepFits y.1) }
{
    let found = read_found(alloc, words)?;
    pass_word(words, b"next")?;
    let next = read_step(alloc, words)?;
    Ok((found, next))
}
