//! Modification lists: entries that are written at places, places that are dropped and items
//! that are added.
ghost use Rattle.std.specs.Prelude.{◌≡◌, ◌<◌, ◌≤◌, ◌+◌, ◌^◌, true, List, [], ◌∷◌, ◌++◌, length};
ghost use Rattle.std.specs.Prelude.{drop, All, slice_index, IsTrue, ◌↔◌, OnErr, OnOk, IfOk};
ghost use Rattle.bl_mods.specs.Mods.{gone_from, fresh_in, kept_from, IsPartThenFresh, IsItemAt};
ghost use Rattle.bl_mods.specs.Rising.{is_rising_from};

use crate::items::{Duplicate, Items, Shared};
use crate::short::ShortItems;
use std::alloc::{AllocError, Global};
use std::marker::Model;

/// What names an item: the seat that made it and its number there.
#[derive(Clone, Copy, PartialEq, Eq)]
pub struct ItemId {
    pub seat: u32,
    pub serial: u32,
}

/// An item that has a name.
pub trait Item {
    ghost use Rattle.bl_mods.specs.declared.mods.ItemId.{ItemId as Identity};

    ghost id_of: { Self → Identity };

    /// The name of the item.
    fn id(&self) -> ItemId
        ensures { result ≡ id_of self.now };
}

/// A place of a list, and the entry that is written there.
#[derive(Clone, Copy, PartialEq, Eq, Default)]
pub struct Mod<T> {
    pub place: u32,
    pub entry: T,
}

/// Places in rising order, each with its new entry. Contracts see the list.
#[derive(Drop)]
pub struct FieldMods<T> {
    mods: ShortItems<Mod<T>>,
}

impl<T> Model for FieldMods<T> {
    ghost use Rattle.std.specs.Prelude.{List};
    ghost use Rattle.bl_mods.specs.declared.mods.Mod.{Mod as Entry};
    ghost use Rattle.bl_mods.specs.Rising.{AreRising};

    ghost Value = { List (Entry T) };

    ghost view = { λ s. s.mods };

    ghost invariant = { λ s. AreRising s.mods };
}

impl<T: Copy + Default> FieldMods<T> {
    ghost use Rattle.bl_mods.specs.declared.mods.Mod.{Mod as Entry};
    ghost use Rattle.bl_mods.specs.Mods.{written};
    ghost use Rattle.bl_mods.specs.Rising.{places, AreRising};

    /// No entry. Takes no memory.
    pub fn new(alloc: Global) -> FieldMods<T>
        ensures { result ≡ [] }
    {
        FieldMods {
            mods: ShortItems::new(alloc),
        }
    }

    /// No entry, with room for this many. `AllocError` where there is no memory.
    pub fn with_room(alloc: Global, room: usize) -> Result<FieldMods<T>, AllocError>
        ensures { IfOk result (λ mods. mods ≡ []) }
    {
        let mods = ShortItems::with_room(alloc, room)?;
        Ok(FieldMods { mods })
    }

    /// Equal entries. `AllocError` where there is no memory.
    pub fn copy_all(&self, alloc: Global) -> Result<FieldMods<T>, AllocError>
        ensures { IfOk result (λ copy. copy ≡ self.now) }
    {
        let mods = self.mods.copy_all(alloc)?;
        Ok(FieldMods { mods })
    }

    /// Appends an entry behind those before it, or leaves the list as it was where there is no
    /// memory.
    pub fn push(&mut self, place: u32, entry: T) -> Result<(), AllocError>
        requires { All (λ m. m.place < place) self.old }
        ensures ok { OnOk result (self.new ≡ self.old ++ record { place = place; entry = entry }
            ∷ []) }
        ensures err { OnErr result (self.new ≡ self.old) }
    {
        self.mods.push(Mod { place, entry })?;
        Ok(())
    }

    /// The entries, in rising order of their places.
    pub fn entries(&self) -> &[Mod<T>]
        ensures entries { result.now ≡ self.now }
        ensures rising { AreRising self.now }
    {
        self.mods.as_slice()
    }

    /// Writes each entry at its place. Takes no memory.
    #[tactic(auto, using(crate::proofs::Writing::place_below))]
    pub fn apply(&self, list: &mut [T])
        requires { All (λ m. m.place < length list.old) self.now }
        ensures { list.new ≡ written self.now list.old }
    {
        for m in self.mods.as_slice() {
            list[m.place as usize] = m.entry;
        }
    }

    /// Writes each entry at its place. Takes no memory.
    pub fn apply_to(&self, list: &mut Items<T>)
        requires { All (λ m. m.place < length list.old) self.now }
        ensures { list.new ≡ written self.now list.old }
    {
        for m in self.mods.as_slice() {
            list.set(m.place as usize, m.entry);
        }
    }
}

impl<T: Copy + Eq + Default> FieldMods<T> {
    ghost use Rattle.bl_mods.specs.declared.mods.Mod.{Mod as Entry};
    ghost use Rattle.bl_mods.specs.Mods.{written, differences};

    /// Exactly the places where two lists differ, each with the new entry. Where equal entries
    /// are one and the same, it makes the old list the new one, and no other list of entries
    /// that does has fewer. `AllocError` where there is no memory.
    pub fn diff(alloc: Global, old: &[T], new: &[T]) -> Result<FieldMods<T>, AllocError>
        requires same_length { length old.now ≡ length new.now }
        requires short { length old.now < 2 ^ 32 }
        ensures exact { IfOk result (λ mods. mods ≡ differences T.eq old.now new.now) }
        ensures applied { ((x y : T) → T.eq x y ≡ true → x ≡ y)
            → IfOk result (λ mods. written mods old.now ≡ new.now) }
        ensures fewest { IfOk result (λ mods. (others : List (Entry T)) → written others old.now
            ≡ new.now → length mods ≤ length others) }
    {
        FieldMods::differing(alloc, old, new)
    }

    // The places where two lists differ.
    fn differing(alloc: Global, old: &[T], new: &[T]) -> Result<FieldMods<T>, AllocError>
        requires same_length { length old.now ≡ length new.now }
        requires short { length old.now < 2 ^ 32 }
        ensures { IfOk result (λ mods. mods ≡ differences T.eq old.now new.now) }
    {
        let mut mods = FieldMods::with_room(alloc, count_unlike(old, new))?;
        for (at, entry) in new.iter().enumerate() {
            if old[at] == *entry {
                continue;
            }
            mods.push(at as u32, *entry)?;
        }
        Ok(mods)
    }
}

// How many entries of the lists differ.
fn count_unlike<T: Eq>(old: &[T], new: &[T]) -> usize
    requires { length old.now ≡ length new.now }
    ensures { result ≤ length new.now }
{
    let mut count = 0;
    for (at, entry) in new.iter().enumerate() {
        if old[at] != *entry {
            count += 1;
        }
    }
    count
}

/// Places in rising order. Contracts see the list.
#[derive(Drop)]
pub struct Places {
    places: ShortItems<u32>,
}

impl Model for Places {
    ghost use Rattle.std.specs.Prelude.{List, ℕ};
    ghost use Rattle.bl_mods.specs.Rising.{IsRising};

    ghost Value = { List ℕ };

    ghost view = { λ s. s.places };

    ghost invariant = { λ s. IsRising s.places };
}

impl Places {
    ghost use Rattle.bl_mods.specs.Rising.{IsRising};
    ghost use Rattle.bl_mods.specs.Mods.{kept};

    /// No place. Takes no memory.
    pub fn new(alloc: Global) -> Places
        ensures { result ≡ [] }
    {
        Places {
            places: ShortItems::new(alloc),
        }
    }

    /// No place, with room for this many. `AllocError` where there is no memory.
    pub fn with_room(alloc: Global, room: usize) -> Result<Places, AllocError>
        ensures { IfOk result (λ places. places ≡ []) }
    {
        let places = ShortItems::with_room(alloc, room)?;
        Ok(Places { places })
    }

    /// Equal places. `AllocError` where there is no memory.
    pub fn copy_all(&self, alloc: Global) -> Result<Places, AllocError>
        ensures { IfOk result (λ copy. copy ≡ self.now) }
    {
        let places = self.places.copy_all(alloc)?;
        Ok(Places { places })
    }

    /// Appends a place behind those before it, or leaves the list as it was where there is no
    /// memory.
    pub fn push(&mut self, place: u32) -> Result<(), AllocError>
        requires { All (λ p. p < place) self.old }
        ensures ok { OnOk result (self.new ≡ self.old ++ place ∷ []) }
        ensures err { OnErr result (self.new ≡ self.old) }
    {
        self.places.push(place)?;
        Ok(())
    }

    /// The places, in rising order.
    pub fn as_slice(&self) -> &[u32]
        ensures places { result.now ≡ self.now }
        ensures rising { IsRising self.now }
    {
        self.places.as_slice()
    }

    /// What a list keeps without these places. `AllocError` where there is no memory.
    pub fn kept_of<T: Duplicate + Drop>(
        &self,
        alloc: Global,
        list: &[T],
    ) -> Result<Items<T>, AllocError>
        ensures { IfOk result (λ rest. rest ≡ kept self.now list.now) }
    {
        kept_behind(alloc, self.as_slice(), 0, list)
    }
}

/// What a list, whose places are counted from `start`, keeps without these places. `AllocError`
/// where there is no memory.
pub(crate) fn kept_behind<T: Duplicate + Drop>(
    alloc: Global,
    places: &[u32],
    start: usize,
    list: &[T],
) -> Result<Items<T>, AllocError>
    requires { is_rising_from start places.now ≡ true }
    ensures { IfOk result (λ rest. rest ≡ kept_from start places.now list.now) }
{
    let mut rest = Items::with_room(alloc, list.len().saturating_sub(places.len()))?;
    let mut next = 0;
    for (at, element) in list.iter().enumerate() {
        if is_next_place(places, next, start, at) {
            next += 1;
            continue;
        }
        rest.push(element.duplicate()?)?;
    }
    Ok(rest)
}

// Whether the list of places goes on with the place that stands this far behind `start`.
fn is_next_place(places: &[u32], next: usize, start: usize, at: usize) -> bool
    requires { next < length places.now → start ≤ slice_index places.now next }
    ensures { IsTrue result ↔
        (next < length places.now × (slice_index places.now next ≡ start + at)) }
{
    next < places.len() && places[next] as usize - start == at
}

/// Places that are dropped from a list, and items that are then added at its end.
#[derive(Drop)]
pub struct ListMods<C> {
    pub dropped: Places,
    pub added: Items<Shared<C>>,
}

impl<C: Drop> ListMods<C> {
    ghost use Rattle.bl_mods.specs.Mods.{relisted};

    /// Nothing dropped and nothing added. Takes no memory.
    pub fn new(alloc: Global) -> ListMods<C>
        ensures dropped { result.dropped ≡ [] }
        ensures added { result.added ≡ [] }
    {
        ListMods {
            dropped: Places::new(alloc),
            added: Items::new(alloc),
        }
    }

    /// Equal modifications, which share the added items. `AllocError` where there is no memory.
    pub fn duplicate(&self, alloc: Global) -> Result<ListMods<C>, AllocError>
        ensures { IfOk result (λ copy. copy ≡ self.now) }
    {
        Ok(ListMods {
            dropped: self.dropped.copy_all(alloc)?,
            added: self.added.duplicate_all()?,
        })
    }

    /// Drops the places and then adds the items at the end. `AllocError` where there is no
    /// memory; the list is then as it was.
    pub fn apply(&self, list: &mut Items<Shared<C>>) -> Result<(), AllocError>
        requires { All (λ p. p < length list.old) self.now.dropped }
        ensures ok { OnOk result (list.new ≡ relisted self.now list.old) }
        ensures err { OnErr result (list.new ≡ list.old) }
    {
        let mut whole = self.dropped.kept_of(list.allocator(), list.as_slice())?;
        whole.extend(self.added.as_slice())?;
        *list = whole;
        Ok(())
    }
}

impl<C: Item + Drop> ListMods<C> {
    ghost use Rattle.std.specs.Prelude.{AllPairs, ◌≢◌};
    ghost use Rattle.bl_mods.specs.Mods.{relisted, list_differences, gone_from, fresh_in};
    ghost use Rattle.bl_mods.specs.Mods.{IsPartThenFresh};

    /// The places of the items that the new list lacks, and the items that the old one lacks, by
    /// id. Applied to the old list it gives the new one. `AllocError` where there is no memory.
    pub fn diff(
        alloc: Global,
        old: &[Shared<C>],
        new: &[Shared<C>],
    ) -> Result<ListMods<C>, AllocError>
        requires short_old { length old.now < 2 ^ 32 }
        requires short_new { length new.now < 2 ^ 32 }
        requires old_ids { AllPairs (λ a b. C.id_of a ≢ C.id_of b) old.now }
        requires new_ids { AllPairs (λ a b. C.id_of a ≢ C.id_of b) new.now }
        requires part { IsPartThenFresh C.id_of old.now new.now }
        ensures exact { IfOk result (λ mods. mods ≡ list_differences C.id_of old.now new.now) }
        ensures applied { IfOk result (λ mods. relisted mods old.now ≡ new.now) }
    {
        ListMods::differing(alloc, old, new)
    }

    // The gone places and the fresh items.
    fn differing(
        alloc: Global,
        old: &[Shared<C>],
        new: &[Shared<C>],
    ) -> Result<ListMods<C>, AllocError>
        requires short_old { length old.now < 2 ^ 32 }
        requires part { IsPartThenFresh C.id_of old.now new.now }
        ensures { IfOk result (λ mods. mods ≡ list_differences C.id_of old.now new.now) }
    {
        let (dropped, kept) = gone_places(alloc, old, new)?;
        let fresh = &new[kept..];
        let mut added = Items::with_room(alloc, fresh.len())?;
        added.extend(fresh)?;
        Ok(ListMods { dropped, added })
    }
}

// The places of the items that the new list lacks, and how many of the old items it begins with.
fn gone_places<C: Item>(
    alloc: Global,
    old: &[Shared<C>],
    new: &[Shared<C>],
) -> Result<(Places, usize), AllocError>
    requires short_old { length old.now < 2 ^ 32 }
    requires part { IsPartThenFresh C.id_of old.now new.now }
    ensures { IfOk result (λ found. (found.0 ≡ gone_from C.id_of 0 old.now new.now)
        × (drop found.1 new.now ≡ fresh_in C.id_of old.now new.now) × (found.1 ≤ length new.now)) }
{
    let mut dropped = Places::new(alloc);
    let mut next = 0;
    for (at, item) in old.iter().enumerate() {
        if is_next_item(new, next, item) {
            next += 1;
            continue;
        }
        dropped.push(at as u32)?;
    }
    Ok((dropped, next))
}

// Whether the list goes on with an item of this id.
fn is_next_item<C: Item>(list: &[Shared<C>], next: usize, item: &Shared<C>) -> bool
    ensures { IsTrue result ↔ IsItemAt C.id_of list.now next (C.id_of item.now) }
{
    if next >= list.len() {
        return false;
    }
    list[next].get().id() == item.get().id()
}
