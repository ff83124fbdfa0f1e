//! Two modification lists, one after the other, as one.
ghost use Rattle.std.specs.Prelude.{◌≡◌, ◌<◌, ◌≤◌, ◌+◌, ◌^◌, [], ◌∷◌, ◌++◌, List, ℕ, length};
ghost use Rattle.std.specs.Prelude.{drop, take, slice_set, true, All, IfOk, IfSome, IfNone};
ghost use Rattle.bl_mods.specs.declared.mods.Mod.{Mod as Entry};
ghost use Rattle.bl_mods.specs.Rising.{AreRising, IsRising, is_rising_from};
ghost use Rattle.bl_mods.specs.Mods.{written, differences, DiffersAt};
ghost use Rattle.bl_mods.specs.InTurn.{overlaid, dropped_in_turn, places_below, relisted_in_turn};
ghost use Rattle.bl_mods.specs.InTurn.{length_after, DropsWithin, DoesBoth};

use crate::items::Items;
use crate::mods::{FieldMods, ListMods, Mod, Places, kept_behind};
use std::alloc::{AllocError, Global};

// The next entry or place, and where the two lists go on.
#[derive(Drop)]
struct Step<E> {
    entry: E,
    at: usize,
    next: usize,
}

impl<T: Copy + Default> FieldMods<T> {
    /// The entries that do what these do and then the later ones: where both have a place, the
    /// later entry. `AllocError` where there is no memory.
    pub fn then(&self, alloc: Global, later: &FieldMods<T>) -> Result<FieldMods<T>, AllocError>
        ensures exact { IfOk result (λ both. both ≡ overlaid self.now later.now) }
        ensures applied { IfOk result (λ both. (list : List T) → written both list
            ≡ written later.now (written self.now list)) }
        ensures fits { IfOk result (λ both. (n : ℕ) → All (λ m. m.place < n) self.now
            → All (λ m. m.place < n) later.now → All (λ m. m.place < n) both) }
    {
        overlay(alloc, self.entries(), later.entries())
    }
}

impl<T: Copy + Eq + Default> FieldMods<T> {
    /// The entries, and one more in the order of their places, instead of the one at its place
    /// if one stands there. Where the entries are the differences of two lists, it gives those
    /// that stand once the new list has this entry at the place, if the old one has another
    /// there. `AllocError` where there is no memory.
    pub fn with_entry(
        &self,
        alloc: Global,
        place: u32,
        entry: T,
    ) -> Result<FieldMods<T>, AllocError>
        ensures exact { IfOk result (λ mods.
            mods ≡ overlaid self.now (record { place = place; entry = entry } ∷ [])) }
        ensures differences { IfOk result (λ mods. (old new : List T)
            → self.now ≡ differences T.eq old new → place < length new
            → DiffersAt T.eq old place entry
            → mods ≡ differences T.eq old (slice_set new place entry)) }
    {
        let mut one = FieldMods::new(alloc);
        one.push(place, entry)?;
        self.then(alloc, &one)
    }
}

// The entries of both lists in the order of their places; where both have a place, the later entry.
fn overlay<T: Copy + Default>(
    alloc: Global,
    first: &[Mod<T>],
    later: &[Mod<T>],
) -> Result<FieldMods<T>, AllocError>
    requires first { AreRising first.now }
    requires later { AreRising later.now }
    ensures { IfOk result (λ both. both ≡ overlaid first.now later.now) }
{
    let room = first.len().saturating_add(later.len());
    let mut both = FieldMods::with_room(alloc, room)?;
    let mut at = 0;
    let mut next = 0;
    while let Some(step) = next_entry(first, at, later, next) {
        both.push(step.entry.place, step.entry.entry)?;
        at = step.at;
        next = step.next;
    }
    Ok(both)
}

// The next of the overlaid entries of two lists from these on.
fn next_entry<T: Copy>(
    first: &[Mod<T>],
    at: usize,
    later: &[Mod<T>],
    next: usize,
) -> Option<Step<Mod<T>>>
    requires rising { AreRising first.now }
    requires at { at ≤ length first.now }
    requires next { next ≤ length later.now }
    ensures entry { IfSome result (λ step. overlaid (drop at first.now) (drop next later.now)
        ≡ step.entry ∷ overlaid (drop step.at first.now) (drop step.next later.now)) }
    ensures on { IfSome result (λ step. (at ≤ step.at) × (step.at ≤ length first.now)
        × (next ≤ step.next) × (step.next ≤ length later.now) × (at + next < step.at + step.next)) }
    ensures ended { IfNone result (overlaid (drop at first.now) (drop next later.now) ≡ []) }
{
    if next == later.len() {
        if at == first.len() {
            return None;
        }
        let entry = first[at];
        return Some(Step {
            entry,
            at: at + 1,
            next,
        });
    }
    let entry = later[next];
    if at == first.len() || first[at].place > entry.place {
        return Some(Step {
            entry,
            at,
            next: next + 1,
        });
    }
    if first[at].place == entry.place {
        return Some(Step {
            entry,
            at: at + 1,
            next: next + 1,
        });
    }
    Some(Step {
        entry: first[at],
        at: at + 1,
        next,
    })
}

impl<C: Drop> ListMods<C> {
    /// For a list of `length` items, the modifications that do what these do and then the later
    /// ones; an item that is added and later dropped is in neither. `AllocError` where there is
    /// no memory.
    pub fn then(
        &self,
        alloc: Global,
        length: usize,
        later: &ListMods<C>,
    ) -> Result<ListMods<C>, AllocError>
        requires short { length < 2 ^ 32 }
        requires within { DropsWithin length self.now }
        requires later_within { DropsWithin (length_after length self.now) later.now }
        ensures exact { IfOk result (λ both. both ≡ relisted_in_turn length self.now later.now) }
        ensures applied { IfOk result (λ both. DoesBoth length self.now later.now both) }
        ensures within { IfOk result (λ both. DropsWithin length both) }
    {
        relist_in_turn(alloc, length, self, later)
    }
}

// The modifications of a list of this many items that do what two do in order.
fn relist_in_turn<C: Drop>(
    alloc: Global,
    count: usize,
    first: &ListMods<C>,
    later: &ListMods<C>,
) -> Result<ListMods<C>, AllocError>
    requires short { count < 2 ^ 32 }
    requires within { DropsWithin count first.now }
    ensures exact { IfOk result (λ both. both ≡ relisted_in_turn count first.now later.now) }
    ensures first_rises { IsRising first.now.dropped }
    ensures later_rises { IsRising later.now.dropped }
{
    let dropped = first.dropped.as_slice();
    let later_dropped = later.dropped.as_slice();
    let kept = count - dropped.len();
    let split = count_below(later_dropped, kept);
    let mut added = kept_behind(alloc, &later_dropped[split..], kept, first.added.as_slice())?;
    added.extend(later.added.as_slice())?;
    Ok(ListMods {
        dropped: drop_in_turn(alloc, dropped, &later_dropped[..split])?,
        added,
    })
}

// How many of the places are below a bound.
fn count_below(places: &[u32], bound: usize) -> usize
    requires { IsRising places.now }
    ensures within { result ≤ length places.now }
    ensures below { All (λ p. p < bound) (take result places.now) }
    ensures behind { is_rising_from bound (drop result places.now) ≡ true }
{
    for (at, place) in places.iter().enumerate() {
        if *place as usize >= bound {
            return at;
        }
    }
    places.len()
}

// The places that are dropped at first, and those that are then dropped from what is left.
fn drop_in_turn(alloc: Global, first: &[u32], later: &[u32]) -> Result<Places, AllocError>
    requires first { IsRising first.now }
    requires later { IsRising later.now }
    requires short { All (λ q. q + length first.now < 2 ^ 32) later.now }
    ensures { IfOk result (λ both. both ≡ dropped_in_turn 0 first.now later.now) }
{
    let mut both = Places::with_room(alloc, first.len().saturating_add(later.len()))?;
    let mut at = 0;
    let mut next = 0;
    while let Some(step) = next_drop(first, at, later, next) {
        both.push(step.entry)?;
        at = step.at;
        next = step.next;
    }
    Ok(both)
}

// The next of the places that are dropped in turn, from these on.
fn next_drop(first: &[u32], at: usize, later: &[u32], next: usize) -> Option<Step<u32>>
    requires later { IsRising later.now }
    requires short { All (λ q. q + length first.now < 2 ^ 32) later.now }
    requires at { at ≤ length first.now }
    requires next { next ≤ length later.now }
    ensures entry { IfSome result (λ step. dropped_in_turn at (drop at first.now)
        (drop next later.now) ≡ step.entry ∷ dropped_in_turn step.at (drop step.at first.now)
        (drop step.next later.now)) }
    ensures on { IfSome result (λ step. (at ≤ step.at) × (step.at ≤ length first.now)
        × (next ≤ step.next) × (step.next ≤ length later.now) × (at + next < step.at + step.next)) }
    ensures ended { IfNone result (dropped_in_turn at (drop at first.now) (drop next later.now)
        ≡ []) }
{
    if next == later.len() {
        if at == first.len() {
            return None;
        }
        return Some(Step {
            entry: first[at],
            at: at + 1,
            next,
        });
    }
    let moved = later[next] + at as u32;
    if at < first.len() && first[at] <= moved {
        return Some(Step {
            entry: first[at],
            at: at + 1,
            next,
        });
    }
    Some(Step {
        entry: moved,
        at,
        next: next + 1,
    })
}
