//! A heap of keys beside a table of their places by id: the number after the place, and 0 where
//! there is none.
ghost use Rattle.std.specs.Prelude.{◌≡◌, ◌<◌, ◌+◌, ◌-◌, ◌*◌, ◌^◌, ℕ, ◌==◌, length, Some, None};
ghost use Rattle.std.specs.Prelude.{true, vec_capacity, if◌then◌else◌};
ghost use Rattle.bl_pool.specs.Heaps.{Down, Heap, Loose, Ordered, Tied, Up, key_at, key_of};
ghost use Rattle.bl_pool.specs.Heaps.{parent, place_of};
ghost use Rattle.bl_pool.specs.Orders.{before};

use crate::key::{Key, Order, comes_before};

// Whether the key at place i comes before that at place j.
fn is_before(order: Order, keys: &[Key], i: usize, j: usize) -> bool
    requires one { i < length keys.now }
    requires other { j < length keys.now }
    ensures { result ≡ before order (key_of keys.now i) (key_of keys.now j) }
{
    comes_before(order, &keys[i], &keys[j])
}

// The keys at two places change places.
fn exchange(keys: &mut Vec<Key>, places: &mut [u32], i: usize, j: usize)
    requires one { i < length keys.old.items }
    requires other { j < length keys.old.items }
    requires short { length places.old < 2 ^ 32 }
    requires tied { Tied keys.old.items places.old }
    ensures tied { Tied keys.new.items places.new }
    ensures same { (id : ℕ) → key_at keys.new.items places.new id
        ≡ key_at keys.old.items places.old id }
    ensures at_i { key_of keys.new.items i ≡ key_of keys.old.items j }
    ensures at_j { key_of keys.new.items j ≡ key_of keys.old.items i }
    ensures others { (k : ℕ) → (k ≡ i → ⊥) → (k ≡ j → ⊥) → key_of keys.new.items k
        ≡ key_of keys.old.items k }
    ensures len { length keys.new.items ≡ length keys.old.items }
    ensures room { vec_capacity keys.new ≡ vec_capacity keys.old }
    ensures table { length places.new ≡ length places.old }
{
    keys.swap(i, j);
    places[keys[i].id as usize] = i as u32 + 1;
    places[keys[j].id as usize] = j as u32 + 1;
}

// Moves the key at a place up until it comes after its parent.
fn sift_up(order: Order, keys: &mut Vec<Key>, places: &mut [u32], start: usize)
    requires inside { start < length keys.old.items }
    requires short { length places.old < 2 ^ 32 }
    requires tied { Tied keys.old.items places.old }
    requires up { Up order (key_of keys.old.items) (length keys.old.items) start }
    ensures tied { Tied keys.new.items places.new }
    ensures same { (id : ℕ) → key_at keys.new.items places.new id
        ≡ key_at keys.old.items places.old id }
    ensures heap { Heap order (key_of keys.new.items) (length keys.new.items) }
    ensures len { length keys.new.items ≡ length keys.old.items }
    ensures room { vec_capacity keys.new ≡ vec_capacity keys.old }
    ensures table { length places.new ≡ length places.old }
{
    let mut at = start;
    while at > 0 {
        let above = (at - 1) / 2;
        if !is_before(order, keys.as_slice(), at, above) {
            return;
        }
        exchange(keys, places, at, above);
        at = above;
    }
}

// The child of a place before which its other child does not come.
fn first_child(order: Order, keys: &[Key], at: usize) -> usize
    requires { 2 * at + 1 < length keys.now }
    ensures inside { result < length keys.now }
    ensures child { (0 < result) × (parent result ≡ at) }
    ensures least { (i : ℕ) → 0 < i → i < length keys.now → parent i ≡ at
        → Ordered order (key_of keys.now) result i }
{
    let left = 2 * at + 1;
    let right = left + 1;
    if right < keys.len() && is_before(order, keys, right, left) {
        right
    } else {
        left
    }
}

// Moves the key at a place down until it comes before its children.
fn sift_down(order: Order, keys: &mut Vec<Key>, places: &mut [u32], start: usize)
    requires inside { start < length keys.old.items }
    requires short { length places.old < 2 ^ 32 }
    requires tied { Tied keys.old.items places.old }
    requires down { Down order (key_of keys.old.items) (length keys.old.items) start }
    ensures tied { Tied keys.new.items places.new }
    ensures same { (id : ℕ) → key_at keys.new.items places.new id
        ≡ key_at keys.old.items places.old id }
    ensures heap { Heap order (key_of keys.new.items) (length keys.new.items) }
    ensures len { length keys.new.items ≡ length keys.old.items }
    ensures room { vec_capacity keys.new ≡ vec_capacity keys.old }
    ensures table { length places.new ≡ length places.old }
{
    let mut at = start;
    while at < keys.len() / 2 {
        let child = first_child(order, keys.as_slice(), at);
        if !is_before(order, keys.as_slice(), child, at) {
            return;
        }
        exchange(keys, places, at, child);
        at = child;
    }
}

// Moves the key at a place up or down until the keys are a heap.
fn settle(order: Order, keys: &mut Vec<Key>, places: &mut [u32], at: usize)
    requires inside { at < length keys.old.items }
    requires short { length places.old < 2 ^ 32 }
    requires tied { Tied keys.old.items places.old }
    requires loose { Loose order (key_of keys.old.items) (length keys.old.items) at }
    ensures tied { Tied keys.new.items places.new }
    ensures same { (id : ℕ) → key_at keys.new.items places.new id
        ≡ key_at keys.old.items places.old id }
    ensures heap { Heap order (key_of keys.new.items) (length keys.new.items) }
    ensures len { length keys.new.items ≡ length keys.old.items }
    ensures room { vec_capacity keys.new ≡ vec_capacity keys.old }
    ensures table { length places.new ≡ length places.old }
{
    if at > 0 && is_before(order, keys.as_slice(), at, (at - 1) / 2) {
        sift_up(order, keys, places, at);
    } else {
        sift_down(order, keys, places, at);
    }
}

/// Puts a key in, where there is room for it and its node is not held.
pub fn put(order: Order, keys: &mut Vec<Key>, places: &mut [u32], key: Key)
    requires room { length keys.old.items < vec_capacity keys.old }
    requires below { key.id < length places.old }
    requires free { key_at keys.old.items places.old key.id ≡ None }
    requires short { length places.old < 2 ^ 32 }
    requires tied { Tied keys.old.items places.old }
    requires heap { Heap order (key_of keys.old.items) (length keys.old.items) }
    ensures tied { Tied keys.new.items places.new }
    ensures heap { Heap order (key_of keys.new.items) (length keys.new.items) }
    ensures keys { (id : ℕ) → key_at keys.new.items places.new id
        ≡ (if id == key.id then Some key else key_at keys.old.items places.old id) }
    ensures len { length keys.new.items ≡ length keys.old.items + 1 }
    ensures room { vec_capacity keys.new ≡ vec_capacity keys.old }
    ensures table { length places.new ≡ length places.old }
{
    let at = keys.len();
    places[key.id as usize] = at as u32 + 1;
    keys.push_reserved(key);
    sift_up(order, keys, places, at);
}

/// Takes out the key at a place.
pub fn take_out(order: Order, keys: &mut Vec<Key>, places: &mut [u32], id: usize, at: usize)
    requires held { place_of places.old id ≡ Some at }
    requires short { length places.old < 2 ^ 32 }
    requires tied { Tied keys.old.items places.old }
    requires heap { Heap order (key_of keys.old.items) (length keys.old.items) }
    ensures tied { Tied keys.new.items places.new }
    ensures heap { Heap order (key_of keys.new.items) (length keys.new.items) }
    ensures keys { (other : ℕ) → key_at keys.new.items places.new other
        ≡ (if other == id then None else key_at keys.old.items places.old other) }
    ensures len { length keys.new.items + 1 ≡ length keys.old.items }
    ensures room { vec_capacity keys.new ≡ vec_capacity keys.old }
    ensures table { length places.new ≡ length places.old }
{
    let last = keys.len() - 1;
    exchange(keys, places, at, last);
    let _ = keys.pop();
    places[id] = 0;
    if at < last {
        settle(order, keys, places, at);
    }
}
