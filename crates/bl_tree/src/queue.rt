//! The pool of the waiting nodes.
ghost use Rattle.std.specs.Prelude.{◌≡◌, ◌<◌, ◌≤◌, ◌+◌, ◌^◌, ℕ, true, false, Some, None, length};
ghost use Rattle.std.specs.Prelude.{IfSome, if◌then◌else◌, ◌==◌};
ghost use Rattle.bl_pool.specs.declared.key.Key.{Key};
ghost use Rattle.bl_pool.specs.declared.key.Order.TheVariants.{Best};
ghost use Rattle.bl_pool.specs.Views.{IsFirst, key_in};
ghost use Rattle.bl_journal.specs.States.{is_below};
ghost use Rattle.bl_tree.specs.Records.{IsThinned, next_key, record_key};

use crate::record::Record;
use bl_pool::{Key, Pool};

/// Whether a low number is below the cutoff, or there is none.
pub fn is_below(low: i128, cutoff: Option<i128>) -> bool
    ensures { result ≡ is_below low cutoff }
{
    match cutoff {
        None => true,
        Some(value) => low < value,
    }
}

/// The key of a node.
pub fn key_of(id: u32, node: &Record) -> Key
    ensures { result ≡ record_key id node.now }
{
    Key {
        id,
        low: node.low,
        depth: node.depth,
    }
}

/// Puts a node's key in, if its box has a point. Takes no memory.
pub fn join_if(pool: &mut Pool, key: Key, has_point: bool)
    requires room { 0 < pool.old.room }
    requires below { key.id < length pool.old.keys }
    requires new { key_in pool.old key.id ≡ None }
    ensures order { pool.new.order ≡ pool.old.order }
    ensures here { key_in pool.new key.id ≡ (if has_point then Some key else None) }
    ensures others { (id : ℕ) → (id ≡ key.id → ⊥) → key_in pool.new id ≡ key_in pool.old id }
    ensures room { pool.old.room ≤ pool.new.room + 1 }
    ensures below { length pool.new.keys ≡ length pool.old.keys }
{
    if has_point {
        pool.put_reserved(key);
    }
}

/// Puts in the keys of a left child and of the right one, which differ in their numbers alone: each
/// if its box has a point. Takes no memory.
pub fn join_children(pool: &mut Pool, left: Key, left_open: bool, right_open: bool)
    requires room { 1 < pool.old.room }
    requires below { left.id + 1 < length pool.old.keys }
    requires small { left.id + 1 < 2 ^ 32 }
    requires new { key_in pool.old left.id ≡ None }
    requires next { key_in pool.old (left.id + 1) ≡ None }
    ensures order { pool.new.order ≡ pool.old.order }
    ensures left { key_in pool.new left.id ≡ (if left_open then Some left else None) }
    ensures right { key_in pool.new (left.id + 1)
        ≡ (if right_open then Some (next_key left) else None) }
    ensures others { (id : ℕ) → (id ≡ left.id → ⊥) → (id ≡ left.id + 1 → ⊥) → key_in pool.new id
        ≡ key_in pool.old id }
    ensures room { pool.old.room ≤ pool.new.room + 2 }
    ensures below { length pool.new.keys ≡ length pool.old.keys }
{
    let right = Key {
        id: left.id + 1,
        low: left.low,
        depth: left.depth,
    };
    join_if(pool, left, left_open);
    join_if(pool, right, right_open);
}

/// Takes a node's key out, if it is there. Takes no memory.
pub fn leave(pool: &mut Pool, id: u32)
    ensures order { pool.new.order ≡ pool.old.order }
    ensures keys { (other : ℕ) → key_in pool.new other
        ≡ (if other == id then None else key_in pool.old other) }
    ensures room { pool.old.room ≤ pool.new.room }
    ensures below { length pool.new.keys ≡ length pool.old.keys }
{
    let _ = pool.remove(id);
}

/// The first key whose low number is below the cutoff. The keys before it go, since no point of
/// their nodes is in question any more. Takes no memory.
pub fn first_open(pool: &mut Pool, cutoff: Option<i128>) -> Option<Key>
    ensures order { pool.new.order ≡ pool.old.order }
    ensures first { IfSome result (λ k. IsFirst pool.new k × (is_below k.low cutoff ≡ true)) }
    ensures none { result ≡ None → (id : ℕ) → key_in pool.new id ≡ None }
    ensures keys { (id : ℕ) → IsThinned cutoff (key_in pool.old id) (key_in pool.new id) }
    ensures room { pool.old.room ≤ pool.new.room }
    ensures below { length pool.new.keys ≡ length pool.old.keys }
{
    while let Some(key) = pool.first() {
        if is_below(key.low, cutoff) {
            return Some(key);
        }
        let _ = pool.remove(key.id);
    }
    None
}

/// The first key, if its low number is below the cutoff. In best order no key is below it where the
/// first one is not.
pub fn first_if_open(pool: &Pool, cutoff: Option<i128>) -> Option<Key>
    ensures some { IfSome result (λ k. IsFirst pool.now k × (is_below k.low cutoff ≡ true)) }
    ensures none { result ≡ None → pool.now.order ≡ Best → (id : ℕ) (k : Key) → key_in pool.now id
        ≡ Some k → is_below k.low cutoff ≡ false }
{
    let key = pool.first()?;
    if is_below(key.low, cutoff) {
        Some(key)
    } else {
        None
    }
}
