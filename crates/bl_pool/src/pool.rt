//! The pool: a binary heap of keys, and beside it the place of each.
ghost use Rattle.std.specs.Prelude.{◌≡◌, ◌<◌, ◌≤◌, ◌+◌, ℕ, Some, None, length, IfSome, OnOk};
ghost use Rattle.std.specs.Prelude.{is_some, ◌==◌, if◌then◌else◌};
ghost use Rattle.bl_pool.specs.Views.{IsFirst, PoolView, key_in};

use crate::heap::{put, take_out};
use crate::key::{Key, Order};
use std::alloc::{AllocError, Global};
use std::marker::Model;

/// The keys of nodes, of which the first in the order is at hand. Contracts see the order, the key
/// of each node that is held, below which number the nodes' numbers lie, and how many more keys
/// fit.
#[derive(Drop)]
pub struct Pool {
    order: Order,
    // A binary heap: no key comes before the one above it.
    keys: Vec<Key>,
    // The place in the heap of each node that is held, plus 1; 0 for any other.
    places: Vec<u32>,
}

impl Model for Pool {
    ghost use Rattle.std.specs.Prelude.{◌-◌, ◌<◌, ◌^◌, length, vec_capacity};
    ghost use Rattle.bl_pool.specs.Views.{PoolView};
    ghost use Rattle.bl_pool.specs.Heaps.{Heap, Tied, key_of, table_of};

    ghost Value = { PoolView };

    ghost view = { λ p. record {
      order = p.order;
      keys =
          table_of p.keys.items p.places.items;
      room = vec_capacity p.keys - length p.keys.items;
    } };

    ghost invariant = { λ p.
        Tied p.keys.items p.places.items × Heap p.order (key_of p.keys.items) (length p.keys.items) × (length p.places.items < 2 ^ 32) };
}

impl Pool {
    /// A pool without keys. Takes no memory.
    pub fn new(alloc: Global, order: Order) -> Pool
        ensures order { result.order ≡ order }
        ensures empty { (id : ℕ) → key_in result id ≡ None }
    {
        Pool {
            order,
            keys: Vec::new(alloc),
            places: Vec::new(alloc),
        }
    }

    /// Makes room for `more` further keys, and for node numbers below `below`. `AllocError` where
    /// there is no memory. The keys stay, and no room is lost.
    pub fn reserve(&mut self, more: usize, below: u32) -> Result<(), AllocError>
        ensures order { self.new.order ≡ self.old.order }
        ensures keys { (id : ℕ) → key_in self.new id ≡ key_in self.old id }
        ensures room { OnOk result (more ≤ self.new.room) }
        ensures below { OnOk result (below ≤ length self.new.keys) }
        ensures kept { self.old.room ≤ self.new.room }
        ensures still { length self.old.keys ≤ length self.new.keys }
    {
        self.keys.reserve(more)?;
        if self.places.len() < below as usize {
            self.places.resize(below as usize, 0)?;
        }
        Ok(())
    }

    /// Puts a key in, where there is room for it and its node is not held: so many steps as the
    /// number of keys has binary digits. Takes no memory.
    pub fn put_reserved(&mut self, key: Key)
        requires room { 0 < self.old.room }
        requires below { key.id < length self.old.keys }
        requires new { key_in self.old key.id ≡ None }
        ensures order { self.new.order ≡ self.old.order }
        ensures keys { (id : ℕ) → key_in self.new id
            ≡ (if id == key.id then Some key else key_in self.old id) }
        ensures room { self.new.room + 1 ≡ self.old.room }
        ensures below { length self.new.keys ≡ length self.old.keys }
    {
        put(self.order, &mut self.keys, self.places.as_mut_slice(), key);
    }

    /// The first key in the order, found in one step. None exactly where no key is held.
    pub fn first(&self) -> Option<Key>
        ensures some { IfSome result (λ k. IsFirst self.now k) }
        ensures none { result ≡ None → (id : ℕ) → key_in self.now id ≡ None }
    {
        self.keys.first().copied()
    }

    /// Takes out the key of a node: so many steps as the number of keys has binary digits. True
    /// exactly where it was held. Takes no memory.
    pub fn remove(&mut self, id: u32) -> bool
        ensures held { result ≡ is_some (key_in self.old id) }
        ensures order { self.new.order ≡ self.old.order }
        ensures keys { (other : ℕ) → key_in self.new other
            ≡ (if other == id then None else key_in self.old other) }
        ensures room { self.new.room ≡ (if result then self.old.room + 1 else self.old.room) }
        ensures below { length self.new.keys ≡ length self.old.keys }
    {
        if id as usize >= self.places.len() {
            return false;
        }
        let place = self.places[id as usize];
        if place == 0 {
            return false;
        }
        take_out(
            self.order,
            &mut self.keys,
            self.places.as_mut_slice(),
            id as usize,
            place as usize - 1,
        );
        true
    }
}
