//! The pool of the candidates: the nodes that may have become free to go.
ghost use Rattle.std.specs.Prelude.{◌≡◌, ◌<◌, ◌≤◌, ◌+◌, ◌*◌, ◌^◌, ℕ, true, false, Some, None};
ghost use Rattle.std.specs.Prelude.{length, IfSome, OnOk};
ghost use Rattle.bl_pool.specs.Views.{key_in};
ghost use Rattle.bl_tree.specs.Records.{AreCandidates, is_listed, may_go_at};

use crate::freeing::may_go;
use crate::queue::leave;
use crate::record::Record;
use bl_pool::{Key, Pool};
use std::alloc::AllocError;

/// Makes a node a candidate. Takes no memory.
pub fn add(pool: &mut Pool, id: u32)
    requires plain { AreCandidates pool.old }
    requires room { 0 < pool.old.room }
    requires below { id < length pool.old.keys }
    ensures plain { AreCandidates pool.new }
    ensures here { is_listed pool.new id ≡ true }
    ensures others { (q : ℕ) → is_listed pool.old q ≡ true → is_listed pool.new q ≡ true }
    ensures room { pool.old.room ≤ pool.new.room + 1 }
    ensures below { length pool.new.keys ≡ length pool.old.keys }
{
    leave(pool, id);
    pool.put_reserved(Key {
        id,
        low: 0,
        depth: 0,
    });
}

/// Makes a node and the next one candidates. Takes no memory.
pub fn add_two(pool: &mut Pool, first: u32)
    requires plain { AreCandidates pool.old }
    requires room { 1 < pool.old.room }
    requires below { first + 1 < length pool.old.keys }
    requires small { first + 1 < 2 ^ 32 }
    ensures plain { AreCandidates pool.new }
    ensures here { is_listed pool.new first ≡ true }
    ensures next { is_listed pool.new (first + 1) ≡ true }
    ensures others { (q : ℕ) → is_listed pool.old q ≡ true → is_listed pool.new q ≡ true }
    ensures room { pool.old.room ≤ pool.new.room + 2 }
    ensures below { length pool.new.keys ≡ length pool.old.keys }
{
    add(pool, first);
    add(pool, first + 1);
}

/// Makes a node a candidate, if there is one. Takes no memory.
pub fn add_if(pool: &mut Pool, id: Option<u32>)
    requires plain { AreCandidates pool.old }
    requires room { 0 < pool.old.room }
    requires below { IfSome id (λ q. q < length pool.old.keys) }
    ensures plain { AreCandidates pool.new }
    ensures here { IfSome id (λ q. is_listed pool.new q ≡ true) }
    ensures others { (q : ℕ) → is_listed pool.old q ≡ true → is_listed pool.new q ≡ true }
    ensures room { pool.old.room ≤ pool.new.room + 1 }
    ensures below { length pool.new.keys ≡ length pool.old.keys }
{
    if let Some(id) = id {
        add(pool, id);
    }
}

// Makes each node that may be freed a candidate. Takes no memory.
fn add_all(pool: &mut Pool, records: &[Record], cutoff: Option<i128>)
    requires plain { AreCandidates pool.old }
    requires few { length records.now < 2 ^ 32 }
    requires room { length records.now ≤ pool.old.room }
    requires below { length records.now ≤ length pool.old.keys }
    ensures plain { AreCandidates pool.new }
    ensures all { (q : ℕ) → q < length records.now → may_go_at cutoff records.now q ≡ true
        → is_listed pool.new q ≡ true }
    ensures others { (q : ℕ) → is_listed pool.old q ≡ true → is_listed pool.new q ≡ true }
    ensures room { pool.old.room ≤ pool.new.room + length records.now }
    ensures below { length pool.new.keys ≡ length pool.old.keys }
{
    for i in 0..records.len() {
        if may_go(records, cutoff, i) {
            add(pool, i as u32);
        }
    }
}

/// Where the best value fell: makes each node that may be freed a candidate, in one pass over the
/// nodes. Room for `room` more candidates stays. `AllocError` where there is no memory.
pub fn refresh(
    pool: &mut Pool,
    fell: bool,
    records: &[Record],
    cutoff: Option<i128>,
    room: usize,
) -> Result<(), AllocError>
    requires plain { AreCandidates pool.old }
    requires few { length records.now + room < 2 ^ 32 }
    requires room { room ≤ pool.old.room }
    requires below { length records.now ≤ length pool.old.keys }
    ensures plain { AreCandidates pool.new }
    ensures all { OnOk result (fell ≡ true → (q : ℕ) → q < length records.now
        → may_go_at cutoff records.now q ≡ true → is_listed pool.new q ≡ true) }
    ensures others { (q : ℕ) → is_listed pool.old q ≡ true → is_listed pool.new q ≡ true }
    ensures room { room ≤ pool.new.room }
    ensures below { length pool.old.keys ≤ length pool.new.keys }
{
    if !fell {
        return Ok(());
    }
    pool.reserve(records.len() + room, 0)?;
    add_all(pool, records, cutoff);
    Ok(())
}

/// The least candidate that may be freed. The candidates before it go.
pub fn first_to_go(pool: &mut Pool, records: &[Record], cutoff: Option<i128>) -> Option<u32>
    requires plain { AreCandidates pool.old }
    ensures plain { AreCandidates pool.new }
    ensures goes { IfSome result (λ id. may_go_at cutoff records.now id ≡ true) }
    ensures least { IfSome result (λ id. (q : ℕ) → is_listed pool.new q ≡ true → id ≤ q) }
    ensures none { result ≡ None → (q : ℕ) → is_listed pool.new q ≡ false }
    ensures kept { (q : ℕ) → is_listed pool.old q ≡ true → may_go_at cutoff records.now q ≡ true
        → is_listed pool.new q ≡ true }
    ensures room { pool.old.room ≤ pool.new.room }
    ensures below { length pool.new.keys ≡ length pool.old.keys }
{
    while let Some(key) = pool.first() {
        if may_go(records, cutoff, key.id as usize) {
            return Some(key.id);
        }
        leave(pool, key.id);
    }
    None
}
