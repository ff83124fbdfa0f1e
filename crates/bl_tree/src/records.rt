//! Changes of plain lists of records.
ghost use Rattle.std.specs.Prelude.{◌≡◌, ◌<◌, ◌≤◌, ◌+◌, ◌*◌, ◌^◌, ℕ, length, vec_capacity};
ghost use Rattle.std.specs.Prelude.{slice_get, OnOk};
ghost use Rattle.bl_tree.specs.Records.{stored_at, parent_if};
ghost use Rattle.bl_pool.specs.Views.{key_in};

use crate::record::Record;
use bl_desc::Piece;
use bl_pool::Pool;
use bl_problem::Cut;
use std::alloc::AllocError;

/// Makes the spare room that so many leases need in the list and the pools of a tree. What
/// stands in them stays.
pub fn make_room(
    records: &mut Vec<Record>,
    waiting: &mut Pool,
    candidates: &mut Pool,
    leases: usize,
) -> Result<(), AllocError>
    requires few { length records.old.items + 3 * leases < 2 ^ 32 }
    ensures records { records.new.items ≡ records.old.items }
    ensures order { waiting.new.order ≡ waiting.old.order }
    ensures waiting { (id : ℕ) → key_in waiting.new id ≡ key_in waiting.old id }
    ensures candidate_order { candidates.new.order ≡ candidates.old.order }
    ensures candidates { (id : ℕ) → key_in candidates.new id ≡ key_in candidates.old id }
    ensures record_room { vec_capacity records.old ≤ vec_capacity records.new }
    ensures waiting_room { waiting.old.room ≤ waiting.new.room }
    ensures waiting_below { length waiting.old.keys ≤ length waiting.new.keys }
    ensures candidate_room { candidates.old.room ≤ candidates.new.room }
    ensures candidate_below { length candidates.old.keys ≤ length candidates.new.keys }
    ensures more_records { OnOk result (length records.new.items + 2 * leases
        ≤ vec_capacity records.new) }
    ensures more_waiting { OnOk result (2 * leases ≤ waiting.new.room) }
    ensures more_below { OnOk result (length records.new.items + 2 * leases
        ≤ length waiting.new.keys) }
    ensures more_candidates { OnOk result (3 * leases ≤ candidates.new.room) }
    ensures more_candidates_below { OnOk result (length records.new.items + 2 * leases
        ≤ length candidates.new.keys) }
{
    records.reserve(2 * leases)?;
    let below = records.len() + 2 * leases;
    waiting.reserve(2 * leases, below as u32)?;
    candidates.reserve(3 * leases, below as u32)?;
    Ok(())
}

/// Stores a node as this piece. What is given back is the node's parent, and what was stored
/// before.
pub fn store(
    records: &mut Vec<Record>,
    id: usize,
    piece: Piece<Cut>,
) -> (Option<u32>, Option<Piece<Cut>>)
    requires { id < length records.old.items }
    ensures items { records.new.items ≡ stored_at records.old.items id piece }
    ensures capacity { vec_capacity records.new ≡ vec_capacity records.old }
    ensures parent { result.0 ≡ parent_if (slice_get records.old.items id) }
{
    let record = &mut records[id];
    let before = record.piece.replace(piece);
    (record.parent, before)
}
