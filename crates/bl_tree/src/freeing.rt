//! Whether a node may be freed, and freeing over plain lists of records.
ghost use Rattle.std.specs.Prelude.{◌≡◌, ◌<◌, ◌≤◌, ◌+◌, [], length, vec_capacity, slice_get};
ghost use Rattle.bl_tree.specs.Records.{holds_if, is_held, may_go, may_go_at, gone_at, next_up};
ghost use Rattle.bl_tree.specs.Records.{depth_if, AreLinked, IsFreedUp};

use crate::record::Record;
use bl_desc::Piece;
use bl_journal::State;
use bl_problem::Cut;

// Whether the node is not freed and relative.
fn holds(records: &[Record], id: usize) -> bool
    ensures { result ≡ holds_if (slice_get records.now id) }
{
    match records.get(id) {
        Some(record) => record.is_relative(),
        None => false,
    }
}

// Whether one of the two children holds its parent, where the first is known.
fn is_held(records: &[Record], children: Option<u32>) -> bool
    ensures { result ≡ is_held records.now children }
{
    match children {
        None => false,
        Some(first) => holds(records, first as usize) || holds(records, first as usize + 1),
    }
}

/// Whether the node may be freed.
pub fn may_go(records: &[Record], cutoff: Option<i128>, id: usize) -> bool
    ensures { result ≡ may_go_at cutoff records.now id }
{
    match records.get(id) {
        Some(record) => record.is_over(cutoff) && !is_held(records, record.children),
        None => false,
    }
}

// Marks a node as freed, and hands out what was stored of it.
fn go(records: &mut Vec<Record>, id: usize) -> Option<Piece<Cut>>
    requires { id < length records.old.items }
    ensures items { records.new.items ≡ gone_at records.old.items id }
    ensures capacity { vec_capacity records.new ≡ vec_capacity records.old }
{
    let record = &mut records[id];
    record.stage = State::Freed;
    record.piece.take()
}

// The node's parent, if it may be freed.
fn next_up(records: &[Record], cutoff: Option<i128>, id: usize) -> Option<u32>
    ensures { result ≡ next_up cutoff records.now id }
{
    match records.get(id) {
        None => None,
        Some(record) => {
            let parent = record.parent?;
            if may_go(records, cutoff, parent as usize) {
                Some(parent)
            } else {
                None
            }
        }
    }
}

/// Frees a node, and then each parent in turn as long as it may be freed. Appends their numbers
/// to an empty list, and what was stored of them to another; both have room for the node and all
/// nodes above it. Takes no memory.
pub fn free_up(
    records: &mut Vec<Record>,
    cutoff: Option<i128>,
    first: u32,
    ids: &mut Vec<u32>,
    pieces: &mut Vec<Option<Piece<Cut>>>,
)
    requires there { first < length records.old.items }
    requires linked { AreLinked records.old.items }
    requires empty { ids.old.items ≡ [] }
    requires room { depth_if (slice_get records.old.items first) < vec_capacity ids.old }
    requires bare { pieces.old.items ≡ [] }
    requires wide { vec_capacity ids.old ≤ vec_capacity pieces.old }
    ensures freed { IsFreedUp cutoff records.old.items first ids.new.items records.new.items }
    ensures few { length ids.new.items ≤ depth_if (slice_get records.old.items first) + 1 }
    ensures capacity { vec_capacity records.new ≡ vec_capacity records.old }
{
    pieces.push_reserved(go(records, first as usize));
    ids.push_reserved(first);
    let mut last = first;
    while let Some(parent) = next_up(records.as_slice(), cutoff, last as usize) {
        pieces.push_reserved(go(records, parent as usize));
        ids.push_reserved(parent);
        last = parent;
    }
}
