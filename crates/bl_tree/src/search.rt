//! Searches over plain lists of records.
ghost use Rattle.std.specs.Prelude.{◌≡◌, ◌≤◌, length, ◌^◌, slice_get, sum_by, option_copied, All};
ghost use Rattle.std.specs.Prelude.{IfSome};
ghost use Rattle.bl_tree.specs.Records.{least_with, least_if, live_lows, piece_if, weight_if};
ghost use Rattle.bl_desc.specs.Weights.{HasShortLists};
ghost use Rattle.bl_journal.specs.States.{has_point as box_has_point};

use crate::record::Record;
use bl_desc::Piece;
use bl_problem::Cut;

/// Whether each low is at most its high.
pub fn has_point(lows: &[i64], highs: &[i64]) -> bool
    ensures { result ≡ box_has_point lows.now highs.now }
{
    let mut ordered = true;
    for i in 0..lows.len() {
        if i >= highs.len() {
            return ordered;
        }
        ordered = ordered && lows[i] <= highs[i];
    }
    ordered
}

/// The lesser of two numbers, of which the first may be missing.
fn lesser(least: Option<i128>, low: i128) -> Option<i128>
    ensures { result ≡ least_with least low }
{
    match least {
        None => Some(low),
        Some(other) => Some(other.min(low)),
    }
}

/// The least low number of the live nodes.
pub fn least_live(records: &[Record], cutoff: Option<i128>) -> Option<i128>
    ensures { result ≡ least_if (live_lows cutoff records.now) }
{
    let mut least: Option<i128> = None;
    for record in records {
        if record.lives(cutoff) {
            least = lesser(least, record.low);
        }
    }
    least
}

/// The piece of a node that is born and not freed.
pub fn piece_of(records: &[Record], id: usize) -> Option<&Piece<Cut>>
    ensures { option_copied result ≡ piece_if (slice_get records.now id) }
{
    if id >= records.len() {
        return None;
    }
    records[id].piece.as_ref()
}

/// The weight of the pieces of all nodes that are not freed.
pub fn weight_of_all(records: &[Record]) -> u64
    requires few { length records.now ≤ 2 ^ 20 }
    requires short { All (λ r. IfSome r.piece HasShortLists) records.now }
    ensures { result ≡ sum_by (λ r. weight_if r.piece) records.now }
{
    let mut sum = 0;
    for record in records {
        sum += record.weight();
    }
    sum
}
