//! The bounds of a node and of its children, over lists that are there already.
ghost use Rattle.std.specs.Prelude.{◌≡◌, ◌<◌, ◌<ℤ◌, ◌+ℤ◌, pos, slice_set, slice_index_or, length};
ghost use Rattle.bl_mods.specs.Mods.{written};
ghost use Rattle.bl_desc.specs.Changes.{AreBelow};
ghost use Rattle.bl_journal.specs.States.{has_point as box_has_point};
ghost use Rattle.bl_tree.specs.Chains.{IsApplicable, described_by};

use crate::search::has_point;
use bl_desc::Change;
use bl_mods::Items;
use bl_problem::Cut;
use bl_rebuild::Chain;

// Writes these values over a list of as many.
fn overwrite(list: &mut Items<i64>, values: &[i64])
    requires { length list.old ≡ length values.now }
    ensures { list.new ≡ values.now }
{
    for i in 0..values.len() {
        list.set(i, values[i]);
    }
}

/// Writes the bounds of the description that a chain stands for over two lists of as many
/// entries. Takes no memory.
pub fn write_bounds(chain: &Chain<Cut>, lows: &mut Items<i64>, highs: &mut Items<i64>)
    requires chain { IsApplicable chain.now }
    requires lows { length lows.old ≡ length chain.now.top.lows }
    requires highs { length highs.old ≡ length chain.now.top.highs }
    ensures lows { lows.new ≡ (described_by chain.now).lows }
    ensures highs { highs.new ≡ (described_by chain.now).highs }
{
    let top = chain.top.get();
    overwrite(lows, top.lows.as_slice());
    overwrite(highs, top.highs.as_slice());
    for piece in chain.changes.as_slice() {
        let Some(change) = piece else {
            continue;
        };
        change.get().lows.apply_to(lows);
        change.get().highs.apply_to(highs);
    }
}

/// Whether the boxes of the two children have a point, where a node with these bounds is split
/// after a change. Bounds are written over. Takes no memory.
pub fn have_points(
    lows: &mut Items<i64>,
    highs: &mut Items<i64>,
    common: &Change<Cut>,
    column: usize,
    at: i64,
) -> (bool, bool)
    requires fit_lows { AreBelow (length lows.old) common.now.lows }
    requires fit_highs { AreBelow (length highs.old) common.now.highs }
    requires low { column < length lows.old }
    requires high { column < length highs.old }
    requires below { at <ℤ slice_index_or (written common.now.highs highs.old) column (pos 0) }
    ensures left { result.0 ≡ box_has_point (written common.now.lows lows.old)
        (slice_set (written common.now.highs highs.old) column at) }
    ensures right { result.1 ≡ box_has_point
        (slice_set (written common.now.lows lows.old) column (at +ℤ pos 1))
        (written common.now.highs highs.old) }
    ensures lows { length lows.new ≡ length lows.old }
    ensures highs { length highs.new ≡ length highs.old }
{
    common.lows.apply_to(lows);
    common.highs.apply_to(highs);
    let high = highs.as_slice()[column];
    highs.set(column, at);
    let left = has_point(lows.as_slice(), highs.as_slice());
    highs.set(column, high);
    lows.set(column, at + 1);
    let right = has_point(lows.as_slice(), highs.as_slice());
    (left, right)
}
