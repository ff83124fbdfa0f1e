// Steps that narrow the box of a description.
ghost use Rattle.std.specs.Prelude.{◌≡◌, ◌<◌, ◌≤ℤ◌, length, List, IsTrue, ◌↔◌};
ghost use Rattle.bl_problem.specs.Points.{InBox};
ghost use Rattle.bl_prop.specs.Limits.{IsDecision, AreDecisions};
ghost use Rattle.bl_heur.specs.Dives.{narrowed_by, narrowed, first_free, at_low};

use bl_desc::Desc;
use bl_problem::{Cut, Decision, Side};

// Narrows the box by a decision.
fn narrow_by(desc: &mut Desc<Cut>, decision: Decision)
    requires decision { IsDecision (length desc.old.lows) decision }
    requires highs { length desc.old.highs ≡ length desc.old.lows }
    ensures { desc.new ≡ narrowed_by desc.old decision }
{
    let j = decision.column as usize;
    match decision.side {
        Side::AtLeast => {
            let low = desc.lows.as_slice()[j];
            desc.lows.set(j, low.max(decision.value));
        }
        Side::AtMost => {
            let high = desc.highs.as_slice()[j];
            desc.highs.set(j, high.min(decision.value));
        }
    }
}

// Narrows the box by decisions.
pub fn narrow(desc: &mut Desc<Cut>, decisions: &[Decision])
    requires decisions { AreDecisions (length desc.old.lows) decisions.now }
    requires highs { length desc.old.highs ≡ length desc.old.lows }
    ensures { desc.new ≡ narrowed desc.old decisions.now }
{
    for decision in decisions {
        narrow_by(desc, *decision);
    }
}

// The first column that has more than one value.
pub fn first_free(lows: &[i64], highs: &[i64]) -> Option<usize>
    requires { length highs.now ≡ length lows.now }
    ensures { result ≡ first_free (length lows.now) lows.now highs.now }
{
    for j in 0..lows.len() {
        if lows[j] < highs[j] {
            return Some(j);
        }
    }
    None
}

// Gives the column its low alone.
pub fn take_low(desc: &mut Desc<Cut>, column: usize)
    requires low { column < length desc.old.lows }
    requires high { column < length desc.old.highs }
    ensures { desc.new ≡ at_low desc.old column }
{
    let low = desc.lows.as_slice()[column];
    desc.highs.set(column, low);
}

// Whether each entry lies from its low to its high.
pub fn is_inside(lows: &[i64], highs: &[i64], point: &[i64]) -> bool
    requires highs { length highs.now ≡ length lows.now }
    requires width { length point.now ≡ length lows.now }
    ensures { IsTrue result ↔ InBox lows.now highs.now point.now }
{
    for j in 0..lows.len() {
        if point[j] < lows[j] || highs[j] < point[j] {
            return false;
        }
    }
    true
}
