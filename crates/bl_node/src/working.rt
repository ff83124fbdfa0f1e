// The working state of a node, and the steps that narrow it.
ghost use Rattle.std.specs.Prelude.{◌≡◌, IfOk};

use bl_desc::Desc;
use bl_mods::Items;
use bl_problem::Cut;
use std::alloc::AllocError;

// The description so far; the best point found in the node, and the least of its value and the
// node's cutoff; a number that no better point of the node is below; and how many bounds were
// decided.
#[derive(Drop)]
pub struct Working {
    pub desc: Desc<Cut>,
    pub found: Option<Items<i64>>,
    pub best: Option<i128>,
    pub low: i128,
    pub decided: usize,
}

impl Working {
    // An equal state.
    pub fn duplicate(&self) -> Result<Working, AllocError>
        ensures { IfOk result (λ copy. copy ≡ self.now) }
    {
        let found = match &self.found {
            Some(point) => Some(point.copy_all()?),
            None => None,
        };
        Ok(Working {
            desc: self.desc.duplicate()?,
            found,
            best: self.best,
            low: self.low,
            decided: self.decided,
        })
    }
}

// What a pass of tightening came to.
#[derive(Clone, Copy, Debug, PartialEq, Eq)]
pub enum Pass {
    // No point of the node is better.
    Shut,
    Changed,
    // No bound became tighter, or no more bounds may be decided.
    Same,
}
