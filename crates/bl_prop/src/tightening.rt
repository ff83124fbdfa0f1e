//! The answer of a pass.
ghost use Rattle.std.specs.Prelude.{◌≡◌, List, ℤ, length, IfOk};
ghost use Rattle.bl_bound.specs.Descriptions.{Describes, IsLeft};
ghost use Rattle.bl_prop.specs.Answers.{tightened_of, answer_by, IsTightened, Keeps};

use crate::pass::Pass;
use bl_desc::Desc;
use bl_mods::Items;
use bl_problem::{Cut, Decision, Problem};
use std::alloc::{AllocError, Global};

/// What a pass shows.
#[derive(Drop)]
pub enum Tightened {
    /// No point of the box meets this row; the cuts count on from the rows.
    Empty { row: u32 },
    /// The bounds that became tighter, in the order in which they did: one or more.
    Changed(Items<Decision>),
    /// No bound became tighter.
    Same,
}

/// One pass over the rows and then the cuts, each end that is there, high first: each term
/// bounds its column by what the least sum of the line's terms leaves. It stops after 256
/// decisions. `AllocError` where there is no memory.
pub fn tighten(alloc: Global, problem: &Problem, desc: &Desc<Cut>) -> Result<Tightened, AllocError>
    requires suits { Describes problem.now desc.now }
    ensures exact { IfOk result (λ t. t ≡ tightened_of problem.now desc.now) }
    ensures within { IfOk result (IsTightened (length problem.now.columns)) }
    ensures keeps { IfOk result (λ t. (x : List ℤ) → IsLeft problem.now desc.now x → Keeps x t) }
{
    let mut pass = Pass {
        lows: desc.lows.copy_all()?,
        highs: desc.highs.copy_all()?,
        decisions: Items::new(alloc),
        stuck: None,
    };
    pass.walk(problem.rows(), desc.cuts.as_slice())?;
    Ok(answer(pass))
}

fn answer(pass: Pass) -> Tightened
    ensures { result ≡ answer_by pass.stuck pass.decisions }
{
    match pass.stuck {
        Some(row) => Tightened::Empty { row },
        None => {
            if pass.decisions.is_empty() {
                Tightened::Same
            } else {
                Tightened::Changed(pass.decisions)
            }
        }
    }
}
