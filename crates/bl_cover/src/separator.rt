//! What proposes cuts, and what it may propose.
ghost use Rattle.std.specs.Prelude.{◌≡◌, ◌≤◌, ◌^◌, length, All, IfOk, IfSome};
ghost use Rattle.bl_problem.specs.Sums.{IsWithin};
ghost use Rattle.bl_bound.specs.Descriptions.{Describes};
ghost use Rattle.bl_cuts.specs.Separations.{first_broken};
ghost use Rattle.bl_cover.specs.Tries.{HasShape, IsRowTry, AllowedBy, AnswersAs, weights_of};

use crate::search::find_cover;
use bl_cuts::{Pick, separate};
use bl_desc::Desc;
use bl_fixed::Fixed;
use bl_mods::Items;
use bl_problem::{Cut, Problem};
use std::alloc::{AllocError, Global};

/// What a separator proposes.
#[derive(Drop)]
pub enum Try {
    /// Weights and a divisor for `derive`.
    Weights(Pick),
    /// A row and columns of it, in rising order, for `cover_cut`.
    Cover { row: u32, columns: Items<u32> },
}

/// Proposes cuts. Whatever it proposes, `derive` and `cover_cut` make only cuts that every feasible
/// point meets.
pub trait Separate: Sync {
    ghost use Rattle.std.specs.Prelude.{◌≡◌, ◌≤◌, ◌^◌, length, All, IfOk, IfSome};
    ghost use Rattle.bl_problem.specs.Sums.{IsWithin};
    ghost use Rattle.bl_problem.specs.Program.{Program};
    ghost use Rattle.bl_problem.specs.declared.cut.Cut.{Cut as TheCut};
    ghost use Rattle.bl_desc.specs.declared.desc.Desc.{Desc as TheDesc};
    ghost use Rattle.bl_bound.specs.Descriptions.{Describes};
    ghost use Rattle.bl_cover.specs.declared.separator.Try.{Try as TheTry};
    ghost use Rattle.bl_cover.specs.Tries.{HasShape};

    /// Whether it may propose this at a problem and a description.
    ghost allows: { Self → Program → TheDesc TheCut → TheTry → Type 0 };

    /// A proposal at a point of one entry per column, each of raw size at most 2^70, or None. It is
    /// allowed there; weights have one entry per row and then one per cut, and a divisor of at
    /// least 1; a cover's row is one of the problem's. `AllocError` only for want of memory.
    fn ask(
        &self,
        alloc: Global,
        problem: &Problem,
        desc: &Desc<Cut>,
        point: &[Fixed],
    ) -> Result<Option<Try>, AllocError>
        requires suits { Describes problem.now desc.now }
        requires width { length point.now ≡ length problem.now.columns }
        requires near { All (λ x. IsWithin (2 ^ 70) x.raw) point.now }
        ensures allowed { IfOk result
            (λ answer. IfSome answer (allows self.now problem.now desc.now)) }
        ensures shape { IfOk result (λ answer. IfSome answer (HasShape problem.now desc.now)) };
}

/// Which cuts are proposed.
#[derive(Clone, Copy, Debug, PartialEq, Eq)]
pub enum CutKinds {
    /// Cuts from one row.
    Rows,
    /// Covers.
    Covers,
    /// Cuts from one row, and covers where there is none.
    Both,
}

/// Proposes the cuts of some kinds: with `Rows` what `separate` gives, with `Covers` what
/// `find_cover` gives, with `Both` what `separate` gives and, at None, what `find_cover` gives.
#[derive(Drop)]
pub struct KindSeparator {
    pub kinds: CutKinds,
}

impl KindSeparator {
    /// The separator of these kinds. Takes no memory.
    pub fn new(kinds: CutKinds) -> KindSeparator
        ensures { result ≡ record { kinds = kinds } }
    {
        KindSeparator { kinds }
    }
}

impl Separate for KindSeparator {
    ghost allows = { λ s p desc t. AllowedBy s.kinds p desc t };

    fn ask(
        &self,
        alloc: Global,
        problem: &Problem,
        desc: &Desc<Cut>,
        point: &[Fixed],
    ) -> Result<Option<Try>, AllocError>
        requires suits { Describes problem.now desc.now }
        requires width { length point.now ≡ length problem.now.columns }
        requires near { All (λ x. IsWithin (2 ^ 70) x.raw) point.now }
        ensures allowed { IfOk result
            (λ answer. IfSome answer (AllowedBy self.now.kinds problem.now desc.now)) }
        ensures shape { IfOk result (λ answer. IfSome answer (HasShape problem.now desc.now)) }
        ensures answers { IfOk result (AnswersAs self.now.kinds problem.now desc.now point.now) }
    {
        match self.kinds {
            CutKinds::Rows => from_rows(alloc, problem, desc, point),
            CutKinds::Covers => find_cover(alloc, problem, desc, point),
            CutKinds::Both => match from_rows(alloc, problem, desc, point)? {
                Some(answer) => Ok(Some(answer)),
                None => find_cover(alloc, problem, desc, point),
            },
        }
    }
}

// The first cut from one row that the point breaks.
fn from_rows(
    alloc: Global,
    problem: &Problem,
    desc: &Desc<Cut>,
    point: &[Fixed],
) -> Result<Option<Try>, AllocError>
    requires suits { Describes problem.now desc.now }
    requires width { length point.now ≡ length problem.now.columns }
    requires near { All (λ x. IsWithin (2 ^ 70) x.raw) point.now }
    ensures exact { IfOk result (λ answer. answer
        ≡ weights_of (first_broken problem.now desc.now.cuts point.now)) }
    ensures candidate { IfOk result (λ answer. IfSome answer (IsRowTry problem.now desc.now)) }
    ensures shape { IfOk result (λ answer. IfSome answer (HasShape problem.now desc.now)) }
{
    Ok(separate(alloc, problem, desc, point)?.map(Try::Weights))
}
