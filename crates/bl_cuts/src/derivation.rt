//! The cut that weights give.
ghost use Rattle.std.specs.Prelude.{◌≡◌, ◌+◌, length, All, List, ℤ, pos, ◌≤ℤ◌, IfOk};
ghost use Rattle.bl_problem.specs.Points.{IsFeasible};
ghost use Rattle.bl_problem.specs.Cuts.{SuitsProblem, MeetsCut};
ghost use Rattle.bl_cuts.specs.Answers.{derived_of, IsOrMemory};

use crate::columns::{add_lines, put_zeros};
use crate::ends::{ends_sum, points_at_ends, right_side};
use crate::fault::CutFault;
use crate::rounding::finish;
use bl_mods::{ItemId, Shared};
use bl_problem::{Cut, Problem};
use std::alloc::Global;

/// The Chvátal-Gomory cut of weights over the rows and then the cuts, divided by `q` (Gomory
/// 1958, Chvátal 1973). `weights` has one entry per row and then one per cut; a positive weight
/// points at the high end of its line, a negative one at the low end. Each coefficient is the
/// weighted sum divided by `q` and rounded down, and so is the right side, both taken over the
/// columns' own lows. Every feasible point that meets the cuts meets it.
///
/// `Weights` comes exactly where a weight points at a missing end; else `TooWide` exactly where a
/// product or a partial sum leaves `i128` or the cut is beyond the limits; `Memory` only for want
/// of memory.
pub fn derive(
    alloc: Global,
    problem: &Problem,
    cuts: &[Shared<Cut>],
    weights: &[i64],
    q: i64,
    id: ItemId,
) -> Result<Cut, CutFault>
    requires suits { All (SuitsProblem problem.now) cuts.now }
    requires weights { length weights.now ≡ length problem.now.rows + length cuts.now }
    requires counted { pos 1 ≤ℤ q }
    ensures exact { IsOrMemory result (derived_of problem.now cuts.now weights.now q id) }
    ensures named { IfOk result (λ cut. cut.id ≡ id) }
    ensures suits { IfOk result (SuitsProblem problem.now) }
    ensures holds { IfOk result (λ cut. (x : List ℤ) → IsFeasible problem.now x
        → All (MeetsCut x) cuts.now → MeetsCut x cut) }
{
    let (columns, rows) = (problem.columns(), problem.rows());
    if !points_at_ends(rows, cuts, weights) {
        return Err(CutFault::Weights);
    }
    let mut room: [Option<i128>; 1000] = [None; 1000];
    let sums = &mut room[..columns.len()];
    put_zeros(sums);
    add_lines(sums, rows, cuts, weights);
    let right = right_side(sums, columns, ends_sum(rows, cuts, weights), q);
    finish(alloc, id, sums, q, right)
}
