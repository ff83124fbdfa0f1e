// Rounded coefficients and their terms.
ghost use Rattle.std.specs.Prelude.{◌≡◌, ◌≤◌, ◌^◌, ℕ, length, ℤ, pos, ◌≤ℤ◌, ◌++◌, IfOk, OnOk};
ghost use Rattle.std.specs.Prelude.{true, unwrap_or, nat_le, unsigned_abs};
ghost use Rattle.bl_bound.specs.Bounds.{sum_at};
ghost use Rattle.bl_cuts.specs.Answers.{cut_within, IsOrMemory};
ghost use Rattle.bl_cuts.specs.Derivations.{floored, rounded, term_of, terms_below, are_small};

use crate::ends::floored;
use crate::fault::CutFault;
use bl_mods::{ItemId, Items};
use bl_problem::{Cut, Term};
use std::alloc::{AllocError, Global};

// The greatest size of a coefficient.
const WIDEST_COEFFICIENT: u128 = 1_000_000_000_000_000;

// The greatest size of a right side.
const WIDEST_RIGHT: u128 = 1_000_000_000_000_000_000_000_000_000_000;

// The rounded coefficient of a column.
fn coefficient(sum: Option<i128>, q: i64) -> i128
    requires { pos 1 ≤ℤ q }
    ensures { result ≡ unwrap_or (floored sum q) (pos 0) }
{
    floored(sum, q).unwrap_or(0)
}

fn is_small(value: i128, limit: u128) -> bool
    ensures { result ≡ nat_le (unsigned_abs value) limit }
{
    value.unsigned_abs() <= limit
}

// Whether each rounded coefficient is within the limit.
fn are_small(sums: &[Option<i128>], q: i64) -> bool
    requires { pos 1 ≤ℤ q }
    ensures { result ≡ are_small (length sums.now) (rounded (sum_at sums.now) q) }
{
    let mut all = true;
    for sum in sums {
        all = all && is_small(coefficient(*sum, q), WIDEST_COEFFICIENT);
    }
    all
}

// Appends the term of a column, where its coefficient is not zero.
fn push_term(terms: &mut Items<Term>, column: u32, coefficient: i64) -> Result<(), AllocError>
    ensures { OnOk result (terms.new ≡ terms.old ++ term_of column coefficient) }
{
    if coefficient != 0 {
        terms.push(Term {
            column,
            coefficient,
        })?;
    }
    Ok(())
}

// The terms of the rounded coefficients.
fn terms(alloc: Global, sums: &[Option<i128>], q: i64) -> Result<Items<Term>, AllocError>
    requires counted { pos 1 ≤ℤ q }
    requires few { length sums.now ≤ 1000 }
    requires small { are_small (length sums.now) (rounded (sum_at sums.now) q) ≡ true }
    ensures { IfOk result (λ terms. terms
        ≡ terms_below (length sums.now) (rounded (sum_at sums.now) q)) }
{
    let mut terms = Items::new(alloc);
    for j in 0..sums.len() {
        push_term(&mut terms, j as u32, coefficient(sums[j], q) as i64)?;
    }
    Ok(terms)
}

// The cut of the rounded coefficients, if it keeps the limits.
pub fn finish(
    alloc: Global,
    id: ItemId,
    sums: &[Option<i128>],
    q: i64,
    right: Option<i128>,
) -> Result<Cut, CutFault>
    requires counted { pos 1 ≤ℤ q }
    requires few { length sums.now ≤ 1000 }
    ensures { IsOrMemory result
        (cut_within id (length sums.now) (rounded (sum_at sums.now) q) right) }
{
    let Some(right) = right else {
        return Err(CutFault::TooWide);
    };
    if !are_small(sums, q) {
        return Err(CutFault::TooWide);
    }
    if !is_small(right, WIDEST_RIGHT) {
        return Err(CutFault::TooWide);
    }
    let terms = terms(alloc, sums, q)?;
    Ok(Cut { id, terms, right })
}
