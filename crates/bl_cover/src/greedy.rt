// The greedy cover of a row at a point.
ghost use Rattle.std.specs.Prelude.{◌≡◌, ◌≤◌, ◌<◌, ◌^◌, ◌++◌, length, map, All, IfOk, OnOk};
ghost use Rattle.std.specs.Prelude.{IfSome, nat_eq};
ghost use Rattle.std.specs.List.{IsDistinct};
ghost use Rattle.std.specs.List.Sorted.{IsPermutation, IsStrictlyIncreasing};
ghost use Rattle.bl_problem.specs.Sums.{IsWithin};
ghost use Rattle.bl_problem.specs.Rows.{AreTerms};
ghost use Rattle.bl_cover.specs.Greedy.{listed, candidates, IsOrderOf, cover_size, is_broken};
ghost use Rattle.bl_cover.specs.Greedy.{broken_size, column_of, IsCandidate};

use crate::knapsack::is_binary;
use bl_fixed::Fixed;
use bl_mods::Items;
use bl_problem::{Column, Term};
use std::alloc::{AllocError, Global};
use std::cmp::Reverse;

// A column that may stand in a cover: its coefficient in the row, and the raw number of its entry.
#[derive(Clone, Copy)]
pub struct Candidate {
    pub column: u32,
    pub coefficient: i64,
    pub entry: i128,
}

// Lists a term, if it is positive and on a column of bounds 0 and 1.
fn list_term(
    order: &mut Vec<Candidate>,
    columns: &[Column],
    term: Term,
    point: &[Fixed],
) -> Result<(), AllocError>
    requires { term.column < length point.now }
    ensures { OnOk result (order.new.items ≡ order.old.items ++ listed columns.now point.now term) }
{
    if 0 < term.coefficient && is_binary(columns, term.column) {
        order.push(Candidate {
            column: term.column,
            coefficient: term.coefficient,
            entry: point[term.column as usize].raw,
        })?;
    }
    Ok(())
}

// Lists the positive terms on columns of bounds 0 and 1, in place of what the list had.
fn list(
    order: &mut Vec<Candidate>,
    columns: &[Column],
    terms: &[Term],
    point: &[Fixed],
) -> Result<(), AllocError>
    requires width { length point.now ≡ length columns.now }
    requires terms { AreTerms (length columns.now) terms.now }
    ensures { IfOk result (λ u. order.new.items ≡ candidates columns.now point.now terms.now) }
{
    order.clear();
    for term in terms {
        list_term(order, columns, *term, point)?;
    }
    Ok(())
}

// Lists them by greatest entry, then least column.
pub fn list_in_order(
    order: &mut Vec<Candidate>,
    columns: &[Column],
    terms: &[Term],
    point: &[Fixed],
) -> Result<(), AllocError>
    requires width { length point.now ≡ length columns.now }
    requires terms { AreTerms (length columns.now) terms.now }
    ensures { IfOk result (λ u. IsOrderOf (candidates columns.now point.now terms.now)
        order.new.items) }
{
    list(order, columns, terms, point)?;
    order.sort_unstable_by_key(|candidate| (Reverse(candidate.entry), candidate.column));
    Ok(())
}

// How many of the candidates are taken until they are above the room.
fn cover_size(order: &[Candidate], room: i128) -> Option<usize>
    requires room { IsWithin (10 ^ 28) room }
    requires few { length order.now ≤ 1000 }
    requires candidates { All IsCandidate order.now }
    ensures exact { result ≡ cover_size room order.now }
    ensures within { IfSome result (λ size. size ≤ length order.now) }
{
    let mut left = room;
    for place in 0..order.len() {
        if left < 0 {
            return Some(place);
        }
        left -= order[place].coefficient as i128;
    }
    if left < 0 { Some(order.len()) } else { None }
}

// Whether the sum of the entries is above their number less 1.
fn is_broken(taken: &[Candidate]) -> bool
    requires few { length taken.now ≤ 1000 }
    requires near { All IsCandidate taken.now }
    ensures { result ≡ is_broken taken.now }
{
    let mut sum: i128 = 0;
    for candidate in taken {
        sum += candidate.entry;
    }
    (taken.len() as i128 - 1) * (1 << 40) < sum
}

// How many of them make a cover that the point breaks.
pub fn broken_size(order: &[Candidate], room: Option<i128>) -> Option<usize>
    requires room { IfSome room (IsWithin (10 ^ 28)) }
    requires few { length order.now ≤ 1000 }
    requires candidates { All IsCandidate order.now }
    ensures exact { result ≡ broken_size room order.now }
    ensures within { IfSome result (λ size. size ≤ length order.now) }
{
    let size = cover_size(order, room?)?;
    if is_broken(&order[..size]) {
        Some(size)
    } else {
        None
    }
}

// The columns, in rising order.
pub fn columns_of(alloc: Global, taken: &[Candidate]) -> Result<Items<u32>, AllocError>
    requires { IsDistinct nat_eq (map column_of taken.now) }
    ensures same { IfOk result (IsPermutation (map column_of taken.now)) }
    ensures rising { IfOk result IsStrictlyIncreasing }
{
    let mut columns = Vec::new(alloc);
    for candidate in taken {
        columns.push(candidate.column)?;
    }
    columns.sort_unstable();
    Ok(Items::from_vec(columns))
}
