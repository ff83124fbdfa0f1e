// A row as a knapsack: what its terms take at least, and the columns that may stand in a cover.
ghost use Rattle.std.specs.Prelude.{◌≡◌, ◌≤◌, ◌<◌, ◌^◌, length, All, AllPairs, IfErr, IfOk, None};
ghost use Rattle.std.specs.Prelude.{Some};
ghost use Rattle.std.specs.Int.{int_min};
ghost use Rattle.bl_num.specs.Exact.{at};
ghost use Rattle.bl_problem.specs.Program.{IsColumn};
ghost use Rattle.bl_problem.specs.Rows.{AreTerms, coefficient_of};
ghost use Rattle.bl_problem.specs.Sums.{IsWithin};
ghost use Rattle.bl_cover.specs.Covers.{least_of, least_sum, is_binary, is_coverable};
ghost use Rattle.bl_cover.specs.Covers.{first_misfit, listed_sum};

use bl_num::product;
use bl_problem::{Column, Term};

// The coefficient of a column, 0 where no term has it.
pub fn coefficient(terms: &[Term], column: u32) -> i64
    requires { AllPairs (λ s t. s.column < t.column) terms.now }
    ensures { result ≡ coefficient_of terms.now column }
{
    match terms.binary_search_by_key(&column, |term| term.column) {
        Ok(place) => terms[place].coefficient,
        Err(_) => 0,
    }
}

// Whether a column is there and has the bounds 0 and 1.
pub fn is_binary(columns: &[Column], column: u32) -> bool
    ensures { result ≡ is_binary columns.now column }
{
    match columns.get(column as usize) {
        Some(column) => column.low == 0 && column.high == 1,
        None => false,
    }
}

// What a term gives at least.
fn least_of(columns: &[Column], term: Term) -> i128
    requires columns { All IsColumn columns.now }
    requires column { term.column < length columns.now }
    requires small { IsWithin (10 ^ 15) term.coefficient }
    ensures exact { result ≡ least_of columns.now term }
    ensures near { IsWithin (10 ^ 24) result }
{
    let column = &columns[term.column as usize];
    product(term.coefficient, column.low).min(product(term.coefficient, column.high))
}

// What the terms give at least.
pub fn least_sum(columns: &[Column], terms: &[Term]) -> i128
    requires few { length columns.now ≤ 1000 }
    requires columns { All IsColumn columns.now }
    requires terms { AreTerms (length columns.now) terms.now }
    ensures exact { result ≡ least_sum columns.now terms.now }
    ensures near { IsWithin (10 ^ 27) result }
{
    let mut sum: i128 = 0;
    for term in terms {
        sum += least_of(columns, *term);
    }
    sum
}

// The sum of the listed columns' coefficients, or the first place that does not fit.
pub fn listed_sum(columns: &[Column], terms: &[Term], listed: &[u32]) -> Result<i128, u32>
    requires few { length columns.now ≤ 1000 }
    requires terms { AreTerms (length columns.now) terms.now }
    ensures misfit { IfErr result (λ place. first_misfit columns.now terms.now listed.now
        (length listed.now) ≡ Some place) }
    ensures fits { IfOk result (λ sum. first_misfit columns.now terms.now listed.now
        (length listed.now) ≡ None) }
    ensures exact { IfOk result (λ sum. sum ≡ listed_sum terms.now listed.now) }
    ensures near { IfOk result (IsWithin (10 ^ 18)) }
    ensures few_listed { IfOk result (λ sum. length listed.now ≤ 1000) }
{
    let mut above = 0;
    let mut sum: i128 = 0;
    for place in 0..listed.len() {
        let column = listed[place];
        let coefficient = coefficient(terms, column);
        if column < above || coefficient <= 0 || !is_binary(columns, column) {
            return Err(place as u32);
        }
        above = column + 1;
        sum += coefficient as i128;
    }
    Ok(sum)
}
