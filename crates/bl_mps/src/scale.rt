//! Numbers in units of the least power of ten that makes a row whole.
ghost use Rattle.std.specs.Prelude.{◌≡◌, ◌≤◌, ◌<◌, ◌^◌, ◌*◌, All, map, true, if◌then◌else◌, Some};
ghost use Rattle.std.specs.Prelude.{None, nat_abs, neg_ℤ, IfSome};
ghost use Rattle.std.specs.List.{list_all};
ghost use Rattle.bl_num.specs.Decimals.{in_units};
ghost use Rattle.bl_cards.specs.Lines.{is_limited};
ghost use Rattle.bl_mps.specs.Meaning.{RowSaid, places_of, or_zero, term_of, terms_of, range_in};
ghost use Rattle.bl_mps.specs.Meaning.{low_end, high_end, ends_of, size, is_within, term_within};
ghost use Rattle.bl_mps.specs.Meaning.{end_within, limited, IsRowRead};
ghost use Rattle.bl_cards.specs.Views.{Gives};
ghost use Rattle.bl_mps.specs.Views.{row_said, within, ends_within};

use crate::entries::Entry;
use bl_cards::{LineFault, Role, What};
use bl_mods::Items;
use bl_num::{Decimal, rescale};
use bl_problem::Term;
use std::alloc::Global;

/// The greatest size of a row's end and of the objective's constant, in units.
const FARTHEST_END: u128 = 1_000_000_000_000_000_000_000_000;

/// The greatest size of a coefficient or a cost, in units.
const WIDEST_COEFFICIENT: u128 = 1_000_000_000_000_000;

/// The ends of a row in units: its sum lies from `low` to `high`, where these are there.
#[derive(Clone, Copy, Debug, PartialEq, Eq)]
pub struct RowEnds {
    pub low: Option<i128>,
    pub high: Option<i128>,
}

/// A number that was given, 0 where none was.
pub fn or_zero(number: Option<Decimal>) -> Decimal
    ensures { result ≡ or_zero number }
{
    number.unwrap_or(Decimal {
        mantissa: 0,
        places: 0,
    })
}

/// The least count of decimal places that makes the numbers of a row whole.
pub fn places_of(entries: &[Entry], right: Decimal, range: Option<Decimal>) -> u32
    ensures { result ≡ places_of (row_said entries.now right range) }
{
    let mut places = 0u32;
    for entry in entries {
        places = places.max(entry.number.places);
    }
    places.max(right.places.max(or_zero(range).places))
}

/// A number in units of 10^-places, or None where it is beyond the limit.
fn units(number: Decimal, places: u32, limit: u128) -> Option<i128>
    requires finer { number.places ≤ places }
    requires few { places ≤ 27 }
    requires limit { limit < 2 ^ 127 }
    ensures { result ≡ within limit (in_units number places) }
{
    let units = rescale(number, places)?;
    if units.unsigned_abs() > limit {
        return None;
    }
    Some(units)
}

/// The term of an entry in units of 10^-places, or None where its coefficient is beyond ±10^15.
fn term(entry: &Entry, places: u32) -> Option<Term>
    requires finer { entry.now.number.places ≤ places }
    requires few { places ≤ 27 }
    ensures { result ≡ (if term_within (term_of places entry.now)
        then Some (term_of places entry.now) else None) }
{
    let coefficient = units(entry.number, places, WIDEST_COEFFICIENT)?;
    Some(Term {
        column: entry.column,
        coefficient: coefficient as i64,
    })
}

/// The terms of entries in units of 10^-places, TooWide where a coefficient is beyond ±10^15.
pub fn terms(alloc: Global, entries: &[Entry], places: u32) -> Result<Items<Term>, LineFault>
    requires finer { All (λ e. e.number.places ≤ places) entries.now }
    requires few { places ≤ 27 }
    ensures { Gives result (limited (list_all term_within) (terms_of places entries.now)) }
{
    let mut terms = Items::new(alloc);
    for entry in entries {
        let Some(term) = term(entry, places) else {
            return Err(LineFault::Broken(What::TooWide));
        };
        terms.push(term)?;
    }
    Ok(terms)
}

/// The objective's constant in units of 10^-places, or None where it is beyond ±10^24.
pub fn offset(right: Decimal, places: u32) -> Option<i128>
    requires finer { right.places ≤ places }
    requires few { places ≤ 27 }
    ensures { result ≡ within (10 ^ 24) (neg_ℤ (in_units right places)) }
{
    let right = units(right, places, FARTHEST_END)?;
    Some(-right)
}

/// The size of a number.
fn size(number: i128) -> i128
    requires { nat_abs number < 2 ^ 127 }
    ensures { result ≡ size number }
{
    if number < 0 { -number } else { number }
}

/// The low end of a row with a right side, and a range or none.
fn low_end(role: Role, right: i128, range: Option<i128>) -> Option<i128>
    requires right { nat_abs right ≤ 10 ^ 24 }
    requires range { IfSome range (λ r. nat_abs r ≤ 2 * 10 ^ 24) }
    ensures { result ≡ low_end role right range }
{
    match (role, range) {
        (Role::Objective | Role::Extra, _) | (Role::AtMost, None) => None,
        (Role::AtMost, Some(range)) => Some(right - size(range)),
        (Role::Equal, Some(range)) if range < 0 => Some(right - size(range)),
        (Role::AtLeast | Role::Equal, _) => Some(right),
    }
}

/// The high end of a row with a right side, and a range or none.
fn high_end(role: Role, right: i128, range: Option<i128>) -> Option<i128>
    requires right { nat_abs right ≤ 10 ^ 24 }
    requires range { IfSome range (λ r. nat_abs r ≤ 2 * 10 ^ 24) }
    ensures { result ≡ high_end role right range }
{
    match (role, range) {
        (Role::Objective | Role::Extra, _) | (Role::AtLeast, None) => None,
        (Role::AtLeast, Some(range)) => Some(right + size(range)),
        (Role::Equal, Some(range)) if range >= 0 => Some(right + range),
        (Role::AtMost | Role::Equal, _) => Some(right),
    }
}

/// Whether an end is within ±10^24, or there is none.
fn is_end_within(end: Option<i128>) -> bool
    ensures { result ≡ end_within end }
{
    match end {
        None => true,
        Some(end) => end.unsigned_abs() <= FARTHEST_END,
    }
}

/// The ends of a row from its right side and its range in units, or None where an end is beyond
/// ±10^24.
fn ends_by(role: Role, right: i128, range: Option<i128>) -> Option<RowEnds>
    requires right { nat_abs right ≤ 10 ^ 24 }
    requires range { IfSome range (λ r. nat_abs r ≤ 2 * 10 ^ 24) }
    ensures { result ≡ ends_within (ends_of role right range) }
{
    let low = low_end(role, right, range);
    let high = high_end(role, right, range);
    if is_end_within(low) && is_end_within(high) {
        Some(RowEnds { low, high })
    } else {
        None
    }
}

/// The ends of a row in units of 10^-places, or None where an end is beyond ±10^24.
pub fn row_ends(role: Role, right: Decimal, range: Option<Decimal>, places: u32) -> Option<RowEnds>
    requires limited { is_limited role ≡ true }
    requires right { right.places ≤ places }
    requires range { (or_zero range).places ≤ places }
    requires few { places ≤ 27 }
    ensures { result ≡ ends_within (ends_of role (in_units right places) (range_in places range)) }
{
    let right = units(right, places, FARTHEST_END)?;
    match range {
        None => ends_by(role, right, None),
        Some(range) => {
            let range = units(range, places, 2 * FARTHEST_END)?;
            ends_by(role, right, Some(range))
        }
    }
}
