//! Base: fixed-point numbers, whole numbers of units of 2^-40 in an `i128`.
//! Each operation gives the exact result rounded down, or None where a number on the way leaves
//! `i128`.
#![tactic(auto)]

ghost use Rattle.std.specs.Prelude.{◌≡◌, ◌≢◌, if◌then◌else◌, ◌-◌, pos, negsuc, ◌^◌, ◌+ℤ◌, ◌*ℤ◌};
ghost use Rattle.std.specs.Prelude.{FitsSigned, SomeIff, int_div, int_rem};
ghost use Rattle.std.specs.Int.{w128};
ghost use Rattle.bl_fixed.specs.Fixed.{one, floor_of, sum_of, difference_of, product_of};
ghost use Rattle.bl_fixed.specs.Fixed.{quotient_of, CanMultiply, CanDivide, nearest_end};
ghost use Rattle.bl_fixed.specs.Fixed.{saturated_sum, saturated_difference, saturated_product};
ghost use Rattle.bl_fixed.specs.Fixed.{saturated_quotient};

/// A fixed-point number: `raw` units of 2^-40.
#[derive(Clone, Copy, Debug, PartialEq, Eq, PartialOrd, Ord)]
pub struct Fixed {
    pub raw: i128,
}

/// The bits behind the point.
const FRACTION_BITS: u32 = 40;

/// The raw number of 1.
const ONE: i128 = 1 << FRACTION_BITS;

/// The whole number `v`.
pub fn from_int(v: i64) -> Fixed
    ensures { result.raw ≡ v *ℤ one }
{
    Fixed {
        raw: i128::from(v) * ONE,
    }
}

/// The sum; None exactly where its raw number leaves `i128`.
pub fn add(a: Fixed, b: Fixed) -> Option<Fixed>
    ensures { SomeIff result (FitsSigned w128 (sum_of a b)) (record { raw = sum_of a b }) }
{
    a.raw.checked_add(b.raw).map(|raw| Fixed { raw })
}

/// The difference; None exactly where its raw number leaves `i128`.
pub fn sub(a: Fixed, b: Fixed) -> Option<Fixed>
    ensures { SomeIff result (FitsSigned w128 (difference_of a b))
        (record { raw = difference_of a b }) }
{
    a.raw.checked_sub(b.raw).map(|raw| Fixed { raw })
}

/// The product, rounded down; None exactly where the product of the raw numbers leaves `i128`.
pub fn mul(a: Fixed, b: Fixed) -> Option<Fixed>
    ensures { SomeIff result (CanMultiply a b) (record { raw = product_of a b }) }
{
    exact_product(a.raw, b.raw).map(|product| Fixed {
        raw: product >> FRACTION_BITS,
    })
}

// The exact product, where an `i128` holds it: always so for two numbers of 64 bits, which are
// tried first.
fn exact_product(a: i128, b: i128) -> Option<i128>
    ensures { SomeIff result (FitsSigned w128 (a *ℤ b)) (a *ℤ b) }
{
    match (i64::try_from(a), i64::try_from(b)) {
        (Ok(a), Ok(b)) => Some(i128::from(a) * i128::from(b)),
        _ => a.checked_mul(b),
    }
}

/// The quotient, rounded down; None exactly where `b` is 0, or where `a` in units of 2^-80 or the
/// quotient leaves `i128`.
pub fn div(a: Fixed, b: Fixed) -> Option<Fixed>
    ensures { SomeIff result (CanDivide a b) (record { raw = quotient_of a b }) }
{
    let dividend = exact_product(a.raw, ONE)?;
    if b.raw == ONE {
        return Some(a);
    }
    if b.raw == -ONE {
        return Some(Fixed { raw: -a.raw });
    }
    let raw = floor_quotient(dividend, b.raw)?;
    Some(Fixed { raw })
}

// `a / b` rounded down, where b is not 0 and an `i128` holds the quotient.
fn floor_quotient(a: i128, b: i128) -> Option<i128>
    ensures { SomeIff result ((b ≢ pos 0) × FitsSigned w128 (floor_of a b)) (floor_of a b) }
{
    let toward_zero = a.checked_div(b)?;
    let rest = rest_of(a, b, toward_zero);
    let is_above = if 0 < b { rest < 0 } else { 0 < rest };
    if is_above {
        Some(toward_zero - 1)
    } else {
        Some(toward_zero)
    }
}

// What the quotient that is rounded toward zero leaves, with no second division.
fn rest_of(a: i128, b: i128, quotient: i128) -> i128
    requires { quotient ≡ int_div a b }
    ensures { result ≡ int_rem a b }
{
    a.wrapping_sub(quotient.wrapping_mul(b))
}

/// The nearest whole number; a half goes up.
pub fn round(a: Fixed) -> i128
    ensures { result ≡ floor_of (a.raw +ℤ pos (2 ^ 39)) one }
{
    ((a.raw >> (FRACTION_BITS - 1)) + 1) >> 1
}

/// The sum, or the end of `i128` nearest to it.
#[tactic(auto, unfolding(crate::specs::Fixed::saturated_sum))]
pub fn saturating_add(a: Fixed, b: Fixed) -> Fixed
    ensures { result ≡ saturated_sum a b }
{
    Fixed {
        raw: a.raw.saturating_add(b.raw),
    }
}

/// The difference, or the end of `i128` nearest to it.
#[tactic(auto, unfolding(crate::specs::Fixed::saturated_difference))]
pub fn saturating_sub(a: Fixed, b: Fixed) -> Fixed
    ensures { result ≡ saturated_difference a b }
{
    Fixed {
        raw: a.raw.saturating_sub(b.raw),
    }
}

/// What `mul` gives, or where that is None the end of `i128` nearest to the exact product.
#[tactic(auto, unfolding(crate::specs::Fixed::saturated_product))]
pub fn saturating_mul(a: Fixed, b: Fixed) -> Fixed
    ensures { result ≡ saturated_product a b }
{
    match mul(a, b) {
        Some(product) => product,
        None => end_by_signs(a, b),
    }
}

/// What `div` gives, or where that is None the end of `i128` nearest to the exact quotient.
#[tactic(auto, unfolding(crate::specs::Fixed::saturated_quotient))]
pub fn saturating_div(a: Fixed, b: Fixed) -> Fixed
    requires { b.raw ≢ pos 0 }
    ensures { result ≡ saturated_quotient a b }
{
    match div(a, b) {
        Some(quotient) => quotient,
        None => end_by_signs(a, b),
    }
}

// The end of `i128` on the side of the product and the quotient.
fn end_by_signs(a: Fixed, b: Fixed) -> Fixed
    ensures { result.raw ≡ nearest_end (a.raw *ℤ b.raw) }
{
    let is_negative = a.raw != 0 && b.raw != 0 && (a.raw < 0) != (b.raw < 0);
    Fixed {
        raw: if is_negative { i128::MIN } else { i128::MAX },
    }
}

#[cfg(test)]
mod tests {
    use super::*;

    fn units(raw: i128) -> Fixed
        ensures { result.raw ≡ raw }
    {
        Fixed { raw }
    }

    #[test]
    fn operations(rt: HostRuntime) {
        let one = from_int(1);
        let three = from_int(3);
        let most = units(i128::MAX);
        for (result, want) in [
            (add(one, three), Some(from_int(4))),
            (add(most, units(1)), None),
            (sub(one, three), Some(from_int(-2))),
            (sub(units(i128::MIN), units(1)), None),
            (mul(three, from_int(2)), Some(from_int(6))),
            (mul(units(-1), units(1)), Some(units(-1))),
            (mul(most, units(2)), None),
            (div(one, three), Some(units(366503875925))),
            (div(from_int(-1), three), Some(units(-366503875926))),
            (div(one, from_int(-3)), Some(units(-366503875926))),
            (div(from_int(-1), from_int(-3)), Some(units(366503875925))),
            (div(one, from_int(0)), None),
            (div(most, one), None),
            (Some(saturating_add(most, one)), Some(most)),
            (
                Some(saturating_sub(units(-2), most)),
                Some(units(i128::MIN)),
            ),
            (
                Some(saturating_mul(most, units(-2))),
                Some(units(i128::MIN)),
            ),
            (Some(saturating_div(most, units(2))), Some(most)),
        ] {
            assert_eq!(rt; result, want);
        }
    }

    #[test]
    fn rounds(rt: HostRuntime) {
        for (raw, want) in [
            (0, 0),
            (1 << 39, 1),
            ((1 << 39) - 1, 0),
            (-(1 << 39), 0),
            (-(1 << 39) - 1, -1),
            (i128::MAX, 1 << 87),
            (i128::MIN, -(1 << 87)),
        ] {
            assert_eq!(rt; round(units(raw)), want, "at {raw}");
        }
    }
}
