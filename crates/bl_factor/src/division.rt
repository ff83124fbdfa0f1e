// Quotients by a pivot, of which a reciprocal is kept: what it gives is only a guess, and is
// taken where the rest shows it.
ghost use Rattle.std.specs.Prelude.{◌≡◌, ◌<◌, ◌^◌, ◌+◌, ◌*◌, IfSome, unsigned_abs, pos, negsuc};
ghost use Rattle.std.specs.Prelude.{neg_ℤ, nat_eq, if◌then◌else◌};
ghost use Rattle.bl_fixed.specs.Fixed.{saturated_quotient};
ghost use Rattle.bl_factor.specs.Vectors.{IsPivot};
ghost use Rattle.bl_factor.specs.Division.{Divides};

use bl_fixed::{Fixed, saturating_div};

/// The raw size of 1, whose quotients need no reciprocal.
const ONE: u128 = 1 << FRACTION_BITS;

const FRACTION_BITS: u32 = 40;

/// A reciprocal counts units of this many bits behind the point of raw numbers.
const RECIPROCAL_BITS: u32 = 98;

/// The reciprocal of a pivot's size, 0 where it has none of 64 bits or needs none.
pub(crate) fn reciprocal_of(pivot: Fixed) -> u64 {
    let size = pivot.raw.unsigned_abs();
    if size == ONE {
        return 0;
    }
    let reciprocal = (1u128 << RECIPROCAL_BITS).checked_div(size).unwrap_or(0);
    u64::try_from(reciprocal).unwrap_or(0)
}

/// The quotient by a pivot; most are of 0.
pub(crate) fn quotient(number: Fixed, pivot: Fixed, reciprocal: u64) -> Fixed
    requires { IsPivot pivot }
    ensures { result ≡ saturated_quotient number pivot }
{
    if number.raw == 0 {
        number
    } else {
        filled_quotient(number, pivot, reciprocal)
    }
}

// A call of its own: most quotients are of 0, and their loop is to be short.
#[inline(never)]
fn filled_quotient(number: Fixed, pivot: Fixed, reciprocal: u64) -> Fixed
    requires pivot { IsPivot pivot }
    requires filled { 0 < unsigned_abs number.raw }
    ensures { result ≡ saturated_quotient number pivot }
{
    match guessed(
        number.raw.unsigned_abs(),
        pivot.raw.unsigned_abs(),
        reciprocal,
    ) {
        Some(division) => signed(number, pivot, division),
        None => saturating_div(number, pivot),
    }
}

// A size times 2^40, divided by another: what is taken off, and what is left.
#[derive(Clone, Copy)]
struct Division {
    quotient: u64,
    rest: u128,
}

// The quotient of the sizes as the reciprocal has it, or the next one.
fn guessed(size: u128, divisor: u128, reciprocal: u64) -> Option<Division>
    ensures { IfSome result (Divides size divisor) }
{
    if reciprocal == 0 {
        return None;
    }
    let size = u64::try_from(size).ok()?;
    let divisor = u64::try_from(divisor).ok()?;
    let product = u128::from(size) * u128::from(reciprocal);
    let quotient = u64::try_from(product >> (RECIPROCAL_BITS - FRACTION_BITS)).ok()?;
    near(size, divisor, quotient)
}

// The division with that quotient, or the next one.
fn near(size: u64, divisor: u64, quotient: u64) -> Option<Division>
    ensures { IfSome result (Divides size divisor) }
{
    let scaled = u128::from(size) << FRACTION_BITS;
    let rest = scaled.checked_sub(u128::from(quotient) * u128::from(divisor))?;
    let divisor = u128::from(divisor);
    if rest < divisor {
        Some(Division { quotient, rest })
    } else if rest - divisor < divisor {
        Some(Division {
            quotient: quotient.checked_add(1)?,
            rest: rest - divisor,
        })
    } else {
        None
    }
}

// The quotient rounded down, from that of the sizes.
fn signed(number: Fixed, pivot: Fixed, division: Division) -> Fixed
    requires filled { 0 < unsigned_abs number.raw }
    requires divides { Divides (unsigned_abs number.raw) (unsigned_abs pivot.raw) division }
    ensures { result ≡ saturated_quotient number pivot }
{
    if number.raw < 0 {
        if pivot.raw < 0 {
            upward(division)
        } else {
            downward(division)
        }
    } else if pivot.raw < 0 {
        downward(division)
    } else {
        upward(division)
    }
}

// Where the signs are the same.
fn upward(division: Division) -> Fixed
    ensures { result.raw ≡ pos division.quotient }
{
    Fixed {
        raw: i128::from(division.quotient),
    }
}

// Where they are not: a rest makes the quotient one less.
fn downward(division: Division) -> Fixed
    ensures { result.raw ≡ (if nat_eq division.rest 0 then neg_ℤ (pos division.quotient)
        else negsuc division.quotient) }
{
    let quotient = i128::from(division.quotient);
    Fixed {
        raw: if division.rest == 0 {
            -quotient
        } else {
            -quotient - 1
        },
    }
}
