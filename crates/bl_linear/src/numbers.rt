//! Fixed-point numbers in lists, powers of two, and ratios.
use bl_fixed::{Fixed, saturating_div, saturating_mul, saturating_sub};

pub const ZERO: Fixed = Fixed { raw: 0 };

/// How many units a whole one has.
pub const UNITS: i128 = 1 << 40;

pub const ONE: Fixed = Fixed { raw: UNITS };

// The number at a place, 0 past the end.
pub fn at(numbers: &[Fixed], place: usize) -> Fixed {
    match numbers.get(place) {
        Some(number) => *number,
        None => ZERO,
    }
}

// Writes the number at a place; nothing past the end.
pub fn put(numbers: &mut [Fixed], place: usize, number: Fixed) {
    if let Some(slot) = numbers.get_mut(place) {
        *slot = number;
    }
}

pub fn negated(number: Fixed) -> Fixed {
    saturating_sub(ZERO, number)
}

// The size; that of the least number is one unit too small.
pub fn size_of(number: Fixed) -> Fixed {
    if number.raw < 0 {
        negated(number)
    } else {
        number
    }
}

pub fn lesser(a: Fixed, b: Fixed) -> Fixed {
    Fixed {
        raw: a.raw.min(b.raw),
    }
}

pub fn greater(a: Fixed, b: Fixed) -> Fixed {
    Fixed {
        raw: a.raw.max(b.raw),
    }
}

// The quotient, and 0 by 0.
pub fn quotient(a: Fixed, b: Fixed) -> Fixed {
    if b.raw == 0 {
        ZERO
    } else {
        saturating_div(a, b)
    }
}

// A raw number times a power of two, rounded down, or the end of its range nearest to that.
pub fn scaled(raw: i128, power: i32) -> i128 {
    let by = power.unsigned_abs().min(126);
    if power < 0 {
        raw >> by
    } else {
        raw.saturating_mul(1i128 << by)
    }
}

pub fn scaled_number(raw: i128, power: i32) -> Fixed {
    Fixed {
        raw: scaled(raw, power),
    }
}

// The same, rounded to the nearest.
pub fn rounded(raw: i128, power: i32) -> i128 {
    scaled(raw, power.saturating_add(1)).saturating_add(1) >> 1
}

// The power of two at or below the size of a number that is not 0.
pub fn exponent_of(raw: i128) -> i32 {
    let bits = 128u32.saturating_sub(raw.unsigned_abs().leading_zeros());
    i32::try_from(bits).unwrap_or(128).saturating_sub(1)
}

// Whether a / b is below c / d, where b and d are positive.
pub fn is_less_ratio(a: Fixed, b: Fixed, c: Fixed, d: Fixed) -> bool {
    exact_product(a, d) < exact_product(c, b)
}

// The product of the raw numbers, or the end of its range.
pub fn exact_product(a: Fixed, b: Fixed) -> i128 {
    match (i64::try_from(a.raw), i64::try_from(b.raw)) {
        (Ok(a), Ok(b)) => i128::from(a) * i128::from(b),
        _ => a.raw.saturating_mul(b.raw),
    }
}

// So many units times the number.
pub fn multiple(units: i64, number: Fixed) -> Fixed {
    match i64::try_from(number.raw) {
        Ok(raw) => Fixed {
            raw: (i128::from(units) * i128::from(raw)) >> 40,
        },
        Err(_) => saturating_mul(
            Fixed {
                raw: i128::from(units),
            },
            number,
        ),
    }
}

/// A number of a smaller raw size is noise of the rounding: less than 2^-32.
const LEAST_NUMBER: u128 = 1 << 8;

// Makes the numbers that are noise 0.
pub fn drop_noise(numbers: &mut [Fixed]) {
    for number in numbers.iter_mut() {
        if number.raw.unsigned_abs() < LEAST_NUMBER {
            number.raw = 0;
        }
    }
}
