//! Numbers as they are spelled.
ghost use Rattle.std.specs.Prelude.{IfOk, ◌≡◌, ◌+◌, ◌-◌, ◌*◌, ◌^◌, ◌<◌, ◌≤◌, ◌∷◌, ◌++◌, [], ℕ};
ghost use Rattle.std.specs.Prelude.{List, length, min, option_map, pos, true, ◌+ℤ◌, ◌-ℤ◌};
ghost use Rattle.std.specs.Prelude.{unsigned_abs};
ghost use Rattle.std.specs.List.{prefix_len};
ghost use Rattle.bl_num.specs.Decimals.{AreDigits, after_digits, after_fraction, after_sign};
ghost use Rattle.bl_num.specs.Decimals.{decimal_of, digits_of};
ghost use Rattle.bl_num.specs.Decimals.{exponent_of, fraction_of, has_minus, is_digit, meant};
ghost use Rattle.bl_num.specs.Decimals.{negated_if, power_of, settled, whole_number};
ghost use Rattle.bl_num.specs.Reading.{ceiling, clipped, kept_of};
ghost use Rattle.bl_num.specs.Spellings.{IsCanonical, IsWithinLimits};

use crate::power::power_of_ten;
use crate::{Decimal, NumberFault};

/// The greatest size of a mantissa.
const WIDEST: u128 = 1_000_000_000_000_000_000_000_000_000;

/// A number above every mantissa that fits.
const CEILING: u128 = 10_000_000_000_000_000_000_000_000_000;

/// What is kept of digits: their number without its trailing zeros, or the ceiling where it is
/// larger, and how many these zeros are.
#[derive(Clone, Copy)]
struct Digits {
    mantissa: u128,
    zeros: usize,
}

fn is_digit(byte: u8) -> bool
    ensures { result ≡ is_digit byte }
{
    b'0' <= byte && byte <= b'9'
}

/// Whether a minus comes in front.
fn has_minus(text: &[u8]) -> bool
    ensures { result ≡ has_minus text.now }
{
    match text {
        [sign, ..] => *sign == b'-',
        [] => false,
    }
}

/// What comes after the sign, if there is one.
fn after_sign(text: &[u8]) -> &[u8]
    ensures { result.now ≡ after_sign text.now }
{
    match text {
        [sign, rest @ ..] => {
            if *sign == b'+' || *sign == b'-' {
                rest
            } else {
                text
            }
        }
        [] => text,
    }
}

/// How many digits come in front.
fn digit_count(text: &[u8]) -> usize
    ensures count { result ≡ prefix_len is_digit text.now }
    ensures within { result ≤ length text.now }
{
    let mut n = 0;
    for byte in text {
        if !is_digit(*byte) {
            return n;
        }
        n += 1;
    }
    n
}

/// The digits in front, and what comes after them.
fn split_digits(text: &[u8]) -> (&[u8], &[u8])
    ensures front { result.0.now ≡ digits_of text.now }
    ensures behind { result.1.now ≡ after_digits text.now }
    ensures digits { AreDigits result.0.now }
    ensures parts { length result.0.now + length result.1.now ≡ length text.now }
{
    text.split_at(digit_count(text))
}

/// The digits behind a point, and what comes after them.
fn split_fraction(text: &[u8]) -> (&[u8], &[u8])
    ensures front { result.0.now ≡ fraction_of text.now }
    ensures behind { result.1.now ≡ after_fraction text.now }
    ensures digits { AreDigits result.0.now }
    ensures parts { length result.0.now + length result.1.now ≤ length text.now }
{
    match text {
        [b'.', rest @ ..] => split_digits(rest),
        _ => text.split_at(0),
    }
}

/// `mantissa` times 10 to the power `exponent`, or the ceiling where that is larger.
fn times_ten_to(mantissa: u128, exponent: usize) -> u128
    ensures { result ≡ min (mantissa * 10 ^ exponent) ceiling }
{
    if mantissa == 0 {
        return 0;
    }
    if exponent > 28 {
        return CEILING;
    }
    match mantissa.checked_mul(power_of_ten(exponent as u32)) {
        Some(product) => product.min(CEILING),
        None => CEILING,
    }
}

impl Digits {
    /// What is kept with one more digit.
    fn push(self, digit: u8) -> Digits
        requires digit { is_digit digit ≡ true }
        requires room { self.zeros + 1 < 2 ^ 64 }
        ensures kept { (ds : List ℕ) → self ≡ kept_of ds → result ≡ kept_of (ds ++ digit ∷ []) }
        ensures zeros { result.zeros ≤ self.zeros + 1 }
    {
        if digit == b'0' {
            return Digits {
                mantissa: self.mantissa,
                zeros: self.zeros + 1,
            };
        }
        let front = times_ten_to(self.mantissa, self.zeros + 1);
        let mantissa = (front + u128::from(digit - b'0')).min(CEILING);
        Digits { mantissa, zeros: 0 }
    }

    /// What is kept with more digits.
    fn keep(self, digits: &[u8]) -> Digits
        requires digits { AreDigits digits.now }
        requires room { self.zeros + length digits.now < 2 ^ 64 }
        ensures kept { (ds : List ℕ) → self ≡ kept_of ds → result ≡ kept_of (ds ++ digits.now) }
        ensures zeros { result.zeros ≤ self.zeros + length digits.now }
    {
        let mut kept = self;
        for digit in digits {
            kept = kept.push(*digit);
        }
        kept
    }
}

/// What is kept of the digits before and behind the point.
fn read_digits(whole: &[u8], fraction: &[u8]) -> Digits
    requires whole { AreDigits whole.now }
    requires fraction { AreDigits fraction.now }
    requires room { length whole.now + length fraction.now < 2 ^ 64 }
    ensures kept { result ≡ kept_of (whole.now ++ fraction.now) }
    ensures zeros { result.zeros ≤ length whole.now + length fraction.now }
{
    let nothing = Digits {
        mantissa: 0,
        zeros: 0,
    };
    nothing.keep(whole).keep(fraction)
}

/// The number of the digits, or 28 where that is larger.
fn clipped_number(digits: &[u8]) -> u32
    requires { AreDigits digits.now }
    ensures { result ≡ min (whole_number digits.now) 28 }
{
    let mut size = 0;
    for digit in digits {
        size = (10 * size + u32::from(*digit - b'0')).min(28);
    }
    size
}

/// The number that a text of digits alone spells, with this sign and at most 28 in size.
fn read_power(minus: bool, text: &[u8]) -> Option<i32>
    ensures { result ≡ option_map clipped (power_of minus text.now) }
{
    let (digits, rest) = split_digits(text);
    if text.is_empty() || !rest.is_empty() {
        return None;
    }
    let size = clipped_number(digits) as i32;
    Some(if minus { -size } else { size })
}

/// The exponent that a text spells from its letter on, at most 28 in size.
fn read_exponent(text: &[u8]) -> Option<i32>
    ensures { result ≡ option_map clipped (exponent_of text.now) }
{
    match text {
        [] => Some(0),
        [letter, rest @ ..] => {
            if *letter == b'e' || *letter == b'E' {
                read_power(has_minus(rest), after_sign(rest))
            } else {
                None
            }
        }
    }
}

/// The number with its sign.
fn signed(minus: bool, size: u128) -> i128
    requires { size ≤ 10 ^ 27 }
    ensures { result ≡ negated_if minus size }
{
    let size = size as i128;
    if minus { -size } else { size }
}

/// A number without trailing zeros, times 10 to the power `raised` and divided by 10 to the power
/// `lowered`.
fn settle(minus: bool, number: u128, raised: usize, lowered: usize) -> Result<Decimal, NumberFault>
    requires { 0 < number }
    ensures { result ≡ settled minus number (pos raised -ℤ pos lowered) }
{
    if raised < lowered {
        let places = lowered - raised;
        if number > WIDEST || places > 27 {
            return Err(NumberFault::TooWide);
        }
        return Ok(Decimal {
            mantissa: signed(minus, number),
            places: places as u32,
        });
    }
    let size = times_ten_to(number, raised - lowered);
    if size > WIDEST {
        return Err(NumberFault::TooWide);
    }
    Ok(Decimal {
        mantissa: signed(minus, size),
        places: 0,
    })
}

/// The decimal of digits, so many of them behind the point, times 10 to the power `exponent`.
fn settle_digits(
    minus: bool,
    digits: Digits,
    behind: usize,
    exponent: i32,
) -> Result<Decimal, NumberFault>
    requires exponent { unsigned_abs exponent ≤ 27 }
    requires zeros { digits.zeros < 2 ^ 63 }
    requires behind { behind < 2 ^ 63 }
    ensures { (ds : List ℕ) → digits ≡ kept_of ds → result ≡ meant minus ds behind exponent }
{
    if digits.mantissa == 0 {
        return Ok(Decimal {
            mantissa: 0,
            places: 0,
        });
    }
    let size = exponent.unsigned_abs() as usize;
    if exponent < 0 {
        settle(minus, digits.mantissa, digits.zeros, behind + size)
    } else {
        settle(minus, digits.mantissa, digits.zeros + size, behind)
    }
}

/// The decimal that a text spells: an optional sign, digits with at most one point and at least one
/// digit, then optionally `e` or `E`, an optional sign and digits. `Spelling` is the fault of every
/// other text. `TooWide` comes where the exponent is outside -27 to 27, where the mantissa is
/// beyond 10^27 in size, or where there are more than 27 places. Takes no memory, and time
/// linear in the text's length.
pub fn read_decimal(text: &[u8]) -> Result<Decimal, NumberFault>
    ensures value { result ≡ decimal_of text.now }
    ensures canonical { IfOk result IsCanonical }
    ensures limits { IfOk result IsWithinLimits }
{
    let (whole, behind) = split_digits(after_sign(text));
    let (fraction, tail) = split_fraction(behind);
    if whole.len() + fraction.len() == 0 {
        return Err(NumberFault::Spelling);
    }
    let Some(exponent) = read_exponent(tail) else {
        return Err(NumberFault::Spelling);
    };
    if exponent.unsigned_abs() > 27 {
        return Err(NumberFault::TooWide);
    }
    let digits = read_digits(whole, fraction);
    settle_digits(has_minus(text), digits, fraction.len(), exponent)
}
