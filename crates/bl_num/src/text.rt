//! Numbers as they are written.
ghost use Rattle.std.specs.Prelude.{◌≡◌, ◌≤◌, ◌<◌, ◌^◌, ◌++◌, IfOk, OnOk};
ghost use Rattle.bl_num.specs.Texts.{fraction_text, padded, text_of};
ghost use Rattle.bl_num.specs.Decimals.{trimmed};

use crate::power::power_of_ten;
use std::alloc::{AllocError, Global};

/// `value` in units of 10^-places as text: the sign, the whole part and, where it is not zero, a
/// point and the fraction without trailing zeros.
#[tactic(auto, unfolding(crate::specs::Texts::text_of))]
pub fn decimal_text(alloc: Global, value: i128, places: u32) -> Result<Vec<u8>, AllocError>
    requires { places ≤ 27 }
    ensures { IfOk result (λ text. text.items ≡ text_of value places) }
{
    let size = value.unsigned_abs();
    let unit = power_of_ten(places);
    let whole = size / unit;
    let sign = if value < 0 { "-" } else { "" };
    let mut text = format!(in alloc; "{sign}{whole}")?.into_bytes();
    push_fraction(&mut text, size % unit, places)?;
    Ok(text)
}

/// Adds the fraction `rest` over 10^places, which is below 1.
fn push_fraction(text: &mut Vec<u8>, rest: u128, places: u32) -> Result<(), AllocError>
    requires few { places ≤ 27 }
    requires below_one { rest < 10 ^ places }
    ensures { OnOk result (text.new.items ≡ text.old.items ++ fraction_text places rest) }
{
    if rest == 0 {
        return Ok(());
    }
    text.push(b'.')?;
    push_digits(text, rest, places)
}

/// Adds the digits of the fraction `rest` over 10^places up to the last that is not zero.
fn push_digits(text: &mut Vec<u8>, rest: u128, places: u32) -> Result<(), AllocError>
    requires few { places ≤ 27 }
    requires below_one { rest < 10 ^ places }
    ensures { OnOk result (text.new.items ≡ text.old.items ++ trimmed (padded places rest)) }
{
    let mut rest = rest;
    let mut left = places;
    while rest > 0 {
        left -= 1;
        let unit = power_of_ten(left);
        text.push(b'0' + (rest / unit) as u8)?;
        rest %= unit;
    }
    Ok(())
}
