//! Decimals in units of a power of ten.
ghost use Rattle.std.specs.Prelude.{◌≡◌, ◌≤◌};
ghost use Rattle.bl_num.specs.Checked.{i128_of};
ghost use Rattle.bl_num.specs.Decimals.{in_units};

use crate::Decimal;
use crate::power::power_of_ten;

/// The value in units of 10^-places, or `None` where that leaves `i128`.
pub fn rescale(value: Decimal, places: u32) -> Option<i128>
    requires finer { value.places ≤ places }
    requires few { places ≤ 27 }
    ensures { result ≡ i128_of (in_units value places) }
{
    value
        .mantissa
        .checked_mul(power_of_ten(places - value.places) as i128)
}
