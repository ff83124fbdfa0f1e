//! Powers of ten.
ghost use Rattle.std.specs.Prelude.{◌≡◌, ◌≤◌, ◌<◌, ◌^◌};

/// 10 to the power `exponent`.
pub fn power_of_ten(exponent: u32) -> u128
    requires { exponent ≤ 28 }
    ensures value { result ≡ 10 ^ exponent }
    ensures positive { 0 < result }
    ensures small { result ≤ 10 ^ 28 }
{
    10u128.pow(exponent)
}
