//! Numbers, by the rules of the lines.
ghost use Rattle.std.specs.Prelude.{◌≡◌, ◌≤◌, ◌^◌, ◌*◌, IfOk, nat_lt, nat_abs};
ghost use Rattle.bl_num.specs.Spellings.{IsWithinLimits};
ghost use Rattle.bl_cards.specs.Lines.{number_at, bound_at};
ghost use Rattle.bl_cards.specs.Views.{Gives};

use crate::fault::LineFault;
use crate::kind::What;
use bl_num::{Decimal, NumberFault, read_decimal};

/// The decimal that a word spells.
pub fn number(word: &[u8]) -> Result<Decimal, LineFault>
    ensures number { Gives result (number_at word.now) }
    ensures limits { IfOk result IsWithinLimits }
{
    match read_decimal(word) {
        Ok(number) => Ok(number),
        Err(NumberFault::Spelling) => Err(LineFault::Broken(What::Number)),
        Err(NumberFault::TooWide) => Err(LineFault::Broken(What::TooWide)),
    }
}

/// Whether a number is beyond ±10^9.
fn is_far(number: Decimal) -> bool
    requires { number.places ≤ 27 }
    ensures { result ≡ nat_lt (10 ^ 9 * 10 ^ number.places) (nat_abs number.mantissa) }
{
    1_000_000_000 * 10u128.pow(number.places) < number.mantissa.unsigned_abs()
}

/// The whole number within ±10^9 that a word spells.
pub fn bound(word: &[u8]) -> Result<i64, LineFault>
    ensures { Gives result (bound_at word.now) }
{
    match number(word) {
        Ok(number) => {
            if is_far(number) {
                return Err(LineFault::Broken(What::TooWide));
            }
            if number.places > 0 {
                return Err(LineFault::Broken(What::FractionBound));
            }
            Ok(number.mantissa as i64)
        }
        Err(fault) => Err(fault),
    }
}
