//! Base: exact whole numbers, and decimals as they are spelled.
#![tactic(auto)]

mod arithmetic;
pub mod laws;
mod power;
mod read;
mod scale;
mod text;

pub use arithmetic::{add, ceil_div, checked_dot, floor_div, mul, plus, product, sub, times};
pub use read::read_decimal;
pub use scale::rescale;
pub use text::decimal_text;
use thiserror::Error;

/// The number `mantissa` times 10 to the power `-places`. What is read is canonical: `places` is 0,
/// or ten does not divide the mantissa.
#[derive(Clone, Copy, Debug, PartialEq, Eq)]
pub struct Decimal {
    pub mantissa: i128,
    pub places: u32,
}

/// Why a text is no number: it is not spelled as one, or its exponent, mantissa or places are
/// beyond the limits. Each is printed as its name.
#[derive(Clone, Copy, Debug, PartialEq, Eq, Error)]
pub enum NumberFault {
    #[error("Spelling")]
    Spelling,
    #[error("TooWide")]
    TooWide,
}

#[cfg(test)]
mod tests {
    use super::*;

    #[test]
    fn reads_decimals(rt: HostRuntime) {
        let rows: [(&[u8], i128, u32); 8] = [
            (b"2.5E-2", 25, 3),
            (b"1.50", 15, 1),
            (b"1e3", 1000, 0),
            (b"-.5", -5, 1),
            (b"+5", 5, 0),
            (b"0.000e-3", 0, 0),
            (b"1.000000000000e+01", 10, 0),
            (b"1e27", 1_000_000_000_000_000_000_000_000_000, 0),
        ];
        for (text, mantissa, places) in rows {
            assert_eq!(rt; read_decimal(text), Ok(Decimal { mantissa, places }));
        }
        let faults: [(&[u8], NumberFault); 6] = [
            (b".", NumberFault::Spelling),
            (b"1e", NumberFault::Spelling),
            (b"1 2", NumberFault::Spelling),
            (b"", NumberFault::Spelling),
            (b"1e28", NumberFault::TooWide),
            (b"1000e25", NumberFault::TooWide),
        ];
        for (text, fault) in faults {
            assert_eq!(rt; read_decimal(text), Err(fault));
        }
    }

    #[test]
    fn writes_decimals(rt: HostRuntime) {
        let rows: [(i128, u32, &[u8]); 6] = [
            (75, 2, b"0.75"),
            (-5, 1, b"-0.5"),
            (100, 2, b"1"),
            (0, 3, b"0"),
            (1_050, 3, b"1.05"),
            (i128::MIN, 27, b"-170141183460.469231731687303715884105728"),
        ];
        for (value, places, want) in rows {
            let text = decimal_text(rt.alloc(), value, places).expect(&rt, "memory is left");
            assert_eq!(rt; text.as_slice(), want);
        }
    }

    #[test]
    fn computes_exactly(rt: HostRuntime) {
        assert_eq!(rt; checked_dot(&[2, 3], &[2, 1]), Some(7));
        assert_eq!(rt; floor_div(-7, 2), -4);
        assert_eq!(rt; ceil_div(-7, 2), -3);
        let value = Decimal {
            mantissa: -25,
            places: 3,
        };
        assert_eq!(rt; rescale(value, 5), Some(-2_500));
        let wide = Decimal {
            mantissa: i128::MAX,
            places: 0,
        };
        assert_eq!(rt; rescale(wide, 1), None);
    }

    #[test]
    fn prints_faults_by_name(rt: HostRuntime) {
        let rows = [
            (NumberFault::Spelling, "Spelling"),
            (NumberFault::TooWide, "TooWide"),
        ];
        for (fault, want) in rows {
            let text = fault.to_string(rt.alloc()).expect(&rt, "memory is left");
            assert_eq!(rt; text.as_str(), want);
        }
    }
}
