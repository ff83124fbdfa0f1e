//! Costs in place of ones that are all 0, so that the method does not stall. The same each time.
use crate::numbers::scaled_number;
use crate::scaling::exponent_at;
use bl_fixed::Fixed;

/// A cost is from once to twice this many units.
const LEAST: i128 = 1 << 28;

/// Multiplier and addend of a linear congruence modulo 2^64 (Knuth).
const MULTIPLIER: u64 = 6364136223846793005;

const ADDEND: u64 = 1442695040888963407;

const START: u64 = 12345;

// Sets each column's cost.
pub fn substitute_costs(costs: &mut [Fixed], exponents: &[i32]) {
    let mut state = START;
    for (column, cost) in costs.iter_mut().enumerate() {
        state = state.wrapping_mul(MULTIPLIER).wrapping_add(ADDEND);
        // 24 bits of the state.
        let part = i128::from(state >> 40);
        let power = exponent_at(exponents, column).max(0).saturating_neg();
        *cost = scaled_number(LEAST + (part << 4), power);
    }
}
