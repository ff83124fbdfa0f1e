//! Whole numbers: quotients rounded down and up, and sums and products that tell where they leave
//! `i128`.
ghost use Rattle.std.specs.Prelude.{unsigned_abs, ◌≤◌, ◌^◌, ◌≡◌, pos, ◌≤ℤ◌, ◌+ℤ◌, ◌-ℤ◌, ◌*ℤ◌};
ghost use Rattle.std.specs.Prelude.{length, SomeIff};
ghost use Rattle.bl_num.specs.Exact.{floor_of, ceil_of, sum_below, product_at};
ghost use Rattle.bl_num.specs.Checked.{dot_of, i128_of, checked_add, checked_mul, PartialsFit};

/// The quotient rounded down.
pub fn floor_div(a: i128, b: i128) -> i128
    requires { pos 1 ≤ℤ b }
    ensures { result ≡ floor_of a b }
{
    a.div_euclid(b)
}

/// The quotient rounded up.
pub fn ceil_div(a: i128, b: i128) -> i128
    requires { pos 1 ≤ℤ b }
    ensures { result ≡ ceil_of a b }
{
    let below = a.div_euclid(b);
    if a.rem_euclid(b) == 0 {
        below
    } else {
        below + 1
    }
}

/// The exact product of two `i64`, which always fits.
pub fn product(a: i64, b: i64) -> i128
    ensures value { result ≡ a *ℤ b }
    ensures fits { Some result ≡ i128_of (a *ℤ b) }
    ensures small { unsigned_abs result ≤ 2 ^ 126 }
{
    a as i128 * b as i128
}

/// The exact sum, or `None` where it leaves `i128`.
pub fn add(a: i128, b: i128) -> Option<i128>
    ensures { result ≡ i128_of (a +ℤ b) }
{
    a.checked_add(b)
}

/// The exact difference, or `None` where it leaves `i128`.
pub fn sub(a: i128, b: i128) -> Option<i128>
    ensures { result ≡ i128_of (a -ℤ b) }
{
    a.checked_sub(b)
}

/// The exact product, or `None` where it leaves `i128`.
pub fn mul(a: i128, b: i128) -> Option<i128>
    ensures { result ≡ i128_of (a *ℤ b) }
{
    a.checked_mul(b)
}

/// The exact sum of two numbers that may be missing: missing where one is, or where it leaves
/// `i128`.
pub fn plus(a: Option<i128>, b: Option<i128>) -> Option<i128>
    ensures { result ≡ checked_add a b }
{
    a?.checked_add(b?)
}

/// The exact product of two numbers that may be missing: missing where one is, or where it leaves
/// `i128`.
pub fn times(a: Option<i128>, b: Option<i128>) -> Option<i128>
    ensures { result ≡ checked_mul a b }
{
    a?.checked_mul(b?)
}

/// The sum of the products of the numbers at the same places, added from the left: there exactly
/// where each partial sum is an `i128`.
pub fn checked_dot(a: &[i64], b: &[i64]) -> Option<i128>
    requires { length a.now ≡ length b.now }
    ensures { SomeIff result (PartialsFit (length a.now) (product_at a.now b.now))
        (sum_below (length a.now) (product_at a.now b.now)) }
{
    dot(a, b)
}

fn dot(a: &[i64], b: &[i64]) -> Option<i128>
    requires { length a.now ≡ length b.now }
    ensures { result ≡ dot_of a.now b.now }
{
    let mut sum = Some(0);
    for i in 0..a.len() {
        sum = plus(sum, Some(product(a[i], b[i])));
    }
    sum
}
