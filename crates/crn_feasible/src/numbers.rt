//! The whole numbers of rows. Those that are kept are at most 2^59 in size, so that each number on the way is a sum of at most nine products of
//! two of them, or twice such a product, and fits 128 bits.

ghost use Rattle.std.specs.Prelude.{◌≡◌, ◌≤◌, ◌<◌, ◌^◌, ◌*◌, pos, ◌+ℤ◌, ◌*ℤ◌, false, true, int_div, unsigned_abs, length, MatchOption};
ghost use Rattle.std.specs.List.{All, fold};
ghost use Rattle.crn_fraction.specs.Gcd.{gcd};
ghost use Rattle.crn_fraction.specs.Rational.{ratio};
ghost use Rattle.crn_linear.specs.Rows.{dot, IsSmall, AreSmall};
ghost use Rattle.crn_farkas.specs.Mixtures.{mixed};
ghost use Rattle.crn_feasible.specs.Elimination.{fits, fits_ℚ};
ghost use Rattle.crn_linear.specs.Cleared.{common};

use crn_fraction::Frac;
use crn_fraction::divisors::wide_gcd;

/// The greatest size of a number that is kept.
pub const LIMIT: u128 = 1 << 59;

/// The product.
pub fn product(a: i64, b: i64) -> i128
    requires left { IsSmall a }
    requires right { IsSmall b }
    ensures value { result ≡ a *ℤ b }
    ensures small { unsigned_abs result ≤ 2 ^ 118 }
{
    a as i128 * b as i128
}

/// The sum of two products.
pub fn mix(a: i64, x: i64, b: i64, y: i64) -> i128
    requires a_small { IsSmall a }
    requires x_small { IsSmall x }
    requires b_small { IsSmall b }
    requires y_small { IsSmall y }
    ensures value { result ≡ a *ℤ x +ℤ b *ℤ y }
    ensures small { unsigned_abs result ≤ 2 ^ 119 }
{
    let left = product(a, x);
    let right = product(b, y);
    left + right
}

/// The sum of two products of short numbers.
pub fn short_mix(a: i64, x: i64, b: i64, y: i64) -> i64
    requires a_short { unsigned_abs a ≤ 2 ^ 29 }
    requires x_short { unsigned_abs x ≤ 2 ^ 29 }
    requires b_short { unsigned_abs b ≤ 2 ^ 29 }
    requires y_short { unsigned_abs y ≤ 2 ^ 29 }
    ensures value { result ≡ a *ℤ x +ℤ b *ℤ y }
    ensures small { IsSmall result }
{
    let left = short_product(a, x);
    let right = short_product(b, y);
    left + right
}

fn short_product(a: i64, b: i64) -> i64
    requires left { unsigned_abs a ≤ 2 ^ 29 }
    requires right { unsigned_abs b ≤ 2 ^ 29 }
    ensures value { result ≡ a *ℤ b }
    ensures small { unsigned_abs result ≤ 2 ^ 58 }
{
    a * b
}

/// The sum of the products.
pub fn dot(xs: &[i64], ys: &[i64]) -> i128
    requires first { AreSmall xs.now }
    requires second { AreSmall ys.now }
    requires same { length xs.now ≡ length ys.now }
    requires short { length xs.now ≤ 9 }
    ensures value { result ≡ dot xs.now ys.now }
    ensures small { unsigned_abs result ≤ 9 * 2 ^ 118 }
{
    let mut sum = 0i128;
    for i in 0..xs.len() {
        sum += product(xs[i], ys[i]);
    }
    sum
}

/// The greatest common divisor of a times the first numbers plus b times the second.
pub fn common_of(a: i64, p: &[i64], b: i64, n: &[i64]) -> u128
    requires a_small { IsSmall a }
    requires b_small { IsSmall b }
    requires first { AreSmall p.now }
    requires second { AreSmall n.now }
    requires same { length p.now ≡ length n.now }
    ensures value { result ≡ common (mixed a p.now b n.now) }
    ensures small { result ≤ 2 ^ 119 }
{
    let mut common = 0u128;
    for i in 0..p.len() {
        if common == 1 {
            return 1;
        }
        let number = mix(a, p[i], b, n[i]);
        common = wide_gcd(common, number.unsigned_abs());
    }
    common
}

fn common_of_two(common: u128, number: i128) -> u128
    requires common_small { common ≤ 2 ^ 119 }
    requires number_small { unsigned_abs number ≤ 2 ^ 119 }
    ensures value { result ≡ gcd common (unsigned_abs number) }
    ensures small { result ≤ 2 ^ 119 }
{
    wide_gcd(common, number.unsigned_abs())
}

/// The greatest common divisor of a number and of multipliers.
pub fn common_with(start: u128, multipliers: &[(usize, i128)]) -> u128
    requires start_small { start ≤ 2 ^ 119 }
    requires wide { All (λ m. unsigned_abs m.1 ≤ 2 ^ 119) multipliers.now }
    ensures value { result ≡ fold (λ g m. gcd g (unsigned_abs m.1)) start multipliers.now }
    ensures small { result ≤ 2 ^ 119 }
{
    let mut common = start;
    for multiplier in multipliers {
        if common == 1 {
            return 1;
        }
        common = common_of_two(common, multiplier.1);
    }
    common
}

fn quotient(number: i128, divisor: u128) -> i128
    requires positive { 0 < divisor }
    requires small { divisor ≤ 2 ^ 119 }
    ensures { result ≡ int_div number (pos divisor) }
{
    if divisor == 1 {
        return number;
    }
    let size = number.unsigned_abs();
    if size > u64::MAX as u128 || divisor > u64::MAX as u128 {
        return number / divisor as i128;
    }
    let part = (size as u64 / divisor as u64) as i128;
    if number < 0 { -part } else { part }
}

/// The number over the divisor, where it is at most 2^59 in size, and 0 over 0.
pub fn over_divisor(number: i128, divisor: u128) -> Option<i64>
    requires { divisor ≤ 2 ^ 119 }
    ensures { MatchOption result (fits (int_div number (pos divisor)) ≡ false) (λ q. (q ≡ int_div number (pos divisor)) × IsSmall q) }
{
    if divisor == 0 {
        return Some(0);
    }
    let quotient = quotient(number, divisor);
    if quotient.unsigned_abs() > LIMIT {
        return None;
    }
    Some(quotient as i64)
}

/// The quotient of two whole numbers, where its lowest terms are at most 2^59 in size.
pub fn small_ratio(num: i128, den: u128) -> Option<Frac>
    requires positive { 0 < den }
    requires num_small { unsigned_abs num < 2 ^ 127 }
    requires den_small { den ≤ 2 ^ 119 }
    ensures { MatchOption result (fits_ℚ (ratio num den) ≡ false) (λ q. (q ≡ ratio num den) × (fits_ℚ (ratio num den) ≡ true)) }
{
    let common = wide_gcd(num.unsigned_abs(), den);
    let Some(low_num) = over_divisor(num, common) else {
        return None;
    };
    let Some(low_den) = over_divisor(den as i128, common) else {
        return None;
    };
    Frac::of(low_num, low_den).ok()
}
