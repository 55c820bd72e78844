//! Greatest common divisors and least common multiples, by Euclid's steps.

ghost use Rattle.std.specs.Prelude.{◌≡◌};
ghost use Rattle.crn_fraction.specs.Gcd.{gcd, lcm};

/// The greatest common divisor; that of 0 and a number is the number.
pub fn gcd(a: u64, b: u64) -> u64
    ensures { result ≡ gcd a b }
{
    let mut x = a;
    let mut y = b;
    while y != 0 {
        let rest = x % y;
        x = y;
        y = rest;
    }
    x
}

/// The greatest common divisor of longer numbers. Steps are made in 128 bits only while the numbers need them.
pub fn wide_gcd(a: u128, b: u128) -> u128
    ensures { result ≡ gcd a b }
{
    if a <= u64::MAX as u128 && b <= u64::MAX as u128 {
        return gcd(a as u64, b as u64) as u128;
    }
    let mut x = a;
    let mut y = b;
    while y > u64::MAX as u128 {
        let rest = x % y;
        x = y;
        y = rest;
    }
    if y == 0 {
        return x;
    }
    gcd(y as u64, (x % y) as u64) as u128
}

/// The least common multiple; that of 0 and a number is 0.
pub fn lcm(a: u64, b: u64) -> u128
    ensures { result ≡ lcm a b }
{
    let common = gcd(a, b);
    if common == 0 {
        return 0;
    }
    (a / common) as u128 * b as u128
}
