//! Tests of crn_fraction.

use crn_fraction::divisors::{gcd, lcm, wide_gcd};
use crn_fraction::{Frac, TooBig};
use std::cmp::Ordering;
use std::hash::{DefaultHasher, Hash, Hasher};
use std::test::Fail;

const M: i64 = i64::MAX;

#[test]
fn fractions_at_the_ends(rt: HostRuntime) -> Result<(), Fail> {
    let low = Frac::of(6, -4)?;
    assert!(rt; low.num() == -3 && low.den() == 2);
    let half = Frac::of(i64::MIN, 2)?;
    assert!(rt; half.num() == -4611686018427387904 && half.den() == 1);
    assert!(rt; Frac::of(i64::MIN, 1) == Err(TooBig));
    let most = Frac::of(M, 1)?;
    assert!(rt; most.add(Frac::ONE) == Err(TooBig));
    assert!(rt; most.times(2) == Err(TooBig));
    assert!(rt; most.mul(Frac::of(1, M)?) == Ok(Frac::ONE));
    assert!(rt; Frac::of(M, 2)?.mul(Frac::of(2, M)?) == Ok(Frac::ONE));
    Ok(())
}

#[test]
fn each_call(rt: HostRuntime) -> Result<(), Fail> {
    let (half, third, low) = (Frac::of(1, 2)?, Frac::of(1, 3)?, Frac::of(-9, 4)?);
    assert!(rt; !low.is_zero());
    for (what, got, num, den) in [
        ("1/2 + 1/3", half.add(third), 5, 6),
        ("1/2 + 1/2", half.add(half), 1, 1),
        ("1/2 + -9/4", half.add(low), -7, 4),
        ("1/2 - 1/3", half.sub(third), 1, 6),
        ("1/2 * 1/3", half.mul(third), 1, 6),
        ("-9/4 * 1/3", low.mul(third), -3, 4),
        ("1/2 / (-9/4)", half.div(low), -2, 9),
        ("1/2 * -4", half.times(-4), -2, 1),
    ] {
        let got = got?;
        assert!(rt; got.num() == num && got.den() == den, "{what}");
    }
    assert!(rt; half.compare(third) == Ordering::Greater);
    assert!(rt; third.compare(half) == Ordering::Less);
    assert!(rt; low.compare(low) == Ordering::Equal);
    assert!(rt; half.least(low) == low);
    assert!(rt; Frac::ZERO.is_zero() && !Frac::ONE.is_zero());
    Ok(())
}

#[test]
fn written(rt: HostRuntime) -> Result<(), Fail> {
    for (num, den, text) in [
        (6, 4, "3/2"),
        (6, -4, "-3/2"),
        (6, -3, "-2"),
        (0, -7, "0"),
        (-9, -6, "3/2"),
    ] {
        let written = Frac::of(num, den)?.to_string(rt.alloc())?;
        assert!(rt; written.as_str() == text);
    }
    let refusal = TooBig.to_string(rt.alloc())?;
    assert!(rt; refusal.as_str() == "the fraction is too big");
    Ok(())
}

#[test]
fn equal_fractions_have_one_hash(rt: HostRuntime) -> Result<(), Fail> {
    let (a, b) = (Frac::of(6, 4)?, Frac::of(-9, -6)?);
    let (mut first, mut second) = (DefaultHasher::new(), DefaultHasher::new());
    a.hash(&mut first);
    b.hash(&mut second);
    assert!(rt; a == b && a != Frac::ONE && first.finish() == second.finish());
    Ok(())
}

#[test]
fn divisors_and_multiples(rt: HostRuntime) {
    for (a, b, common, multiple) in [
        (12, 18, 6, 36),
        (18, 12, 6, 36),
        (5, 0, 5, 0),
        (0, 5, 5, 0),
        (0, 0, 0, 0),
        (7, 1, 1, 7),
        (u64::MAX, u64::MAX, u64::MAX, 18446744073709551615),
        (u64::MAX, 2, 1, 36893488147419103230),
    ] {
        assert!(rt; gcd(a, b) == common, "the divisor of {a} and {b}");
        assert!(rt;
            wide_gcd(a as u128, b as u128) == common as u128,
            "the same of longer numbers, {a} and {b}"
        );
        assert!(rt; lcm(a, b) == multiple, "the multiple of {a} and {b}");
    }
    assert!(rt; wide_gcd(3 << 100, 5 << 90) == 1 << 90);
    assert!(rt; wide_gcd(5 << 90, 15) == 5);
    assert!(rt; wide_gcd(1 << 127, 0) == 1 << 127);
}
