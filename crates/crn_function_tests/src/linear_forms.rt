//! Tests of crn_linear.

use crate::shared::quotient;
use crn_fraction::{Frac, TooBig};
use crn_linear::{Form, Point, Row, Strength, difference_row, opposite, row_of};
use std::cmp::Ordering;
use std::hash::{DefaultHasher, Hash, Hasher};
use std::test::Fail;

const M: i64 = i64::MAX;

const R: i64 = 576460752303423488;

// The entries of a row of two columns.
fn entries(row: Result<Row, TooBig>) -> Option<(i64, i64)> {
    match row {
        Ok(row) => {
            if row.len() == 2 && row.strength() == Strength::Strict {
                Some((row.entry(0), row.entry(1)))
            } else {
                None
            }
        }
        Err(_) => None,
    }
}

#[test]
fn rows_of_forms(rt: HostRuntime) -> Result<(), Fail> {
    // two fractions, and the entries of their row
    for (a, b, c, d, want) in [
        (1, 2, -1, 3, Some((3, -2))),
        (-4, 1, 6, 1, Some((-2, 3))),
        (0, 1, -5, 7, Some((0, -1))),
        (0, 1, 0, 1, Some((0, 0))),
        (M, 1, -M, 1, Some((1, -1))),
        (R, 1, 1, 1, Some((R, 1))),
        (R + 1, 1, 1, 1, None),
        (1, R, 1, 1, Some((1, R))),
        (1, M, 1, 1, None),
    ] {
        let form = Form::of(&[quotient(a, b)?, quotient(c, d)?]);
        let row = row_of(&form, Strength::Strict);
        assert!(rt; row.is_ok() == want.is_some(), "{a}/{b}, {c}/{d}");
        assert!(rt; entries(row) == want, "{a}/{b}, {c}/{d}");
    }
    Ok(())
}

#[test]
fn rows_of_differences(rt: HostRuntime) -> Result<(), Fail> {
    let (most, least, part) = (Frac::of(M, 1)?, Frac::of(-M, 1)?, Frac::of(-M, 3)?);
    let zero = Row::of(&[0, 0, 0], Strength::Weak);
    let a = Form::of(&[most, least, part]);
    assert!(rt; difference_row(&a, &a, Strength::Weak) == Ok(zero));
    // the differences 2M, -2M and -M/3 + M fit no fraction, but for the last
    let b = Form::of(&[least, most, least]);
    let row = Row::of(&[3, -3, 1], Strength::Strict);
    assert!(rt; difference_row(&a, &b, Strength::Strict) == Ok(row));
    Ok(())
}

#[test]
fn values(rt: HostRuntime) -> Result<(), Fail> {
    let (half, most, one) = (Frac::of(1, 2)?, Frac::of(M, 1)?, Frac::ONE);
    let nine = Form::of(&[half, half, half, half, half, half, half, half, one]);
    assert!(rt; nine.len() == 9 && nine.coeff(7) == half && nine.coeff(8) == one);
    assert!(rt; nine.at(&[one, one, one, one, one, one, one, one, half]) == Frac::of(9, 2));
    let long = Form::of(&[one, one]);
    assert!(rt; long.at(&[most, one]) == Err(TooBig));
    assert!(rt; long.at(&[most, Frac::ZERO]) == Ok(most));
    Ok(())
}

#[test]
fn signs(rt: HostRuntime) {
    let row = Row::of(&[1, -2], Strength::Strict);
    let other = opposite(&row, Strength::Weak);
    let point = Point::of(&[3, 1]);
    assert!(rt; row.sign_at(&point) == Ordering::Greater);
    assert!(rt; other.sign_at(&point) == Ordering::Less);
    assert!(rt; row.sign_at(&Point::of(&[2, 1])) == Ordering::Equal);
    assert!(rt; other == Row::of(&[-1, 2], Strength::Weak));
    assert!(rt; other != Row::of(&[-1, 2], Strength::Strict));
    assert!(rt; point.len() == 2 && point.entry(0) == 3 && point.entry(1) == 1);
    assert!(rt; row.len() == 2 && row.entry(1) == -2 && row.strength() == Strength::Strict);
    assert!(rt; Point::of(&[0]) != Point::of(&[0, 0]));
}

#[test]
fn equal_forms_have_one_hash(rt: HostRuntime) -> Result<(), Fail> {
    let (half, same) = (Frac::of(1, 2)?, Frac::of(-3, -6)?);
    let (a, b) = (Form::of(&[half]), Form::of(&[same]));
    let (mut first, mut second) = (DefaultHasher::new(), DefaultHasher::new());
    a.hash(&mut first);
    b.hash(&mut second);
    assert!(rt; a == b && first.finish() == second.finish());
    assert!(rt; a != Form::of(&[half, Frac::ZERO]));
    Ok(())
}
