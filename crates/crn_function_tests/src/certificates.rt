//! Tests of crn_farkas.

ghost use Rattle.std.specs.Prelude.{◌≡◌, length};

use crn_farkas::{Certificate, System, check, holds};
use crn_linear::{Point, Row, Strength};
use std::alloc::{AllocError, Global};
use std::test::Fail;

const R: i64 = 576460752303423488;

// A system of one column and two rows.
fn pair(alloc: Global, first: Row, second: Row) -> Result<System, AllocError>
    requires first { length first.entries ≡ 1 }
    requires second { length second.entries ≡ 1 }
{
    let mut system = System::with_room(alloc, 1, 2)?;
    system.push(first);
    system.push(second);
    Ok(system)
}

fn multipliers(alloc: Global, first: i8, second: i8) -> Result<Certificate, AllocError> {
    Ok(Certificate::of(vec![in alloc; i64::from(first), i64::from(second)]?))
}

#[test]
fn certificates(rt: HostRuntime) -> Result<(), Fail> {
    let strict = Row::of(&[1], Strength::Strict);
    let opposite = pair(rt.alloc(), strict, Row::of(&[-1], Strength::Weak))?;
    let weak = pair(
        rt.alloc(),
        Row::of(&[1], Strength::Weak),
        Row::of(&[-1], Strength::Weak),
    )?;
    let same = pair(rt.alloc(), strict, Row::of(&[1], Strength::Weak))?;
    for (first, second, of_opposite, of_weak, of_same) in [
        (1, 1, true, false, false),
        (7, 7, true, false, false),
        (1, -1, false, false, false),
        (-1, -1, false, false, false),
        (0, 0, false, false, false),
        (2, 1, false, false, false),
    ] {
        let certificate = multipliers(rt.alloc(), first, second)?;
        assert!(rt;
            check(&opposite, &certificate) == of_opposite,
            "{first} {second}"
        );
        assert!(rt; check(&weak, &certificate) == of_weak, "{first} {second}");
        assert!(rt; check(&same, &certificate) == of_same, "{first} {second}");
    }
    let short = Certificate::of(vec![in rt.alloc(); 1]?);
    assert!(rt; short.multipliers() == [1].as_slice());
    assert!(rt; !check(&opposite, &short));
    Ok(())
}

#[test]
fn the_greatest_sums(rt: HostRuntime) -> Result<(), Fail> {
    let mut system = System::with_room(rt.alloc(), 9, 256)?;
    for i in 0..128usize {
        system.push(Row::of(&[R, -R, 0, 0, 0, 0, 0, 0, R], Strength::Weak));
    }
    let opposite = Row::of(&[-R, R, 0, 0, 0, 0, 0, 0, -R], Strength::Strict);
    for i in 0..127usize {
        system.push(opposite);
    }
    let most = Certificate::of(vec![in rt.alloc(); R; 255]?);
    assert!(rt; !check(&system, &most));
    system.push(opposite);
    let all = Certificate::of(vec![in rt.alloc(); R; 256]?);
    assert!(rt; check(&system, &all));
    assert!(rt; !check(&system, &most));
    Ok(())
}

#[test]
fn points(rt: HostRuntime) -> Result<(), Fail> {
    let mut system = System::with_room(rt.alloc(), 2, 2)?;
    assert!(rt; holds(&system, &Point::of(&[-5, 4])));
    system.push(Row::of(&[1, 0], Strength::Strict));
    system.push(Row::of(&[-1, 1], Strength::Weak));
    assert!(rt; system.columns() == 2);
    assert!(rt; system.rows().len() == 2);
    assert!(rt; holds(&system, &Point::of(&[1, 1])));
    assert!(rt; !holds(&system, &Point::of(&[0, 1])));
    assert!(rt; !holds(&system, &Point::of(&[2, 1])));
    assert!(rt; holds(&system, &Point::of(&[R, R])));
    Ok(())
}
