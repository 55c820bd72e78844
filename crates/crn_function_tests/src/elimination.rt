//! Tests of crn_feasible.

ghost use Rattle.std.specs.Prelude.{◌≤◌};

use crn_farkas::System;
use crn_feasible::{SolveError, Verdict, solve, solve_near};
use crn_linear::{Point, Row, Strength};
use std::alloc::{AllocError, Global};
use std::test::Fail;

fn is_found(answer: &Result<Verdict, SolveError>, want: &Point) -> bool {
    match answer {
        Ok(Verdict::Found(point)) => *point == *want,
        _ => false,
    }
}

fn is_refuted(answer: &Result<Verdict, SolveError>, want: &[i64]) -> bool {
    match answer {
        Ok(Verdict::Refuted(certificate)) => certificate.multipliers() == want,
        _ => false,
    }
}

#[test]
fn single_columns(rt: HostRuntime) -> Result<(), Fail> {
    let one = Point::of(&[1]);
    let strict = Row::of(&[1], Strength::Strict);
    let mut same = System::with_room(rt.alloc(), 1, 2)?;
    same.push(strict);
    assert!(rt;
        is_found(
            &solve_near(rt.alloc(), &same, &Point::of(&[7])),
            &Point::of(&[7])
        )
    );
    assert!(rt; is_found(&solve_near(rt.alloc(), &same, &Point::of(&[-1])), &one));
    same.push(Row::of(&[1], Strength::Weak));
    assert!(rt; is_found(&solve(rt.alloc(), &same), &one));

    let mut opposite = System::with_room(rt.alloc(), 1, 2)?;
    opposite.push(strict);
    opposite.push(Row::of(&[-1], Strength::Weak));
    assert!(rt; is_refuted(&solve(rt.alloc(), &opposite), &[1, 1]));

    let mut zero = System::with_room(rt.alloc(), 1, 1)?;
    zero.push(Row::of(&[0], Strength::Strict));
    assert!(rt; is_refuted(&solve(rt.alloc(), &zero), &[1]));
    Ok(())
}

#[test]
fn two_columns(rt: HostRuntime) -> Result<(), Fail> {
    let mut system = System::with_room(rt.alloc(), 2, 3)?;
    assert!(rt; is_found(&solve(rt.alloc(), &system), &Point::of(&[0, 0])));
    system.push(Row::of(&[1, 0], Strength::Weak));
    system.push(Row::of(&[-1, 0], Strength::Weak));
    system.push(Row::of(&[-1, 1], Strength::Strict));
    assert!(rt; is_found(&solve(rt.alloc(), &system), &Point::of(&[0, 1])));
    Ok(())
}

// So many rows (i, 0, 1, 1), and 64 rows (0, j, 0, -1).
fn grid(alloc: Global, first: u8) -> Result<System, AllocError>
    requires { first ≤ 65 }
{
    let mut system = System::with_room(alloc, 4, 129)?;
    for i in 0..first {
        system.push(Row::of(&[i64::from(i) + 1, 0, 1, 1], Strength::Weak));
    }
    for j in 0..64u8 {
        system.push(Row::of(&[0, i64::from(j) + 1, 0, -1], Strength::Weak));
    }
    Ok(system)
}

#[test]
fn many_rows(rt: HostRuntime) -> Result<(), Fail> {
    let full = grid(rt.alloc(), 65)?;
    let Err(error) = solve(rt.alloc(), &full) else {
        assert!(rt; false, "4,160 rows");
        return Ok(());
    };
    assert!(rt; error == SolveError::TooManyRows);
    let within = grid(rt.alloc(), 64)?;
    assert!(rt; is_found(&solve(rt.alloc(), &within), &Point::of(&[0, 0, 2, -1])));
    Ok(())
}
