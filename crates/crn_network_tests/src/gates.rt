//! Tests of crn_gates.

use crate::shared::{LEAST_OF_TWO_FORMS, MAXIMUM, printed};
use crn_fraction::Frac;
use crn_gates::{Builder, Use};
use crn_net::Rails;
use std::test::Fail;

/// The maximum of a variable and 3, call by call.
#[test]
fn the_maximum_with_a_constant(rt: HostRuntime) -> Result<(), Fail> {
    let builder = Builder::new(rt.alloc(), Rails::Dual, 1, true)?;
    let (builder, mut copies) = builder.fan_out(&[Use::Variable(1), Use::Context])?;
    let constant = copies.pop().expect(&rt, "a copy of the context");
    let variable = copies.pop().expect(&rt, "a copy of the variable");
    let one = Frac::of(1, 1)?;
    let three = Frac::of(3, 1)?;
    assert!(rt; !one.is_zero());
    assert!(rt; !three.is_zero());
    let (builder, a) = builder.leaf(vec![in rt.alloc(); (one, variable)]?)?;
    let (builder, b) = builder.leaf(vec![in rt.alloc(); (three, constant)]?)?;
    let (builder, output) = builder.max(a, b)?;
    let network = builder.close(output)?;
    assert!(rt; printed(rt.alloc(), &network)?.as_str() == MAXIMUM);
    Ok(())
}

/// The least of 2x1 + x2 and 3x2, call by call. The species of the second form is the left operand of the minimum, and has the greater number.
#[test]
fn the_least_of_two_forms(rt: HostRuntime) -> Result<(), Fail> {
    let builder = Builder::new(rt.alloc(), Rails::Direct, 2, false)?;
    let (builder, mut copies) = builder.fan_out_one(&[1, 2, 2])?;
    let second_of_x2 = copies.pop().expect(&rt, "a copy for the second form");
    let first_of_x2 = copies.pop().expect(&rt, "a copy for the first form");
    let first_of_x1 = copies.pop().expect(&rt, "a copy for the first form");
    let one = Frac::of(1, 1)?;
    let two = Frac::of(2, 1)?;
    let three = Frac::of(3, 1)?;
    assert!(rt; one.num() > 0);
    assert!(rt; two.num() > 0);
    assert!(rt; three.num() > 0);
    let terms = vec![in rt.alloc(); (two, first_of_x1), (one, first_of_x2)]?;
    let (builder, first) = builder.leaf_one(terms)?;
    let (builder, second) = builder.leaf_one(vec![in rt.alloc(); (three, second_of_x2)]?)?;
    let (builder, least) = builder.min_one(second, first)?;
    let network = builder.close_one(least)?;
    assert!(rt; printed(rt.alloc(), &network)?.as_str() == LEAST_OF_TWO_FORMS);
    Ok(())
}
