//! Tests of crn_dual.

ghost use Rattle.std.specs.Prelude.{IfOk};
ghost use Rattle.crn_formula.specs.Formulas.{IsOver};
ghost use Rattle.crn_formula.specs.Views.{plain_of};

use crate::shared::{MAXIMUM, printed};
use crn_dual::compile_formula;
use crn_formula::Formula;
use crn_fraction::Frac;
use crn_gates::BuildError;
use crn_linear::Form;
use std::alloc::{AllocError, Global};
use std::test::Fail;

// The variable of formulas over one variable.
fn x1(alloc: Global) -> Result<Box<Formula>, AllocError>
    ensures { IfOk result (λ b. IsOver 1 (plain_of b.value)) }
{
    Ok(Box::new(alloc, Formula::Lin(Form::of(&[Frac::ONE])))?)
}

#[test]
fn the_maximum_with_a_constant(rt: HostRuntime) -> Result<(), Fail> {
    let alloc = rt.alloc();
    let variable = Formula::Lin(Form::of(&[Frac::ONE, Frac::ZERO]));
    let three = Formula::Lin(Form::of(&[Frac::ZERO, Frac::of(3, 1)?]));
    let greater = Formula::Max(Box::new(alloc, variable)?, Box::new(alloc, three)?);
    let network = compile_formula(alloc, &greater, 1)?;
    assert!(rt; printed(alloc, &network)?.as_str() == MAXIMUM);
    Ok(())
}

// The sum of so many leaves `x1`, split in halves, of which the left is the greater.
fn sum_of(alloc: Global, leaves: usize) -> Result<Box<Formula>, AllocError>
    ensures { IfOk result (λ b. IsOver 1 (plain_of b.value)) }
{
    if leaves < 2 {
        return x1(alloc);
    }
    let left = (leaves - 1) / 2 + 1;
    let a = sum_of(alloc, left)?;
    let b = sum_of(alloc, leaves - left)?;
    Ok(Box::new(alloc, Formula::Add(a, b))?)
}

#[test]
fn a_tree_of_sums_that_fills_the_species(rt: HostRuntime) -> Result<(), Fail> {
    let alloc = rt.alloc();
    let most = sum_of(alloc, 10_922)?;
    let network = compile_formula(alloc, &most, 1)?;
    assert!(rt; network.species() == 65_532);
    let more = sum_of(alloc, 10_923)?;
    let refused = compile_formula(alloc, &more, 1);
    assert!(rt; refused.err() == Some(BuildError::TooLarge));
    Ok(())
}
