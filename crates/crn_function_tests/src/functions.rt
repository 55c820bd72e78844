//! Tests of crn_formula.

use crn_formula::{Domain, Function, FunctionKind, ValueError};
use crn_fraction::Frac;
use crn_function_text::read_function;
use crn_linear::Form;
use std::alloc::Global;
use std::test::Fail;

const TWO_PIECES: &str = "function pieces
variables 2
piece x1
when x1 >= 0
piece 2x1
when -x1 >= 0
when -x2 >= 0
";

const MEDIAN: &str = "function formula
variables 2
value max(min(x1, x2), min(max(x1, x2), 0))
";

const SIZE: &str = "function formula
variables 2
value max(x1, scale(-1, x1))
";

const CLAMPED: &str = "function formula
variables 1
value max(3 + x1, 0)
";

const BOUNDED: &str = "function formula
variables 1
value min(max(3 + x1, 0), 4)
";

const TWO_FORMS: &str = "function direct
variables 2
form 2x1 + x2
form 3x2
";

// The value of the function of a text at whole numbers.
fn value(alloc: Global, text: &str, x: &[i64]) -> Result<Result<i64, ValueError>, Fail> {
    let function = read_function(alloc, text.as_bytes())?;
    let mut amounts = Vec::new(alloc);
    for x in x {
        amounts.push(Frac::of(*x, 1)?)?;
    }
    if amounts.len() != function.variables() {
        Err("no value")?
    }
    match function.value_at(&amounts) {
        Ok(value) => {
            if value.den() != 1 {
                Err("a value that is not whole")?
            }
            Ok(Ok(value.num()))
        }
        Err(error) => Ok(Err(error)),
    }
}

#[test]
fn values(rt: HostRuntime) -> Result<(), Fail> {
    for (text, x, want) in [
        (TWO_PIECES, [-1, 1].as_slice(), Err(ValueError::NoPiece)),
        (TWO_PIECES, &[-1, -1], Ok(-2)),
        (TWO_PIECES, &[3, 1], Ok(3)),
        (MEDIAN, &[-5, 7], Ok(0)),
        (SIZE, &[-4, 1], Ok(4)),
        (CLAMPED, &[2], Ok(5)),
        (BOUNDED, &[-5], Ok(0)),
        (BOUNDED, &[-3], Ok(0)),
        (BOUNDED, &[-1], Ok(2)),
        (BOUNDED, &[1], Ok(4)),
        (BOUNDED, &[7], Ok(4)),
        (TWO_FORMS, &[2, 1], Ok(3)),
    ] {
        assert!(rt; value(rt.alloc(), text, x)? == want, "{text}");
    }
    Ok(())
}

#[test]
fn nodes_and_depth(rt: HostRuntime) -> Result<(), Fail> {
    let median = read_function(rt.alloc(), MEDIAN.as_bytes())?;
    match median.kind() {
        FunctionKind::Formula(formula) => {
            assert!(rt; formula.nodes() == 9);
            assert!(rt; formula.depth() == 4);
        }
        _ => assert!(rt; false, "it is given by a formula"),
    }
    Ok(())
}

#[test]
fn a_function_of_forms(rt: HostRuntime) -> Result<(), Fail> {
    let first = Form::of(&[Frac::of(2, 1)?, Frac::ONE]);
    let second = Form::of(&[Frac::ZERO, Frac::of(3, 1)?]);
    let kind = FunctionKind::Direct(vec![in rt.alloc(); first, second]?);
    assert!(rt; Function::fits(2, &kind));
    let function = Function::of(2, kind);
    let three = Frac::of(3, 1)?;
    assert!(rt; function.value_at(&[Frac::of(2, 1)?, Frac::ONE]) == Ok(three));
    Ok(())
}

#[test]
fn domains(rt: HostRuntime) -> Result<(), Fail> {
    let affine = read_function(rt.alloc(), CLAMPED.as_bytes())?;
    assert!(rt; affine.is_affine());
    assert!(rt; affine.domain().rows().len() == 1);
    assert!(rt; Domain::orthant(3).rows().len() == 3);
    let linear = read_function(rt.alloc(), TWO_PIECES.as_bytes())?;
    assert!(rt; !linear.is_affine());
    assert!(rt; linear.domain().rows().is_empty());
    assert!(rt; linear.domain().inside().len() == 2);
    if !matches!(linear.kind(), FunctionKind::Pieces(_)) {
        assert!(rt; false, "it is given by pieces");
        return Ok(());
    }
    let nonnegative = linear.on_orthant();
    assert!(rt; nonnegative.domain().rows().len() == 2);
    assert!(rt; nonnegative.domain().inside().len() == 2);
    assert!(rt; !nonnegative.is_affine());
    assert!(rt; matches!(nonnegative.kind(), FunctionKind::Pieces(_)));
    Ok(())
}

#[test]
fn texts_of_errors(rt: HostRuntime) -> Result<(), Fail> {
    for (error, text) in [
        (
            ValueError::TooBig,
            "a number on the way to the value is too big",
        ),
        (ValueError::NoPiece, "no piece holds"),
    ] {
        let told = format!(in rt.alloc(); "{error}")?;
        assert!(rt; told.as_str() == text);
    }
    Ok(())
}
