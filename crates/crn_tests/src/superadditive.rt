//! Tests of crn_superadd, and of the direct networks of crn_compile.

ghost use Rattle.std.specs.Prelude.{◌≡◌, ◌<◌, false, length, IfOk};
ghost use Rattle.crn_formula.specs.Functions.{IsGivenByPieces, is_affine};
ghost use Rattle.crn_formula.specs.Views.{kind_of};

use crate::shared::{LEAST_OF_TWO_FORMS, printed};
use crn_compile::{CompileError, DirectError, compile_superadditive};
use crn_form_text::print_form;
use crn_formula::{Function, FunctionKind};
use crn_function_text::read_function;
use crn_linear::Point;
use crn_pieces::check_pieces;
use crn_superadd::superadd;
use std::alloc::{AllocError, Global};
use std::fmt::Write;
use std::test::Fail;

// The pieces of a text without constants.
fn linear_pieces(alloc: Global, text: &str) -> Result<Function, Fail>
    ensures pieces { IfOk result (λ f. IsGivenByPieces (kind_of f.kind)) }
    ensures linear { IfOk result (λ f. is_affine f.variables (kind_of f.kind) ≡ false) }
{
    let function = read_function(alloc, text.as_bytes())?;
    if !matches!(function.kind(), FunctionKind::Pieces(_)) || function.is_affine() {
        Err("it is not given by pieces without constants")?
    }
    Ok(function)
}

// A line for each used form.
fn used_text(alloc: Global, text: &str) -> Result<String, Fail> {
    let checked = check_pieces(alloc, linear_pieces(alloc, text)?.on_orthant())?;
    let mut lines = String::new(alloc);
    for form in superadd(alloc, &checked)? {
        print_form(&mut lines, &form, checked.function().variables())?;
        lines.push_str("\n")?;
    }
    Ok(lines)
}

// What is told of a refusal, without the points that are free.
fn refusal_text(alloc: Global, error: &DirectError) -> Result<String, AllocError> {
    match error {
        DirectError::Compile(CompileError::NotCovered { .. }) => format!(in alloc; "not covered"),
        DirectError::Compile(_) => format!(in alloc; "another cause"),
        DirectError::NotSuperadditive { .. } => format!(in alloc; "not superadditive"),
        DirectError::Negative { point } => {
            let mut text = format!(in alloc; "negative at")?;
            for i in 0..point.len() {
                let number = point.entry(i);
                write!(text, " {number}")?;
            }
            Ok(text)
        }
    }
}

// The text of the direct network, or why there is none.
fn direct_text(alloc: Global, text: &str) -> Result<String, Fail> {
    match compile_superadditive(alloc, linear_pieces(alloc, text)?) {
        Ok(network) => printed(alloc, &network),
        Err(error) => Ok(refusal_text(alloc, &error)?),
    }
}

const LEAST_OF_TWO: &str = "function pieces
variables 2
piece 2x1 + x2
when x2 - x1 >= 0
piece 3x2
when x1 - x2 >= 0
";

const GREATEST_OF_TWO: &str = "function pieces
variables 2
piece x1
when x1 - x2 >= 0
piece x2
when x2 - x1 >= 0
";

#[test]
fn used_forms(rt: HostRuntime) -> Result<(), Fail> {
    for (pieces, forms) in [
        (LEAST_OF_TWO, "2x1 + x2\n3x2\n"),
        (
            "function pieces
variables 2
piece x1 + x2
piece x2
when -x1 >= 0
",
            "x1 + x2\n",
        ),
    ] {
        assert!(rt;
            used_text(rt.alloc(), pieces)?.as_str() == forms,
            "{pieces}"
        );
    }
    Ok(())
}

#[test]
fn direct_networks(rt: HostRuntime) -> Result<(), Fail> {
    for (pieces, wanted) in [
        (LEAST_OF_TWO, LEAST_OF_TWO_FORMS),
        (GREATEST_OF_TWO, "not superadditive"),
        (
            "function pieces
variables 2
piece x1 - x2
",
            "negative at 0 1",
        ),
        (
            "function pieces
variables 1
piece -x1
",
            "negative at 1",
        ),
        (
            "function pieces
variables 2
piece x1
when x2 - x1 >= 0
",
            "not covered",
        ),
    ] {
        assert!(rt;
            direct_text(rt.alloc(), pieces)?.as_str() == wanted,
            "{pieces}"
        );
    }
    Ok(())
}

// One number of so many times the first point and the second together.
fn number_of_sum(first: &Point, times: i64, second: &Point, index: usize) -> Option<i64>
    requires first { index < length first.now }
    requires second { index < length second.now }
{
    first
        .entry(index)
        .checked_mul(times)?
        .checked_add(second.entry(index))
}

// Whether the greatest of two variables is less at this sum than at its two parts together.
fn falls_short(first: &Point, times: u128, second: &Point) -> Option<bool> {
    let times = i64::try_from(times).ok()?;
    if first.len() != 2 || second.len() != 2 {
        return None;
    }
    let at_first = first.entry(0).max(first.entry(1)).checked_mul(times)?;
    let at_second = second.entry(0).max(second.entry(1));
    let at_sum = number_of_sum(first, times, second, 0)?.max(number_of_sum(
        first, times, second, 1,
    )?);
    Some(at_sum < at_first.checked_add(at_second)?)
}

fn refutes_greatest(error: &DirectError) -> Option<bool> {
    match error {
        DirectError::NotSuperadditive {
            first,
            times,
            second,
        } => falls_short(first, *times, second),
        _ => None,
    }
}

#[test]
fn points_that_refute(rt: HostRuntime) -> Result<(), Fail> {
    let function = linear_pieces(rt.alloc(), GREATEST_OF_TWO)?;
    match compile_superadditive(rt.alloc(), function) {
        Ok(_) => Err("it was not refused")?,
        Err(error) => assert!(rt; refutes_greatest(&error) == Some(true)),
    }
    Ok(())
}
