//! Tests of crn_same.

ghost use Rattle.std.specs.Prelude.{IsTrue};
ghost use Rattle.crn_formula.specs.Views.{kind_of};
ghost use Rattle.crn_same.specs.Functions.{IsComparable};

use crate::shared::{ABSOLUTE_VALUE, CLAMP_BY_PIECES, MEDIAN_BY_PIECES, least_of_variables};
use crn_formula::{Function, FunctionKind};
use crn_function_text::read_function;
use crn_same::{SameError, same};
use std::alloc::Global;
use std::test::Fail;

fn is_comparable(function: &Function) -> bool
    ensures { IsTrue result → IsComparable (kind_of function.now.kind) }
{
    !matches!(function.kind(), FunctionKind::Direct(_))
}

// What is answered about the functions of two texts.
fn answer(alloc: Global, first: &str, second: &str) -> Result<Result<(), SameError>, Fail> {
    let first = read_function(alloc, first.as_bytes())?;
    let second = read_function(alloc, second.as_bytes())?;
    if first.variables() != second.variables()
        || !is_comparable(&first)
        || !is_comparable(&second)
    {
        Err("they are not comparable")?
    }
    Ok(same(alloc, first, second))
}

// And about two formulas.
fn answer_of(
    alloc: Global,
    variables: u32,
    first: &str,
    second: &str,
) -> Result<Result<(), SameError>, Fail> {
    let one = format!(in alloc; "function formula\nvariables {variables}\nvalue {first}\n")?;
    let two = format!(in alloc; "function formula\nvariables {variables}\nvalue {second}\n")?;
    answer(alloc, one.as_str(), two.as_str())
}

#[test]
fn same_formulas(rt: HostRuntime) -> Result<(), Fail> {
    for (variables, first, second) in [
        (1, "x1", "x1"),
        (1, "max(x1, -x1)", "sub(max(2x1, 0), x1)"),
        (1, "max(x1, 1)", "add(1, max(x1 - 1, 0))"),
        (2, "min(x1, x2)", "sub(x1, max(x1 - x2, 0))"),
        (2, "scale(0, max(x1, x2))", "0"),
        (
            2,
            "scale(2, max(x1, x2))",
            "add(add(x1, x2), max(x1 - x2, x2 - x1))",
        ),
    ] {
        let answer = answer_of(rt.alloc(), variables, first, second)?;
        assert!(rt; matches!(answer, Ok(_)), "{first}");
    }
    Ok(())
}

#[test]
fn same_pieces(rt: HostRuntime) -> Result<(), Fail> {
    for (first, second) in [
        (
            MEDIAN_BY_PIECES,
            "function formula
variables 3
value max(min(x1, x2), max(min(x2, x3), min(x1, x3)))
",
        ),
        (
            "function formula
variables 1
value max(x1, -x1)
",
            ABSOLUTE_VALUE,
        ),
        (
            CLAMP_BY_PIECES,
            "function formula
variables 1
value max(-1, min(x1, 2))
",
        ),
    ] {
        let answer = answer(rt.alloc(), first, second)?;
        assert!(rt; matches!(answer, Ok(_)), "{second}");
    }
    Ok(())
}

// The numbers of the point at which two functions of one variable or two differ.
fn difference(answer: &Result<(), SameError>) -> Option<(i64, i64)> {
    let Err(SameError::Differ { point }) = answer else {
        return None;
    };
    match point.len() {
        1 => Some((point.entry(0), 0)),
        2 => Some((point.entry(0), point.entry(1))),
        _ => None,
    }
}

#[test]
fn differences(rt: HostRuntime) -> Result<(), Fail> {
    for (variables, first, second, point) in [
        (1, "x1", "max(x1, 0)", (-1, 0)),
        (1, "max(x1, 0)", "x1", (-1, 0)),
        (1, "x1", "max(x1, -1)", (-2, 1)),
        (2, "x1", "x2", (0, -1)),
        (2, "max(x1, x2)", "x1", (0, 1)),
    ] {
        let answer = answer_of(rt.alloc(), variables, first, second)?;
        assert!(rt; difference(&answer) == Some(point), "{first}");
    }
    Ok(())
}

// Two to the power of seven sets, and one set of nine times eight forms.
const MANY_SETS: &str =
    "min(min(min(max(x1, x2), max(2x1, 2x2)), min(max(3x1, 3x2), max(4x1, 4x2))), min(min(max(5x1, 5x2), max(6x1, 6x2)), max(7x1, 7x2)))";

const MANY_FORMS: &str =
    "add(min(min(min(0, x1), min(2x1, 3x1)), min(min(4x1, 5x1), min(6x1, min(7x1, 8x1)))), min(min(min(0, x2), min(2x2, 3x2)), min(min(4x2, 5x2), min(6x2, 7x2))))";

// Both forms are above 0 between two multiples of x1 that are close together, so that the number between them is too big.
const CLOSE_FORMS: &str =
    "min(-1099511627776x1 + 1099511627777x2, 1099511627778x1 - 1099511627779x2)";

#[test]
fn limits(rt: HostRuntime) -> Result<(), Fail> {
    assert!(rt;
        matches!(
            answer_of(rt.alloc(), 2, MANY_SETS, "0")?,
            Err(SameError::TooManySets { count: 128 })
        )
    );
    assert!(rt;
        matches!(
            answer_of(rt.alloc(), 2, "0", MANY_FORMS)?,
            Err(SameError::TooManyForms { count: 65 })
        )
    );
    assert!(rt;
        matches!(
            answer_of(
                rt.alloc(),
                2,
                "9223372036854775807x1",
                "-9223372036854775807x1"
            )?,
            Err(SameError::TooBigForm)
        )
    );
    assert!(rt;
        matches!(
            answer_of(rt.alloc(), 2, "9223372036854775807x1 + x2", "0")?,
            Err(SameError::TooBigForm)
        )
    );
    assert!(rt;
        matches!(
            answer_of(rt.alloc(), 2, CLOSE_FORMS, "0")?,
            Err(SameError::TooBig { .. })
        )
    );
    Ok(())
}

const HALF: &str = "function pieces
variables 1
piece x1
when x1 >= 0
";

const LINE: &str = "function formula
variables 1
value x1
";

#[test]
fn refused_pieces(rt: HostRuntime) -> Result<(), Fail> {
    assert!(rt;
        matches!(
            answer(rt.alloc(), LINE, HALF)?,
            Err(SameError::Pieces { which: 2, .. })
        )
    );
    assert!(rt;
        matches!(
            answer(rt.alloc(), HALF, HALF)?,
            Err(SameError::Pieces { which: 1, .. })
        )
    );
    Ok(())
}

// Seven variables have 5,040 orders.
#[test]
fn refused_formula(rt: HostRuntime) -> Result<(), Fail> {
    let text = least_of_variables(rt.alloc(), 7)?;
    let other = "function formula\nvariables 7\nvalue x1\n";
    assert!(rt;
        matches!(
            answer(rt.alloc(), text.as_str(), other)?,
            Err(SameError::Maxmin { which: 1, .. })
        )
    );
    Ok(())
}
