//! Tests of crn_function_text.

use crn_formula::FunctionKind;
use crn_fraction::Frac;
use crn_function_text::{FunctionTextError, print_function, read_function, read_function_lines};
use crn_token::{Counted, token_lines};
use std::alloc::Global;
use std::test::Fail;

// The first two lines of functions of one variable and of two.
const FORMULA_OF_ONE: &str = "function formula
variables 1
";

const FORMULA_OF_TWO: &str = "function formula
variables 2
";

const PIECES_OF_ONE: &str = "function pieces
variables 1
";

const PIECES_OF_TWO: &str = "function pieces
variables 2
";

const FORMS_OF_ONE: &str = "function direct
variables 1
";

const FORMS_OF_TWO: &str = "function direct
variables 2
";

// Whether the function that was read is affine, or why none was.
fn read(alloc: Global, text: &str) -> Result<bool, FunctionTextError> {
    let function = read_function(alloc, text.as_bytes())?;
    Ok(function.is_affine())
}

// The same of a text in three parts, of which the middle one stands so many times.
fn read_repeated(
    alloc: Global,
    head: &str,
    part: &str,
    times: usize,
    end: &str,
) -> Result<bool, FunctionTextError> {
    let parts = part.repeat(alloc, times)?;
    let text = [head, parts.as_str(), end].concat(alloc)?;
    read(alloc, text.as_str())
}

#[test]
fn reads(rt: HostRuntime) -> Result<(), Fail> {
    for (head, rest, affine) in [
        (FORMULA_OF_TWO, "value min(x1, x2)\n", false),
        (
            "function formula
variables2
",
            "value min(x 1,x2)",
            false,
        ),
        (FORMULA_OF_ONE, "value x1 + 0\n", false),
        (FORMULA_OF_ONE, "value 0 + x1\n", false),
        (FORMULA_OF_ONE, "value -0\n", false),
        (FORMULA_OF_ONE, "value max(x1, 3)\n", true),
        (FORMULA_OF_ONE, "value scale(-2/3, x1)\n", false),
        (
            "# least of two\r\n\r\nfunction formula\r\nvariables 2\r\n",
            "value min(x1, x2) # end",
            false,
        ),
        (
            PIECES_OF_ONE,
            "piece x1
when x1 - 1 >= 0
piece 1
when -x1 >= 0
",
            true,
        ),
        (
            PIECES_OF_TWO,
            "piece x1
when x2 - x1 >= 0
piece x2
",
            false,
        ),
        (
            FORMS_OF_TWO,
            "form 2x1 + x2
form 3x2
",
            false,
        ),
        (FORMS_OF_TWO, "form 0\n", false),
    ] {
        let answer = read_repeated(rt.alloc(), head, rest, 1, "");
        assert!(rt; answer == Ok(affine), "{head}{rest}");
    }
    Ok(())
}

#[test]
fn malformed_lines(rt: HostRuntime) -> Result<(), Fail> {
    for (head, rest, line) in [
        ("", "", 1),
        (
            "function gated
variables 2
",
            "form x2 if x1\n",
            1,
        ),
        ("function formula\n", "\n", 3),
        ("function formula\n", "variables 0\n", 2),
        ("function formula\n", "variables 9 9\n", 2),
        (FORMULA_OF_TWO, "value x3\n", 3),
        (FORMULA_OF_TWO, "value x0\n", 3),
        (FORMULA_OF_TWO, "value x1 + x1\n", 3),
        (FORMULA_OF_TWO, "value 1 + 2\n", 3),
        (FORMULA_OF_TWO, "value 1/0\n", 3),
        (FORMULA_OF_TWO, "value 01x1\n", 3),
        (
            FORMULA_OF_ONE,
            "value x1
value x1
",
            4,
        ),
        (
            "# least of two\r\n\r\nfunction formula\r\nvariables 2\r\n",
            "value min(x1)",
            5,
        ),
        (PIECES_OF_TWO, "", 3),
        (PIECES_OF_ONE, "when x1 >= 0\n", 3),
        (
            PIECES_OF_ONE,
            "piece x1
when x1 >= 1
",
            4,
        ),
        (
            PIECES_OF_ONE,
            "piece x1
when >= 0
",
            4,
        ),
        (FORMS_OF_TWO, "form 0/1\n", 3),
        (FORMS_OF_TWO, "form 0 + x1\n", 3),
        (FORMS_OF_TWO, "form x1 + if x1\n", 3),
        (FORMS_OF_TWO, "form x1 - x2\n", 3),
    ] {
        let answer = read_repeated(rt.alloc(), head, rest, 1, "");
        let wanted = Err(FunctionTextError::Malformed { line });
        assert!(rt; answer == wanted, "{head}{rest}");
    }
    Ok(())
}

const PIECE: &str = "function pieces
variables 1
piece x1
";

const VALUE: &str = "function formula
variables 1
value ";

#[test]
fn most_lines(rt: HostRuntime) -> Result<(), Fail> {
    for (head, part, times) in [
        (PIECES_OF_ONE, "piece x1\n", 32),
        (PIECE, "when x1 >= 0\n", 16),
        (FORMS_OF_ONE, "form x1\n", 32),
    ] {
        let answer = read_repeated(rt.alloc(), head, part, times, "");
        assert!(rt; answer == Ok(false), "{part}");
    }
    Ok(())
}

#[test]
fn limits(rt: HostRuntime) -> Result<(), Fail> {
    for (head, part, times, what, count) in [
        (
            "function formula\n",
            "variables 9\n",
            1,
            Counted::Variables,
            9,
        ),
        (PIECES_OF_ONE, "piece x1\n", 33, Counted::Pieces, 33),
        (PIECE, "when x1 >= 0\n", 17, Counted::Conditions, 17),
        (FORMS_OF_ONE, "form x1\n", 33, Counted::Forms, 33),
    ] {
        let answer = read_repeated(rt.alloc(), head, part, times, "");
        let wanted = Err(FunctionTextError::Limit { what, count });
        assert!(rt; answer == wanted, "{part}");
    }
    Ok(())
}

#[test]
fn a_malformed_line_comes_before_a_limit(rt: HostRuntime) -> Result<(), Fail> {
    for (head, part, times, end, line) in [
        (PIECES_OF_ONE, "piece x1\n", 32, "piece x2\n", 35),
        (PIECE, "when x1 >= 0\n", 16, "when x2 >= 0\n", 20),
        (VALUE, "add(x1,", 63, "x1", 3),
        (VALUE, "scale(1,", 100_000, "x1", 3),
    ] {
        let answer = read_repeated(rt.alloc(), head, part, times, end);
        let wanted = Err(FunctionTextError::Malformed { line });
        assert!(rt; answer == wanted, "{part}");
    }
    Ok(())
}

#[test]
fn counts_nodes_and_depth(rt: HostRuntime) -> Result<(), Fail> {
    for (times, wanted) in [
        (63, Ok(false)),
        (
            64,
            Err(FunctionTextError::Limit {
                what: Counted::Depth,
                count: 65,
            }),
        ),
        (
            100_000,
            Err(FunctionTextError::Limit {
                what: Counted::Nodes,
                count: 100_001,
            }),
        ),
    ] {
        let ends = ")".repeat(rt.alloc(), times)?;
        let end = ["x1", ends.as_str()].concat(rt.alloc())?;
        let answer = read_repeated(rt.alloc(), VALUE, "scale(1,", times, end.as_str());
        assert!(rt; answer == wanted, "{times}");
    }
    Ok(())
}

// Seven pieces, six of 16 conditions and the last of so many.
fn read_conditions(alloc: Global, last: usize) -> Result<bool, FunctionTextError> {
    let conditions = "when x1 >= 0\n".repeat(alloc, 16)?;
    let piece = ["piece x1\n", conditions.as_str()].concat(alloc)?;
    let six = piece.as_str().repeat(alloc, 6)?;
    let head = [PIECES_OF_ONE, six.as_str(), "piece x1\n"].concat(alloc)?;
    read_repeated(alloc, head.as_str(), "when x1 >= 0\n", last, "")
}

#[test]
fn counts_all_conditions(rt: HostRuntime) {
    assert!(rt; read_conditions(rt.alloc(), 4) == Ok(false));
    let wanted = Err(FunctionTextError::Limit {
        what: Counted::AllConditions,
        count: 101,
    });
    assert!(rt; read_conditions(rt.alloc(), 5) == wanted);
}

#[test]
fn the_function_is_that_of_the_text(rt: HostRuntime) -> Result<(), Fail> {
    let text = "function formula
variables 1
value max(3 + x1, 0)
";
    let function = read_function(rt.alloc(), text.as_bytes())?;
    assert!(rt; function.variables() == 1);
    let two = Frac::of(2, 1)?;
    assert!(rt; function.value_at(&[two])? == Frac::of(5, 1)?);
    let text = "function pieces
variables 2
piece x2
when x1 - x2 >= 0
piece 3/2x1 - 2x2
";
    let function = read_function(rt.alloc(), text.as_bytes())?;
    assert!(rt; function.variables() == 2);
    let five = Frac::of(5, 1)?;
    assert!(rt; function.value_at(&[two, five])? == Frac::of(-7, 1)?);
    Ok(())
}

#[test]
fn a_part_ends_before_other_words(rt: HostRuntime) -> Result<(), Fail> {
    let text = "other
function direct
variables 1
form 2x1
input 1
"
        .as_bytes();
    let lines = token_lines(rt.alloc(), text)?;
    assert!(rt; lines.lines.len() == 5);
    let (function, next) = read_function_lines(rt.alloc(), text, &lines, 1)?;
    assert!(rt; next == 4);
    assert!(rt; function.variables() == 1);
    assert!(rt; matches!(function.kind(), FunctionKind::Direct(_)));
    Ok(())
}

// The printed text of the function of a text.
fn reprinted(alloc: Global, text: &str) -> Result<String, Fail> {
    let function = read_function(alloc, text.as_bytes())?;
    Ok(String::from_utf8(print_function(alloc, &function)?)?)
}

#[test]
fn prints(rt: HostRuntime) -> Result<(), Fail> {
    for (text, wanted) in [
        (
            "function formula
variables 2
value scale(4/6, x2 - 0x1)
",
            "function formula
variables 2
value scale(2/3, x2)
",
        ),
        (
            "function formula
variables 1
value max(3 + x1, 0)",
            "function formula
variables 1
value max(x1 + 3, 0)
",
        ),
        (
            "function formula
variables 1
value x1 + 0
",
            "function formula
variables 1
value x1
",
        ),
        (
            "function formula
variables 3
value sub(scale(-3/6,-x3-2/4x1),min(1-x2, 0x1))
",
            "function formula
variables 3
value sub(scale(-1/2, -1/2x1 - x3), min(-x2 + 1, 0))
",
        ),
        (
            "# two pieces
function pieces
variables 2
piece x1-1
when x1-x2>=0
when 2x2>=0

piece x2
",
            "function pieces
variables 2
piece x1 - 1
when x1 - x2 >= 0
when 2x2 >= 0
piece x2
",
        ),
        (
            "function direct
variables 2
form x2+3/9x1
form 0
",
            "function direct
variables 2
form 1/3x1 + x2
form 0
",
        ),
    ] {
        let printed = reprinted(rt.alloc(), text)?;
        assert!(rt; printed.as_str() == wanted);
        let again = reprinted(rt.alloc(), printed.as_str())?;
        assert!(rt; again.as_str() == wanted);
    }
    Ok(())
}
