//! Tests of crn_form_text.

use crate::shared::quotient;
use crn_form_text::{
    FormulaText, narrow, print_form, print_formula, print_fraction, read_form, read_formula,
    read_fraction, read_plain_form,
};
use crn_formula::Formula;
use crn_fraction::Frac;
use crn_linear::Form;
use crn_token::token_lines;
use std::alloc::{AllocError, Global};
use std::test::Fail;

// The form over two variables that a text spells.
fn form_of(alloc: Global, text: &str) -> Result<Option<Form>, AllocError> {
    let lines = token_lines(alloc, text.as_bytes())?;
    match lines.lines.as_slice().first() {
        Some(line) => Ok(read_form(text.as_bytes(), line.tokens.as_slice(), 2)),
        None => Ok(read_form(text.as_bytes(), &[], 2)),
    }
}

// The form of two coefficients and a constant.
fn form(x1: (i64, i64), x2: (i64, i64), constant: (i64, i64)) -> Result<Form, Fail> {
    let x1 = quotient(x1.0, x1.1)?;
    let x2 = quotient(x2.0, x2.1)?;
    Ok(Form::of(&[x1, x2, quotient(constant.0, constant.1)?]))
}

#[test]
fn reads_forms(rt: HostRuntime) -> Result<(), Fail> {
    for (text, x1, x2, constant) in [
        ("x1", (1, 1), (0, 1), (0, 1)),
        ("-x2 + 3", (0, 1), (-1, 1), (3, 1)),
        ("2/4x1-3/2 x2 - 1/3", (1, 2), (-3, 2), (-1, 3)),
        ("0x1", (0, 1), (0, 1), (0, 1)),
        ("-0", (0, 1), (0, 1), (0, 1)),
        ("0/1", (0, 1), (0, 1), (0, 1)),
        ("0 + x1", (1, 1), (0, 1), (0, 1)),
        ("x1 + 0", (1, 1), (0, 1), (0, 1)),
        ("- 5 + 7 x 2", (0, 1), (7, 1), (-5, 1)),
    ] {
        let want = form(x1, x2, constant)?;
        assert!(rt; form_of(rt.alloc(), text)? == Some(want), "{text}");
    }
    Ok(())
}

#[test]
fn refuses_forms(rt: HostRuntime) -> Result<(), Fail> {
    for text in [
        "", "x3", "x0", "x1 + x1", "1 + 2", "+ x1", "x1 +", "3/0", "x1 x2", "- - x1", "x", "y1",
        "2/x1", "x1/2", "x1 + 2 3",
    ] {
        assert!(rt; form_of(rt.alloc(), text)? == None, "{text}");
    }
    Ok(())
}

#[test]
fn a_narrow_form(rt: HostRuntime) -> Result<(), Fail> {
    let (half, less) = (Frac::of(1, 2)?, Frac::of(-3, 1)?);
    let wide = Form::of(&[half, less, Frac::ZERO]);
    assert!(rt; narrow(&wide, 2) == Form::of(&[half, less]));
    Ok(())
}

// The number that begins a text, as its two numbers, and how many tokens it has.
fn number(alloc: Global, text: &str) -> Result<Option<(i64, i64, usize)>, AllocError> {
    let lines = token_lines(alloc, text.as_bytes())?;
    let Some(line) = lines.lines.as_slice().first() else {
        return Ok(None);
    };
    match read_fraction(line.tokens.as_slice()) {
        Some((number, count)) => Ok(Some((number.num(), number.den(), count))),
        None => Ok(None),
    }
}

#[test]
fn numbers(rt: HostRuntime) -> Result<(), Fail> {
    for (text, want) in [
        ("3/6 7", Some((1, 2, 3))),
        ("7/0", Some((7, 1, 1))),
        ("0", Some((0, 1, 1))),
        ("5:2", Some((5, 1, 1))),
        ("-1", None),
        ("x1", None),
    ] {
        assert!(rt; number(rt.alloc(), text)? == want, "{text}");
    }
    Ok(())
}

// The form over two variables that begins a text, and how many tokens it has.
fn plain_form(alloc: Global, text: &str) -> Result<Option<(Form, usize)>, AllocError> {
    let lines = token_lines(alloc, text.as_bytes())?;
    match lines.lines.as_slice().first() {
        Some(line) => Ok(read_plain_form(text.as_bytes(), line, 0, 2)),
        None => Ok(None),
    }
}

#[test]
fn forms_without_negative_coefficients(rt: HostRuntime) -> Result<(), Fail> {
    for (text, x1, x2, count) in [
        ("x1 + 2x2 + x1", 1, 2, 6),
        ("0 + x1", 0, 0, 1),
        ("0/1", 0, 0, 1),
        ("0x1", 0, 0, 3),
        ("x1 + if x1", 1, 0, 2),
        ("3/1x2 - x1", 0, 3, 5),
    ] {
        let form = Form::of(&[Frac::of(x1, 1)?, Frac::of(x2, 1)?]);
        assert!(rt;
            plain_form(rt.alloc(), text)? == Some((form, count)),
            "{text}"
        );
    }
    for text in ["-x1", "3", "x3"] {
        assert!(rt; plain_form(rt.alloc(), text)? == None, "{text}");
    }
    Ok(())
}

// What a text spells.
#[derive(Clone, Copy, Debug, PartialEq)]
enum Spelled {
    NoFormula,
    Formula { nodes: usize, depth: usize },
    TooManyNodes(usize),
    TooDeep(usize),
}

fn what_is_spelled(alloc: Global, text: &str) -> Result<Spelled, AllocError> {
    let lines = token_lines(alloc, text.as_bytes())?;
    let Some(line) = lines.lines.as_slice().first() else {
        return Ok(Spelled::NoFormula);
    };
    match read_formula(alloc, text.as_bytes(), line.tokens.as_slice(), 2)? {
        None => Ok(Spelled::NoFormula),
        Some(FormulaText::Within(formula)) => Ok(Spelled::Formula {
            nodes: formula.nodes(),
            depth: formula.depth(),
        }),
        Some(FormulaText::TooManyNodes(nodes)) => Ok(Spelled::TooManyNodes(nodes)),
        Some(FormulaText::TooDeep(depth)) => Ok(Spelled::TooDeep(depth)),
    }
}

#[test]
fn reads_formulas(rt: HostRuntime) -> Result<(), Fail> {
    for (text, nodes, depth) in [
        ("max(3 + x1, 0)", 3, 2),
        ("scale(4/6, x2 - 0x1)", 2, 2),
        ("add(sub(x1, x2), min(x1, scale(-2, x2)))", 8, 4),
        ("x1 + 0", 1, 1),
    ] {
        let want = Spelled::Formula { nodes, depth };
        assert!(rt; what_is_spelled(rt.alloc(), text)? == want, "{text}");
    }
    Ok(())
}

#[test]
fn refuses_formulas(rt: HostRuntime) -> Result<(), Fail> {
    for text in [
        "min(x1)",
        "min(x1, x2",
        "min(x1, x2))",
        "min(x1, x2, x1)",
        "min x1, x2",
        "scale(x1, 2)",
        "scale(2)",
        "scale(1/0, x1)",
        "mul(x1, x2)",
        "(x1)",
    ] {
        assert!(rt;
            what_is_spelled(rt.alloc(), text)? == Spelled::NoFormula,
            "{text}"
        );
    }
    Ok(())
}

// So many times `scale(1,`, then `x1`, then so many times `)`.
fn scaled(alloc: Global, opened: usize, closed: usize) -> Result<String, AllocError> {
    let scales = "scale(1,".repeat(alloc, opened)?;
    let ends = ")".repeat(alloc, closed)?;
    [scales.as_str(), "x1", ends.as_str()].concat(alloc)
}

#[test]
fn great_depths(rt: HostRuntime) -> Result<(), Fail> {
    let deepest = Spelled::Formula {
        nodes: 64,
        depth: 64,
    };
    for (opened, closed, want) in [
        (63, 63, deepest),
        (64, 64, Spelled::TooDeep(65)),
        (2048, 2048, Spelled::TooManyNodes(2049)),
        (100_000, 100_000, Spelled::TooManyNodes(100_001)),
        (100_000, 99_999, Spelled::NoFormula),
    ] {
        let text = scaled(rt.alloc(), opened, closed)?;
        assert!(rt;
            what_is_spelled(rt.alloc(), text.as_str())? == want,
            "{opened}"
        );
    }
    Ok(())
}

#[test]
fn prints_fractions(rt: HostRuntime) -> Result<(), Fail> {
    for (num, den, want) in [(-4, 6, "-2/3"), (3, 1, "3")] {
        let mut out = String::new(rt.alloc());
        print_fraction(&mut out, Frac::of(num, den)?)?;
        assert!(rt; out.as_str() == want);
    }
    Ok(())
}

#[test]
fn prints_forms(rt: HostRuntime) -> Result<(), Fail> {
    for (x1, x2, constant, want) in [
        ((1, 1), (0, 1), (0, 1), "x1"),
        ((-1, 1), (1, 2), (-1, 1), "-x1 + 1/2x2 - 1"),
        ((0, 1), (-3, 2), (1, 1), "-3/2x2 + 1"),
        ((0, 1), (0, 1), (-1, 4), "-1/4"),
        ((0, 1), (0, 1), (0, 1), "0"),
    ] {
        let mut out = String::new(rt.alloc());
        print_form(&mut out, &form(x1, x2, constant)?, 2)?;
        assert!(rt; out.as_str() == want);
    }
    Ok(())
}

#[test]
fn prints_a_formula(rt: HostRuntime) -> Result<(), Fail> {
    let alloc = rt.alloc();
    let x1 = Formula::Lin(Form::of(&[Frac::ONE]));
    let twice = Formula::Scale(Frac::of(2, 1)?, Box::new(alloc, x1)?);
    let five = Formula::Lin(Form::of(&[Frac::ZERO, Frac::of(5, 1)?]));
    let formula = Formula::Sub(Box::new(alloc, twice)?, Box::new(alloc, five)?);
    let mut out = String::new(alloc);
    print_formula(&mut out, &formula, 1)?;
    assert!(rt; out.as_str() == "sub(scale(2, x1), 5)");
    Ok(())
}
