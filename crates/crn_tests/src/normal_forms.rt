//! Tests of crn_normal.

use crn_form_text::print_form;
use crn_formula::{Function, FunctionKind};
use crn_function_text::read_function;
use crn_normal::{NormalError, NormalForm, normal};
use std::alloc::Global;
use std::test::Fail;

// The function of two variables by this formula.
fn function_of(alloc: Global, formula: &str) -> Result<Function, Fail> {
    let text = format!(in alloc; "function formula\nvariables 2\nvalue {formula}\n")?;
    Ok(read_function(alloc, text.as_bytes())?)
}

fn normal_form(alloc: Global, function: &Function) -> Option<Result<NormalForm, NormalError>> {
    match function.kind() {
        FunctionKind::Formula(formula) => Some(normal(alloc, formula)),
        _ => None,
    }
}

// A line for each set: its forms.
fn sets_text(alloc: Global, form: &NormalForm) -> Result<String, Fail> {
    let mut text = String::new(alloc);
    for index in 0..form.sets() {
        for form in form.set(index) {
            print_form(&mut text, form, 2)?;
            text.push_str(";")?;
        }
        text.push_str("\n")?;
    }
    Ok(text)
}

#[test]
fn normal_forms(rt: HostRuntime) -> Result<(), Fail> {
    for (formula, wanted) in [
        ("min(x1, x2)", "x1;x2;\n"),
        ("min(x1, x1)", "x1;\n"),
        ("max(x1, min(x1, x2))", "x1;\n"),
        ("max(min(x1, x2), x2)", "x2;\n"),
        ("max(min(x1, x2), min(x2, x1))", "x1;x2;\n"),
        ("sub(x1, max(x1 - x2, 0))", "x2;x1;\n"),
        ("add(max(x1, x2), min(x1, 0))", "2x1;x1;\nx1 + x2;x2;\n"),
        ("scale(-2, max(x1, x2))", "-2x1;-2x2;\n"),
        ("scale(-1, min(x1, x2))", "-x1;\n-x2;\n"),
        ("scale(1/2, max(x1, x2))", "1/2x1;\n1/2x2;\n"),
        ("scale(0, max(x1, x2))", "0;\n"),
    ] {
        let answer = normal_form(rt.alloc(), &function_of(rt.alloc(), formula)?);
        let Some(Ok(form)) = answer else {
            assert!(rt; false, "{formula}");
            return Ok(());
        };
        let told = sets_text(rt.alloc(), &form)?;
        assert_eq!(rt; told.as_str(), wanted, "{formula}");
    }
    Ok(())
}

// Choices of one variable for each factor: two to the power of seven sets.
const MANY_SETS: &str =
    "min(min(min(max(x1, x2), max(2x1, 2x2)), min(max(3x1, 3x2), max(4x1, 4x2))), min(min(max(5x1, 5x2), max(6x1, 6x2)), max(7x1, 7x2)))";

// One set of nine times eight forms.
const MANY_FORMS: &str =
    "add(min(min(min(0, x1), min(2x1, 3x1)), min(min(4x1, 5x1), min(6x1, min(7x1, 8x1)))), min(min(min(0, x2), min(2x2, 3x2)), min(min(4x2, 5x2), min(6x2, 7x2))))";

const BIG_SUM: &str = "add(9223372036854775807x1, 9223372036854775807x1)";

const BIG_PRODUCT: &str = "scale(2, 9223372036854775807x1)";

#[test]
fn refused_normal_forms(rt: HostRuntime) -> Result<(), Fail> {
    for (formula, wanted) in [
        (MANY_SETS, NormalError::TooManySets { count: 128 }),
        (MANY_FORMS, NormalError::TooManyForms { count: 65 }),
        (BIG_SUM, NormalError::TooBig),
        (BIG_PRODUCT, NormalError::TooBig),
    ] {
        let answer = normal_form(rt.alloc(), &function_of(rt.alloc(), formula)?);
        assert!(rt;
            matches!(answer, Some(Err(error)) if error == wanted),
            "{formula}"
        );
    }
    Ok(())
}
