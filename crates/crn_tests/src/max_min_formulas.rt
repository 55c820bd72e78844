//! Tests of crn_cells and crn_maxmin.

use crate::shared::{
    ABSOLUTE_VALUE, CLAMP_BY_PIECES, DEAD_ZONE, MEDIAN_BY_PIECES, PIECE_ON_A_FACE,
    least_of_variables,
};
use crn_cells::CellsError;
use crn_form_text::print_formula;
use crn_formula::{Function, FunctionKind};
use crn_fraction::Frac;
use crn_function_text::read_function;
use crn_maxmin::{MarkedCell, MaxminError, marked, to_formula};
use crn_pieces::{Checked, check_pieces};
use std::alloc::Global;
use std::test::Fail;

// The pieces of a text, which cover their domain and agree on it.
fn checked(alloc: Global, text: &str) -> Result<Checked, Fail> {
    let function = read_function(alloc, text.as_bytes())?;
    if !matches!(function.kind(), FunctionKind::Pieces(_)) {
        Err("it is not given by pieces")?
    }
    Ok(check_pieces(alloc, function)?)
}

// A line for each cell: the numbers of the forms in ascending order, and the number of the form that counts.
fn cells_text(alloc: Global, cells: &[MarkedCell]) -> Result<String, Fail> {
    let mut text = String::new(alloc);
    for marked in cells {
        for number in &marked.cell.order {
            let order = format!(in alloc; "{number} ")?;
            text.push_str(order.as_str())?;
        }
        let form = marked.form;
        let line = format!(in alloc; "is {form}\n")?;
        text.push_str(line.as_str())?;
    }
    Ok(text)
}

const SIZES_OF_TWO: &str = "function pieces
variables 2
piece x1 + x2
when x1 >= 0
when x2 >= 0
piece x1 - x2
when x1 >= 0
when -x2 >= 0
piece -x1 + x2
when -x1 >= 0
when x2 >= 0
piece -x1 - x2
when -x1 >= 0
when -x2 >= 0
";

#[test]
fn cells(rt: HostRuntime) -> Result<(), Fail> {
    for (text, wanted) in [
        (ABSOLUTE_VALUE, "0 1 is 1\n1 0 is 0\n"),
        (PIECE_ON_A_FACE, "1 0 2 is 0\n2 0 1 is 1\n"),
        (
            MEDIAN_BY_PIECES,
            "0 1 2 is 1
0 2 1 is 2
1 0 2 is 0
1 2 0 is 2
2 0 1 is 0
2 1 0 is 1
",
        ),
        (CLAMP_BY_PIECES, "0 1 2 is 1\n0 2 1 is 2\n1 0 2 is 0\n"),
        (DEAD_ZONE, "1 2 0 is 2\n2 0 1 is 0\n2 1 0 is 1\n"),
        (
            SIZES_OF_TWO,
            "0 1 2 3 is 3
0 2 1 3 is 3
1 0 3 2 is 2
1 3 0 2 is 2
2 0 3 1 is 1
2 3 0 1 is 1
3 1 2 0 is 0
3 2 1 0 is 0
",
        ),
    ] {
        let cells = marked(rt.alloc(), &checked(rt.alloc(), text)?)?;
        let told = cells_text(rt.alloc(), &cells)?;
        assert_eq!(rt; told.as_str(), wanted, "{text}");
    }
    Ok(())
}

#[test]
fn formulas(rt: HostRuntime) -> Result<(), Fail> {
    for (text, variables, wanted) in [
        (ABSOLUTE_VALUE, 1, "max(-x1, x1)"),
        (PIECE_ON_A_FACE, 1, "max(min(x1, 5x1), -x1)"),
        (
            MEDIAN_BY_PIECES,
            3,
            "max(max(min(x3, x1), min(x2, x1)), min(x2, x3))",
        ),
        (CLAMP_BY_PIECES, 1, "max(min(x1, 2), min(-1, 2))"),
        (DEAD_ZONE, 1, "max(min(x1 + 1, x1 - 1), min(x1 + 1, 0))"),
        (
            SIZES_OF_TWO,
            2,
            "max(max(max(-x1 - x2, -x1 + x2), x1 - x2), x1 + x2)",
        ),
    ] {
        let formula = to_formula(rt.alloc(), &checked(rt.alloc(), text)?)?;
        let mut told = String::new(rt.alloc());
        print_formula(&mut told, &formula, variables)?;
        assert_eq!(rt; told.as_str(), wanted, "{text}");
    }
    Ok(())
}

const SEVEN_PIECES: &str = "function pieces
variables 1
piece 0
when -x1 >= 0
piece x1
when x1 >= 0
when 1 - x1 >= 0
piece 2x1 - 1
when x1 - 1 >= 0
when 2 - x1 >= 0
piece 3x1 - 3
when x1 - 2 >= 0
when 3 - x1 >= 0
piece 4x1 - 6
when x1 - 3 >= 0
when 4 - x1 >= 0
piece 5x1 - 10
when x1 - 4 >= 0
when 5 - x1 >= 0
piece 6x1 - 15
when x1 - 5 >= 0
";

const TWELVE_PIECES: &str = "function pieces
variables 1
piece 0
when -x1 >= 0
piece x1
when x1 >= 0
when 1 - x1 >= 0
piece 2x1 - 1
when x1 - 1 >= 0
when 2 - x1 >= 0
piece 3x1 - 3
when x1 - 2 >= 0
when 3 - x1 >= 0
piece 4x1 - 6
when x1 - 3 >= 0
when 4 - x1 >= 0
piece 5x1 - 10
when x1 - 4 >= 0
when 5 - x1 >= 0
piece 6x1 - 15
when x1 - 5 >= 0
when 6 - x1 >= 0
piece 7x1 - 21
when x1 - 6 >= 0
when 7 - x1 >= 0
piece 8x1 - 28
when x1 - 7 >= 0
when 8 - x1 >= 0
piece 9x1 - 36
when x1 - 8 >= 0
when 9 - x1 >= 0
piece 10x1 - 45
when x1 - 9 >= 0
when 10 - x1 >= 0
piece 11x1 - 55
when x1 - 10 >= 0
";

// Convex functions with corners at 0, 1, 2 and so on.
#[test]
fn values_of_many_pieces(rt: HostRuntime) -> Result<(), Fail> {
    let wanted = Frac::of(25, 2)?;
    for text in [SEVEN_PIECES, TWELVE_PIECES] {
        let formula = to_formula(rt.alloc(), &checked(rt.alloc(), text)?)?;
        let kind = FunctionKind::Formula(formula);
        assert!(rt; Function::fits(1, &kind));
        let function = Function::of(1, kind);
        assert!(rt;
            function.value_at(&[Frac::of(9, 2)?]) == Ok(wanted),
            "{text}"
        );
    }
    Ok(())
}

// The orders of six variables.
#[test]
fn many_cells(rt: HostRuntime) -> Result<(), Fail> {
    let text = least_of_variables(rt.alloc(), 6)?;
    let cells = marked(rt.alloc(), &checked(rt.alloc(), text.as_str())?)?;
    assert_eq!(rt; cells.len(), 720);
    for i in 1..cells.len() {
        assert!(rt; cells[i - 1].cell.order < cells[i].cell.order, "{i}");
    }
    Ok(())
}

// Seven variables have 5,040 orders.
#[test]
fn too_many_cells(rt: HostRuntime) -> Result<(), Fail> {
    let text = least_of_variables(rt.alloc(), 7)?;
    let checked = checked(rt.alloc(), text.as_str())?;
    assert!(rt;
        matches!(
            marked(rt.alloc(), &checked),
            Err(CellsError::TooManyCells { count: 4097 })
        )
    );
    assert!(rt;
        matches!(
            to_formula(rt.alloc(), &checked),
            Err(MaxminError::TooManyCells { count: 4097 })
        )
    );
    Ok(())
}
