//! Tests of crn_compile.

use crate::shared::{
    ABSOLUTE_VALUE, CLAMP_BY_PIECES, DEAD_ZONE, LEAST_OF_TWO_FORMS, MEDIAN_BY_PIECES, MINIMUM,
    PIECE_ON_A_FACE, least_of_variables, printed,
};
use crn_compile::compile;
use crn_function_text::read_function;
use std::alloc::Global;
use std::test::Fail;

// The text of the network of a function.
fn network_text(alloc: Global, text: &str) -> Result<String, Fail> {
    let function = read_function(alloc, text.as_bytes())?;
    printed(alloc, &compile(alloc, function)?)
}

const DIFFERENCE: &str = "crn 1 dual
species 12
input S1 S2
output S11 S12
reactions 10
S1 -> S3 + S5
S2 -> S4 + S6
S3 -> S7
S4 -> S8
S5 -> S9
S6 -> S10
S7 -> S11
S8 -> S12
S9 -> S12
S10 -> S11
";

const SCALED: &str = "crn 1 dual
species 8
input S1 S2
output S7 S8
reactions 6
S1 -> S3
S2 -> S4
S3 -> S5
S4 -> S6
3 S5 -> 2 S8
3 S6 -> 2 S7
";

const SUM: &str = "crn 1 dual
species 12
input S1 S2
output S11 S12
reactions 10
S1 -> S3 + S5
S2 -> S4 + S6
S3 -> S7
S4 -> S8
S5 -> S9
S6 -> S10
S7 -> S11
S8 -> S12
S9 -> S11
S10 -> S12
";

#[test]
fn compiles(rt: HostRuntime) -> Result<(), Fail> {
    for (function, network) in [
        (
            "function formula
variables 1
value sub(x1, x1)
",
            DIFFERENCE,
        ),
        (
            "function formula
variables 1
value scale(-2/3, x1)
",
            SCALED,
        ),
        (
            "function formula
variables 1
value add(x1, x1)
",
            SUM,
        ),
        (
            "function formula
variables 2
value min(x1, x2)
",
            MINIMUM,
        ),
        (
            "function direct
variables 2
form 2x1 + x2
form 3x2
",
            LEAST_OF_TWO_FORMS,
        ),
    ] {
        assert!(rt;
            network_text(rt.alloc(), function)?.as_str() == network,
            "{function}"
        );
    }
    Ok(())
}

/// Pieces have the network of their max-min formula.
#[test]
fn compiles_pieces(rt: HostRuntime) -> Result<(), Fail> {
    for (pieces, formula) in [
        (
            ABSOLUTE_VALUE,
            "function formula
variables 1
value max(-x1, x1)
",
        ),
        (
            PIECE_ON_A_FACE,
            "function formula
variables 1
value max(min(x1, 5x1), -x1)
",
        ),
        (
            MEDIAN_BY_PIECES,
            "function formula
variables 3
value max(max(min(x3, x1), min(x2, x1)), min(x2, x3))
",
        ),
        (
            CLAMP_BY_PIECES,
            "function formula
variables 1
value max(min(x1, 2), min(-1, 2))
",
        ),
        (
            DEAD_ZONE,
            "function formula
variables 1
value max(min(x1 + 1, x1 - 1), min(x1 + 1, 0))
",
        ),
    ] {
        let wanted = network_text(rt.alloc(), formula)?;
        assert!(rt; network_text(rt.alloc(), pieces)? == wanted, "{pieces}");
    }
    Ok(())
}

// Why a function has no network.
fn refusal(alloc: Global, text: &str) -> Result<String, Fail> {
    let function = read_function(alloc, text.as_bytes())?;
    match compile(alloc, function) {
        Ok(_) => Err("it is compiled")?,
        Err(error) => Ok(format!(in alloc; "{error}")?),
    }
}

#[test]
fn refusals(rt: HostRuntime) -> Result<(), Fail> {
    let seven = least_of_variables(rt.alloc(), 7)?;
    for (pieces, wanted) in [
        (
            "function pieces
variables 1
piece x1
piece 2x1
piece 3x1
piece 4x1
piece 5x1
piece 6x1
piece 7x1
piece 8x1
piece 9x1
piece 10x1
piece 11x1
piece 12x1
piece 13x1
",
            "there are 13 distinct forms",
        ),
        (
            "function pieces
variables 2
piece x1
when 1/9223372036854775807x1 + x2 >= 0
",
            "condition 1 of piece 1 is too big",
        ),
        (
            "function pieces
variables 2
piece 1/9223372036854775807x1
piece x2
",
            "the difference of pieces 1 and 2 is too big",
        ),
        (
            "function pieces
variables 2
piece x1
piece x2
",
            "pieces 1 and 2 disagree",
        ),
        (
            "function pieces
variables 2
piece x1
when x1 >= 0
piece 2x1
when -x1 >= 0
when -x2 >= 0
",
            "no piece holds at a point",
        ),
        (
            "function pieces
variables 2
piece x1
when 1099511627776x1 + 1099511627777x2 >= 0
piece x2
when 1099511627776x1 - 1099511627779x2 >= 0
",
            "a number of an elimination is too big",
        ),
        (seven.as_str(), "there are 4097 cells or more"),
    ] {
        assert_eq!(rt; refusal(rt.alloc(), pieces)?.as_str(), wanted, "{pieces}");
    }
    Ok(())
}
