//! `same` and `direct`: functions that are equal or differ, and pieces that have a direct network or none.
use super::answers;
use crate::status::Status;
use std::test::Fail;

#[test]
fn two_functions(rt: HostRuntime) -> Result<(), Fail> {
    for (text, status, written) in [
        (
            "function formula
variables 2
value min(x1, x2)
function formula
variables 2
value sub(x1, max(x1 - x2, 0))
",
            Status::Done,
            "same\n",
        ),
        (
            // the absolute value by pieces and by a formula, and one that differs from it
            "function pieces
variables 1
piece x1
when x1 >= 0
piece -x1
when -x1 >= 0
function formula
variables 1
value max(x1, -x1)
",
            Status::Done,
            "same\n",
        ),
        (
            "function formula
variables 1
value x1
function formula
variables 1
value max(x1, 0)
",
            Status::Differ,
            "refused: differ at -1\n",
        ),
        (
            "function formula
variables 1
value x1
function formula
variables 2
value x1
",
            Status::Variables,
            "refused: variables 1 and 2\n",
        ),
        (
            "function formula
variables 1
value x1
function direct
variables 1
form x1
",
            Status::WrongKind,
            "refused: wrong kind\n",
        ),
        (
            "function formula
variables 1
value x1
function pieces
variables 1
piece x1
piece 2x1
",
            Status::Disagree,
            "in function 2\nrefused: pieces 1 and 2 disagree at -1\n",
        ),
        (
            "function formula
variables 1
value x1
",
            Status::Malformed,
            "refused: malformed line 4\n",
        ),
        (
            "function formula
variables 1
value x1
function formula
variables 1
value x1
value x1
",
            Status::Malformed,
            "refused: malformed line 7\n",
        ),
    ] {
        answers(&rt, rt.alloc(), &["same"], text, status, written)?;
    }
    Ok(())
}

#[test]
fn direct_networks(rt: HostRuntime) -> Result<(), Fail> {
    for (text, status, written) in [
        (
            "function pieces
variables 2
piece 2x1 + x2
when x2 - x1 >= 0
piece 3x2
when x1 - x2 >= 0
",
            Status::Done,
            "crn 1 direct
species 8
input S1
input S2
output S8
reactions 6
S1 -> S3
S2 -> S4 + S5
S3 -> 2 S6
S4 -> S6
S5 -> 3 S7
S6 + S7 -> S8
",
        ),
        (
            "function pieces
variables 1
piece -x1
",
            Status::Negative,
            "refused: negative at 1\n",
        ),
        (
            "function pieces
variables 1
piece x1 + 1
",
            Status::WrongKind,
            "refused: wrong kind\n",
        ),
        (
            "function formula
variables 1
value x1
",
            Status::WrongKind,
            "refused: wrong kind\n",
        ),
        (
            // no piece is asked for where a number is negative
            "function pieces
variables 1
piece x1
when x1 >= 0
",
            Status::Done,
            "crn 1 direct
species 3
input S1
output S3
reactions 2
S1 -> S2
S2 -> S3
",
        ),
    ] {
        answers(&rt, rt.alloc(), &["direct"], text, status, written)?;
    }
    Ok(())
}
