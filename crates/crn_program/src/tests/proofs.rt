//! `prove` and `check`: the proof of the absolute value, and lines that are no proof of it.
use super::answers;
use crate::status::Status;
use std::test::Fail;

const ABSOLUTE_VALUE: &str = "function pieces
variables 1
piece x1
when x1 >= 0
piece -x1
when -x1 >= 0
";

const PROVED: &str = "function pieces
variables 1
piece x1
when x1 >= 0
piece -x1
when -x1 >= 0
pair 1 2 0 1 1
pair 2 1 1 0 1
split
close 1 1
";

#[test]
fn proofs_made(rt: HostRuntime) -> Result<(), Fail> {
    for (text, status, written) in [
        (ABSOLUTE_VALUE, Status::Done, PROVED),
        (
            "function pieces
variables 1
piece 4/2x1 + 0
",
            Status::Done,
            "function pieces
variables 1
piece 2x1
",
        ),
        (
            "function formula
variables 2
value min(x1, x2)
",
            Status::WrongKind,
            "refused: wrong kind\n",
        ),
        (
            "function pieces
variables 1
piece x1
when x1 >= 0
",
            Status::NotCovered,
            "refused: no piece at -1\n",
        ),
    ] {
        answers(&rt, rt.alloc(), &["prove"], text, status, written)?;
    }
    Ok(())
}

#[test]
fn proofs_checked(rt: HostRuntime) -> Result<(), Fail> {
    for (text, status, written) in [
        (PROVED, Status::Done, "checked lines 4\n"),
        (
            "function pieces
variables 1
piece x1
",
            Status::Done,
            "checked lines 0\n",
        ),
        (
            ABSOLUTE_VALUE,
            Status::NotProved,
            "refused: not proved at line 7\n",
        ),
        (
            "function pieces
variables 1
piece x1
when x1 >= 0
piece -x1
when -x1 >= 0
# first the pair
pair 1 2 0 1 1
pair 2 1 1 0 1
split
close 1 0
",
            Status::NotProved,
            "refused: not proved at line 11\n",
        ),
        (
            "function pieces
variables 1
piece x1
split 1
",
            Status::Malformed,
            "refused: malformed line 4\n",
        ),
        (
            "function formula
variables 1
value x1
split
",
            Status::WrongKind,
            "refused: wrong kind\n",
        ),
    ] {
        answers(&rt, rt.alloc(), &["check"], text, status, written)?;
    }
    Ok(())
}
