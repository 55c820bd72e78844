//! `complete`: jobs that are refused, with the refusals that are written.
use super::{HALVES, HALVES_REPORT, answers};
use crate::status::Status;
use std::alloc::Global;
use std::process::Abort;
use std::test::Fail;

#[test]
fn refusals(rt: HostRuntime) -> Result<(), Fail> {
    for (text, status, refusal) in [
        (
            // illegal no such reaction
            "function formula
variables 2
value min(x1, x2)
input 3/2 1/2
input 2 0
segment 14:1
",
            Status::Illegal,
            "refused: segment 1 has no reaction 14\n",
        ),
        (
            // illegal no such reaction after a good flow
            "function formula
variables 2
value min(x1, x2)
input 3/2 1/2
input 2 0
segment 1:1 14:1
",
            Status::Illegal,
            "refused: segment 1 has no reaction 14\n",
        ),
        (
            // illegal reactant made in the same segment
            "function formula
variables 2
value min(x1, x2)
input 3/2 1/2
input 2 0
segment 1:1 5:1/2
",
            Status::Illegal,
            "refused: segment 1 reaction 5 needs S5\n",
        ),
        (
            // illegal reactant not present
            "function formula
variables 2
value min(x1, x2)
input 3/2 1/2
input 2 0
segment 1:1 5:1
",
            Status::Illegal,
            "refused: segment 1 reaction 5 needs S5\n",
        ),
        (
            // illegal takes more
            "function formula
variables 2
value min(x1, x2)
input 3/2 1/2
input 2 0
segment 1:2
",
            Status::Illegal,
            "refused: segment 1 takes more S1 than is there\n",
        ),
        (
            // malformed direct input
            "function direct
variables 2
form 2x1 + x2
form 3x2
input -1
input 1
",
            Status::Malformed,
            "refused: malformed line 5\n",
        ),
        (
            // malformed leading zero
            "function formula
variables 2
value min(x1, x2)
input 03/2 1/2
input 2 0
",
            Status::Malformed,
            "refused: malformed line 4\n",
        ),
        (
            // malformed zero denominator
            "function formula
variables 2
value min(x1, x2)
input 3/0 1/2
input 2 0
",
            Status::Malformed,
            "refused: malformed line 4\n",
        ),
        (
            // too big in completion first term
            "function formula
variables 2
value 9223372036854775807x1 + 1/9223372036854775807x2
input 2 0
input 2 0
",
            Status::TooBig,
            "refused: too big in completion of reaction 5 at S9\n",
        ),
        (
            // too big in completion of min
            "function formula
variables 2
value min(x1, x2)
input 0 9223372036854775807
input 1 0
",
            Status::TooBig,
            "refused: too big in completion of reaction 12 at S14\n",
        ),
        (
            // too big in completion second term
            "function formula
variables 2
value 9223372036854775807x1 + 1/9223372036854775807x2
input 1 0
input 1 0
",
            Status::TooBig,
            "refused: too big in completion of reaction 7 at S9\n",
        ),
        (
            // pieces that disagree
            "function pieces
variables 1
piece x1 + 1
piece x1
input 0 0
",
            Status::Disagree,
            "refused: pieces 1 and 2 disagree at 0 over 1\n",
        ),
        (
            // pieces with a gap
            "function pieces
variables 2
piece x1
when x1 >= 0
piece 2x1
when -x1 >= 0
when -x2 >= 0
input 0 0
input 0 0
",
            Status::NotCovered,
            "refused: no piece at -1 1\n",
        ),
        (
            // pieces too big in solving
            "function pieces
variables 2
piece x1
when 1099511627776x1 + 1099511627777x2 >= 0
piece x2
when 1099511627776x1 - 1099511627779x2 >= 0
input 0 0
input 0 0
",
            Status::TooBig,
            "refused: too big in solving
row >= 1099511627776 1099511627777
row >= 1099511627776 -1099511627779
row > 1 -1
",
        ),
        (
            // too big value
            "function formula
variables 1
value x1
input 1/9223372036854775807 1/9223372036854775806
",
            Status::TooBig,
            "refused: too big value\n",
        ),
    ] {
        answers(&rt, rt.alloc(), &["complete"], text, status, refusal)?;
    }
    Ok(())
}

// The text of the halves, cut after so many bytes, at least and not, is answered so.
fn cut_short(
    rt: &impl Abort,
    alloc: Global,
    least: usize,
    past: usize,
    status: Status,
    written: &str,
) -> Result<(), Fail> {
    for count in least..past {
        let Some(front) = HALVES.get(..count) else {
            assert!(rt; false, "the text is longer");
            return Ok(());
        };
        answers(rt, alloc, &["complete"], front, status, written)?;
    }
    Ok(())
}

// A text of 71 bytes that is cut short is malformed at the line that is cut, or at the line past the last. Without its last line feed it is whole.
#[test]
fn texts_cut_short(rt: HostRuntime) -> Result<(), Fail> {
    for (least, past, status, written) in [
        (
            0usize,
            16usize,
            Status::Malformed,
            "refused: malformed line 1\n",
        ),
        (16, 28, Status::Malformed, "refused: malformed line 2\n"),
        (28, 46, Status::Malformed, "refused: malformed line 3\n"),
        (46, 58, Status::Malformed, "refused: malformed line 4\n"),
        (58, 59, Status::Malformed, "refused: malformed line 5\n"),
        (59, 60, Status::Malformed, "refused: malformed line 4\n"),
        (60, 70, Status::Malformed, "refused: malformed line 5\n"),
        (70, 72, Status::Done, HALVES_REPORT),
    ] {
        cut_short(&rt, rt.alloc(), least, past, status, written)?;
    }
    Ok(())
}
