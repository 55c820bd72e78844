//! The files of `examples/`, byte for byte, with the values of their functions.
use super::answered;
use crate::status::Status;
use std::test::Fail;

// The function, the job or the run of each file, its command, and what the last line says.
#[test]
fn examples(rt: HostRuntime) -> Result<(), Fail> {
    for (text, command, last) in [
        (
            // clamp.job
            "# x1 kept between -1 and 2, at 7/2, after some of the input was copied
function formula
variables 1
value min(max(x1, -1), 2)
input 4 1/2
segment 1:3
",
            "complete",
            "\nvalue 2\n",
        ),
        (
            // least.job
            "# The least of 2x1 + x2 and 3x2 on single species, at 1 and 1. The first input has not been copied yet, the second has.
function direct
variables 2
form 2x1 + x2
form 3x2
input 1
input 1
segment 2:1
",
            "complete",
            "\nvalue 3\n",
        ),
        (
            // median.job
            "# the middle one of three numbers, at 5, -2 and 1
function formula
variables 3
value max(min(x1, x2), min(max(x1, x2), x3))
input 5 0
input 0 2
input 1 0
",
            "complete",
            "\nvalue 1\n",
        ),
        (
            // min-of-two.job
            "function formula
variables 2
value min(x1, x2)
input 3/2 1/2
input 2 0
",
            "complete",
            "\nvalue 1\n",
        ),
        (
            // least.run
            "# The network of the least of 2x1 + x2 and 3x2, and a run of it from 1 and 1.
crn 1 direct
species 8
input S1
input S2
output S8
reactions 6
S1 -> S3
S2 -> S4 + S5
S3 -> 2 S6
S4 -> S6
S5 -> 3 S7
S6 + S7 -> S8
amount S1 1
amount S2 1
segment 1:1 2:1/2
segment 3:1/2 5:1/2
segment 6:1
",
            "run",
            "\nvalue 1\n",
        ),
        (
            // absolute-value.job
            "# the size of x1 by pieces, at -3
function pieces
variables 1
piece x1
when x1 >= 0
piece -x1
when -x1 >= 0
input 0 3
",
            "complete",
            "\nvalue 3\n",
        ),
        (
            // clamp-by-pieces.job
            "# x1 kept between -1 and 2, by pieces, at 7/2
function pieces
variables 1
piece -1
when -x1 - 1 >= 0
piece x1
when x1 + 1 >= 0
when 2 - x1 >= 0
piece 2
when x1 - 2 >= 0
input 7/2 0
",
            "complete",
            "\nvalue 2\n",
        ),
        (
            // dead-zone.job
            "# how far x1 lies from the dead zone between -1 and 1, at -5/2
function pieces
variables 1
piece x1 + 1
when -x1 - 1 >= 0
piece 0
when x1 + 1 >= 0
when 1 - x1 >= 0
piece x1 - 1
when x1 - 1 >= 0
input 0 5/2
",
            "complete",
            "\nvalue -3/2\n",
        ),
        (
            // table.job
            "# A table of twelve knots, between which is interpolated, at 11/4. Before the first knot the first line goes on, and past the last knot the last value holds.
#   x  0    1/2  1    3/2  2    5/2  3    7/2  4    9/2  5    11/2
#   y  0.0  0.1  0.3  0.7  1.4  2.5  3.8  4.8  5.4  5.9  6.2  6.3
function pieces
variables 1
piece 1/5x1
when 1/2 - x1 >= 0
piece 2/5x1 - 1/10
when x1 - 1/2 >= 0
when 1 - x1 >= 0
piece 4/5x1 - 1/2
when x1 - 1 >= 0
when 3/2 - x1 >= 0
piece 7/5x1 - 7/5
when x1 - 3/2 >= 0
when 2 - x1 >= 0
piece 11/5x1 - 3
when x1 - 2 >= 0
when 5/2 - x1 >= 0
piece 13/5x1 - 4
when x1 - 5/2 >= 0
when 3 - x1 >= 0
piece 2x1 - 11/5
when x1 - 3 >= 0
when 7/2 - x1 >= 0
piece 6/5x1 + 3/5
when x1 - 7/2 >= 0
when 4 - x1 >= 0
piece x1 + 7/5
when x1 - 4 >= 0
when 9/2 - x1 >= 0
piece 3/5x1 + 16/5
when x1 - 9/2 >= 0
when 5 - x1 >= 0
piece 1/5x1 + 26/5
when x1 - 5 >= 0
when 11/2 - x1 >= 0
piece 63/10
when x1 - 11/2 >= 0
input 11/4 0
",
            "complete",
            "\nvalue 63/20\n",
        ),
        (
            // relu-layer.job
            "# A layer of three ReLU units that gives the exclusive or of 0 and 1: max(0, x1) + max(0, x2) - 2 max(0, x1 + x2 - 1), by pieces where the same units are on, at 3/4 and 1/2.
function pieces
variables 2
piece -x1 - x2 + 2
when x1 >= 0
when x2 >= 0
when x1 + x2 - 1 >= 0
piece x1 + x2
when x1 >= 0
when x2 >= 0
when 1 - x1 - x2 >= 0
piece -x1 - 2x2 + 2
when x1 >= 0
when -x2 >= 0
when x1 + x2 - 1 >= 0
piece x1
when x1 >= 0
when -x2 >= 0
when 1 - x1 - x2 >= 0
piece -2x1 - x2 + 2
when -x1 >= 0
when x2 >= 0
when x1 + x2 - 1 >= 0
piece x2
when -x1 >= 0
when x2 >= 0
when 1 - x1 - x2 >= 0
piece 0
when -x1 >= 0
when -x2 >= 0
input 3/4 0
input 1/2 0
",
            "complete",
            "\nvalue 3/4\n",
        ),
        (
            // l1-distance.job
            "# the l1 distance of the points x1, x2 and x3, x4, by pieces, at 1, -2 and 3, 1/2
function pieces
variables 4
piece x1 + x2 - x3 - x4
when x1 - x3 >= 0
when x2 - x4 >= 0
piece x1 - x2 - x3 + x4
when x1 - x3 >= 0
when x4 - x2 >= 0
piece -x1 + x2 + x3 - x4
when x3 - x1 >= 0
when x2 - x4 >= 0
piece -x1 - x2 + x3 + x4
when x3 - x1 >= 0
when x4 - x2 >= 0
input 1 0
input 0 2
input 3 0
input 1/2 0
",
            "complete",
            "\nvalue 9/2\n",
        ),
        (
            // switched.job
            "# The lesser of 2x2 and x3 while x1 is there, and 0 while it is not, at 1/3, 2 and 3. Half of the first form has gone through its gate.
function gated
variables 3
form 2x2 if x1
form x3 if x1
input 1/3
input 2
input 3
segment 1:1/3 2:2
segment 4:2
segment 5:2
",
            "complete-gated",
            "\nvalue 3\n",
        ),
        (
            // hinge.function
            "# One unit of a ReLU network: max(0, 2x1 - x2/2 + 1). Its constant needs a context species.
function formula
variables 2
value max(0, 2x1 - 1/2x2 + 1)
",
            "compile",
            " -> S18\n",
        ),
    ] {
        let (status, written) = answered(rt.alloc(), &[command], text)?;
        assert_eq!(rt; status, Status::Done, "{text}");
        assert!(rt; written.ends_with(last.as_bytes()), "{text}");
    }
    Ok(())
}
