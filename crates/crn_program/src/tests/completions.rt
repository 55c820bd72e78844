//! `complete`: jobs, with the reports that are written.
use super::{HALVES, answered, answers, repeated};
use crate::status::Status;
use std::test::Fail;

#[test]
fn reports(rt: HostRuntime) -> Result<(), Fail> {
    for (text, report) in [
        (
            // affine max
            "function formula
variables 1
value max(x1, 3)
input 0 0
",
            "species 14 reactions 11
state
amount S3 1
completion
segment 3:1
segment 6:1
segment 8:3
plus 3
minus 0
value 3
",
        ),
        (
            // after a segment
            "function formula
variables 2
value min(x1, x2)
input 3/2 1/2
input 2 0
segment 1:1 3:1
",
            "species 16 reactions 13
state
amount S1 1/2
amount S2 1/2
amount S3 1
amount S5 1
amount S7 1
completion
segment 1:1/2
segment 2:1/2
segment 3:1
segment 5:3/2
segment 6:1/2
segment 7:2
segment 9:3/2
segment 11:2
segment 12:1/2
segment 13:3/2
plus 3/2
minus 1/2
value 1
",
        ),
        (
            // after its own completion
            "function formula
variables 2
value min(x1, x2)
input 3/2 1/2
input 2 0
segment 1:3/2
segment 2:1/2
segment 3:2
segment 5:3/2
segment 6:1/2
segment 7:2
segment 9:3/2
segment 11:2
segment 12:1/2
segment 13:3/2
",
            "species 16 reactions 13
state
amount S14 1
amount S15 3/2
amount S16 1/2
completion
plus 3/2
minus 1/2
value 1
",
        ),
        (
            // difference with itself
            "function formula
variables 1
value sub(x1, x1)
input 5 2
",
            "species 12 reactions 10
state
amount S1 5
amount S2 2
completion
segment 1:5
segment 2:2
segment 3:5
segment 4:2
segment 5:5
segment 6:2
segment 7:5
segment 8:2
segment 9:5
segment 10:2
plus 7
minus 7
value 0
",
        ),
        (
            // greatest number
            "function formula
variables 2
value 9223372036854775807x1 + 1/9223372036854775807x2
input 1 0
input 0 0
",
            "species 10 reactions 8
state
amount S1 1
completion
segment 1:1
segment 5:1
plus 9223372036854775807
minus 0
value 9223372036854775807
",
        ),
        (
            // max of two
            "function formula
variables 2
value max(x1, x2)
input 3 1
input 2 0
",
            "species 16 reactions 13
state
amount S1 3
amount S2 1
amount S3 2
completion
segment 1:3
segment 2:1
segment 3:2
segment 5:3
segment 6:1
segment 7:2
segment 9:1
segment 10:2
segment 12:3
segment 13:3
plus 5
minus 3
value 2
",
        ),
        (
            // min equal values
            "function formula
variables 2
value min(x1, x2)
input 5/6 1/3
input 3/2 1
",
            "species 16 reactions 13
state
amount S1 5/6
amount S2 1/3
amount S3 3/2
amount S4 1
completion
segment 1:5/6
segment 2:1/3
segment 3:3/2
segment 4:1
segment 5:5/6
segment 6:1/3
segment 7:3/2
segment 8:1
segment 9:5/6
segment 10:1
segment 11:3/2
segment 12:1/3
segment 13:11/6
plus 11/6
minus 4/3
value 1/2
",
        ),
        (
            // min great denominators
            "function formula
variables 2
value min(x1, x2)
input 1/3037000493 0
input 0 1/3037000499
",
            "species 16 reactions 13
state
amount S1 1/3037000493
amount S4 1/3037000499
completion
segment 1:1/3037000493
segment 4:1/3037000499
segment 5:1/3037000493
segment 8:1/3037000499
segment 9:1/3037000493
segment 10:1/3037000499
plus 0
minus 1/3037000499
value -1/3037000499
",
        ),
        (
            // min negative values
            "function formula
variables 2
value min(x1, x2)
input 1/3 5/2
input 0 7/9
",
            "species 16 reactions 13
state
amount S1 1/3
amount S2 5/2
amount S4 7/9
completion
segment 1:1/3
segment 2:5/2
segment 4:7/9
segment 5:1/3
segment 6:5/2
segment 8:7/9
segment 9:1/3
segment 10:7/9
segment 12:5/2
segment 13:10/9
plus 10/9
minus 59/18
value -13/6
",
        ),
        (
            // min of two
            "function formula
variables 2
value min(x1, x2)
input 3/2 1/2
input 2 0
",
            "species 16 reactions 13
state
amount S1 3/2
amount S2 1/2
amount S3 2
completion
segment 1:3/2
segment 2:1/2
segment 3:2
segment 5:3/2
segment 6:1/2
segment 7:2
segment 9:3/2
segment 11:2
segment 12:1/2
segment 13:3/2
plus 3/2
minus 1/2
value 1
",
        ),
        (
            // min of zeros
            "function formula
variables 2
value min(x1, x2)
input 0 0
input 0 0
",
            "species 16 reactions 13
state
completion
plus 0
minus 0
value 0
",
        ),
        (
            // min unreduced fractions
            "function formula
variables 2
value min(x1, x2)
input 2/4 6/3
input 10/5 0/7
",
            "species 16 reactions 13
state
amount S1 1/2
amount S2 2
amount S3 2
completion
segment 1:1/2
segment 2:2
segment 3:2
segment 5:1/2
segment 6:2
segment 7:2
segment 9:1/2
segment 11:2
segment 12:2
segment 13:1/2
plus 1/2
minus 2
value -3/2
",
        ),
        (
            // negative scale
            "function formula
variables 1
value scale(-2/3, x1)
input 6 3/2
",
            "species 8 reactions 6
state
amount S1 6
amount S2 3/2
completion
segment 1:6
segment 2:3/2
segment 3:6
segment 4:3/2
segment 5:2
segment 6:1/2
plus 1
minus 4
value -3
",
        ),
        (
            // product fits though unreduced does not
            "function formula
variables 1
value 2x1
input 9223372036854775807/2 0
",
            "species 6 reactions 4
state
amount S1 9223372036854775807/2
completion
segment 1:9223372036854775807/2
segment 3:9223372036854775807/2
plus 9223372036854775807
minus 0
value 9223372036854775807
",
        ),
        (
            // sum with itself
            "function formula
variables 1
value add(x1, x1)
input 1 0
",
            "species 12 reactions 10
state
amount S1 1
completion
segment 1:1
segment 3:1
segment 5:1
segment 7:1
segment 9:1
plus 2
minus 0
value 2
",
        ),
        (
            // with comments and carriage returns
            "# least of two\r\n\r\nfunction formula\r\nvariables 2\r\nvalue min(x1, x2)\r\ninput 3/2 1/2\r\ninput 2 0",
            "species 16 reactions 13
state
amount S1 3/2
amount S2 1/2
amount S3 2
completion
segment 1:3/2
segment 2:1/2
segment 3:2
segment 5:3/2
segment 6:1/2
segment 7:2
segment 9:3/2
segment 11:2
segment 12:1/2
segment 13:3/2
plus 3/2
minus 1/2
value 1
",
        ),
        (
            // direct two forms
            "function direct
variables 2
form 2x1 + x2
form 3x2
input 1
input 1
",
            "species 8 reactions 6
state
amount S1 1
amount S2 1
completion
segment 1:1
segment 2:1
segment 3:1
segment 4:1
segment 5:1
segment 6:3
value 3
",
        ),
        (
            // absolute value of pieces
            "function pieces
variables 1
piece x1
when x1 >= 0
piece -x1
when -x1 >= 0
input 0 3
",
            "species 14 reactions 11
state
amount S2 3
completion
segment 2:3
segment 4:3
segment 6:3
segment 9:3
segment 10:3
plus 3
minus 0
value 3
",
        ),
        (
            // pieces with a piece on a face
            "function pieces
variables 1
piece x1
when x1 >= 0
piece -x1
when -x1 >= 0
piece 5x1
when x1 >= 0
when -x1 >= 0
input 0 3
",
            "species 22 reactions 18
state
amount S2 3
completion
segment 2:3
segment 4:3
segment 6:3
segment 8:15
segment 10:3
segment 11:3
segment 13:3
segment 14:18
segment 15:3
segment 17:3
segment 18:3
plus 6
minus 3
value 3
",
        ),
        (
            // median of three
            "function pieces
variables 3
piece x2
when x2 - x1 >= 0
when x3 - x2 >= 0
piece x3
when x3 - x1 >= 0
when x2 - x3 >= 0
piece x1
when x1 - x2 >= 0
when x3 - x1 >= 0
piece x3
when x3 - x2 >= 0
when x1 - x3 >= 0
piece x1
when x1 - x3 >= 0
when x2 - x1 >= 0
piece x2
when x2 - x3 >= 0
when x1 - x2 >= 0
input 4 0
input 0 1
input 2 0
",
            "species 50 reactions 43
state
amount S1 4
amount S4 1
amount S5 2
completion
segment 1:4
segment 4:1
segment 5:2
segment 7:2
segment 9:4
segment 11:2
segment 13:4
segment 15:2
segment 17:1
segment 18:4
segment 22:4
segment 23:1
segment 27:1
segment 28:2
segment 31:1
segment 32:2
segment 36:2
segment 37:1
segment 41:1
segment 42:2
plus 2
minus 0
value 2
",
        ),
    ] {
        answers(&rt, rt.alloc(), &["complete"], text, Status::Done, report)?;
    }
    Ok(())
}

// Convex functions of one variable, of seven and of twelve pieces, at 9/2.
#[test]
fn values_of_many_pieces(rt: HostRuntime) -> Result<(), Fail> {
    for text in [
        "function pieces
variables 1
piece 0
when -x1 >= 0
piece x1
when x1 >= 0
when 1 - x1 >= 0
piece 2x1 - 1
when x1 - 1 >= 0
when 2 - x1 >= 0
piece 3x1 - 3
when x1 - 2 >= 0
when 3 - x1 >= 0
piece 4x1 - 6
when x1 - 3 >= 0
when 4 - x1 >= 0
piece 5x1 - 10
when x1 - 4 >= 0
when 5 - x1 >= 0
piece 6x1 - 15
when x1 - 5 >= 0
input 9/2 0
",
        "function pieces
variables 1
piece 0
when -x1 >= 0
piece x1
when x1 >= 0
when 1 - x1 >= 0
piece 2x1 - 1
when x1 - 1 >= 0
when 2 - x1 >= 0
piece 3x1 - 3
when x1 - 2 >= 0
when 3 - x1 >= 0
piece 4x1 - 6
when x1 - 3 >= 0
when 4 - x1 >= 0
piece 5x1 - 10
when x1 - 4 >= 0
when 5 - x1 >= 0
piece 6x1 - 15
when x1 - 5 >= 0
when 6 - x1 >= 0
piece 7x1 - 21
when x1 - 6 >= 0
when 7 - x1 >= 0
piece 8x1 - 28
when x1 - 7 >= 0
when 8 - x1 >= 0
piece 9x1 - 36
when x1 - 8 >= 0
when 9 - x1 >= 0
piece 10x1 - 45
when x1 - 9 >= 0
when 10 - x1 >= 0
piece 11x1 - 55
when x1 - 10 >= 0
input 9/2 0
",
    ] {
        let (status, written) = answered(rt.alloc(), &["complete"], text)?;
        assert_eq!(rt; status, Status::Done);
        assert!(rt; written.ends_with(b"\nvalue 25/2\n".as_slice()));
    }
    Ok(())
}

// As many given segments as a text may have, and one more.
#[test]
fn many_segments(rt: HostRuntime) -> Result<(), Fail> {
    let segment = "segment 1:1/10000\n";
    let text = repeated(rt.alloc(), HALVES, segment, 10_000, "")?;
    answers(
        &rt,
        rt.alloc(),
        &["complete"],
        text.as_str(),
        Status::Done,
        "species 16 reactions 13
state
amount S1 1/2
amount S2 1/2
amount S3 2
amount S5 1
completion
segment 1:1/2
segment 2:1/2
segment 3:2
segment 5:3/2
segment 6:1/2
segment 7:2
segment 9:3/2
segment 11:2
segment 12:1/2
segment 13:3/2
plus 3/2
minus 1/2
value 1
",
    )?;
    let text = repeated(rt.alloc(), HALVES, segment, 10_001, "")?;
    let limit = "refused: limit segments 10001\n";
    answers(
        &rt,
        rt.alloc(),
        &["complete"],
        text.as_str(),
        Status::Limit,
        limit,
    )?;
    Ok(())
}
