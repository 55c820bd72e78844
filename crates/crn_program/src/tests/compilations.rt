//! `compile`: functions, with the networks and refusals that are written.
use super::{answers, repeated};
use crate::status::Status;
use std::alloc::{AllocError, Global};
use std::test::Fail;

#[test]
fn networks(rt: HostRuntime) -> Result<(), Fail> {
    for (text, network) in [
        (
            // affine max
            "function formula
variables 1
value max(x1, 3)
",
            "crn 2 dual
species 14
input S1 S2
context S3
output S13 S14
reactions 11
S1 -> S4
S2 -> S5
S3 -> S6
S4 -> S7
S5 -> S8
S6 -> 3 S9
S8 -> S11
S9 -> S11 + S13
S10 -> S12
S7 -> S12 + S13
S11 + S12 -> S14
",
        ),
        (
            // direct two forms
            "function direct
variables 2
form 2x1 + x2
form 3x2
",
            "crn 1 direct
species 8
input S1
input S2
output S8
reactions 6
S1 -> S3
S2 -> S4 + S5
S3 -> 2 S6
S4 -> S6
S5 -> 3 S7
S6 + S7 -> S8
",
        ),
        (
            // min of two
            "function formula
variables 2
value min(x1, x2)
",
            "crn 1 dual
species 16
input S1 S2
input S3 S4
output S15 S16
reactions 13
S1 -> S5
S2 -> S6
S3 -> S7
S4 -> S8
S5 -> S9
S6 -> S10
S7 -> S11
S8 -> S12
S9 -> S13
S12 -> S13 + S16
S11 -> S14
S10 -> S14 + S16
S13 + S14 -> S15
",
        ),
    ] {
        answers(&rt, rt.alloc(), &["compile"], text, Status::Done, network)?;
    }
    Ok(())
}

#[test]
fn refused_texts(rt: HostRuntime) -> Result<(), Fail> {
    for (text, status, refusal) in [
        (
            // limit variables
            "function formula
variables 9
",
            Status::Limit,
            "refused: limit variables 9\n",
        ),
        (
            // malformed empty text
            "",
            Status::Malformed,
            "refused: malformed line 1\n",
        ),
        (
            // malformed gated for other commands
            "function gated
variables 2
form x2 if x1
",
            Status::Malformed,
            "refused: malformed line 1\n",
        ),
        (
            // malformed variable above
            "function formula
variables 2
value x3
",
            Status::Malformed,
            "refused: malformed line 3\n",
        ),
    ] {
        answers(&rt, rt.alloc(), &["compile"], text, status, refusal)?;
    }
    Ok(())
}

#[test]
fn refused_pieces(rt: HostRuntime) -> Result<(), Fail> {
    for (text, status, refusal) in [
        (
            // pieces that disagree
            "function pieces
variables 2
piece x1
piece x2
",
            Status::Disagree,
            "refused: pieces 1 and 2 disagree at 0 -1\n",
        ),
        (
            // affine pieces that disagree
            "function pieces
variables 1
piece x1 + 1
piece x1
",
            Status::Disagree,
            "refused: pieces 1 and 2 disagree at 0 over 1\n",
        ),
        (
            // seven forms that disagree
            "function pieces
variables 1
piece x1
piece 2x1
piece 3x1
piece 4x1
piece 5x1
piece 6x1
piece 7x1
",
            Status::Disagree,
            "refused: pieces 1 and 2 disagree at -1\n",
        ),
        (
            // pieces with a gap
            "function pieces
variables 2
piece x1
when x1 >= 0
piece 2x1
when -x1 >= 0
when -x2 >= 0
",
            Status::NotCovered,
            "refused: no piece at -1 1\n",
        ),
        (
            // affine pieces with a gap
            "function pieces
variables 1
piece x1
when x1 - 1 >= 0
piece 1
when -x1 >= 0
",
            Status::NotCovered,
            "refused: no piece at 1 over 2\n",
        ),
        (
            // gap found before a solving limit
            "function pieces
variables 2
piece x1
when 1099511627776x1 + 1099511627777x2 >= 0
when -1099511627776x1 + 1099511627779x2 >= 0
",
            Status::NotCovered,
            "refused: no piece at 0 -1\n",
        ),
        (
            // too big condition
            "function pieces
variables 2
piece x1
when 1/9223372036854775807x1 + x2 >= 0
",
            Status::TooBig,
            "refused: too big condition 1 of piece 1\n",
        ),
        (
            // too big in solving
            "function pieces
variables 2
piece x1
when 1099511627776x1 + 1099511627777x2 >= 0
piece x2
when 1099511627776x1 - 1099511627779x2 >= 0
",
            Status::TooBig,
            "refused: too big in solving
row >= 1099511627776 1099511627777
row >= 1099511627776 -1099511627779
row > 1 -1
",
        ),
        (
            // limit distinct thirteen
            "function pieces
variables 1
piece x1
piece 2x1
piece 3x1
piece 4x1
piece 5x1
piece 6x1
piece 7x1
piece 8x1
piece 9x1
piece 10x1
piece 11x1
piece 12x1
piece 13x1
",
            Status::Limit,
            "refused: limit distinct 13\n",
        ),
        (
            // too big difference
            "function pieces
variables 2
piece 1/9223372036854775807x1
piece x2
",
            Status::TooBig,
            "refused: too big difference of pieces 1 and 2\n",
        ),
    ] {
        answers(&rt, rt.alloc(), &["compile"], text, status, refusal)?;
    }
    Ok(())
}

// The least of seven variables by pieces: variable i where it is at most each of the others.
fn least_of_seven(alloc: Global) -> Result<String, AllocError> {
    let mut text = String::from_str(alloc, "function pieces\nvariables 7\n")?;
    for i in 1..=7u32 {
        let piece = format!(in alloc; "piece x{i}\n")?;
        text.push_str(piece.as_str())?;
        for j in 1..=7u32 {
            if i != j {
                let condition = format!(in alloc; "when x{j} - x{i} >= 0\n")?;
                text.push_str(condition.as_str())?;
            }
        }
    }
    Ok(text)
}

// Seven variables have 5,040 orders.
#[test]
fn too_many_cells(rt: HostRuntime) -> Result<(), Fail> {
    let text = least_of_seven(rt.alloc())?;
    let refusal = "refused: limit cells 4097\n";
    answers(
        &rt,
        rt.alloc(),
        &["compile"],
        text.as_str(),
        Status::Limit,
        refusal,
    )?;
    Ok(())
}

const PIECES: &str = "function pieces
variables 1
";

const PIECE: &str = "function pieces
variables 1
piece x1
";

const FORMS: &str = "function direct
variables 1
";

// One line more than a text may have of a kind.
#[test]
fn limits_of_lines(rt: HostRuntime) -> Result<(), Fail> {
    for (head, line, count, refusal) in [
        (PIECES, "piece x1\n", 33usize, "refused: limit pieces 33\n"),
        (
            PIECE,
            "when x1 >= 0\n",
            17,
            "refused: limit conditions 17\n",
        ),
        (FORMS, "form x1\n", 33, "refused: limit forms 33\n"),
    ] {
        let text = repeated(rt.alloc(), head, line, count, "")?;
        answers(
            &rt,
            rt.alloc(),
            &["compile"],
            text.as_str(),
            Status::Limit,
            refusal,
        )?;
    }
    Ok(())
}

// Six pieces of 16 conditions, and one of 5.
#[test]
fn the_limit_of_all_conditions(rt: HostRuntime) -> Result<(), Fail> {
    let piece = repeated(rt.alloc(), "piece x1\n", "when x1 >= 0\n", 16, "")?;
    let last = repeated(rt.alloc(), "piece x1\n", "when x1 >= 0\n", 5, "")?;
    let text = repeated(rt.alloc(), PIECES, piece.as_str(), 6, last.as_str())?;
    let refusal = "refused: limit all-conditions 101\n";
    answers(
        &rt,
        rt.alloc(),
        &["compile"],
        text.as_str(),
        Status::Limit,
        refusal,
    )?;
    Ok(())
}

const VALUE: &str = "function formula
variables 1
value ";

// A formula of 64 calls in one another, and one of 100,000, whose nodes are counted before there is a tree.
#[test]
fn deep_formulas(rt: HostRuntime) -> Result<(), Fail> {
    for (opened, closed, status, answer) in [
        (64usize, 64usize, Status::Limit, "refused: limit depth 65\n"),
        (
            100_000,
            100_000,
            Status::Limit,
            "refused: limit nodes 100001\n",
        ),
        (
            100_000,
            99_999,
            Status::Malformed,
            "refused: malformed line 3\n",
        ),
    ] {
        let open = repeated(rt.alloc(), VALUE, "scale(1, ", opened, "x1")?;
        let text = repeated(rt.alloc(), open.as_str(), ")", closed, "")?;
        answers(&rt, rt.alloc(), &["compile"], text.as_str(), status, answer)?;
    }
    Ok(())
}
