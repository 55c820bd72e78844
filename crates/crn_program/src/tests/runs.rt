//! `run`: networks with runs of them, with the reports and refusals that are written.
use super::answers;
use crate::status::Status;
use std::test::Fail;

#[test]
fn reports(rt: HostRuntime) -> Result<(), Fail> {
    for (text, report) in [
        (
            // affine network
            "crn 2 dual
species 14
input S1 S2
context S3
output S13 S14
reactions 11
S1 -> S4
S2 -> S5
S3 -> S6
S4 -> S7
S5 -> S8
S6 -> 3 S9
S8 -> S11
S9 -> S11 + S13
S10 -> S12
S7 -> S12 + S13
S11 + S12 -> S14
amount S3 1
segment 3:1
",
            "state
amount S6 1
plus 0
minus 0
value 0
",
        ),
        (
            // the printed network
            "crn 1 dual
species 16
input S1 S2
input S3 S4
output S15 S16
reactions 13
S1 -> S5
S2 -> S6
S3 -> S7
S4 -> S8
S5 -> S9
S6 -> S10
S7 -> S11
S8 -> S12
S9 -> S13
S12 -> S13 + S16
S11 -> S14
S10 -> S14 + S16
S13 + S14 -> S15
",
            "state
plus 0
minus 0
value 0
",
        ),
        (
            // two reactions of one species
            "crn 1 direct
species 3
input S1
output S2
reactions 2
S1 -> S2
S1 -> S3
amount S1 1
segment 1:1/3 2:2/3
",
            "state
amount S2 1/3
amount S3 2/3
value 1/3
",
        ),
    ] {
        answers(&rt, rt.alloc(), &["run"], text, Status::Done, report)?;
    }
    Ok(())
}

#[test]
fn refusals(rt: HostRuntime) -> Result<(), Fail> {
    for (text, status, refusal) in [
        (
            // malformed network side missing
            "crn 1 dual
species 16
input S1 S2
input S3 S4
output S15 S16
reactions 13
S1 -> S5
S2 -> S6
S3 -> S7
S4 -> S8
S5 -> S9
S6 -> S10
S7 -> S11
S8 -> S12
S9 -> S13
S12 -> S13 + S16
S11 -> S14
S10 -> S14 + S16
S13 + S14 ->
",
            Status::Malformed,
            "refused: malformed line 19\n",
        ),
        (
            // malformed network without context
            "crn 2 dual
species 14
input S1 S2
output S13 S14
reactions 11
S1 -> S4
S2 -> S5
S3 -> S6
S4 -> S7
S5 -> S8
S6 -> 3 S9
S8 -> S11
S9 -> S11 + S13
S10 -> S12
S7 -> S12 + S13
S11 + S12 -> S14
amount S3 1
segment 3:1
",
            Status::Malformed,
            "refused: malformed line 4\n",
        ),
        (
            // malformed network without its last line
            "crn 1 dual
species 16
input S1 S2
input S3 S4
output S15 S16
reactions 13
S1 -> S5
S2 -> S6
S3 -> S7
S4 -> S8
S5 -> S9
S6 -> S10
S7 -> S11
S8 -> S12
S9 -> S13
S12 -> S13 + S16
S11 -> S14
S10 -> S14 + S16
",
            Status::Malformed,
            "refused: malformed line 19\n",
        ),
        (
            // takes more than is there
            "crn 1 direct
species 3
input S1
output S2
reactions 2
S1 -> S2
S1 -> S3
amount S1 1
segment 1:2/3 2:2/3
",
            Status::Illegal,
            "refused: segment 1 takes more S1 than is there\n",
        ),
        (
            // too big value
            "crn 1 dual
species 2
input S1 S2
output S1 S2
reactions 0
amount S1 1/9223372036854775807
amount S2 1/9223372036854775806
",
            Status::TooBig,
            "refused: too big value\n",
        ),
        (
            // too big in a segment
            "crn 1 direct
species 2
input S1
output S2
reactions 1
S1 -> 9223372036854775807 S2
amount S1 2
segment 1:2
",
            Status::TooBig,
            "refused: too big in segment 1 at S2\n",
        ),
        (
            // limit species
            "crn 1 dual
species 65537
",
            Status::Limit,
            "refused: limit species 65537\n",
        ),
        (
            // limit inputs
            "crn 1 direct
species 9
input S1
input S2
input S3
input S4
input S5
input S6
input S7
input S8
input S9
",
            Status::Limit,
            "refused: limit inputs 9\n",
        ),
        (
            // limit reactions
            "crn 1 direct
species 2
input S1
output S2
reactions 65537
",
            Status::Limit,
            "refused: limit reactions 65537\n",
        ),
    ] {
        answers(&rt, rt.alloc(), &["run"], text, status, refusal)?;
    }
    Ok(())
}
