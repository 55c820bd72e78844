//! `compile-gated` and `complete-gated`: functions with gates, with the networks, reports and refusals that are written.
use super::answers;
use crate::status::Status;
use std::test::Fail;

const SWITCHED: &str = "function gated
variables 2
form x2 if x1
";

#[test]
fn networks(rt: HostRuntime) -> Result<(), Fail> {
    for (text, network) in [
        (
            SWITCHED,
            "crn 1 direct
species 6
input S1
input S2
output S6
reactions 4
S1 -> S4
S2 -> S3
S3 -> S5
S4 + S5 -> S4 + S6
",
        ),
        (
            // a gate on the second form, of a variable that is less than the form
            "function gated
variables 2
form x1 + x2
form 3x1 if x2
",
            "crn 1 direct
species 10
input S1
input S2
output S10
reactions 7
S1 -> S3 + S5
S2 -> S4 + S6
S3 -> S7
S4 -> S7
S5 -> 3 S8
S6 + S8 -> S6 + S9
S7 + S9 -> S10
",
        ),
    ] {
        answers(
            &rt,
            rt.alloc(),
            &["compile-gated"],
            text,
            Status::Done,
            network,
        )?;
    }
    Ok(())
}

#[test]
fn reports(rt: HostRuntime) -> Result<(), Fail> {
    for (text, report) in [
        (
            // open
            "function gated
variables 2
form x2 if x1
input 1/2
input 3
",
            "species 6 reactions 4
state
amount S1 1/2
amount S2 3
completion
segment 1:1/2
segment 2:3
segment 3:3
segment 4:3
value 3
",
        ),
        (
            // shut
            "function gated
variables 2
form x2 if x1
input 0
input 3
",
            "species 6 reactions 4
state
amount S2 3
completion
segment 2:3
segment 3:3
value 0
",
        ),
        (
            // more went through the gate than there is of its copy, of which more is to come
            "function gated
variables 2
form x2 if x1
input 1/2
input 3
segment 1:1/4 2:3
segment 3:3
segment 4:2
",
            "species 6 reactions 4
state
amount S1 1/4
amount S4 1/4
amount S5 1
amount S6 2
completion
segment 1:1/4
segment 4:1
value 3
",
        ),
        (
            // two gates on one variable
            "function gated
variables 3
form 2x2 if x1
form x3 if x1
input 1/3
input 2
input 3
",
            "species 12 reactions 8
state
amount S1 1/3
amount S2 2
amount S3 3
completion
segment 1:1/3
segment 2:2
segment 3:3
segment 4:2
segment 5:4
segment 6:3
segment 7:3
segment 8:3
value 3
",
        ),
        (
            // both shut
            "function gated
variables 3
form 2x2 if x1
form x3 if x1
input 0
input 2
input 3
",
            "species 12 reactions 8
state
amount S2 2
amount S3 3
completion
segment 2:2
segment 3:3
segment 4:2
segment 6:3
value 0
",
        ),
        (
            // a gate on the second form: min(3/2, 3)
            "function gated
variables 2
form x1 + x2
form 3x1 if x2
input 1
input 1/2
",
            "species 10 reactions 7
state
amount S1 1
amount S2 1/2
completion
segment 1:1
segment 2:1/2
segment 3:1
segment 4:1/2
segment 5:1
segment 6:3
segment 7:3/2
value 3/2
",
        ),
        (
            // and where it is shut: min(1, 0)
            "function gated
variables 2
form x1 + x2
form 3x1 if x2
input 1
input 0
",
            "species 10 reactions 7
state
amount S1 1
completion
segment 1:1
segment 3:1
segment 5:1
value 0
",
        ),
        (
            // a form that is 0, with a gate
            "function gated
variables 1
form 0 if x1
input 5
",
            "species 4 reactions 2
state
amount S1 5
completion
segment 1:5
value 0
",
        ),
        (
            // a variable that is its own gate
            "function gated
variables 1
form x1 if x1
input 7/2
",
            "species 5 reactions 3
state
amount S1 7/2
completion
segment 1:7/2
segment 2:7/2
segment 3:7/2
value 7/2
",
        ),
    ] {
        answers(
            &rt,
            rt.alloc(),
            &["complete-gated"],
            text,
            Status::Done,
            report,
        )?;
    }
    Ok(())
}

#[test]
fn refusals(rt: HostRuntime) -> Result<(), Fail> {
    for (word, text, status, refusal) in [
        (
            // the gate before its variable
            "complete-gated",
            "function gated
variables 2
form x2 if x1
input 1/2
input 3
segment 4:1
",
            Status::Illegal,
            "refused: segment 1 reaction 4 needs S4\n",
        ),
        (
            // 2 times the greatest number
            "complete-gated",
            "function gated
variables 2
form 9223372036854775807x2 if x1
input 1
input 2
",
            Status::TooBig,
            "refused: too big in completion of reaction 3 at S5\n",
        ),
        (
            // a gate past the variables
            "compile-gated",
            "function gated
variables 2
form x2 if x3
",
            Status::Malformed,
            "refused: malformed line 3\n",
        ),
        (
            // and one before them
            "compile-gated",
            "function gated
variables 2
form x2 if x0
",
            Status::Malformed,
            "refused: malformed line 3\n",
        ),
        (
            // a job is no function
            "compile-gated",
            "function gated
variables 1
form x1
input 1
",
            Status::Malformed,
            "refused: malformed line 4\n",
        ),
        (
            // a function is no job
            "complete-gated",
            SWITCHED,
            Status::Malformed,
            "refused: malformed line 4\n",
        ),
        (
            "complete-gated",
            "function gated
variables 9
",
            Status::Limit,
            "refused: limit variables 9\n",
        ),
        (
            // without gates, but for the other commands
            "compile-gated",
            "function direct
variables 1
form x1
",
            Status::Malformed,
            "refused: malformed line 1\n",
        ),
        (
            "compile",
            SWITCHED,
            Status::Malformed,
            "refused: malformed line 1\n",
        ),
        (
            "complete",
            SWITCHED,
            Status::Malformed,
            "refused: malformed line 1\n",
        ),
    ] {
        answers(&rt, rt.alloc(), &[word], text, status, refusal)?;
    }
    Ok(())
}
