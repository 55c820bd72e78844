//! Tests of crn_gated.

use crate::shared::{amount, copies, printed, state};
use crn_fraction::Frac;
use crn_gated::{
    GatedError, GatedJobError, GatedTextError, compile_gated, complete_gated, read_gated,
    read_gated_job, read_gated_lines,
};
use crn_segments::{Flow, Replay};
use crn_token::{Counted, token_lines};
use std::alloc::Global;
use std::test::Fail;

const SWITCHED: &str = "function gated
variables 2
form x2 if x1
";

// The text of the network of a gated function.
fn network_text(alloc: Global, text: &str) -> Result<String, Fail> {
    let function = read_gated(alloc, text.as_bytes())?;
    printed(alloc, &compile_gated(alloc, &function)?)
}

/// Each gate has a copy of its own: the copies of a form are those of its variables, and then that of its gate.
#[test]
fn networks(rt: HostRuntime) -> Result<(), Fail> {
    for (text, network) in [
        (
            SWITCHED,
            "crn 1 direct
species 6
input S1
input S2
output S6
reactions 4
S1 -> S4
S2 -> S3
S3 -> S5
S4 + S5 -> S4 + S6
",
        ),
        (
            "function gated
variables 3
form 2x2 if x1
form x3 if x1
",
            "crn 1 direct
species 12
input S1
input S2
input S3
output S12
reactions 8
S1 -> S5 + S7
S2 -> S4
S3 -> S6
S4 -> 2 S8
S5 + S8 -> S5 + S9
S6 -> S10
S7 + S10 -> S7 + S11
S9 + S11 -> S12
",
        ),
        (
            "function gated
variables 2
form x1 + x2
form 3x1 if x2
",
            "crn 1 direct
species 10
input S1
input S2
output S10
reactions 7
S1 -> S3 + S5
S2 -> S4 + S6
S3 -> S7
S4 -> S7
S5 -> 3 S8
S6 + S8 -> S6 + S9
S7 + S9 -> S10
",
        ),
        (
            "function gated
variables 1
form 0 if x1
",
            "crn 1 direct
species 4
input S1
output S4
reactions 2
S1 -> S2
S2 + S3 -> S2 + S4
",
        ),
    ] {
        assert_eq!(rt; network_text(rt.alloc(), text)?.as_str(), network, "{text}");
    }
    Ok(())
}

fn flow(reaction: u64, flux: Frac) -> Flow {
    Flow { reaction, flux }
}

#[test]
fn completions(rt: HostRuntime) -> Result<(), Fail> {
    let function = read_gated(rt.alloc(), SWITCHED.as_bytes())?;
    let network = compile_gated(rt.alloc(), &function)?;
    assert_eq!(rt; network.species(), 6);
    let (none, half, three) = (amount(0, 1)?, amount(1, 2)?, amount(3, 1)?);

    // The copy of the gate is less than what goes through it.
    let open = state(rt.alloc(), 6, half, three, none)?;
    let mut replay = Replay::new(rt.alloc(), &network, open)?;
    let flows = complete_gated(rt.alloc(), &network, &mut replay)?;
    let wanted = [
        flow(1, half),
        flow(2, three),
        flow(3, three),
        flow(4, three),
    ];
    assert!(rt; flows.as_slice() == wanted.as_slice());
    assert_eq!(rt; network.species(), 6);
    assert!(rt; replay.state().amount(4) == half);
    assert!(rt; replay.state().amount(6) == three);

    let shut = state(rt.alloc(), 6, none, three, none)?;
    let mut replay = Replay::new(rt.alloc(), &network, shut)?;
    let flows = complete_gated(rt.alloc(), &network, &mut replay)?;
    let wanted = [flow(2, three), flow(3, three)];
    assert!(rt; flows.as_slice() == wanted.as_slice());
    Ok(())
}

/// The flows before the number that is too big have happened.
#[test]
fn a_number_that_is_too_big(rt: HostRuntime) -> Result<(), Fail> {
    let text = b"function gated
variables 2
form 9223372036854775807x2 if x1
";
    let function = read_gated(rt.alloc(), text)?;
    let network = compile_gated(rt.alloc(), &function)?;
    assert_eq!(rt; network.species(), 6);
    let (none, one, two) = (amount(0, 1)?, amount(1, 1)?, amount(2, 1)?);
    let begin = state(rt.alloc(), 6, one, two, none)?;
    let mut replay = Replay::new(rt.alloc(), &network, begin)?;
    let refusal = GatedError::TooBig {
        reaction: 3,
        species: 5,
    };
    assert!(rt; complete_gated(rt.alloc(), &network, &mut replay) == Err(refusal));
    assert!(rt; replay.state().amount(3) == two);
    assert!(rt; replay.state().amount(4) == one);
    Ok(())
}

fn malformed(line: usize) -> Result<usize, GatedTextError> {
    Err(GatedTextError::Malformed { line })
}

// How many forms the function has, or why none was read.
fn read(alloc: Global, text: &str) -> Result<usize, GatedTextError> {
    let function = read_gated(alloc, text.as_bytes())?;
    Ok(function.forms.len())
}

#[test]
fn functions_that_are_read_or_refused(rt: HostRuntime) -> Result<(), Fail> {
    for (text, wanted) in [
        (SWITCHED, Ok(1)),
        (
            "function gated\nvariables 2\nform 0 if x2\nform x1+x2\n",
            Ok(2),
        ),
        ("function gated\nvariables 1\nform x1 ifx 1\n", malformed(3)),
        ("", malformed(1)),
        ("function direct\n", malformed(1)),
        ("function gated\nvariables 0\n", malformed(2)),
        (
            "function gated\nvariables 9\n",
            Err(GatedTextError::Limit {
                what: Counted::Variables,
                count: 9,
            }),
        ),
        ("function gated\nvariables 2\n", malformed(3)),
        ("function gated\nvariables 2\nform x2 if x3\n", malformed(3)),
        ("function gated\nvariables 2\nform x2 if x0\n", malformed(3)),
        ("function gated\nvariables 2\nform x2 if 1\n", malformed(3)),
        (
            "function gated\nvariables 2\nform -x2 if x1\n",
            malformed(3),
        ),
        (
            "function gated\nvariables 2\nform x1 + if x1\n",
            malformed(3),
        ),
        (
            "function gated\nvariables 2\nform x1 if x1 if x2\n",
            malformed(3),
        ),
        (
            "function gated\nvariables 2\nform x1\ninput 1\n",
            malformed(4),
        ),
    ] {
        assert_eq!(rt; read(rt.alloc(), text), wanted, "{text}");
    }
    Ok(())
}

#[test]
fn thirty_two_forms_and_one_more(rt: HostRuntime) -> Result<(), Fail> {
    let forms = copies(rt.alloc(), "form x1 if x2\n", 32)?;
    let text = format!(in rt.alloc(); "function gated\nvariables 2\n{forms}")?;
    assert_eq!(rt; read(rt.alloc(), text.as_str()), Ok(32));
    let text = format!(in rt.alloc(); "function gated\nvariables 2\n{forms}form x2\n")?;
    let refusal = GatedTextError::Limit {
        what: Counted::Forms,
        count: 33,
    };
    assert_eq!(rt; read(rt.alloc(), text.as_str()), Err(refusal));
    Ok(())
}

#[test]
fn a_function_that_other_lines_follow(rt: HostRuntime) -> Result<(), Fail> {
    let text = b"function gated\n\nvariables 2\nform x2 if x1\ninput 1\n".as_slice();
    let lines = token_lines(rt.alloc(), text)?;
    let (function, next) = read_gated_lines(rt.alloc(), text, &lines)?;
    assert_eq!(rt; function.variables, 2);
    assert_eq!(rt; function.forms.len(), 1);
    assert!(rt; function.forms[0].gate == Some(1));
    assert_eq!(rt; next, 3);
    Ok(())
}

// How many segments the job has, or why none was read.
fn read_job(alloc: Global, text: &str) -> Result<usize, GatedJobError> {
    let job = read_gated_job(alloc, text.as_bytes())?;
    Ok(job.segments.len())
}

#[test]
fn jobs_that_are_read_or_refused(rt: HostRuntime) -> Result<(), Fail> {
    for (tail, wanted) in [
        ("input 1/2\ninput 3\n", Ok(0)),
        (
            "input 1/2\ninput 3\nsegment 1:1/4 2:3\nsegment 3:3\n",
            Ok(2),
        ),
        ("input 1/2\n", malformed(5)),
        ("input 1/2 0\ninput 3 0\n", malformed(4)),
        ("input 1/2\ninput -3\n", malformed(5)),
        ("form x1\ninput 1\ninput 1\n", Ok(0)),
        ("input 1/2\ninput 3\nform x1\n", malformed(6)),
    ] {
        let text = format!(in rt.alloc(); "{SWITCHED}{tail}")?;
        assert_eq!(rt; read_job(rt.alloc(), text.as_str()), wanted, "{tail}");
    }
    Ok(())
}
