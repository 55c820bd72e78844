//! Tests of crn_job.

use crate::shared::MAXIMUM;
use crn_fraction::Frac;
use crn_job::{JobError, read_job, read_job_tail, read_run_job};
use crn_net::Rails;
use crn_token::{Counted, token_lines};
use std::alloc::Global;
use std::test::Fail;

const MINIMUM: &str = "function formula
variables 2
value min(x1, x2)
input 3/2 1/2
input 2 0
";

// How many segments the job of a text in two parts has, or why none was read.
fn read(alloc: Global, head: &str, rest: &str) -> Result<usize, JobError> {
    let text = [head, rest].concat(alloc)?;
    let job = read_job(alloc, text.as_bytes())?;
    Ok(job.segments.len())
}

#[test]
fn a_text_cut_short(rt: HostRuntime) -> Result<(), Fail> {
    assert!(rt; MINIMUM.len() == 71);
    for n in 0..72usize {
        let line = match n {
            0..=15 => 1,
            16..=27 => 2,
            28..=45 => 3,
            46..=57 | 59 => 4,
            58 | 60..=69 => 5,
            _ => 0,
        };
        let wanted = if line == 0 {
            Ok(0)
        } else {
            Err(JobError::Malformed { line })
        };
        let text = MINIMUM.get(..n).ok_or("it has so many bytes")?;
        assert!(rt; read(rt.alloc(), text, "") == wanted, "after {n} bytes");
    }
    Ok(())
}

// A function of two variables, and one of one variable.
const LEAST: &str = "function direct
variables 2
form 2x1 + x2
form 3x2
";

const VARIABLE: &str = "function direct
variables 1
form x1
";

const MINIMUM_FUNCTION: &str = "function formula
variables 2
value min(x1, x2)
";

#[test]
fn reads(rt: HostRuntime) -> Result<(), Fail> {
    for (head, tail, segments) in [
        (
            "# least of two\r\n\r\nfunction formula\r\nvariables 2\r\n",
            "value min(x1, x2)\r\ninput 3/2 1/2\r\ninput 2 0",
            0,
        ),
        (
            LEAST,
            "input 1
input 1
",
            0,
        ),
        (
            VARIABLE,
            "input 1
segment 1:1/2 3:2
segment 2:1
",
            2,
        ),
    ] {
        assert!(rt; read(rt.alloc(), head, tail) == Ok(segments), "{tail}");
    }
    Ok(())
}

#[test]
fn malformed_tails(rt: HostRuntime) -> Result<(), Fail> {
    for (head, tail, line) in [
        (
            MINIMUM_FUNCTION,
            "input 03/2 1/2
input 2 0
",
            4,
        ),
        (
            MINIMUM_FUNCTION,
            "input 3/0 1/2
input 2 0
",
            4,
        ),
        (
            LEAST,
            "input -1
input 1
",
            5,
        ),
        (
            VARIABLE,
            "input 1
input 1
",
            5,
        ),
        (VARIABLE, "segment 1:1\n", 4),
        (
            VARIABLE,
            "input 1
segment
",
            5,
        ),
        (
            VARIABLE,
            "input 1
segment 0:1
",
            5,
        ),
        (
            VARIABLE,
            "input 1
segment 2:1 2:1
",
            5,
        ),
        (
            VARIABLE,
            "input 1
segment 1:0
",
            5,
        ),
    ] {
        let wanted = Err(JobError::Malformed { line });
        assert!(rt; read(rt.alloc(), head, tail) == wanted, "{tail}");
    }
    Ok(())
}

#[test]
fn a_limit_of_the_function(rt: HostRuntime) {
    let head = "function direct
variables 9
";
    let wanted = Err(JobError::Limit {
        what: Counted::Variables,
        count: 9,
    });
    assert!(rt; read(rt.alloc(), head, "form x1\n") == wanted);
}

// A network that splits its input; the lines after it begin at line 8.
const SPLIT: &str = "crn 1 direct
species 3
input S1
output S2
reactions 2
S1 -> S2
S1 -> S3
";

// How many segments the run job of a text in two parts has, or why none was read.
fn read_run(alloc: Global, head: &str, rest: &str) -> Result<usize, JobError> {
    let text = [head, rest].concat(alloc)?;
    let job = read_run_job(alloc, text.as_bytes())?;
    Ok(job.segments.len())
}

#[test]
fn ten_thousand_segments(rt: HostRuntime) -> Result<(), Fail> {
    for (count, wanted) in [
        (10_000, Ok(10_000)),
        (
            10_001,
            Err(JobError::Limit {
                what: Counted::Segments,
                count: 10_001,
            }),
        ),
    ] {
        let segments = "segment 1:1/10000\n".repeat(rt.alloc(), count)?;
        let (of_job, of_run) = (
            read(rt.alloc(), MINIMUM, segments.as_str()),
            read_run(rt.alloc(), SPLIT, segments.as_str()),
        );
        assert!(rt; of_job == wanted && of_run == wanted, "{count}");
    }
    Ok(())
}

#[test]
fn amounts_from_left_to_right(rt: HostRuntime) -> Result<(), Fail> {
    let job = read_job(rt.alloc(), MINIMUM.as_bytes())?;
    let (first, second, third) = (Frac::of(3, 2)?, Frac::of(1, 2)?, Frac::of(2, 1)?);
    assert!(rt; job.amounts.as_slice() == [first, second, third, Frac::ZERO].as_slice());
    Ok(())
}

#[test]
fn a_tail(rt: HostRuntime) -> Result<(), Fail> {
    let text = b"input 4/6
segment 7:2
"
        .as_slice();
    let lines = token_lines(rt.alloc(), text)?;
    let (amounts, segments) = read_job_tail(rt.alloc(), text, &lines, 0, 1, Rails::Direct)?;
    assert!(rt; amounts.as_slice() == [Frac::of(2, 3)?].as_slice());
    assert!(rt; segments.len() == 1);
    Ok(())
}

#[test]
fn a_run_with_a_context(rt: HostRuntime) -> Result<(), Fail> {
    let tail = "amount S3 1
segment 3:1
";
    assert!(rt; read_run(rt.alloc(), MAXIMUM, tail) == Ok(1));
    let (head, rest) = MAXIMUM.split_once("context S3\n").ok_or("its context")?;
    let without = [head, rest].concat(rt.alloc())?;
    let wanted = Err(JobError::Malformed { line: 4 });
    assert!(rt; read_run(rt.alloc(), without.as_str(), tail) == wanted);
    Ok(())
}

#[test]
fn reads_run_jobs(rt: HostRuntime) -> Result<(), Fail> {
    for (tail, segments) in [
        ("", 0),
        (
            "amount S1 1
segment 1:2/3 2:2/3
",
            1,
        ),
        (
            "amount S1 0
amount S 3 4/6
",
            0,
        ),
        ("segment 7:1\n", 1),
    ] {
        assert!(rt; read_run(rt.alloc(), SPLIT, tail) == Ok(segments), "{tail}");
    }
    Ok(())
}

#[test]
fn malformed_run_jobs(rt: HostRuntime) -> Result<(), Fail> {
    for (tail, line) in [
        (
            "amount S2 1
amount S1 1
",
            9,
        ),
        (
            "amount S2 1
amount S2 1
",
            9,
        ),
        ("amount S4 1\n", 8),
        ("amount S0 1\n", 8),
        ("amount S1\n", 8),
        ("amount S1 -1\n", 8),
        ("amount S1 1 2\n", 8),
        ("amountS1 1\n", 8),
        ("input 1\n", 8),
        (
            "segment 1:1
amount S1 1
",
            9,
        ),
        ("segment 2:1 1:1\n", 8),
        ("S1 -> S2\n", 8),
    ] {
        let wanted = Err(JobError::Malformed { line });
        assert!(rt; read_run(rt.alloc(), SPLIT, tail) == wanted, "{tail}");
    }
    Ok(())
}

#[test]
fn amounts_of_species(rt: HostRuntime) -> Result<(), Fail> {
    let tail = "amount S1 1/2
amount S3 4/6
";
    let text = [SPLIT, tail].concat(rt.alloc())?;
    let job = read_run_job(rt.alloc(), text.as_bytes())?;
    assert!(rt; job.network.species() == 3);
    assert!(rt; job.state.amount(1) == Frac::of(1, 2)?);
    assert!(rt; job.state.amount(2) == Frac::ZERO);
    assert!(rt; job.state.amount(3) == Frac::of(2, 3)?);
    Ok(())
}
