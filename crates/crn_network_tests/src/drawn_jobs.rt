//! Tests of crn_bulk.

ghost use Rattle.std.specs.Prelude.{◌≤◌};

use crn_bulk::{bulk_job, draw};
use crn_formula::FunctionKind;
use crn_function_text::print_function;
use std::alloc::Global;
use std::fmt::Write;
use std::test::Fail;

#[test]
fn first_draws(rt: HostRuntime) {
    let mut z = 1;
    for wanted in [
        149, 11249, 57305, 38044, 35283, 24819, 26463, 18689, 25472, 9901, 21742, 57836, 12332,
        7456,
    ] {
        z = draw(z);
        assert!(rt; z == wanted);
    }
}

// The function's text, the amounts and the number.
fn shown(alloc: Global, size: u32) -> Result<String, Fail>
    requires some { 1 ≤ size }
    requires few { size ≤ 1000 }
{
    let (job, number) = bulk_job(alloc, size)?;
    let mut text = String::from_utf8(print_function(alloc, &job.function)?)?;
    for amount in &job.amounts {
        write!(text, "{amount} ")?;
    }
    let count = job.segments.len();
    write!(text, "then {number}, {count} segments")?;
    Ok(text)
}

#[test]
fn jobs_of_few_leaves(rt: HostRuntime) -> Result<(), Fail> {
    for (size, wanted) in [
        (
            1,
            "function formula
variables 4
value -3x2
5 44 83 19 63 89 72 1 then 9901, 0 segments",
        ),
        (
            2,
            "function formula
variables 4
value sub(x1, -2x2)
29 95 34 40 52 82 86 67 then 51267, 0 segments",
        ),
        (
            3,
            "function formula
variables 4
value max(max(-2x4, x3), -x3)
45 3 85 36 65 13 20 89 then 3889, 0 segments",
        ),
    ] {
        assert!(rt; shown(rt.alloc(), size)?.as_str() == wanted);
    }
    Ok(())
}

#[test]
fn a_job_of_a_thousand_leaves(rt: HostRuntime) -> Result<(), Fail> {
    let (job, _number) = bulk_job(rt.alloc(), 1000)?;
    match job.function.kind() {
        FunctionKind::Formula(formula) => {
            assert!(rt; formula.nodes() == 1999);
            assert!(rt; formula.depth() == 11);
        }
        _ => assert!(rt; false, "it is given by a formula"),
    }
    Ok(())
}
