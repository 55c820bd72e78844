//! Tests of crn_direct.

use crate::shared::{LEAST_OF_TWO_FORMS, printed};
use crn_direct::compile_direct;
use crn_formula::FunctionKind;
use crn_function_text::read_function;
use std::alloc::Global;
use std::test::Fail;

// The text of the network of a function that is the least of forms.
fn network_text(alloc: Global, text: &str) -> Result<String, Fail> {
    let function = read_function(alloc, text.as_bytes())?;
    match function.kind() {
        FunctionKind::Direct(forms) => printed(alloc, &compile_direct(alloc, forms.as_slice())?),
        _ => Err("it is not the least of forms")?,
    }
}

// The form 0 has a species that nothing gives, and takes part in the minimum.
const WITH_NOTHING: &str = "crn 1 direct
species 9
input S1
input S2
output S9
reactions 6
S1 -> S3
S2 -> S4
2 S3 -> 3 S5
S5 + S6 -> S7
S4 -> S8
S7 + S8 -> S9
";

const HALF: &str = "crn 1 direct
species 3
input S1
output S3
reactions 2
S1 -> S2
2 S2 -> S3
";

#[test]
fn layouts(rt: HostRuntime) -> Result<(), Fail> {
    for (function, network) in [
        (
            "function direct
variables 2
form 2x1 + x2
form 3x2
",
            LEAST_OF_TWO_FORMS,
        ),
        (
            "function direct
variables 2
form 3/2x1
form 0
form x2
",
            WITH_NOTHING,
        ),
        (
            "function direct
variables 1
form 1/2x1
",
            HALF,
        ),
    ] {
        assert!(rt;
            network_text(rt.alloc(), function)?.as_str() == network,
            "{function}"
        );
    }
    Ok(())
}
