//! Tests of crn_net_text.

use crate::shared::{MAXIMUM, MINIMUM, printed};
use crn_net_text::{NetTextError, read_network, read_network_lines};
use crn_token::{Counted, token_lines};
use std::alloc::Global;
use std::test::Fail;

const NOTHING: &str = "crn 1 direct
species 1
input S1
output S1
reactions 1
2 S1 -> 0
";

#[test]
fn printed_again_it_is_the_same(rt: HostRuntime) -> Result<(), Fail> {
    for text in [MINIMUM, MAXIMUM, NOTHING] {
        let network = read_network(rt.alloc(), text.as_bytes())?;
        assert!(rt; printed(rt.alloc(), &network)?.as_str() == text);
    }
    Ok(())
}

// How many reactions the network of a text in two parts has, or why none was read.
fn read(alloc: Global, head: &str, rest: &str) -> Result<u32, NetTextError> {
    let text = [head, rest].concat(alloc)?;
    let network = read_network(alloc, text.as_bytes())?;
    Ok(network.reaction_count())
}

// The first lines of networks.
const ONE_INPUT: &str = "crn 1 direct
species 2
input S1
";

const ONE_OF_TWO_INPUTS: &str = "crn 2 direct
species 2
input S1
";

const ONE_SPECIES: &str = "crn 1 direct
species 1
input S1
output S1
";

const EIGHT_INPUTS: &str = "crn 1 direct
species 9
input S1
input S2
input S3
input S4
input S5
input S6
input S7
input S8
";

const EIGHT_OF_NINE_INPUTS: &str = "crn 2 direct
species 9
input S1
input S2
input S3
input S4
input S5
input S6
input S7
input S8
";

const CONTEXT_MISSING: &str = "crn 2 dual
species 14
input S1 S2
";

#[test]
fn malformed_headers(rt: HostRuntime) -> Result<(), Fail> {
    for (head, rest, line) in [
        ("", "", 1),
        ("", "crn 3 dual\n", 1),
        ("crn 1 dual\n", "species 1\n", 2),
        ("crn 2 dual\n", "species 2\n", 2),
        ("crn 2 direct\n", "species 1\n", 2),
        (
            "crn 1 direct
species 1
",
            "output S1\n",
            3,
        ),
        (
            "crn 1 direct
species 1
",
            "input S2\n",
            3,
        ),
        (
            "crn 1 dual
species 2
",
            "input S1 S1\n",
            3,
        ),
        (
            "crn 1 dual
species 2
",
            "inputS1 S2\n",
            3,
        ),
        (ONE_INPUT, "input S1\n", 4),
        (ONE_INPUT, "context S2\n", 4),
        (ONE_OF_TWO_INPUTS, "input S2\n", 4),
        (ONE_OF_TWO_INPUTS, "output S1\n", 4),
        (ONE_OF_TWO_INPUTS, "context S1\n", 4),
        (CONTEXT_MISSING, "output S13 S14\n", 4),
        (EIGHT_INPUTS, "input S1\n", 11),
        (EIGHT_OF_NINE_INPUTS, "input S9\n", 11),
    ] {
        let wanted = Err(NetTextError::Malformed { line });
        assert!(rt; read(rt.alloc(), head, rest) == wanted, "{head}{rest}");
    }
    Ok(())
}

#[test]
fn malformed_reactions(rt: HostRuntime) -> Result<(), Fail> {
    for (rest, line) in [
        (
            "reactions 0
S1 -> 0
",
            6,
        ),
        (
            "reactions 1
1 S1 -> 0
",
            6,
        ),
        (
            "reactions 1
02 S1 -> 0
",
            6,
        ),
        (
            "reactions 1
S1 + S1 -> 0
",
            6,
        ),
        (
            "reactions 1
0 -> S1
",
            6,
        ),
        (
            "reactions 1
S1 ->
",
            6,
        ),
        (
            "reactions 1
S1 -> 0 + S1
",
            6,
        ),
        (
            "reactions 2
S1 -> 0
",
            7,
        ),
    ] {
        let wanted = Err(NetTextError::Malformed { line });
        assert!(rt; read(rt.alloc(), ONE_SPECIES, rest) == wanted, "{rest}");
    }
    Ok(())
}

#[test]
fn blanks_and_comments(rt: HostRuntime) -> Result<(), Fail> {
    let text = "crn 1 direct
species 1
input S 1 # one

output S1
reactions 0
";
    assert!(rt; read(rt.alloc(), text, "") == Ok(0));
    Ok(())
}

#[test]
fn limits(rt: HostRuntime) -> Result<(), Fail> {
    for (head, rest, what, count) in [
        ("crn 1 direct\n", "species 65537\n", Counted::Species, 65537),
        (ONE_SPECIES, "reactions 65537\n", Counted::Reactions, 65537),
        (EIGHT_INPUTS, "input S9\n", Counted::Inputs, 9),
    ] {
        let wanted = Err(NetTextError::Limit { what, count });
        assert!(rt; read(rt.alloc(), head, rest) == wanted, "{rest}");
    }
    Ok(())
}

#[test]
fn a_short_minimum_is_refused(rt: HostRuntime) -> Result<(), Fail> {
    let wanted = Err(NetTextError::Malformed { line: 19 });
    for end in ["S13 + S14 -> S15\n", " S15\n"] {
        let short = MINIMUM.strip_suffix(end).ok_or("it ends so")?;
        assert!(rt; read(rt.alloc(), short, "") == wanted, "{end}");
    }
    Ok(())
}

#[test]
fn a_network_ends_before_other_lines(rt: HostRuntime) -> Result<(), Fail> {
    let text = "crn 1 direct
species 1

input S1
output S1
reactions 1
2 S1 -> 0
amount S1 2
";
    let lines = token_lines(rt.alloc(), text.as_bytes())?;
    let (network, next) = read_network_lines(rt.alloc(), text.as_bytes(), &lines)?;
    assert!(rt; network.reaction_count() == 1);
    assert!(rt; next == 6);
    let wanted = Err(NetTextError::Malformed { line: 8 });
    assert!(rt; read(rt.alloc(), text, "") == wanted);
    Ok(())
}
