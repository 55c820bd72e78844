//! What the tests of several crates read and make.

use crn_net::Network;
use crn_net_text::print_network;
use std::alloc::{AllocError, Global};
use std::test::Fail;

/// The network of the lesser of two variables.
pub const MINIMUM: &str = "crn 1 dual
species 16
input S1 S2
input S3 S4
output S15 S16
reactions 13
S1 -> S5
S2 -> S6
S3 -> S7
S4 -> S8
S5 -> S9
S6 -> S10
S7 -> S11
S8 -> S12
S9 -> S13
S12 -> S13 + S16
S11 -> S14
S10 -> S14 + S16
S13 + S14 -> S15
";

/// The network of the least of 2x1 + x2 and 3x2.
pub const LEAST_OF_TWO_FORMS: &str = "crn 1 direct
species 8
input S1
input S2
output S8
reactions 6
S1 -> S3
S2 -> S4 + S5
S3 -> 2 S6
S4 -> S6
S5 -> 3 S7
S6 + S7 -> S8
";

/// The absolute value, by pieces.
pub const ABSOLUTE_VALUE: &str = "function pieces
variables 1
piece x1
when x1 >= 0
piece -x1
when -x1 >= 0
";

/// The absolute value with a piece more, which holds at 0 alone.
pub const PIECE_ON_A_FACE: &str = "function pieces
variables 1
piece x1
when x1 >= 0
piece -x1
when -x1 >= 0
piece 5x1
when x1 >= 0
when -x1 >= 0
";

/// The median of three variables, by their six orders.
pub const MEDIAN_BY_PIECES: &str = "function pieces
variables 3
piece x2
when x2 - x1 >= 0
when x3 - x2 >= 0
piece x3
when x3 - x1 >= 0
when x2 - x3 >= 0
piece x1
when x1 - x2 >= 0
when x3 - x1 >= 0
piece x3
when x3 - x2 >= 0
when x1 - x3 >= 0
piece x1
when x1 - x3 >= 0
when x2 - x1 >= 0
piece x2
when x2 - x3 >= 0
when x1 - x2 >= 0
";

/// A variable kept between -1 and 2, by pieces.
pub const CLAMP_BY_PIECES: &str = "function pieces
variables 1
piece -1
when -x1 - 1 >= 0
piece x1
when x1 + 1 >= 0
when 2 - x1 >= 0
piece 2
when x1 - 2 >= 0
";

/// How far a variable lies from the dead zone between -1 and 1.
pub const DEAD_ZONE: &str = "function pieces
variables 1
piece x1 + 1
when -x1 - 1 >= 0
piece 0
when x1 + 1 >= 0
when 1 - x1 >= 0
piece x1 - 1
when x1 - 1 >= 0
";

/// The text of a network.
pub fn printed(alloc: Global, network: &Network) -> Result<String, Fail> {
    Ok(String::from_utf8(print_network(alloc, network)?)?)
}

/// The least of so many variables by pieces: each variable where it is at most each of the others.
pub fn least_of_variables(alloc: Global, count: u32) -> Result<String, AllocError> {
    let mut text = format!(in alloc; "function pieces\nvariables {count}\n")?;
    for i in 1..=count {
        let piece = format!(in alloc; "piece x{i}\n")?;
        text.push_str(piece.as_str())?;
        for j in 1..=count {
            if i != j {
                let condition = format!(in alloc; "when x{j} - x{i} >= 0\n")?;
                text.push_str(condition.as_str())?;
            }
        }
    }
    Ok(text)
}
