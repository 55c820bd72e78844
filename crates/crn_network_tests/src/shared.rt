//! What the tests of several crates read and make.

ghost use Rattle.std.specs.Prelude.{◌≡◌, ◌≤◌, ◌≤ℤ◌, ◌<ℤ◌, pos, length, IfOk};
ghost use Rattle.crn_fraction.specs.Rational.{0ℚ, ◌≤ℚ◌};

use crn_fraction::Frac;
use crn_net::Network;
use crn_net_text::{print_network, read_network};
use crn_segments::State;
use std::alloc::{AllocError, Global};
use std::test::Fail;

/// The network of the lesser of two variables.
pub const MINIMUM: &str = "crn 1 dual
species 16
input S1 S2
input S3 S4
output S15 S16
reactions 13
S1 -> S5
S2 -> S6
S3 -> S7
S4 -> S8
S5 -> S9
S6 -> S10
S7 -> S11
S8 -> S12
S9 -> S13
S12 -> S13 + S16
S11 -> S14
S10 -> S14 + S16
S13 + S14 -> S15
";

/// The network of the maximum of a variable and 3.
pub const MAXIMUM: &str = "crn 2 dual
species 14
input S1 S2
context S3
output S13 S14
reactions 11
S1 -> S4
S2 -> S5
S3 -> S6
S4 -> S7
S5 -> S8
S6 -> 3 S9
S8 -> S11
S9 -> S11 + S13
S10 -> S12
S7 -> S12 + S13
S11 + S12 -> S14
";

/// The network of the least of 2x1 + x2 and 3x2.
pub const LEAST_OF_TWO_FORMS: &str = "crn 1 direct
species 8
input S1
input S2
output S8
reactions 6
S1 -> S3
S2 -> S4 + S5
S3 -> 2 S6
S4 -> S6
S5 -> 3 S7
S6 + S7 -> S8
";

/// The quotient of two numbers, where it is an amount.
pub fn amount(num: i64, den: i64) -> Result<Frac, Fail>
    requires top { pos 0 ≤ℤ num }
    requires bottom { pos 0 <ℤ den }
    ensures { IfOk result (λ a. 0ℚ ≤ℚ a) }
{
    Ok(Frac::of(num, den)?)
}

/// These amounts of the first three species, and 0 of the others.
pub fn state(
    alloc: Global,
    species: u32,
    first: Frac,
    second: Frac,
    third: Frac,
) -> Result<State, AllocError>
    requires species { 3 ≤ species }
    requires first { 0ℚ ≤ℚ first }
    requires second { 0ℚ ≤ℚ second }
    requires third { 0ℚ ≤ℚ third }
    ensures { IfOk result (λ state. length state ≡ species) }
{
    let mut state = State::zero(alloc, species)?;
    state.set(1, first);
    state.set(2, second);
    state.set(3, third);
    Ok(state)
}

/// The text of a network.
pub fn printed(alloc: Global, network: &Network) -> Result<String, Fail> {
    Ok(String::from_utf8(print_network(alloc, network)?)?)
}

/// So many copies of a text.
pub fn copies(alloc: Global, part: &str, count: usize) -> Result<String, AllocError> {
    let mut text = String::new(alloc);
    for _ in 0..count {
        text.push_str(part)?;
    }
    Ok(text)
}

/// The network of a text, which is to have so many species and reactions.
pub fn network_of(alloc: Global, text: &str, species: u32, reactions: u32) -> Result<Network, Fail>
    ensures species { IfOk result (λ network. network.species ≡ species) }
    ensures reactions { IfOk result (λ network. length network.reactions ≡ reactions) }
{
    let network = read_network(alloc, text.as_bytes())?;
    if network.species() != species || network.reaction_count() != reactions {
        Err("another network")?
    }
    Ok(network)
}
