//! Tests of crn_completer.

ghost use Rattle.crn_fraction.specs.Rational.{0ℚ, ◌≤ℚ◌};

use crate::shared::{amount, network_of, state};
use crn_completer::{Completer, CompletionTooBig, lacks_reactant, least_quotient};
use crn_fraction::Frac;
use crn_segments::{Flow, Replay};
use std::alloc::Global;
use std::test::Fail;

const NETWORK: &str = "crn 1 direct
species 5
input S1
output S4
reactions 3
2 S1 -> S2
S2 + S3 -> 3 S4
S5 -> S4
";

#[test]
fn a_completion_takes_each_reaction_in_turn(rt: HostRuntime) -> Result<(), Fail> {
    let network = network_of(rt.alloc(), NETWORK, 5, 3)?;
    let mut completer = Completer::new(rt.alloc(), &network)?;
    let state = state(rt.alloc(), 5, amount(3, 1)?, amount(0, 1)?, amount(1, 1)?)?;
    let mut replay = Replay::new(rt.alloc(), &network, state)?;
    assert!(rt; completer.complete(&mut replay) == Ok(()));
    let first = Flow {
        reaction: 1,
        flux: Frac::of(3, 2)?,
    };
    let second = Flow {
        reaction: 2,
        flux: Frac::ONE,
    };
    assert!(rt; completer.flows() == [first, second].as_slice());
    assert!(rt; completer.complete(&mut replay) == Ok(()));
    assert!(rt; completer.flows().is_empty());
    Ok(())
}

// Why a state of this amount and two of the greatest number has no completion, where no flow comes before.
fn refusal(alloc: Global, first: Frac) -> Result<CompletionTooBig, Fail>
    requires { 0ℚ ≤ℚ first }
{
    let network = network_of(alloc, NETWORK, 5, 3)?;
    let most = amount(i64::MAX, 1)?;
    let state = state(alloc, 5, first, most, most)?;
    let mut completer = Completer::new(alloc, &network)?;
    let mut replay = Replay::new(alloc, &network, state)?;
    match completer.complete(&mut replay) {
        Err(refusal) if completer.flows().is_empty() => Ok(refusal),
        _ => Err("it has flows")?,
    }
}

#[test]
fn numbers_that_are_too_big(rt: HostRuntime) -> Result<(), Fail> {
    let quotient = CompletionTooBig {
        reaction: 1,
        species: 1,
    };
    assert!(rt; refusal(rt.alloc(), amount(1, i64::MAX)?)? == quotient);
    let product = CompletionTooBig {
        reaction: 2,
        species: 4,
    };
    assert!(rt; refusal(rt.alloc(), amount(0, 1)?)? == product);
    Ok(())
}

#[test]
fn the_flux_that_the_reactants_allow(rt: HostRuntime) -> Result<(), Fail> {
    let network = network_of(rt.alloc(), NETWORK, 5, 3)?;
    let (one, some) = (amount(1, 1)?, amount(5, 2)?);
    let full = state(rt.alloc(), 5, amount(3, 1)?, some, one)?;
    assert!(rt; !lacks_reactant(network.reaction(1), &full));
    assert!(rt; !lacks_reactant(network.reaction(2), &full));
    assert!(rt; lacks_reactant(network.reaction(3), &full));
    assert!(rt; least_quotient(network.reaction(1), &full) == Ok(amount(3, 2)?));
    assert!(rt; least_quotient(network.reaction(2), &full) == Ok(one));
    Ok(())
}

#[test]
fn a_quotient_that_is_too_big(rt: HostRuntime) -> Result<(), Fail> {
    let network = network_of(rt.alloc(), NETWORK, 5, 3)?;
    let (some, none) = (amount(5, 2)?, amount(0, 1)?);
    let tiny = state(rt.alloc(), 5, amount(1, i64::MAX)?, some, none)?;
    assert!(rt; lacks_reactant(network.reaction(2), &tiny));
    assert!(rt; least_quotient(network.reaction(1), &tiny) == Err(1));
    Ok(())
}
