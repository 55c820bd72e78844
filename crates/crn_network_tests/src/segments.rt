//! Tests of crn_segments.

ghost use Rattle.std.specs.Prelude.{◌≡◌, length, IfOk};

use crate::shared::{MINIMUM, amount, network_of, state};
use crn_fraction::Frac;
use crn_segments::{Flow, Replay, Segment, State, StepError};
use std::alloc::Global;
use std::test::Fail;

#[test]
fn a_state_keeps_what_is_set(rt: HostRuntime) -> Result<(), Fail> {
    let (half, two) = (amount(1, 2)?, amount(2, 1)?);
    let mut state = state(rt.alloc(), 3, amount(0, 1)?, half, two)?;
    let one = amount(1, 1)?;
    state.set(2, one);
    let amounts = [state.amount(1), state.amount(2), state.amount(3)];
    assert!(rt; amounts == [Frac::ZERO, one, two]);
    Ok(())
}

// Flows of whole numbers.
fn flows(alloc: Global, list: &[(u64, i64)]) -> Result<Vec<Flow>, Fail> {
    let mut flows = Vec::new(alloc);
    for (reaction, flux) in list {
        flows.push(Flow {
            reaction: *reaction,
            flux: Frac::of(*flux, 1)?,
        })?;
    }
    Ok(flows)
}

fn segment(alloc: Global, list: &[(u64, i64)]) -> Result<Segment, Fail> {
    match Segment::of(flows(alloc, list)?) {
        Ok(segment) => Ok(segment),
        Err(_) => Err("no segment")?,
    }
}

#[test]
fn flows_that_are_no_segment_come_back(rt: HostRuntime) -> Result<(), Fail> {
    assert!(rt; segment(rt.alloc(), &[(1, 1), (14, 1)])?.flows().len() == 2);
    for list in [
        [].as_slice(),
        &[(0, 1)],
        &[(1, 0)],
        &[(1, 1), (1, 1)],
        &[(2, 1), (1, 1)],
    ] {
        assert!(rt; Segment::of(flows(rt.alloc(), list)?).is_err());
    }
    Ok(())
}

/// The state of the minimum's network for the inputs 3/2 less 1/2 and 2 less 0.
fn start(alloc: Global) -> Result<State, Fail>
    ensures { IfOk result (λ state. length state ≡ 16) }
{
    Ok(state(alloc, 16, amount(3, 2)?, amount(1, 2)?, amount(2, 1)?)?)
}

// Whether these are the amounts of the first species, and 0 that of every other.
fn has_amounts(replay: &Replay<'_>, amounts: &[Frac]) -> bool {
    for species in 1..=replay.network().species() {
        let amount = match amounts.get(species as usize - 1) {
            Some(amount) => *amount,
            None => Frac::ZERO,
        };
        if replay.state().amount(species) != amount {
            return false;
        }
    }
    true
}

#[test]
fn refused_steps_change_nothing(rt: HostRuntime) -> Result<(), Fail> {
    let network = network_of(rt.alloc(), MINIMUM, 16, 13)?;
    let mut replay = Replay::new(rt.alloc(), &network, start(rt.alloc())?)?;
    let amounts = [Frac::of(3, 2)?, Frac::of(1, 2)?, Frac::of(2, 1)?];
    for (flows, refusal) in [
        (
            [(1, 1), (14, 1)].as_slice(),
            StepError::NoReaction { reaction: 14 },
        ),
        (
            &[(1, 1), (5, 1)],
            StepError::NotPresent {
                reaction: 5,
                species: 5,
            },
        ),
        (&[(1, 2)], StepError::TakesMore { species: 1 }),
        (&[(1, i64::MAX)], StepError::TooBig { species: 1 }),
    ] {
        let segment = segment(rt.alloc(), flows)?;
        assert!(rt; replay.step(&segment) == Err(refusal), "{refusal}");
        assert!(rt; has_amounts(&replay, &amounts), "{refusal}");
    }
    Ok(())
}

#[test]
fn steps_happen_one_after_another(rt: HostRuntime) -> Result<(), Fail> {
    let network = network_of(rt.alloc(), MINIMUM, 16, 13)?;
    let mut replay = Replay::new(rt.alloc(), &network, start(rt.alloc())?)?;
    let (half, one, zero) = (Frac::of(1, 2)?, Frac::ONE, Frac::ZERO);
    replay.step(&segment(rt.alloc(), &[(1, 1), (3, 1)])?)?;
    assert!(rt; has_amounts(&replay, &[half, half, one, zero, one, zero, one]));
    replay.step_one(Flow {
        reaction: 5,
        flux: Frac::ONE,
    })?;
    assert!(rt;
        has_amounts(
            &replay,
            &[half, half, one, zero, zero, zero, one, zero, one]
        )
    );
    Ok(())
}
