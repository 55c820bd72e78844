//! Tests of crn_net.

use crate::shared::{MINIMUM, printed};
use crn_net::{Ends, Network, NetworkError, Part, Parts, Rails, Reaction};
use std::alloc::Global;
use std::test::Fail;

fn one(species: u32) -> Part {
    Part { species, count: 1 }
}

fn into(alloc: Global, from: u32, to: u32) -> Result<Reaction, Fail> {
    Ok(Reaction {
        takes: vec![in alloc; one(from)]?,
        gives: vec![in alloc; one(to)]?,
    })
}

/// The parts of the network of the minimum of two variables.
fn minimum(alloc: Global) -> Result<Parts, Fail> {
    let mut reactions = Vec::new(alloc);
    for (from, to) in [
        (1, 5),
        (2, 6),
        (3, 7),
        (4, 8),
        (5, 9),
        (6, 10),
        (7, 11),
        (8, 12),
        (9, 13),
    ] {
        reactions.push(into(alloc, from, to)?)?;
    }
    reactions.push(Reaction {
        takes: vec![in alloc; one(12)]?,
        gives: vec![in alloc; one(13), one(16)]?,
    })?;
    reactions.push(into(alloc, 11, 14)?)?;
    reactions.push(Reaction {
        takes: vec![in alloc; one(10)]?,
        gives: vec![in alloc; one(14), one(16)]?,
    })?;
    reactions.push(Reaction {
        takes: vec![in alloc; one(13), one(14)]?,
        gives: vec![in alloc; one(15)]?,
    })?;
    Ok(Parts {
        rails: Rails::Dual,
        species: 16,
        reactions,
        inputs: vec![in alloc; Ends::Pair(1, 2), Ends::Pair(3, 4)]?,
        output: Ends::Pair(15, 16),
        context: None,
    })
}

#[test]
fn the_minimum_of_two_variables(rt: HostRuntime) -> Result<(), Fail> {
    let network = Network::make(rt.alloc(), minimum(rt.alloc())?)?;
    assert!(rt; printed(rt.alloc(), &network)?.as_str() == MINIMUM);
    Ok(())
}

#[test]
fn takers_of_the_minimum(rt: HostRuntime) -> Result<(), Fail> {
    let network = Network::make(rt.alloc(), minimum(rt.alloc())?)?;
    assert!(rt; network.species() == 16);
    for (species, takers) in [(1, [1].as_slice()), (12, &[10]), (14, &[13]), (16, &[])] {
        assert!(rt; network.takers(species) == takers, "S{species}");
    }
    Ok(())
}

#[test]
fn takers_ascend(rt: HostRuntime) -> Result<(), Fail> {
    let mut parts = minimum(rt.alloc())?;
    parts.reactions.push(Reaction {
        takes: vec![in rt.alloc(); one(1), one(12)]?,
        gives: vec![in rt.alloc(); one(1)]?,
    })?;
    let network = Network::make(rt.alloc(), parts)?;
    assert!(rt; network.species() == 16);
    assert!(rt; network.takers(1) == [1, 14].as_slice());
    assert!(rt; network.takers(12) == [10, 14].as_slice());
    Ok(())
}

/// A direct network of 2 species with one reaction, which takes these parts and gives nothing.
fn direct(alloc: Global, takes: Vec<Part>) -> Result<Parts, Fail> {
    let reaction = Reaction {
        takes,
        gives: Vec::new(alloc),
    };
    Ok(Parts {
        rails: Rails::Direct,
        species: 2,
        reactions: vec![in alloc; reaction]?,
        inputs: vec![in alloc; Ends::One(1)]?,
        output: Ends::One(2),
        context: None,
    })
}

#[test]
fn a_reaction_that_takes_nothing(rt: HostRuntime) -> Result<(), Fail> {
    let alloc = rt.alloc();
    let refused = Network::make(alloc, direct(alloc, Vec::new(alloc))?);
    assert!(rt; matches!(refused, Err(NetworkError::Reaction { index: 1 })));
    let made = Network::make(alloc, direct(alloc, vec![in alloc; one(1)]?)?);
    assert!(rt; made.is_ok());
    Ok(())
}

/// What is wrong with a direct network.
#[derive(Clone, Copy)]
enum Fault {
    Species(u32),
    Inputs(usize),
    Input(Ends),
    Output(Ends),
    Context(u32),
    Takes(Part, Part),
}

fn with_fault(alloc: Global, fault: Fault) -> Result<Parts, Fail> {
    let mut parts = direct(alloc, vec![in alloc; one(1)]?)?;
    match fault {
        Fault::Species(species) => parts.species = species,
        Fault::Inputs(count) => parts.inputs = vec![in alloc; Ends::One(1); count]?,
        Fault::Input(ends) => parts.inputs = vec![in alloc; Ends::One(1), ends]?,
        Fault::Output(ends) => parts.output = ends,
        Fault::Context(species) => parts.context = Some(species),
        Fault::Takes(first, second) => {
            parts.reactions.push(Reaction {
                takes: vec![in alloc; first, second]?,
                gives: Vec::new(alloc),
            })?;
        }
    }
    Ok(parts)
}

#[test]
fn each_fault_is_named(rt: HostRuntime) -> Result<(), Fail> {
    for (number, (fault, want)) in [
        (Fault::Species(0), NetworkError::Species { count: 0 }),
        (
            Fault::Species(65_537),
            NetworkError::Species { count: 65_537 },
        ),
        (Fault::Species(1), NetworkError::Output),
        (Fault::Inputs(0), NetworkError::Inputs { count: 0 }),
        (Fault::Inputs(9), NetworkError::Inputs { count: 9 }),
        (Fault::Input(Ends::One(1)), NetworkError::Input { index: 2 }),
        (Fault::Input(Ends::One(3)), NetworkError::Input { index: 2 }),
        (
            Fault::Input(Ends::Pair(1, 2)),
            NetworkError::Input { index: 2 },
        ),
        (Fault::Output(Ends::Pair(1, 2)), NetworkError::Output),
        (Fault::Output(Ends::One(0)), NetworkError::Output),
        (Fault::Context(1), NetworkError::Context),
        (Fault::Context(3), NetworkError::Context),
        (
            Fault::Takes(one(2), one(1)),
            NetworkError::Reaction { index: 2 },
        ),
        (
            Fault::Takes(one(2), one(2)),
            NetworkError::Reaction { index: 2 },
        ),
        (
            Fault::Takes(one(2), one(3)),
            NetworkError::Reaction { index: 2 },
        ),
        (
            Fault::Takes(
                one(1),
                Part {
                    species: 2,
                    count: 0,
                },
            ),
            NetworkError::Reaction { index: 2 },
        ),
    ]
    .into_iter()
    .enumerate()
    {
        let parts = with_fault(rt.alloc(), fault)?;
        match Network::make(rt.alloc(), parts) {
            Ok(_) => assert!(rt; false, "case {number} is made"),
            Err(error) => assert!(rt; error == want, "case {number}"),
        }
    }
    Ok(())
}

#[test]
fn too_many_reactions(rt: HostRuntime) -> Result<(), Fail> {
    let alloc = rt.alloc();
    let mut parts = direct(alloc, vec![in alloc; one(1)]?)?;
    for _ in 0..65_536 {
        parts.reactions.push(into(alloc, 1, 2)?)?;
    }
    let refused = Network::make(alloc, parts);
    assert!(rt; matches!(refused, Err(NetworkError::Reactions { count: 65_537 })));
    Ok(())
}

#[test]
fn an_error_says_why(rt: HostRuntime) -> Result<(), Fail> {
    let text = NetworkError::Input { index: 2 }.to_string(rt.alloc())?;
    assert!(rt;
        text.as_str() == "input 2 is of the wrong sort, out of range, or names a species again"
    );
    Ok(())
}
