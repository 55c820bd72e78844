//! Chemical reaction networks over nonnegative rational amounts, for computing with rate-independent reactions.
//!
//! `Parts` says what a network is made of, and `Network::make` answers a valid `Network` or the first fault of the parts. What a network does (states,
//! segments, runs, completion, stable computation) is defined in `specs/Network.antt`, and `laws` has what holds of every network.
#![tactic(auto)]

ghost use Rattle.std.specs.Prelude.{◌≡◌, ◌≤◌, length, IfOk, IfErr};
ghost use Rattle.crn_net.specs.Network.{IsNetwork, IsReaction, numbered};
ghost use Rattle.crn_net.specs.Views.{network_of, reaction_of};
ghost use Rattle.crn_net.specs.Limits.{IsWithinLimits, IsValid};
ghost use Rattle.crn_net.specs.Causes.{IsCause};
ghost use Rattle.crn_net.specs.Takers.{takers_of};
ghost use Rattle.crn_net.specs.declared.NetworkError.TheVariants.{Memory};

use crn_fraction::Frac;
use std::alloc::{AllocError, Global};
use std::marker::Model;
use takers::Takers;
use thiserror::Error;

mod checks;
pub mod laws;
mod takers;

/// Whether a number is the difference of the amounts of two species, or the amount of one.
#[derive(Clone, Copy, Debug, PartialEq, Eq)]
pub enum Rails {
    /// The difference of two species.
    Dual,
    /// One species.
    Direct,
}

/// An input or an output: the species plus and minus of a dual network, or the one species of a direct network. Species are numbered from 1.
#[derive(Clone, Copy, Debug, PartialEq, Eq)]
pub enum Ends {
    /// Plus and minus.
    Pair(u32, u32),
    /// The one species.
    One(u32),
}

/// A reaction, numbered from 1, that happens by this much.
#[derive(Clone, Copy, Debug, PartialEq, Eq)]
pub struct Flow {
    pub reaction: u64,
    pub flux: Frac,
}

/// So many of a species, on one side of a reaction.
#[derive(Clone, Copy, Debug, PartialEq, Eq)]
pub struct Part {
    pub species: u32,
    pub count: i64,
}

/// What a reaction takes and what it gives. In a valid network each side ascends strictly by species, and something is taken.
#[derive(Debug, Drop)]
pub struct Reaction {
    pub takes: Vec<Part>,
    pub gives: Vec<Part>,
}

/// What a network is made of, valid or not. `species` is the number of species. The context species, where there is one, begins with the amount 1,
/// so that constants can be made of it.
#[derive(Debug, Drop)]
pub struct Parts {
    pub rails: Rails,
    pub species: u32,
    pub reactions: Vec<Reaction>,
    pub inputs: Vec<Ends>,
    pub output: Ends,
    pub context: Option<u32>,
}

/// Why parts make no network. An `index` counts from 1.
#[derive(Clone, Copy, Debug, PartialEq, Eq, Error)]
pub enum NetworkError {
    #[error("{count} species, and not 1 to 65536")]
    Species { count: u32 },
    #[error("{count} reactions, and at most 65536 are allowed")]
    Reactions { count: usize },
    #[error("{count} inputs, and not 1 to 8")]
    Inputs { count: usize },
    #[error("input {index} is of the wrong sort, out of range, or names a species again")]
    Input { index: usize },
    #[error("the output is of the wrong sort, out of range, or names a species twice")]
    Output,
    #[error("the context is out of range, or the species of an input")]
    Context,
    #[error("reaction {index} takes nothing, or has a side that is not well formed")]
    Reaction { index: usize },
    /// Memory ran out.
    #[error("out of memory")]
    Memory,
}

impl From<AllocError> for NetworkError {
    ghost use Rattle.crn_net.specs.declared.NetworkError.TheVariants.{Memory};

    ghost from_gives = { λ _ e. e ≡ Memory };

    fn from(_error: AllocError) -> NetworkError {
        NetworkError::Memory
    }
}

/// A valid network.
#[derive(Debug, Drop)]
pub struct Network {
    parts: Parts,
    takers: Takers,
}

impl Model for Network {
    ghost use Rattle.crn_net.specs.Network as Plain;

    ghost Value = { Plain.Network };

    ghost use Rattle.crn_net.specs.Views.{network_of};
    ghost use Rattle.crn_net.specs.Kept.{IsKept};

    ghost view = { λ n. network_of n.parts };

    ghost invariant = { λ n. IsKept (network_of n.parts) n.takers.starts.items n.takers.numbers.items };
}

impl Network {
    /// The network of these parts, or their first fault. The parts are dropped on a refusal. Only parts without a fault want memory.
    pub fn make(alloc: Global, parts: Parts) -> Result<Network, NetworkError>
        ensures made { IfOk result (λ n. (n ≡ network_of parts) × IsValid (network_of parts)) }
        ensures refused { IfErr result (IsCause (network_of parts)) }
        ensures valid { IsValid (network_of parts) → IfErr result (λ e. e ≡ Memory) }
    {
        checks::check(&parts)?;
        let takers = Takers::of(alloc, parts.species, &parts.reactions)?;
        Ok(Network { parts, takers })
    }

    /// How numbers are held.
    pub fn rails(&self) -> Rails
        ensures value { result ≡ self.now.rails }
        ensures valid { IsNetwork self.now }
    {
        self.parts.rails
    }

    /// The number of species.
    pub fn species(&self) -> u32
        ensures value { result ≡ self.now.species }
        ensures valid { IsNetwork self.now }
        ensures limits { IsWithinLimits self.now }
    {
        self.parts.species
    }

    /// The number of reactions.
    pub fn reaction_count(&self) -> u32
        ensures value { result ≡ length self.now.reactions }
        ensures valid { IsNetwork self.now }
        ensures limits { IsWithinLimits self.now }
    {
        self.parts.reactions.len() as u32
    }

    /// The reaction of this number, from 1.
    pub fn reaction(&self, number: u32) -> &Reaction
        requires low { 1 ≤ number }
        requires high { number ≤ length self.now.reactions }
        ensures value { reaction_of result.now ≡ numbered self.now.reactions number }
        ensures valid { IsReaction self.now.species (reaction_of result.now) }
    {
        &self.parts.reactions[number as usize - 1]
    }

    /// The reactions that take the species, in ascending order.
    pub fn takers(&self, species: u32) -> &[u32]
        requires low { 1 ≤ species }
        requires high { species ≤ self.now.species }
        ensures { result.now ≡ takers_of self.now species }
    {
        self.takers.at(species)
    }

    /// The species of the inputs, in order.
    pub fn inputs(&self) -> &[Ends]
        ensures value { result.now ≡ self.now.inputs }
        ensures valid { IsNetwork self.now }
        ensures limits { IsWithinLimits self.now }
    {
        &self.parts.inputs
    }

    /// The species of the output.
    pub fn output(&self) -> Ends
        ensures value { result ≡ self.now.output }
        ensures valid { IsNetwork self.now }
    {
        self.parts.output
    }

    /// The species that begins with the amount 1, where there is one.
    pub fn context(&self) -> Option<u32>
        ensures value { result ≡ self.now.context }
        ensures valid { IsNetwork self.now }
    {
        self.parts.context
    }
}
