//! States, segments, and the replay of segments in turn over a network.
//!
//! `Replay` makes one step after another: a legal segment whose numbers fit changes the state, and every other is refused with its first cause and changes
//! nothing. `specs/Causes.antt` has the causes in their order, and `specs/Fits.antt` says when a step and a completion fit, that is, when no number in them is
//! too big for a `Frac`.
#![tactic(auto)]

ghost use Rattle.std.specs.Prelude.{◌≡◌, ◌≤◌, ◌<◌, ◌-◌, ◌-ℤ◌, ◌+◌, ◌↔◌, ◌≢◌, ℕ, pos, [], ◌∷◌, length, replicate, slice_set, IsTrue, IsOk, IfOk, IfErr, OnOk, OnErr};
ghost use Rattle.crn_fraction.specs.Rational.{0ℚ, ◌≤ℚ◌, ◌<ℚ◌};
ghost use Rattle.crn_net.specs.Network.{IsNetwork, IsReaction, IsState, IsNotNegative, IsLegal, AreFlows, amount, after};
ghost use Rattle.crn_net.specs.Network as Plain;
ghost use Rattle.crn_net.specs.Totals.{change};
ghost use Rattle.crn_net.specs.Views.{parts_of, reaction_of};
ghost use Rattle.crn_net.specs.Limits.{IsWithinLimits};
ghost use Rattle.crn_segments.specs.Fits.{flows_with, StepFits};
ghost use Rattle.crn_segments.specs.Signs.{is_positive_ℚ, is_negative_ℚ};
ghost use Rattle.crn_segments.specs.Flows.{IsSegment, AreAscending};
ghost use Rattle.crn_segments.specs.Causes.{IsStepCause};
ghost use Rattle.crn_segments.specs.Step.{Answers, flow_refusal, flows_refusal, step_refusal};

use crn_fraction::Frac;
pub use crn_net::Flow;
use crn_net::Network;
use std::alloc::{AllocError, Global};
use std::marker::Model;
use thiserror::Error;
use work::Sums;

pub mod laws;
mod work;

/// Why a step is refused. `reaction` is the number that a flow names, and `species` counts from 1.
#[derive(Clone, Copy, Debug, PartialEq, Eq, Error)]
pub enum StepError {
    /// The network has no such reaction.
    #[error("there is no reaction {reaction}")]
    NoReaction { reaction: u64 },
    /// A reactant is absent before the segment: the least, of the first reaction that lacks one.
    #[error("reaction {reaction} needs species {species}, of which there is none before the segment")]
    NotPresent { reaction: u64, species: u32 },
    /// A product, or a partial sum, does not fit a `Frac`.
    #[error("a number for species {species} is too big")]
    TooBig { species: u32 },
    /// The amount would become negative.
    #[error("more of species {species} is taken than is there")]
    TakesMore { species: u32 },
}

/// Flows that happen together: at least one, in strictly ascending order of reaction, each positive.
#[derive(Debug, Drop)]
pub struct Segment {
    flows: Vec<Flow>,
}

impl Model for Segment {
    ghost use Rattle.std.specs.Prelude.{List};
    ghost use Rattle.crn_net.specs.declared.Flow.{Flow};
    ghost use Rattle.crn_segments.specs.Flows.{IsSegment};

    ghost Value = { List Flow };

    ghost view = { λ s. s.flows.items };

    ghost invariant = { λ s. IsSegment s.flows.items };
}

impl Segment {
    /// Hands the flows back where they are no segment.
    pub fn of(flows: Vec<Flow>) -> Result<Segment, Vec<Flow>>
        ensures ok { IfOk result (λ s. (s ≡ flows.items) × IsSegment flows.items) }
        ensures err { IfErr result (λ back. (back.items ≡ flows.items) × (IsSegment flows.items → ⊥)) }
    {
        if is_segment(&flows) {
            Ok(Segment { flows })
        } else {
            Err(flows)
        }
    }

    /// The flows, in ascending order of reaction.
    pub fn flows(&self) -> &[Flow]
        ensures value { result.now ≡ self.now }
        ensures valid { IsSegment self.now }
    {
        &self.flows
    }
}

fn is_segment(flows: &[Flow]) -> bool
    ensures { IsTrue result ↔ IsSegment flows.now }
{
    let mut last = 0;
    for flow in flows {
        if flow.reaction <= last || !is_positive(flow.flux) {
            return false;
        }
        last = flow.reaction;
    }
    !flows.is_empty()
}

/// A nonnegative amount of each species. Species are numbered from 1.
#[derive(Debug, Drop)]
pub struct State {
    amounts: Vec<Frac>,
}

impl Model for State {
    ghost use Rattle.std.specs.Prelude.{List};
    ghost use Rattle.std.specs.Coded.{coded_list};
    ghost use Rattle.crn_fraction.specs.Rational.{ℚ};
    ghost use Rattle.crn_fraction.specs.Frac.{coded_ℚ};
    ghost use Rattle.crn_net.specs.Network.{IsNotNegative};

    ghost Value = { List ℚ };

    ghost coded = { coded_list coded_ℚ };

    ghost view = { λ s. s.amounts.items };

    ghost invariant = { λ s. IsNotNegative s.amounts.items };
}

impl State {
    /// The amount 0 of each of so many species.
    pub fn zero(alloc: Global, species: u32) -> Result<State, AllocError>
        ensures { IfOk result (λ c. c ≡ replicate species 0ℚ) }
    {
        Ok(State {
            amounts: vec![in alloc; Frac::ZERO; species as usize]?,
        })
    }

    /// Sets the amount of one species, and leaves the others.
    pub fn set(&mut self, species: u32, amount: Frac)
        requires low { 1 ≤ species }
        requires high { species ≤ length self.old }
        requires not_negative { 0ℚ ≤ℚ amount }
        ensures { self.new ≡ slice_set self.old (species - 1) amount }
    {
        let place = species as usize - 1;
        self.amounts[place] = amount;
    }

    /// The amount of a species, which is never negative.
    pub fn amount(&self, species: u32) -> Frac
        requires low { 1 ≤ species }
        requires high { species ≤ length self.now }
        ensures value { result ≡ amount self.now species }
        ensures not_negative { 0ℚ ≤ℚ result }
    {
        self.amounts[species as usize - 1]
    }
}

fn is_positive(amount: Frac) -> bool
    ensures { result ≡ is_positive_ℚ amount }
{
    amount.compare(Frac::ZERO).is_gt()
}

fn is_negative(amount: Frac) -> bool
    ensures { result ≡ is_negative_ℚ amount }
{
    amount.compare(Frac::ZERO).is_lt()
}

// Whether the reaction exists, and what it takes is there.
fn check_flow(network: &Network, state: &State, flow: Flow) -> Result<(), StepError>
    requires number { 0 < flow.reaction }
    requires long { length state.now ≡ network.now.species }
    ensures { Answers result (flow_refusal network.now state.now flow) }
{
    if flow.reaction > network.reaction_count() as u64 {
        return Err(StepError::NoReaction {
            reaction: flow.reaction,
        });
    }
    for part in &network.reaction(flow.reaction as u32).takes {
        if !is_positive(state.amount(part.species)) {
            return Err(StepError::NotPresent {
                reaction: flow.reaction,
                species: part.species,
            });
        }
    }
    Ok(())
}

fn check_flows(network: &Network, state: &State, flows: &[Flow]) -> Result<(), StepError>
    requires numbers { AreAscending 0 flows.now }
    requires long { length state.now ≡ network.now.species }
    ensures { Answers result (flows_refusal network.now state.now flows.now) }
{
    for flow in flows {
        check_flow(network, state, *flow)?;
    }
    Ok(())
}

/// The replay of segments over a network, one step after another.
#[derive(Debug, Drop)]
pub struct Replay<'a> {
    network: &'a Network,
    state: State,
    sums: Sums,
}

impl<'a> Model for Replay<'a> {
    ghost use Rattle.crn_segments.specs.Progress.{Progress, IsReached};

    ghost Value = { Progress };

    ghost view = { λ r. record { network = r.network.now; state = r.state } };

    ghost invariant = { λ r. IsReached r.network.now r.state r.sums };
}

impl<'a> Replay<'a> {
    /// Takes all the memory that the steps need.
    pub fn new(alloc: Global, network: &'a Network, state: State) -> Result<Replay<'a>, AllocError>
        requires { length state ≡ network.now.species }
        ensures { IfOk result (λ r. (r.network ≡ network.now) × (r.state ≡ state)) }
    {
        let sums = Sums::new(alloc, network.species())?;
        Ok(Replay {
            network,
            state,
            sums,
        })
    }

    /// Makes the segment happen, or says why it cannot. A refused step changes nothing.
    pub fn step(&mut self, segment: &Segment) -> Result<(), StepError>
        ensures cause { Answers result (step_refusal self.old.network self.old.state segment.now) }
        ensures refused { IfErr result (IsStepCause self.old.network self.old.state segment.now) }
        ensures legal { IsOk result ↔ (IsLegal self.old.network self.old.state segment.now × StepFits self.old.network self.old.state segment.now) }
        ensures after { OnOk result (self.new ≡ record self.old { state = after self.old.network self.old.state segment.now }) }
        ensures unchanged { OnErr result (self.new ≡ self.old) }
        ensures segment { IsSegment segment.now }
    {
        self.apply(segment.flows())
    }

    /// A step of this flow alone.
    pub fn step_one(&mut self, flow: Flow) -> Result<(), StepError>
        requires number { 0 < flow.reaction }
        requires positive { 0ℚ <ℚ flow.flux }
        ensures cause { Answers result (step_refusal self.old.network self.old.state (flow ∷ [])) }
        ensures refused { IfErr result (IsStepCause self.old.network self.old.state (flow ∷ [])) }
        ensures legal { IsOk result ↔ (IsLegal self.old.network self.old.state (flow ∷ []) × StepFits self.old.network self.old.state (flow ∷ [])) }
        ensures after { OnOk result (self.new ≡ record self.old { state = after self.old.network self.old.state (flow ∷ []) }) }
        ensures unchanged { OnErr result (self.new ≡ self.old) }
    {
        self.apply(&[flow])
    }

    /// The state that the steps so far led to.
    pub fn state(&self) -> &State
        ensures value { result.now ≡ self.now.state }
        ensures valid { IsState self.now.network self.now.state }
    {
        &self.state
    }

    /// The reference lives as long as the network, not as the replay: steps may be made while it is held.
    pub fn network(&self) -> &'a Network
        ensures value { result.now ≡ self.now.network }
        ensures valid { IsNetwork self.now.network }
        ensures reached { IsState self.now.network self.now.state }
    {
        self.network
    }

    fn apply(&mut self, flows: &[Flow]) -> Result<(), StepError>
        requires { IsSegment flows.now }
        ensures cause { Answers result (step_refusal self.old.network self.old.state flows.now) }
        ensures refused { IfErr result (IsStepCause self.old.network self.old.state flows.now) }
        ensures legal { IsOk result ↔ (IsLegal self.old.network self.old.state flows.now × StepFits self.old.network self.old.state flows.now) }
        ensures after { OnOk result (self.new ≡ record self.old { state = after self.old.network self.old.state flows.now }) }
        ensures unchanged { OnErr result (self.new ≡ self.old) }
    {
        check_flows(self.network, &self.state, flows)?;
        self.sums.add_flows(self.network, flows, &self.state);
        match self.sums.check(self.network.species()) {
            Ok(()) => {
                self.sums.settle(&mut self.state);
                Ok(())
            }
            Err(error) => {
                self.sums.clear();
                Err(error)
            }
        }
    }
}
