//! The completion of a run: each reaction in turn, with the greatest flux that its reactants allow.
//!
//! `Completer` keeps the flows of a completion, and leaves the replay after them. `specs/Causes.antt` says which number of a completion is the first that does
//! not fit, and `laws` what holds of completions of every run.
#![tactic(auto)]

ghost use Rattle.std.specs.Prelude.{◌≡◌, ◌≤◌, ◌<◌, ◌-◌, ◌↔◌, ◌<ℤ◌, pos, [], length, None, Some, IsOk, IfOk, IfErr, OnOk, OnErr};
ghost use Rattle.std.specs.Option.{option_to_list};
ghost use Rattle.crn_fraction.specs.Rational.{whole};
ghost use Rattle.crn_net.specs.Network.{IsReaction, IsFeedForward, IsSettled, Run, amount, output, greatest, with_greatest, completion, completion_to};
ghost use Rattle.crn_net.specs.Totals.{IsExhausted};
ghost use Rattle.crn_net.specs.Views.{parts_of, reaction_of};
ghost use Rattle.crn_segments.specs.Fits.{CompletionFits};
ghost use Rattle.crn_segments.specs.Step.{Answers};
ghost use Rattle.crn_completer.specs.Causes.{IsCompletionCause};
ghost use Rattle.crn_completer.specs.Kept.{each_alone};
ghost use Rattle.crn_completer.specs.Refusal.{lacks, unfit_quotient, turn_refusal, completion_refusal, IsTooBig};

use crn_fraction::Frac;
use crn_net::{Network, Reaction};
use crn_segments::{Flow, Replay, State, StepError};
use std::alloc::{AllocError, Global};
use std::marker::Model;
use thiserror::Error;

pub mod laws;

/// A quotient, a product or a partial sum of a completion does not fit a `Frac`.
#[derive(Clone, Copy, Debug, PartialEq, Eq, Error)]
#[error("in the completion of reaction {reaction} a number for species {species} is too big")]
pub struct CompletionTooBig {
    /// The reaction whose turn it was, from 1.
    pub reaction: u32,
    /// The species whose number does not fit, from 1.
    pub species: u32,
}

/// Completes replays, in room that it made.
#[derive(Debug, Drop)]
pub struct Completer {
    flows: Vec<Flow>,
}

impl Model for Completer {
    ghost use Rattle.std.specs.Prelude.{vec_capacity};
    ghost use Rattle.crn_completer.specs.Kept.{Kept};

    ghost Value = { Kept };

    ghost view = { λ k. record { room = vec_capacity k.flows; flows = k.flows.items } };
}

impl Completer {
    /// Makes room for one flow of each reaction.
    pub fn new(alloc: Global, network: &Network) -> Result<Completer, AllocError>
        ensures { IfOk result (λ k. (length network.now.reactions ≤ k.room) × (k.flows ≡ [])) }
    {
        Ok(Completer {
            flows: Vec::with_capacity(alloc, network.reaction_count() as usize)?,
        })
    }

    /// Keeps the flows of the completion from the replay's state, in place of those of earlier calls, and leaves the replay after them. Where a number does not
    /// fit, these are the flows of the reactions before it. It takes no memory.
    pub fn complete(&mut self, replay: &mut Replay<'_>) -> Result<(), CompletionTooBig>
        requires { length replay.old.network.reactions ≤ self.old.room }
        ensures cause { Answers result (completion_refusal replay.old.network replay.old.state) }
        ensures refused { IfErr result (IsCompletionCause replay.old.network replay.old.state) }
        ensures fits { IsOk result ↔ CompletionFits replay.old.network replay.old.state }
        ensures ok { OnOk result (each_alone self.new.flows ≡ completion replay.old.network replay.old.state) }
        ensures err { IfErr result (λ e. each_alone self.new.flows ≡ completion_to replay.old.network (e.reaction - 1) replay.old.state) }
        ensures run { Run replay.old.network replay.old.state (each_alone self.new.flows) replay.new.state }
        ensures exhausted { OnOk result (IsFeedForward replay.old.network → IsExhausted replay.old.network replay.new.state) }
        ensures settled { OnOk result (IsFeedForward replay.old.network → IsSettled replay.old.network replay.new.state (output replay.old.network replay.new.state)) }
        ensures network { replay.new.network ≡ replay.old.network }
        ensures room { self.new.room ≡ self.old.room }
    {
        self.flows.clear();
        for number in 1..=replay.network().reaction_count() {
            if let Some(flow) = take_turn(replay, number)? {
                self.flows.push_reserved(flow);
            }
        }
        Ok(())
    }

    /// The flows of the last completion, in ascending order of reaction.
    pub fn flows(&self) -> &[Flow]
        ensures { result.now ≡ self.now.flows }
    {
        &self.flows
    }
}

// Applies the reaction with its greatest flux, where no reactant is absent.
fn take_turn(replay: &mut Replay<'_>, number: u32) -> Result<Option<Flow>, CompletionTooBig>
    requires low { 1 ≤ number }
    requires high { number ≤ length replay.old.network.reactions }
    ensures fits { OnOk result (turn_refusal replay.old.network number replay.old.state ≡ None) }
    ensures kept { IfOk result (λ kept. each_alone (option_to_list kept) ≡ with_greatest replay.old.network number replay.old.state) }
    ensures run { OnOk result (Run replay.old.network replay.old.state (with_greatest replay.old.network number replay.old.state) replay.new.state) }
    ensures err { IfErr result (λ e. (e.reaction ≡ number) × (turn_refusal replay.old.network number replay.old.state ≡ Some e.species)) }
    ensures unchanged { OnErr result (replay.new ≡ replay.old) }
    ensures network { replay.new.network ≡ replay.old.network }
{
    let reaction = replay.network().reaction(number);
    if lacks_reactant(reaction, replay.state()) {
        return Ok(None);
    }
    let flux = match least_quotient(reaction, replay.state()) {
        Ok(flux) => flux,
        Err(species) => {
            return Err(CompletionTooBig {
                reaction: number,
                species,
            });
        }
    };
    match replay.step_one(flow_of(number, flux)) {
        Ok(()) => Ok(Some(flow_of(number, flux))),
        Err(error) => Err(CompletionTooBig {
            reaction: number,
            species: unfit_species(error),
        }),
    }
}

fn unfit_species(error: StepError) -> u32
    requires { IsTooBig error }
    ensures { error ≡ StepError.TooBig result }
{
    match error {
        StepError::TooBig { species } => species,
        _ => unreachable!(),
    }
}

fn flow_of(number: u32, flux: Frac) -> Flow
    ensures { result ≡ record { reaction = number; flux = flux } }
{
    Flow {
        reaction: u64::from(number),
        flux,
    }
}

/// Whether some reactant has the amount 0.
pub fn lacks_reactant(reaction: &Reaction, state: &State) -> bool
    requires { IsReaction (length state.now) (reaction_of reaction.now) }
    ensures { result ≡ lacks (amount state.now) (parts_of reaction.now.takes.items) }
{
    for part in &reaction.takes {
        if state.amount(part.species).is_zero() {
            return true;
        }
    }
    false
}

/// The greatest flux that the reactants allow, which is the least quotient of amount and count, or the first species whose quotient does not fit.
pub fn least_quotient(reaction: &Reaction, state: &State) -> Result<Frac, u32>
    requires { IsReaction (length state.now) (reaction_of reaction.now) }
    ensures fit { Answers result (unfit_quotient (amount state.now) (parts_of reaction.now.takes.items)) }
    ensures least { IfOk result (λ u. u ≡ greatest (parts_of reaction.now.takes.items) (amount state.now)) }
{
    let mut least = None;
    for part in &reaction.takes {
        let Ok(quotient) = state.amount(part.species).div(whole(part.count)) else {
            return Err(part.species);
        };
        least = Some(match least {
            None => quotient,
            Some(least) => Frac::least(least, quotient),
        });
    }
    Ok(least.unwrap())
}

fn whole(count: i64) -> Frac
    requires { pos 0 <ℤ count }
    ensures { result ≡ whole count }
{
    Frac::of(count, 1).unwrap()
}
