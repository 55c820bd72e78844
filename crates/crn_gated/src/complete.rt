//! The gated completion: each reaction in turn, with the greatest flux for which nothing that it uses up runs short.

ghost use Rattle.std.specs.Prelude.{◌≡◌, ℕ, List, ◌≤◌, ◌<ℤ◌, ◌-◌, pos, [], length, None, Some, IfOk, IfErr, OnOk, OnErr, vec_capacity};
ghost use Rattle.std.specs.Option.{option_to_list};
ghost use Rattle.crn_fraction.specs.Rational.{ℚ, whole};
ghost use Rattle.crn_net.specs.Network.{IsReaction, IsSettled, Run, AreAmounts, amount, count_of, greatest, start};
ghost use Rattle.crn_net.specs.declared.Flow.{Flow};
ghost use Rattle.crn_net.specs.Views.{parts_of, reaction_of};
ghost use Rattle.crn_segments.specs.Step.{Answers, IsSide};
ghost use Rattle.crn_completer.specs.Kept.{each_alone};
ghost use Rattle.crn_completer.specs.Refusal.{unfit_quotient, IsTooBig};
ghost use Rattle.crn_gated.specs.Completion.{used_up, with_gated, gated_completion, gated_completion_to};
ghost use Rattle.crn_gated.specs.Refusal.{gated_turn_refusal, gated_refusal};
ghost use Rattle.crn_gated.specs.Answers.{IsGatedStop};
ghost use Rattle.crn_gated.specs.Forms.{GatedForm, AreGatedForms, gated_value};
ghost use Rattle.crn_gated.specs.Layout.{gated_layout};

use crn_completer::{CompletionTooBig, lacks_reactant};
use crn_fraction::Frac;
use crn_net::{Network, Part, Reaction};
use crn_segments::{Flow, Replay, State, StepError};
use std::alloc::{AllocError, Global};
use thiserror::Error;

/// Why a gated completion stops.
#[derive(Clone, Copy, Debug, PartialEq, Eq, Error)]
pub enum GatedError {
    /// A quotient, a product or a partial sum does not fit a `Frac`.
    #[error("in the completion of reaction {reaction} a number for species {species} is too big")]
    TooBig { reaction: u32, species: u32 },
    /// Memory ran out.
    #[error("out of memory")]
    Memory,
}

impl From<AllocError> for GatedError {
    ghost use Rattle.crn_gated.specs.declared.complete.GatedError.TheVariants.{Memory};

    ghost from_gives = { λ _ e. e ≡ Memory };

    fn from(_e: AllocError) -> GatedError {
        GatedError::Memory
    }
}

/// The gated completion from the replay's state, which the replay then stands after. It takes all its memory first. Where a number does not fit, the replay
/// stands after the flows before it. After a run from a start of a gated layout, the output is then the least of the forms, and settled.
pub fn complete_gated(
    alloc: Global,
    network: &Network,
    replay: &mut Replay<'_>,
) -> Result<Vec<Flow>, GatedError>
    requires { replay.old.network ≡ network.now }
    ensures ok { IfOk result (λ flows. each_alone flows.items ≡ gated_completion network.now replay.old.state) }
    ensures fits { OnOk result (gated_refusal network.now replay.old.state ≡ None) }
    ensures stops { IfErr result (IsGatedStop network.now replay.old.state replay.new.state) }
    ensures run { OnOk result (Run network.now replay.old.state
        (gated_completion network.now replay.old.state) replay.new.state) }
    ensures settled { OnOk result ((k : ℕ) (fs : List GatedForm) → AreGatedForms k fs
        → network.now ≡ gated_layout k fs → (xs : List ℚ) → AreAmounts network.now xs → (us : List (List Flow))
        → Run network.now (start network.now xs) us replay.old.state
        → IsSettled network.now replay.new.state (gated_value fs xs)) }
    ensures network { replay.new.network ≡ network.now }
{
    let mut flows = Vec::with_capacity(alloc, network.reaction_count() as usize)?;
    match take_turns(replay, &mut flows) {
        Ok(()) => Ok(flows),
        Err(error) => Err(GatedError::TooBig {
            reaction: error.reaction,
            species: error.species,
        }),
    }
}

// Applies the reaction with its greatest flux, where no reactant is absent and it uses something up.
fn take_turn(replay: &mut Replay<'_>, number: u32) -> Result<Option<Flow>, CompletionTooBig>
    requires low { 1 ≤ number }
    requires high { number ≤ length replay.old.network.reactions }
    ensures fits { OnOk result (gated_turn_refusal replay.old.network number replay.old.state ≡ None) }
    ensures kept { IfOk result (λ kept. each_alone (option_to_list kept)
        ≡ with_gated replay.old.network number replay.old.state) }
    ensures run { OnOk result (Run replay.old.network replay.old.state
        (with_gated replay.old.network number replay.old.state) replay.new.state) }
    ensures err { IfErr result (λ e. (e.reaction ≡ number)
        × (gated_turn_refusal replay.old.network number replay.old.state ≡ Some e.species)) }
    ensures unchanged { OnErr result (replay.new ≡ replay.old) }
    ensures network { replay.new.network ≡ replay.old.network }
{
    let reaction = replay.network().reaction(number);
    if lacks_reactant(reaction, replay.state()) {
        return Ok(None);
    }
    let flux = match least_quotient(reaction, replay.state()) {
        Ok(flux) => flux,
        Err(species) => {
            return Err(CompletionTooBig {
                reaction: number,
                species,
            });
        }
    };
    if flux.is_zero() {
        return Ok(None);
    }
    match replay.step_one(flow_of(number, flux)) {
        Ok(()) => Ok(Some(flow_of(number, flux))),
        Err(error) => Err(CompletionTooBig {
            reaction: number,
            species: unfit_species(error),
        }),
    }
}

fn unfit_species(error: StepError) -> u32
    requires { IsTooBig error }
    ensures { error ≡ StepError.TooBig result }
{
    match error {
        StepError::TooBig { species } => species,
        _ => unreachable!(),
    }
}

fn flow_of(number: u32, flux: Frac) -> Flow
    ensures { result ≡ record { reaction = number; flux = flux } }
{
    Flow {
        reaction: u64::from(number),
        flux,
    }
}

// The least quotient of the amount and of taken less given, over what the reaction uses up, and 0 where that is nothing; or the first species whose quotient
// does not fit.
fn least_quotient(reaction: &Reaction, state: &State) -> Result<Frac, u32>
    requires { IsReaction (length state.now) (reaction_of reaction.now) }
    ensures fit { Answers result (unfit_quotient (amount state.now)
        (used_up (parts_of reaction.now.takes.items) (parts_of reaction.now.gives.items))) }
    ensures least { IfOk result (λ u. u
        ≡ greatest (used_up (parts_of reaction.now.takes.items) (parts_of reaction.now.gives.items))
        (amount state.now)) }
{
    let mut least = None;
    for part in &reaction.takes {
        let used = part.count - count_in(&reaction.gives, part.species);
        if used > 0 {
            let Ok(quotient) = state.amount(part.species).div(whole(used)) else {
                return Err(part.species);
            };
            least = Some(match least {
                None => quotient,
                Some(least) => Frac::least(least, quotient),
            });
        }
    }
    Ok(least.unwrap_or(Frac::ZERO))
}

// How many of the species the parts have.
fn count_in(parts: &[Part], species: u32) -> i64
    requires { IsSide (parts_of parts.now) }
    ensures { result ≡ pos (count_of (parts_of parts.now) species) }
{
    for part in parts {
        if part.species == species {
            return part.count;
        }
    }
    0
}

fn whole(count: i64) -> Frac
    requires { pos 0 <ℤ count }
    ensures { result ≡ whole count }
{
    Frac::of(count, 1).unwrap()
}

// The turns of the reactions in order.
fn take_turns(replay: &mut Replay<'_>, flows: &mut Vec<Flow>) -> Result<(), CompletionTooBig>
    requires room { length replay.old.network.reactions ≤ vec_capacity flows.old }
    requires empty { flows.old.items ≡ [] }
    ensures cause { Answers result (gated_refusal replay.old.network replay.old.state) }
    ensures ok { OnOk result (each_alone flows.new.items ≡ gated_completion replay.old.network replay.old.state) }
    ensures err { IfErr result (λ e. each_alone flows.new.items ≡ gated_completion_to replay.old.network
        (e.reaction - 1) replay.old.state) }
    ensures run { Run replay.old.network replay.old.state (each_alone flows.new.items) replay.new.state }
    ensures network { replay.new.network ≡ replay.old.network }
{
    for number in 1..=replay.network().reaction_count() {
        if let Some(flow) = take_turn(replay, number)? {
            flows.push_reserved(flow);
        }
    }
    Ok(())
}
