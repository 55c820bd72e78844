//! The tests of a network's parts.
ghost use Rattle.std.specs.Prelude.{◌≢◌, ◌↔◌, length, IsTrue, MatchOption, MatchResult};
ghost use Rattle.crn_net.specs.Network.{IsReaction, IsEnds, IsContext, AreParts, IsApart, input_species};
ghost use Rattle.crn_net.specs.Inputs.{species_of, AreNew};
ghost use Rattle.crn_net.specs.Views.{network_of, reaction_of, reactions_of, parts_of};
ghost use Rattle.crn_net.specs.Limits.{IsValid};
ghost use Rattle.crn_net.specs.Causes.{IsCause, IsFirst, AreInputs, AreInputsTo, AreReactionsAt, IsReactionAt};
ghost use Rattle.crn_net.specs.declared.NetworkError.TheVariants.{Memory};

use crate::{Ends, NetworkError, Part, Parts, Rails, Reaction};

/// The greatest number of species, and of reactions.
const MOST: u32 = 65_536;

/// The greatest number of inputs.
const MOST_INPUTS: usize = 8;

/// The first fault of the parts, if there is one.
pub(crate) fn check(parts: &Parts) -> Result<(), NetworkError>
    ensures { MatchResult result (λ _. IsValid (network_of parts.now)) (λ e. IsCause (network_of parts.now) e × (e ≢ Memory)) }
{
    let species = parts.species;
    if species == 0 || species > MOST {
        return Err(NetworkError::Species { count: species });
    }
    let count = parts.reactions.len();
    if count > MOST as usize {
        return Err(NetworkError::Reactions { count });
    }
    let count = parts.inputs.len();
    if count == 0 || count > MOST_INPUTS {
        return Err(NetworkError::Inputs { count });
    }
    if let Some(index) = first_bad_input(parts.rails, species, &parts.inputs) {
        return Err(NetworkError::Input { index });
    }
    if !is_ends(parts.rails, species, parts.output) {
        return Err(NetworkError::Output);
    }
    if !is_context(species, &parts.inputs, parts.context) {
        return Err(NetworkError::Context);
    }
    if let Some(index) = first_bad_reaction(species, &parts.reactions) {
        return Err(NetworkError::Reaction { index });
    }
    Ok(())
}

/// The number, from 1, of the first input that is of the wrong sort, is out of range or names a species again.
fn first_bad_input(rails: Rails, species: u32, inputs: &[Ends]) -> Option<usize>
    ensures { MatchOption result (AreInputs rails species inputs.now) (IsFirst (AreInputsTo rails species inputs.now) (length inputs.now)) }
{
    for (index, ends) in inputs.iter().enumerate() {
        if !is_input(rails, species, &inputs[..index], *ends) {
            return Some(index + 1);
        }
    }
    None
}

fn is_input(rails: Rails, species: u32, earlier: &[Ends], ends: Ends) -> bool
    ensures { IsTrue result ↔ (IsEnds rails species ends × AreNew (species_of ends) (input_species earlier.now)) }
{
    is_ends(rails, species, ends)
        && match ends {
            Ends::Pair(a, b) => is_new(earlier, a) && is_new(earlier, b),
            Ends::One(a) => is_new(earlier, a),
        }
}

fn is_ends(rails: Rails, species: u32, ends: Ends) -> bool
    ensures { IsTrue result ↔ IsEnds rails species ends }
{
    match (rails, ends) {
        (Rails::Dual, Ends::Pair(a, b)) => {
            1 <= a && a <= species && 1 <= b && b <= species && a != b
        }
        (Rails::Direct, Ends::One(a)) => 1 <= a && a <= species,
        _ => false,
    }
}

/// Whether none of the inputs names the species.
fn is_new(inputs: &[Ends], species: u32) -> bool
    ensures { IsTrue result ↔ IsApart species (input_species inputs.now) }
{
    for ends in inputs {
        if !avoids(*ends, species) {
            return false;
        }
    }
    true
}

fn avoids(ends: Ends, species: u32) -> bool
    ensures { IsTrue result ↔ IsApart species (species_of ends) }
{
    match ends {
        Ends::Pair(a, b) => a != species && b != species,
        Ends::One(a) => a != species,
    }
}

fn is_context(species: u32, inputs: &[Ends], context: Option<u32>) -> bool
    ensures { IsTrue result ↔ IsContext species inputs.now context }
{
    match context {
        Some(context) => 1 <= context && context <= species && is_new(inputs, context),
        None => true,
    }
}

/// The number, from 1, of the first reaction that takes nothing or has a side that is not well formed.
fn first_bad_reaction(species: u32, reactions: &[Reaction]) -> Option<usize>
    ensures { MatchOption result (AreReactionsAt species (reactions_of reactions.now)) (IsFirst (IsReactionAt species (reactions_of reactions.now)) (length reactions.now)) }
{
    for (index, reaction) in reactions.iter().enumerate() {
        if !is_reaction(species, reaction) {
            return Some(index + 1);
        }
    }
    None
}

fn is_reaction(species: u32, reaction: &Reaction) -> bool
    ensures { IsTrue result ↔ IsReaction species (reaction_of reaction.now) }
{
    !reaction.takes.is_empty()
        && is_side(species, &reaction.takes)
        && is_side(species, &reaction.gives)
}

fn is_side(species: u32, parts: &[Part]) -> bool
    ensures { IsTrue result ↔ AreParts 0 species (parts_of parts.now) }
{
    let mut last = 0;
    for part in parts {
        if part.species <= last || part.species > species || part.count < 1 {
            return false;
        }
        last = part.species;
    }
    true
}
