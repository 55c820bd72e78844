//! Where a text of a network stands, and what each line does to it.

ghost use Rattle.std.specs.Prelude.{ℕ, List, Some, None, true, false, not, ◌≡◌, ◌+◌, ◌<◌, ◌≤◌, ◌++◌, ◌∷◌, [], map, length};
ghost use Rattle.std.specs.Option.{option_map, option_map_or, option_and_then};
ghost use Rattle.crn_token.specs.Plain.{plain_token};
ghost use Rattle.crn_grammar.specs.Table as table;
ghost use Rattle.crn_grammar.specs.Reading.{judged, Gives};
ghost use Rattle.crn_net.specs.Views.{network_of, reactions_of};
ghost use Rattle.crn_net_text.specs.Grammar as grammar;
ghost use Rattle.crn_net_text.specs.Reading.{place_of, IsKept};

use crate::NetTextError;
use crate::side::{ends_of, one_of, reaction_of};
use crate::words::number_of;
use crn_grammar::TextError;
use crn_net::{Ends, Network, NetworkError, Parts, Rails};
use crn_token::words::{begins, number_at, rest_of};
use crn_token::{Counted, Token};
use std::alloc::Global;

/// The greatest number of species.
const MOST_SPECIES: u64 = 65_536;

/// The greatest number of reactions.
const MOST_REACTIONS: u64 = 65_536;

/// The greatest number of inputs.
const MOST_INPUTS: usize = 8;

/// Where a text stands, with what was read so far.
#[derive(Drop)]
pub enum Place {
    Start,
    /// After the first line: the rails, and whether a context is to come.
    Titled(Rails, bool),
    /// With so many species, and some inputs.
    Naming(Rails, bool, u32, Vec<Ends>),
    /// With a context.
    Placed(Rails, u32, Vec<Ends>, u32),
    /// With an output, and no reaction.
    Closed(Parts),
    /// So many reactions are to come.
    Listing(usize, Parts),
}

// Whether a network of this version has a context.
fn version_of(number: u64) -> Option<bool>
    ensures { result ≡ grammar.version_of number }
{
    match number {
        1 => Some(false),
        2 => Some(true),
        _ => None,
    }
}

fn rails_of(bytes: &[u8], tokens: &[Token]) -> Option<Rails>
    ensures { result ≡ grammar.rails_of (map (plain_token bytes.now) tokens.now) }
{
    if tokens.len() == 1 {
        if begins(bytes, tokens, b"dual") {
            Some(Rails::Dual)
        } else if begins(bytes, tokens, b"direct") {
            Some(Rails::Direct)
        } else {
            None
        }
    } else {
        None
    }
}

// The rails of a text of this version.
fn titled(bytes: &[u8], context: bool, tokens: &[Token]) -> Option<Place>
    ensures { option_map place_of result ≡ option_map (λ r. grammar.Titled r context) (grammar.rails_of (map (plain_token bytes.now) tokens.now)) }
{
    match rails_of(bytes, tokens) {
        Some(rails) => Some(Place::Titled(rails, context)),
        None => None,
    }
}

// The version and the rails.
#[tactic(auto, using(crn_token::proofs::LineLaws::rest_map))]
fn title_with(bytes: &[u8], tokens: &[Token]) -> Option<Place>
    ensures { option_map place_of result ≡ grammar.title_with (map (plain_token bytes.now) tokens.now) }
{
    match number_at(tokens) {
        Some(number) => match version_of(number) {
            Some(context) => titled(bytes, context, rest_of(tokens)),
            None => None,
        },
        None => None,
    }
}

// The first line.
#[tactic(auto, using(crn_token::proofs::LineLaws::rest_map))]
fn title(bytes: &[u8], tokens: &[Token]) -> Option<Place>
    ensures { option_map place_of result ≡ grammar.title (map (plain_token bytes.now) tokens.now) }
{
    if begins(bytes, tokens, b"crn") {
        title_with(bytes, rest_of(tokens))
    } else {
        None
    }
}

// How many species there are at least.
fn least(rails: Rails, context: bool) -> u64
    ensures { result ≡ grammar.least rails context }
{
    match (rails, context) {
        (Rails::Dual, false) => 2,
        (Rails::Direct, false) => 1,
        (Rails::Dual, true) => 3,
        (Rails::Direct, true) => 2,
    }
}

// So many species.
fn sized(
    alloc: Global,
    line: usize,
    rails: Rails,
    context: bool,
    species: u64,
) -> Result<Place, NetTextError>
    ensures { Gives place_of result (judged grammar.limit line (grammar.sized rails context species)) }
{
    if species < least(rails, context) {
        return Err(NetTextError::Malformed { line });
    }
    if species > MOST_SPECIES {
        return Err(NetTextError::Limit {
            what: Counted::Species,
            count: species,
        });
    }
    Ok(Place::Naming(rails, context, species as u32, Vec::new(alloc)))
}

// The line of the number of species.
#[tactic(auto, using(crn_token::proofs::LineLaws::rest_map))]
fn size(
    alloc: Global,
    bytes: &[u8],
    line: usize,
    rails: Rails,
    context: bool,
    tokens: &[Token],
) -> Result<Place, NetTextError>
    ensures { Gives place_of result (judged grammar.limit line (grammar.size rails context (map (plain_token bytes.now) tokens.now))) }
{
    if begins(bytes, tokens, b"species") {
        match number_of(rest_of(tokens)) {
            Some(species) => sized(alloc, line, rails, context, species),
            None => Err(NetTextError::Malformed { line }),
        }
    } else {
        Err(NetTextError::Malformed { line })
    }
}

fn names(ends: Ends, species: u32) -> bool
    ensures { result ≡ grammar.names ends species }
{
    match ends {
        Ends::Pair(a, b) => a == species || b == species,
        Ends::One(a) => a == species,
    }
}

// Whether one of the inputs names the species.
fn is_named(inputs: &[Ends], species: u32) -> bool
    ensures { result ≡ grammar.is_named inputs.now species }
{
    inputs.iter().any(|ends| names(*ends, species))
}

// Whether the input names no species that an earlier one names.
fn is_new(inputs: &[Ends], ends: Ends) -> bool
    ensures { result ≡ grammar.is_new inputs.now ends }
{
    match ends {
        Ends::Pair(a, b) => !is_named(inputs, a) && !is_named(inputs, b),
        Ends::One(a) => !is_named(inputs, a),
    }
}

// Whether some species is not named.
fn some_left(species: u32, inputs: &[Ends]) -> bool
    requires { species ≤ MOST_SPECIES }
    ensures { result ≡ grammar.some_left species inputs.now }
{
    for s in 1..species + 1 {
        if !is_named(inputs, s) {
            return true;
        }
    }
    false
}

// Whether one is left for the context, where there is to be one.
fn leaves_one(context: bool, species: u32, inputs: &[Ends]) -> bool
    requires { species ≤ MOST_SPECIES }
    ensures { result ≡ grammar.leaves_one context species inputs.now }
{
    if context {
        some_left(species, inputs)
    } else {
        true
    }
}

// One more input.
fn with_input(
    line: usize,
    rails: Rails,
    context: bool,
    species: u32,
    mut inputs: Vec<Ends>,
    ends: Ends,
) -> Result<Place, NetTextError>
    requires species { species ≤ MOST_SPECIES }
    requires few { length inputs.items ≤ MOST_INPUTS }
    ensures { Gives place_of result (judged grammar.limit line (grammar.with_input rails context species inputs.items ends)) }
{
    if !is_new(&inputs, ends) {
        return Err(NetTextError::Malformed { line });
    }
    inputs.push(ends)?;
    if !leaves_one(context, species, &inputs) {
        return Err(NetTextError::Malformed { line });
    }
    let count = inputs.len();
    if count > MOST_INPUTS {
        return Err(NetTextError::Limit {
            what: Counted::Inputs,
            count: count as u64,
        });
    }
    Ok(Place::Naming(rails, context, species, inputs))
}

// The context, and then the output.
#[tactic(auto, using(crn_token::proofs::LineLaws::rest_map))]
fn with_context(
    bytes: &[u8],
    line: usize,
    rails: Rails,
    species: u32,
    inputs: Vec<Ends>,
    tokens: &[Token],
) -> Result<Place, NetTextError>
    ensures { Gives place_of result (judged grammar.limit line (grammar.after_inputs rails true species inputs.items (map (plain_token bytes.now) tokens.now))) }
{
    if begins(bytes, tokens, b"context") {
        match one_of(bytes, species, rest_of(tokens)) {
            Some(context) => {
                if is_named(&inputs, context) {
                    Err(NetTextError::Malformed { line })
                } else {
                    Ok(Place::Placed(rails, species, inputs, context))
                }
            }
            None => Err(NetTextError::Malformed { line }),
        }
    } else {
        Err(NetTextError::Malformed { line })
    }
}

// The output, after which there is no reaction yet.
#[tactic(auto, using(crn_token::proofs::LineLaws::rest_map))]
fn with_output(
    alloc: Global,
    bytes: &[u8],
    line: usize,
    rails: Rails,
    species: u32,
    inputs: Vec<Ends>,
    context: Option<u32>,
    tokens: &[Token],
) -> Result<Place, NetTextError>
    ensures { Gives place_of result (judged grammar.limit line (grammar.with_output rails species inputs.items context (map (plain_token bytes.now) tokens.now))) }
{
    if begins(bytes, tokens, b"output") {
        match ends_of(bytes, rails, species, rest_of(tokens)) {
            Some(output) => Ok(Place::Closed(Parts {
                rails,
                species,
                reactions: Vec::new(alloc),
                inputs,
                output,
                context,
            })),
            None => Err(NetTextError::Malformed { line }),
        }
    } else {
        Err(NetTextError::Malformed { line })
    }
}

// One more input, or what comes after one input or more.
#[tactic(auto, using(crn_token::proofs::LineLaws::rest_map))]
fn naming(
    alloc: Global,
    bytes: &[u8],
    line: usize,
    rails: Rails,
    context: bool,
    species: u32,
    inputs: Vec<Ends>,
    tokens: &[Token],
) -> Result<Place, NetTextError>
    requires species { species ≤ MOST_SPECIES }
    requires few { length inputs.items ≤ MOST_INPUTS }
    ensures { Gives place_of result (judged grammar.limit line (grammar.naming rails context species inputs.items (map (plain_token bytes.now) tokens.now))) }
{
    if begins(bytes, tokens, b"input") {
        match ends_of(bytes, rails, species, rest_of(tokens)) {
            Some(ends) => with_input(line, rails, context, species, inputs, ends),
            None => Err(NetTextError::Malformed { line }),
        }
    } else if inputs.is_empty() {
        Err(NetTextError::Malformed { line })
    } else if context {
        with_context(bytes, line, rails, species, inputs, tokens)
    } else {
        with_output(alloc, bytes, line, rails, species, inputs, None, tokens)
    }
}

// The number of reactions.
#[tactic(auto, using(crn_token::proofs::LineLaws::rest_map))]
fn count(bytes: &[u8], line: usize, parts: Parts, tokens: &[Token]) -> Result<Place, NetTextError>
    requires { parts.reactions.items ≡ [] }
    ensures { Gives place_of result (judged grammar.limit line (grammar.count (network_of parts) (map (plain_token bytes.now) tokens.now))) }
{
    if begins(bytes, tokens, b"reactions") {
        match number_of(rest_of(tokens)) {
            Some(reactions) => {
                if reactions > MOST_REACTIONS {
                    return Err(NetTextError::Limit {
                        what: Counted::Reactions,
                        count: reactions,
                    });
                }
                Ok(Place::Listing(reactions as usize, parts))
            }
            None => Err(NetTextError::Malformed { line }),
        }
    } else {
        Err(NetTextError::Malformed { line })
    }
}

// One more reaction, where one is to come.
fn listing(
    alloc: Global,
    bytes: &[u8],
    line: usize,
    left: usize,
    mut parts: Parts,
    tokens: &[Token],
) -> Result<Place, NetTextError>
    requires { length parts.reactions.items + left ≤ MOST_REACTIONS }
    ensures { Gives place_of result (judged grammar.limit line (grammar.listing left (network_of parts) (map (plain_token bytes.now) tokens.now))) }
{
    if left == 0 {
        return Err(NetTextError::Malformed { line });
    }
    match reaction_of(alloc, bytes, parts.species, tokens)? {
        Some(reaction) => {
            parts.reactions.push(reaction)?;
            Ok(Place::Listing(left - 1, parts))
        }
        None => Err(NetTextError::Malformed { line }),
    }
}

// Parts that lines within the limits gave can only be refused for want of memory.
fn want_of_memory(error: NetworkError) -> TextError
    requires { error ≡ NetworkError.Memory }
    ensures { result ≡ TextError.Memory }
{
    prove!(matches!(error, NetworkError::Memory));
    TextError::Memory
}

impl Place {
    /// Whether the network is whole.
    pub fn is_whole(&self) -> bool
        ensures { result ≡ not (grammar.is_open (place_of self.now)) }
    {
        match self {
            Place::Listing(left, _) => *left == 0,
            _ => false,
        }
    }

    /// The place after one more line.
    pub fn after(
        self,
        alloc: Global,
        bytes: &[u8],
        line: usize,
        tokens: &[Token],
    ) -> Result<Place, NetTextError>
        requires { IsKept (place_of self) }
        ensures { Gives place_of result (judged grammar.limit line (grammar.follow (place_of self) (map (plain_token bytes.now) tokens.now))) }
    {
        match self {
            Place::Start => match title(bytes, tokens) {
                Some(place) => Ok(place),
                None => Err(NetTextError::Malformed { line }),
            },
            Place::Titled(rails, context) => size(alloc, bytes, line, rails, context, tokens),
            Place::Naming(rails, context, species, inputs) => {
                naming(alloc, bytes, line, rails, context, species, inputs, tokens)
            }
            Place::Placed(rails, species, inputs, context) => with_output(
                alloc,
                bytes,
                line,
                rails,
                species,
                inputs,
                Some(context),
                tokens,
            ),
            Place::Closed(parts) => count(bytes, line, parts, tokens),
            Place::Listing(left, parts) => listing(alloc, bytes, line, left, parts, tokens),
        }
    }

    /// The network, if the text may end here, before the line `end`.
    pub fn network(self, alloc: Global, end: usize) -> Result<Network, NetTextError>
        requires { IsKept (place_of self) }
        ensures { Gives (λ n. n) result (option_map_or (λ n. table.Read n) (grammar.whole (place_of self)) (table.Malformed end)) }
    {
        match self {
            Place::Listing(0, parts) => match Network::make(alloc, parts) {
                Ok(network) => Ok(network),
                Err(error) => Err(want_of_memory(error)),
            },
            _ => Err(NetTextError::Malformed { line: end }),
        }
    }
}
