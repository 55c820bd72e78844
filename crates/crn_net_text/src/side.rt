//! The species, parts, sides and reactions of a line.

ghost use Rattle.std.specs.Prelude.{ℕ, List, ◌≡◌, ◌+◌, ◌≤◌, ◌<◌, map, length, drop, IfOk, IfSome, if◌then◌else◌};
ghost use Rattle.std.specs.Option.{option_map, option_and_then};
ghost use Rattle.crn_token.specs.Plain.{plain_token};
ghost use Rattle.crn_net.specs.Views.{part_of, parts_of, reaction_of};
ghost use Rattle.crn_net_text.specs.Grammar as grammar;

use crate::words::{is_arrow, is_nothing, is_plus};
use crn_net::{Ends, Part, Rails, Reaction};
use crn_token::Token;
use crn_token::words::{after, begins, number_at, rest_of};
use std::alloc::{AllocError, Global};

// The species, if it is above `low` and up to the number of species.
fn within(low: u32, species: u32, number: u64) -> Option<u32>
    ensures value { result ≡ grammar.within low species number }
    ensures found { IfSome result (λ a. (low < a) × (a ≤ species)) }
{
    if u64::from(low) < number && number <= u64::from(species) {
        Some(number as u32)
    } else {
        None
    }
}

/// The species `Sa` that begins the tokens, if it is above `low` and there are so many species.
#[tactic(auto, using(crn_token::proofs::LineLaws::rest_map))]
pub fn species_at(bytes: &[u8], low: u32, species: u32, tokens: &[Token]) -> Option<u32>
    ensures value { result ≡ grammar.species_at low species (map (plain_token bytes.now) tokens.now) }
    ensures found { IfSome result (λ a. (low < a) × (a ≤ species)) }
{
    if begins(bytes, tokens, b"S") {
        match number_at(rest_of(tokens)) {
            Some(number) => within(low, species, number),
            None => None,
        }
    } else {
        None
    }
}

// The part that begins the tokens, and how many it has.
#[tactic(auto, using(crn_token::proofs::LineLaws::rest_map))]
fn part_at(bytes: &[u8], low: u32, species: u32, tokens: &[Token]) -> Option<(Part, usize)>
    ensures value { option_map (λ p. (part_of p.0, p.1)) result ≡ grammar.part_at low species (map (plain_token bytes.now) tokens.now) }
    ensures taken { IfSome result (λ p. (2 ≤ p.1) × (p.1 ≤ 3)) }
{
    match number_at(tokens) {
        Some(count) => {
            if count > 1 {
                match species_at(bytes, low, species, rest_of(tokens)) {
                    Some(species) => Some((
                        Part {
                            species,
                            count: count as i64,
                        },
                        3,
                    )),
                    None => None,
                }
            } else {
                None
            }
        }
        None => match species_at(bytes, low, species, tokens) {
            Some(species) => Some((Part { species, count: 1 }, 2)),
            None => None,
        },
    }
}

// The side that begins the tokens, and how many it has. It has no more parts than there are tokens.
fn side_at(
    alloc: Global,
    bytes: &[u8],
    species: u32,
    tokens: &[Token],
) -> Result<Option<(Vec<Part>, usize)>, AllocError>
    ensures { IfOk result (λ found. option_map (λ q. (parts_of q.0.items, q.1)) found ≡ grammar.side_at (length tokens.now) 0 species (map (plain_token bytes.now) tokens.now)) }
{
    let mut parts = Vec::new(alloc);
    let mut taken = 0;
    let mut low = 0;
    for _ in 0..tokens.len() {
        let rest = after(tokens, taken);
        match part_at(bytes, low, species, rest) {
            Some((part, size)) => {
                parts.push(part)?;
                low = part.species;
                if !is_plus(after(rest, size)) {
                    return Ok(Some((parts, taken + size)));
                }
                taken += size + 1;
            }
            None => return Ok(None),
        }
    }
    Ok(None)
}

// The side that is all the tokens.
fn side_of(
    alloc: Global,
    bytes: &[u8],
    species: u32,
    tokens: &[Token],
) -> Result<Option<Vec<Part>>, AllocError>
    ensures { IfOk result (λ found. option_map (λ v. parts_of v.items) found ≡ grammar.side_of species (map (plain_token bytes.now) tokens.now)) }
{
    match side_at(alloc, bytes, species, tokens)? {
        Some((parts, taken)) => {
            if taken == tokens.len() {
                Ok(Some(parts))
            } else {
                Ok(None)
            }
        }
        None => Ok(None),
    }
}

// What a reaction gives, by all the tokens.
fn gives_of(
    alloc: Global,
    bytes: &[u8],
    species: u32,
    tokens: &[Token],
) -> Result<Option<Vec<Part>>, AllocError>
    ensures { IfOk result (λ found. option_map (λ v. parts_of v.items) found ≡ grammar.gives_of species (map (plain_token bytes.now) tokens.now)) }
{
    if is_nothing(tokens) {
        Ok(Some(Vec::new(alloc)))
    } else {
        side_of(alloc, bytes, species, tokens)
    }
}

// The reaction that takes this, by the tokens from its arrow on.
#[tactic(auto, using(crn_token::proofs::LineLaws::rest_map))]
fn reaction_with(
    alloc: Global,
    bytes: &[u8],
    species: u32,
    takes: Vec<Part>,
    tokens: &[Token],
) -> Result<Option<Reaction>, AllocError>
    ensures { IfOk result (λ found. option_map reaction_of found ≡ grammar.reaction_with species (parts_of takes.items) (map (plain_token bytes.now) tokens.now)) }
{
    if !is_arrow(tokens) {
        return Ok(None);
    }
    match gives_of(alloc, bytes, species, rest_of(tokens))? {
        Some(gives) => Ok(Some(Reaction { takes, gives })),
        None => Ok(None),
    }
}

/// The reaction that is all the tokens.
pub fn reaction_of(
    alloc: Global,
    bytes: &[u8],
    species: u32,
    tokens: &[Token],
) -> Result<Option<Reaction>, AllocError>
    ensures { IfOk result (λ found. option_map reaction_of found ≡ grammar.reaction_of species (map (plain_token bytes.now) tokens.now)) }
{
    match side_at(alloc, bytes, species, tokens)? {
        Some((takes, taken)) => reaction_with(alloc, bytes, species, takes, after(tokens, taken)),
        None => Ok(None),
    }
}

/// The species that is all the tokens.
pub fn one_of(bytes: &[u8], species: u32, tokens: &[Token]) -> Option<u32>
    ensures { result ≡ grammar.one_of species (map (plain_token bytes.now) tokens.now) }
{
    if tokens.len() == 2 {
        species_at(bytes, 0, species, tokens)
    } else {
        None
    }
}

// This species and one other.
fn pair_with(bytes: &[u8], species: u32, first: u32, tokens: &[Token]) -> Option<Ends>
    ensures { result ≡ grammar.pair_with species first (map (plain_token bytes.now) tokens.now) }
{
    match one_of(bytes, species, tokens) {
        Some(second) => {
            if first == second {
                None
            } else {
                Some(Ends::Pair(first, second))
            }
        }
        None => None,
    }
}

// Two different species.
fn pair_of(bytes: &[u8], species: u32, tokens: &[Token]) -> Option<Ends>
    ensures { result ≡ grammar.pair_of species (map (plain_token bytes.now) tokens.now) }
{
    match species_at(bytes, 0, species, tokens) {
        Some(first) => pair_with(bytes, species, first, after(tokens, 2)),
        None => None,
    }
}

/// The input or output that is all the tokens.
pub fn ends_of(bytes: &[u8], rails: Rails, species: u32, tokens: &[Token]) -> Option<Ends>
    ensures { result ≡ grammar.ends_of rails species (map (plain_token bytes.now) tokens.now) }
{
    match rails {
        Rails::Dual => pair_of(bytes, species, tokens),
        Rails::Direct => match one_of(bytes, species, tokens) {
            Some(species) => Some(Ends::One(species)),
            None => None,
        },
    }
}
