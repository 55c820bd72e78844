//! Fan-out: each input, and the context, gives one of each of its copies.
ghost use Rattle.std.specs.Prelude.{◌≡◌, ◌+◌, ◌-◌, ◌<◌, ◌≤◌, length, Bool, IfOk, IfErr};
ghost use Rattle.crn_net.specs.Views.{parts_of, reactions_of};
ghost use Rattle.crn_gates.specs.FanOut as plain;
ghost use Rattle.crn_gates.specs.Pairs.{rails_of_uses, use_width, copies_after, AreUses};
ghost use Rattle.crn_gates.specs.Singles.{rails_after};
ghost use Rattle.crn_gates.specs.declared.BuildError.TheVariants.{TooLarge};

use crate::{BuildError, Copied, MOST_SPECIES, Pair, Rail, Use, with_new};
use crn_net::{Part, Reaction};
use std::alloc::{AllocError, Global};

impl Use {
    // How many rails a copy has.
    fn width(self) -> usize
        ensures { result ≡ use_width self }
    {
        match self {
            Use::Variable(_) => 2,
            Use::Context => 1,
        }
    }
}

/// How many species there are with the copies.
pub(crate) fn with_copies(species: u32, variables: usize, uses: &[Use]) -> Result<u32, BuildError>
    requires { species ≤ MOST_SPECIES }
    ensures value { IfOk result (λ n. (n ≡ species + length (rails_of_uses variables uses.now)) × (n ≤ MOST_SPECIES)) }
    ensures too_large { IfErr result (λ e. (e ≡ TooLarge) × (MOST_SPECIES < species + length (rails_of_uses variables uses.now))) }
{
    let mut last = species;
    for each in uses {
        last = with_new(last, each.width())?;
    }
    Ok(last)
}

/// The species that the rails of the copies are of, in the order of uses.
pub(crate) fn originals(
    alloc: Global,
    variables: usize,
    uses: &[Use],
) -> Result<Vec<usize>, AllocError>
    requires few { variables ≤ 8 }
    requires uses { (context : Bool) × AreUses variables context uses.now }
    ensures { IfOk result (λ v. v.items ≡ rails_of_uses variables uses.now) }
{
    let mut rails = Vec::new(alloc);
    for each in uses {
        match each {
            Use::Variable(number) => {
                rails.push(2 * *number - 1)?;
                rails.push(2 * *number)?;
            }
            Use::Context => rails.push(2 * variables + 1)?,
        }
    }
    Ok(rails)
}

/// A copy for each use, in the species after those that are there.
pub(crate) fn copies(
    alloc: Global,
    variables: usize,
    species: u32,
    uses: &[Use],
) -> Result<Vec<Copied>, AllocError>
    requires { species + length (rails_of_uses variables uses.now) ≤ MOST_SPECIES }
    ensures { IfOk result (λ v. v.items ≡ copies_after species uses.now) }
{
    let mut copies = Vec::with_capacity(alloc, uses.len())?;
    let mut last = species;
    for each in uses {
        match each {
            Use::Variable(_) => {
                copies.push(Copied::Both(Pair::of((last + 1, last + 2))))?;
                last += 2;
            }
            Use::Context => {
                copies.push(Copied::Single(Rail { species: last + 1 }))?;
                last += 1;
            }
        }
    }
    Ok(copies)
}

/// The rails of the species after those that are there, up to the last.
pub(crate) fn rails_after(alloc: Global, species: u32, last: u32) -> Result<Vec<Rail>, AllocError>
    requires { species ≤ last }
    ensures { IfOk result (λ v. v.items ≡ rails_after species (last - species)) }
{
    let mut rails = Vec::with_capacity(alloc, (last - species) as usize)?;
    for earlier in species..last {
        rails.push(Rail {
            species: earlier + 1,
        })?;
    }
    Ok(rails)
}

/// A reaction for each species that has a copy, ascending.
pub(crate) fn fan(
    alloc: Global,
    species: u32,
    originals: &[usize],
) -> Result<Vec<Reaction>, AllocError>
    requires { species + length originals.now ≤ MOST_SPECIES }
    ensures { IfOk result (λ v. reactions_of v.items ≡ plain.fans 1 species originals.now species) }
{
    let mut reactions = Vec::new(alloc);
    for earlier in 0..species {
        let gives = copies_of(alloc, earlier + 1, species, originals)?;
        if !gives.is_empty() {
            let taken = Part {
                species: earlier + 1,
                count: 1,
            };
            let takes = vec![in alloc; taken]?;
            reactions.push(Reaction { takes, gives })?;
        }
    }
    Ok(reactions)
}

// One of each copy of a rail.
fn copies_of(
    alloc: Global,
    rail: u32,
    species: u32,
    originals: &[usize],
) -> Result<Vec<Part>, AllocError>
    requires { species + length originals.now ≤ MOST_SPECIES }
    ensures { IfOk result (λ v. parts_of v.items ≡ plain.copies_of rail originals.now species) }
{
    let mut parts = Vec::new(alloc);
    for (index, original) in originals.iter().enumerate() {
        if *original == rail as usize {
            parts.push(Part {
                species: species + 1 + index as u32,
                count: 1,
            })?;
        }
    }
    Ok(parts)
}
