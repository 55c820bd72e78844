//! Which reactions take each species: one flat list, with one start per species.
ghost use Rattle.std.specs.Prelude.{◌≡◌, ℕ, suc, ◌+◌, ◌-◌, ◌<◌, ◌≤◌, ◌^◌, ◌++◌, List, length, slice_index, IfOk, OnOk};
ghost use Rattle.crn_net.specs.Views.{parts_of, reactions_of};
ghost use Rattle.crn_net.specs.Takers.{entries_of, entries_from, numbers_of, sum_upto, start_of, AreEntries, IsTable};

use crate::{Part, Reaction};
use std::alloc::{AllocError, Global};

// One reaction takes one species.
#[derive(Clone, Copy, Debug)]
pub(crate) struct Entry {
    species: u32,
    reaction: u32,
}

/// The takers of species s stand from place `starts[s - 1]` up to `starts[s]` of the numbers.
#[derive(Debug, Drop)]
pub(crate) struct Takers {
    pub(crate) starts: Vec<usize>,
    pub(crate) numbers: Vec<u32>,
}

// An entry for each part that the reaction of this number takes.
fn push_entries(number: u32, takes: &[Part], entries: &mut Vec<Entry>) -> Result<(), AllocError>
    ensures { OnOk result (entries.new.items ≡ entries.old.items ++ entries_of number (parts_of takes.now)) }
{
    for part in takes {
        entries.push(Entry {
            species: part.species,
            reaction: number,
        })?;
    }
    Ok(())
}

// The entries of all reactions, in their order.
fn entries(alloc: Global, reactions: &[Reaction]) -> Result<Vec<Entry>, AllocError>
    requires { length reactions.now < 2 ^ 32 }
    ensures { IfOk result (λ v. v.items ≡ entries_from 1 (reactions_of reactions.now)) }
{
    let mut entries = Vec::new(alloc);
    for (index, reaction) in reactions.iter().enumerate() {
        push_entries(index as u32 + 1, &reaction.takes, &mut entries)?;
    }
    Ok(entries)
}

// How many entries each species has, from species 0 on.
fn counts(alloc: Global, species: u32, entries: &[Entry]) -> Result<Vec<usize>, AllocError>
    requires { AreEntries species entries.now }
    ensures long { IfOk result (λ v. length v.items ≡ species + 1) }
    ensures counts { IfOk result (λ v. (s : ℕ) → s ≤ species → slice_index v.items s ≡ length (numbers_of s entries.now)) }
{
    let mut counts = vec![in alloc; 0; species as usize + 1]?;
    for entry in entries {
        counts[entry.species as usize] += 1;
    }
    Ok(counts)
}

// Where the entries of each species end, from the counts.
fn add_up(counts: &mut [usize])
    requires { (s : ℕ) → s < length counts.old → sum_upto (λ k. slice_index counts.old k) s < 2 ^ 64 }
    ensures { (s : ℕ) → s < length counts.old → slice_index counts.new s ≡ sum_upto (λ k. slice_index counts.old k) s }
{
    for species in 1..counts.len() {
        counts[species] += counts[species - 1];
    }
}

// The reactions of the entries, those of each species from its start on.
fn numbers(alloc: Global, starts: &[usize], entries: &[Entry]) -> Result<Vec<u32>, AllocError>
    requires some { 0 < length starts.now }
    requires entries { AreEntries (length starts.now - 1) entries.now }
    requires starts { (s : ℕ) → s < length starts.now → slice_index starts.now s ≡ start_of entries.now s }
    ensures long { IfOk result (λ v. (s : ℕ) → s < length starts.now → slice_index starts.now s ≤ length v.items) }
    ensures numbers { IfOk result (λ v. (s j : ℕ) → suc s < length starts.now → j < length (numbers_of (suc s) entries.now) → slice_index v.items (slice_index starts.now s + j) ≡ slice_index (numbers_of (suc s) entries.now) j) }
{
    let mut numbers = vec![in alloc; 0; starts[starts.len() - 1]]?;
    let mut next = Vec::from_slice(alloc, starts)?;
    for entry in entries {
        let place = entry.species as usize - 1;
        numbers[next[place]] = entry.reaction;
        next[place] += 1;
    }
    Ok(numbers)
}

impl Takers {
    /// The table of a network of these reactions.
    pub(crate) fn of(
        alloc: Global,
        species: u32,
        reactions: &[Reaction],
    ) -> Result<Takers, AllocError>
        requires few { length reactions.now < 2 ^ 32 }
        requires species { species < 2 ^ 31 }
        requires entries { AreEntries species (entries_from 1 (reactions_of reactions.now)) }
        ensures { IfOk result (λ t. IsTable species (λ s. numbers_of s (entries_from 1 (reactions_of reactions.now))) t.starts.items t.numbers.items) }
    {
        let entries = entries(alloc, reactions)?;
        let mut starts = counts(alloc, species, &entries)?;
        add_up(&mut starts);
        let numbers = numbers(alloc, &starts, &entries)?;
        Ok(Takers { starts, numbers })
    }

    /// The reactions that take a species.
    pub(crate) fn at(&self, species: u32) -> &[u32]
        requires low { 1 ≤ species }
        requires table { (n : ℕ) × (listed : ℕ → List ℕ) × (species ≤ n) × IsTable n listed self.now.starts.items self.now.numbers.items }
        ensures { (n : ℕ) (listed : ℕ → List ℕ) → IsTable n listed self.now.starts.items self.now.numbers.items → species ≤ n → result.now ≡ listed species }
    {
        let place = species as usize;
        &self.numbers[self.starts[place - 1]..self.starts[place]]
    }
}
