//! The sums of a step: of the species that its reactions have on a side, each with the amounts that flows add, in room that was made before.
ghost use Rattle.std.specs.Prelude.{◌≡◌, ◌≢◌, ◌≤◌, ◌==◌, ℕ, List, [], drop, length, replicate, pos, Some, IfOk};
ghost use Rattle.std.specs.Vec.{vec_capacity};
ghost use Rattle.crn_segments.specs.declared.work.Mark.TheVariants.{Untouched};
ghost use Rattle.crn_fraction.specs.Rational.{ℚ, 0ℚ, ◌*ℚ◌, ◌≤ℚ◌, whole};
ghost use Rattle.crn_net.specs.Network.{IsReaction, IsNotNegative, AreParts, AreFlows, amount, count_of};
ghost use Rattle.crn_net.specs.Limits.{IsWithinLimits};
ghost use Rattle.crn_net.specs.Totals.{change};
ghost use Rattle.crn_net.specs.Views.{parts_of, reaction_of};
ghost use Rattle.crn_segments.specs.Fits.{flows_with, is_on_side};
ghost use Rattle.crn_segments.specs.Step.{Answers, IsSide, first_refusal};
ghost use Rattle.crn_segments.specs.Sums.{mark_of, IsRoom, IsReady, sum_in, sum_with, sum_where, sum_from, refusal_in, IsLeastRefused, gained, is_new};

use crate::{State, StepError, is_negative};
use crn_fraction::Frac;
use crn_net::{Flow, Network, Part, Reaction};
use std::alloc::{AllocError, Global};

// Whether a species has a sum of its own, and whether that fits.
#[derive(Clone, Copy, Debug)]
pub(crate) enum Mark {
    Untouched,
    Fits,
    TooBig,
}

// The sums of a step, of the species that its reactions have on a side. Every other species has its amount as its sum.
#[derive(Debug, Drop)]
pub(crate) struct Sums {
    marks: Vec<Mark>,
    // The sum of each species that is marked as fitting.
    next: Vec<Frac>,
    // The marked species, each once.
    touched: Vec<u32>,
}

impl Sums {
    pub(crate) fn new(alloc: Global, species: u32) -> Result<Sums, AllocError>
        ensures marks { IfOk result (λ k. k.marks.items ≡ replicate species Untouched) }
        ensures next { IfOk result (λ k. length k.next.items ≡ species) }
        ensures touched { IfOk result (λ k. k.touched.items ≡ []) }
        ensures room { IfOk result (λ k. species ≤ vec_capacity k.touched) }
    {
        Ok(Sums {
            marks: vec![in alloc; Mark::Untouched; species as usize]?,
            next: vec![in alloc; Frac::ZERO; species as usize]?,
            touched: Vec::with_capacity(alloc, species as usize)?,
        })
    }

    // Begins the sum of a species with its amount.
    fn touch(&mut self, species: u32, state: &State)
        requires low { 1 ≤ species }
        requires high { species ≤ length state.now }
        requires room { IsRoom (length state.now) self.old }
        ensures room { IsRoom (length state.now) self.new }
        ensures same { (s : ℕ) → sum_in self.new state.now s ≡ sum_in self.old state.now s }
        ensures marked { mark_of self.new.marks.items species ≢ Untouched }
    {
        let place = species as usize - 1;
        if let Mark::Untouched = self.marks[place] {
            self.marks[place] = Mark::Fits;
            self.next[place] = state.amount(species);
            self.touched.push_reserved(species);
        }
    }

    // Adds a product to the sum of a species.
    fn add(&mut self, species: u32, flux: Frac, gain: i64, state: &State)
        requires low { 1 ≤ species }
        requires high { species ≤ length state.now }
        requires room { IsRoom (length state.now) self.old }
        ensures room { IsRoom (length state.now) self.new }
        ensures sums { (s : ℕ) → sum_in self.new state.now s ≡ sum_where (species == s) (flux *ℚ whole gain) (sum_in self.old state.now s) }
    {
        self.touch(species, state);
        let place = species as usize - 1;
        if let Mark::Fits = self.marks[place] {
            match sum_with(self.next[place], flux, gain) {
                Some(sum) => self.next[place] = sum,
                None => self.marks[place] = Mark::TooBig,
            }
        }
    }

    // Adds what a flow of the reaction changes of each species of the parts that is not among those seen.
    fn add_side(
        &mut self,
        parts: &[Part],
        seen: &[Part],
        reaction: &Reaction,
        flux: Frac,
        state: &State,
    )
        requires parts { AreParts 0 (length state.now) (parts_of parts.now) }
        requires seen { IsSide (parts_of seen.now) }
        requires reaction { (n : ℕ) × IsReaction n (reaction_of reaction.now) }
        requires room { IsRoom (length state.now) self.old }
        ensures room { IsRoom (length state.now) self.new }
        ensures sums { (s : ℕ) → sum_in self.new state.now s ≡ sum_where (is_new (parts_of parts.now) (parts_of seen.now) s) (gained (reaction_of reaction.now) flux s) (sum_in self.old state.now s) }
    {
        let (mut seen_from, mut gives_from, mut takes_from) = (0, 0, 0);
        for part in parts {
            if count_from(seen, &mut seen_from, part.species) == 0 {
                let given = count_from(&reaction.gives, &mut gives_from, part.species);
                let taken = count_from(&reaction.takes, &mut takes_from, part.species);
                self.add(part.species, flux, given - taken, state);
            }
        }
    }

    // Adds what a flow changes.
    fn add_flow(&mut self, network: &Network, flow: Flow, state: &State)
        requires low { 1 ≤ flow.reaction }
        requires high { flow.reaction ≤ length network.now.reactions }
        requires limits { IsWithinLimits network.now }
        requires long { length state.now ≡ network.now.species }
        requires room { IsRoom (length state.now) self.old }
        ensures room { IsRoom (length state.now) self.new }
        ensures sums { (s : ℕ) → sum_in self.new state.now s ≡ sum_where (is_on_side network.now flow.reaction s) (change network.now s flow.reaction *ℚ flow.flux) (sum_in self.old state.now s) }
    {
        let reaction = network.reaction(flow.reaction as u32);
        self.add_side(&reaction.takes, &[], reaction, flow.flux, state);
        self.add_side(&reaction.gives, &reaction.takes, reaction, flow.flux, state);
    }

    // Adds what each flow changes, one after another.
    pub(crate) fn add_flows(&mut self, network: &Network, flows: &[Flow], state: &State)
        requires exist { AreFlows (length network.now.reactions) flows.now }
        requires limits { IsWithinLimits network.now }
        requires long { length state.now ≡ network.now.species }
        requires room { IsRoom (length state.now) self.old }
        ensures room { IsRoom (length state.now) self.new }
        ensures sums { (s : ℕ) → sum_in self.new state.now s ≡ sum_from (change network.now s) (sum_in self.old state.now s) (flows_with network.now s flows.now) }
    {
        for flow in flows {
            self.add_flow(network, *flow, state);
        }
    }

    // Why the sum of a species is refused.
    fn refusal_of(&self, species: u32) -> Option<StepError>
        requires low { 1 ≤ species }
        requires high { species ≤ length self.now.marks.items }
        requires long { length self.now.next.items ≡ length self.now.marks.items }
        ensures { result ≡ refusal_in self.now species }
    {
        let place = species as usize - 1;
        match self.marks[place] {
            Mark::Untouched => None,
            Mark::Fits => is_negative(self.next[place]).then_some(StepError::TakesMore { species }),
            Mark::TooBig => Some(StepError::TooBig { species }),
        }
    }

    // The least species that is refused, or one above all.
    fn least_refused(&self, count: u32) -> u32
        requires few { count ≤ 65536 }
        requires room { IsRoom count self.now }
        ensures { IsLeastRefused count self.now result }
    {
        let mut least = count + 1;
        for species in &self.touched {
            if *species < least && self.refusal_of(*species).is_some() {
                least = *species;
            }
        }
        least
    }

    // The refusal of the least of so many species that is refused.
    pub(crate) fn check(&self, count: u32) -> Result<(), StepError>
        requires few { count ≤ 65536 }
        requires room { IsRoom count self.now }
        ensures { (c : List ℚ) → IsNotNegative c → Answers result (first_refusal (sum_in self.now c) 1 count) }
    {
        let least = self.least_refused(count);
        if least > count {
            return Ok(());
        }
        match self.refusal_of(least) {
            Some(error) => Err(error),
            None => Ok(()),
        }
    }

    // Writes the sums into the state.
    pub(crate) fn settle(&mut self, state: &mut State)
        requires room { IsRoom (length state.old) self.old }
        requires sums { (s : ℕ) → 1 ≤ s → s ≤ length state.old → (b : ℚ) × (sum_in self.old state.old s ≡ Some b) × (0ℚ ≤ℚ b) }
        ensures ready { IsReady (length state.old) self.new }
        ensures long { length state.new ≡ length state.old }
        ensures sums { (s : ℕ) → sum_in self.old state.old s ≡ Some (amount state.new s) }
    {
        while let Some(species) = self.touched.pop() {
            let place = species as usize - 1;
            if let Mark::Fits = self.marks[place] {
                state.set(species, self.next[place]);
            }
            self.marks[place] = Mark::Untouched;
        }
    }

    // Forgets the sums.
    pub(crate) fn clear(&mut self)
        requires { IsRoom (length self.old.marks.items) self.old }
        ensures { IsReady (length self.old.marks.items) self.new }
    {
        while let Some(species) = self.touched.pop() {
            self.marks[species as usize - 1] = Mark::Untouched;
        }
    }
}

// The sum with a product added, where both fit.
fn sum_with(sum: Frac, flux: Frac, gain: i64) -> Option<Frac>
    ensures { result ≡ sum_with (flux *ℚ whole gain) (Some sum) }
{
    let Ok(product) = flux.times(gain) else {
        return None;
    };
    let Ok(next) = sum.add(product) else {
        return None;
    };
    Some(next)
}

// How many of the species the parts have from a place on. The place moves on to the species, so that ascending species are counted in one walk.
fn count_from(parts: &[Part], from: &mut usize, species: u32) -> i64
    requires { IsSide (parts_of (drop from.old parts.now)) }
    ensures count { result ≡ pos (count_of (parts_of (drop from.old parts.now)) species) }
    ensures side { IsSide (parts_of (drop from.new parts.now)) }
    ensures later { (t : ℕ) → species ≤ t → count_of (parts_of (drop from.new parts.now)) t ≡ count_of (parts_of (drop from.old parts.now)) t }
{
    while let Some(part) = parts.get(*from) {
        if part.species > species {
            return 0;
        }
        if part.species == species {
            return part.count;
        }
        *from += 1;
    }
    0
}
