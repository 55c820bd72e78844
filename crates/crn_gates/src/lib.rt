//! Gates: tables of reactions, and what they do where they are stamped into a network.
//!
//! A `Builder` makes a network gate by gate. It hands out rails, which are species that no reaction takes yet, and each call moves the rails of its operands
//! into one gate and hands out the rails that the gate makes. So no species is taken by two reactions, and each reaction that gives a species stands before
//! the one that takes it: the network feeds forward, and each gate's value law holds whatever is built on it.
#![tactic(auto)]

ghost use Rattle.std.specs.Prelude.{◌≡◌, ◌≢◌, suc, ◌+◌, ◌^◌, ◌<◌, ◌≤◌, ◌↔◌, ◌∷◌, ◌++◌, [], length, map, IsTrue, IfOk, IfErr, OnOk, IsErrOf, IsOkUnless};
ghost use Rattle.std.specs.List.{All};
ghost use Rattle.crn_fraction.specs.Rational.{0ℚ, ◌+ℚ◌, ◌-ℚ◌, ◌*ℚ◌, ◌<ℚ◌, min_ℚ, max_ℚ};
ghost use Rattle.crn_net.specs.Network.{IsEnds, IsFeedForward, amount};
ghost use Rattle.crn_net.specs.Limits.{IsValid};
ghost use Rattle.crn_net.specs.declared.Rails.TheVariants as kind;
ghost use Rattle.crn_net.specs.declared.Ends.TheVariants as ends;
ghost use Rattle.crn_gates.specs.Gates.{stamped, width_of, factor_of, add_table, sub_table, min_table, max_table, scale_table, leaf_table, leaf_one_table, min_one_table};
ghost use Rattle.crn_gates.specs.FanOut.{fanned};
ghost use Rattle.crn_gates.specs.Building.{IsSound, IsFree, AllFree};
ghost use Rattle.crn_gates.specs.Stamps.{reactions_at};
ghost use Rattle.crn_net.specs.Views.{natural, reactions_of};
ghost use Rattle.crn_gates.specs.Pairs.{reactions_of_terms, rails_of_pair, rails_of_pairs, rails_of_copies, rails_of_terms, rails_of_uses, operands_of, pair_after, copies_after, value_of, value_of_factored, AreUses, AreCopies};
ghost use Rattle.crn_gates.specs.Singles.{rails_of_singles, factors_of_singles, value_of_singles, reactions_of_singles, rails_after, ascending};
ghost use Rattle.crn_gates.specs.Drafts.{begun, width_before, inputs_of as ends_of, network_of_draft};
ghost use Rattle.crn_net.specs.declared.NetworkError.TheVariants as refusal;
ghost use Rattle.crn_gates.specs.Calls.{Moves, IsMade};
ghost use Rattle.crn_gates.specs.declared.BuildError.TheVariants.{TooLarge, Memory};

use crn_fraction::Frac;
use crn_net::{Ends, Network, NetworkError, Parts, Rails, Reaction};
use fan::{copies, fan, originals, rails_after, with_copies};
pub use gated::GatedBuilder;
use stamp::{
    ADD, Gate, MAX, MIN, MIN_ONE, NONE, Ratio, SUB, Slots, stamp, stamp_pair, stamp_rail,
    stamp_single,
};
use std::alloc::{AllocError, Global};
use std::marker::Model;
use thiserror::Error;

mod fan;
mod gated;
pub mod laws;
mod stamp;

// A table on two pairs, that makes its pair at once or with two species between.
macro_rules! of_pairs {
    ($builder:ident, $gate:ident, $a:ident, $b:ident) => {{
        let slots = Slots {
            a: $a.species(),
            b: $b.species(),
            inner: NONE,
            made: ($builder.species + 1, $builder.species + 2),
        };
        $builder.stamped(&$gate, slots, Ratio::ONE, 2)
    }};
    ($builder:ident, $gate:ident, $a:ident, $b:ident, between) => {{
        let slots = Slots {
            a: $a.species(),
            b: $b.species(),
            inner: ($builder.species + 1, $builder.species + 2),
            made: ($builder.species + 3, $builder.species + 4),
        };
        $builder.stamped(&$gate, slots, Ratio::ONE, 4)
    }};
}

/// The greatest number of species of a network.
pub const MOST_SPECIES: u32 = 65_536;

/// A species that no reaction takes yet. A rail is moved into exactly one gate.
#[derive(Debug, Drop)]
pub struct Rail {
    species: u32,
}

impl Model for Rail {
    ghost use Rattle.std.specs.Prelude.{ℕ};

    ghost Value = { ℕ };

    ghost view = { λ r. r.species };
}

/// A number as the difference of the amounts of two species.
#[derive(Debug, Drop)]
pub struct Pair {
    pub plus: Rail,
    pub minus: Rail,
}

/// What a copy is of. Variables are numbered from 1.
#[derive(Clone, Copy, Debug, PartialEq, Eq)]
pub enum Use {
    /// The variable of this number.
    Variable(usize),
    /// The context species, which begins with the amount 1.
    Context,
}

/// A copy: both rails of a variable, or the context's one.
#[derive(Debug, Drop)]
pub enum Copied {
    /// Of a variable.
    Both(Pair),
    /// Of the context.
    Single(Rail),
}

/// Why a builder goes no further. It is dropped then, and so are the rails that were moved into the call.
#[derive(Clone, Copy, Debug, PartialEq, Eq, Error)]
pub enum BuildError {
    /// The network would have more than 65,536 species.
    #[error("more than 65536 species")]
    TooLarge,
    /// Memory ran out.
    #[error("out of memory")]
    Memory,
}

impl From<AllocError> for BuildError {
    ghost use Rattle.crn_gates.specs.declared.BuildError.TheVariants.{Memory};

    ghost from_gives = { λ _ e. e ≡ Memory };

    fn from(_e: AllocError) -> BuildError {
        BuildError::Memory
    }
}

/// A network in the making.
#[derive(Debug, Drop)]
pub struct Builder {
    alloc: Global,
    rails: Rails,
    inputs: Vec<Ends>,
    context: bool,
    species: u32,
    reactions: Vec<Reaction>,
}

impl Model for Builder {
    ghost use Rattle.std.specs.Prelude.{◌≡◌, length};
    ghost use Rattle.crn_net.specs.Views.{reactions_of};
    ghost use Rattle.crn_gates.specs.Drafts.{Draft, IsDraft, inputs_of};

    ghost Value = { Draft };

    ghost view = { λ b. record { rails = b.rails; variables = length b.inputs.items; context = b.context; built = record { species = b.species; reactions = reactions_of b.reactions.items } } };

    ghost invariant = { λ b. (b.inputs.items ≡ inputs_of b.rails (length b.inputs.items)) × IsDraft (record { rails = b.rails; variables = length b.inputs.items; context = b.context; built = record { species = b.species; reactions = reactions_of b.reactions.items } }) };
}

impl Builder {
    /// A network of the inputs alone, and of the context where there is one.
    pub fn new(
        alloc: Global,
        rails: Rails,
        variables: usize,
        context: bool,
    ) -> Result<Builder, BuildError>
        requires low { 1 ≤ variables }
        requires high { variables ≤ 8 }
        requires direct { rails ≡ kind.Direct → IsTrue context → ⊥ }
        ensures begun { IfOk result (λ b. b ≡ begun rails variables context) }
        ensures refused { IsOkUnless result Memory }
    {
        let inputs = inputs_of(alloc, rails, variables)?;
        Ok(Builder {
            alloc,
            rails,
            inputs,
            context,
            species: width_before(rails, variables, context),
            reactions: Vec::new(alloc),
        })
    }

    /// A copy for each use, in the order of uses. Copies are numbered in that order, of a variable plus before minus.
    pub fn fan_out(self, uses: &[Use]) -> Result<(Builder, Vec<Copied>), BuildError>
        requires dual { self.rails ≡ kind.Dual }
        requires first { self ≡ begun self.rails self.variables self.context }
        requires uses { AreUses self.variables self.context uses.now }
        ensures network { IfOk result (λ r. r.0 ≡ record self { built = fanned self.built.species (rails_of_uses self.variables uses.now) }) }
        ensures copies { IfOk result (λ r. r.1.items ≡ copies_after self.built.species uses.now) }
        ensures rails { IfOk result (λ r. Moves self.built r.0.built (rails_of_uses self.variables uses.now) (rails_of_copies r.1.items)) }
        ensures value { IfOk result (λ r. IsMade self.built.species r.0.built (λ a m. AreCopies self.variables (amount a) uses.now r.1.items m)) }
        ensures too_large { IsErrOf result TooLarge ↔ (MOST_SPECIES < self.built.species + length (rails_of_uses self.variables uses.now)) }
    {
        let Builder {
            alloc,
            rails,
            inputs,
            context,
            species,
            ..
        } = self;
        let variables = inputs.len();
        let last = with_copies(species, variables, uses)?;
        let reactions = fan(alloc, species, &originals(alloc, variables, uses)?)?;
        let copies = copies(alloc, variables, species, uses)?;
        let builder = Builder {
            alloc,
            rails,
            inputs,
            context,
            species: last,
            reactions,
        };
        Ok((builder, copies))
    }

    /// The sum of the terms, each a factor times a copy.
    pub fn leaf(self, terms: Vec<(Frac, Copied)>) -> Result<(Builder, Pair), BuildError>
        requires factors { All (λ t. t.0 ≢ 0ℚ) terms.items }
        requires free { AllFree self.built (rails_of_terms terms.items) }
        ensures network { IfOk result (λ r. r.0 ≡ record self { built = stamped (rails_of_terms terms.items) 2 (leaf_table (operands_of terms.items)) self.built }) }
        ensures pair { IfOk result (λ r. r.1 ≡ pair_after self.built.species) }
        ensures rails { IfOk result (λ r. Moves self.built r.0.built (rails_of_terms terms.items) (rails_of_pair r.1)) }
        ensures value { IfOk result (λ r. IsMade self.built.species r.0.built (λ _ m. value_of r.1 m ≡ value_of_factored terms.items m)) }
        ensures too_large { IsErrOf result TooLarge ↔ (MOST_SPECIES < self.built.species + 2) }
    {
        let Builder {
            alloc,
            rails,
            inputs,
            context,
            species,
            mut reactions,
        } = self;
        let species = with_new(species, 2)?;
        let made = (species - 1, species);
        stamp_terms(alloc, &terms, made, &mut reactions)?;
        let builder = Builder {
            alloc,
            rails,
            inputs,
            context,
            species,
            reactions,
        };
        Ok((builder, Pair::of(made)))
    }

    /// A factor times a pair. A negative one exchanges plus and minus.
    pub fn scale(self, factor: Frac, a: Pair) -> Result<(Builder, Pair), BuildError>
        requires { AllFree self.built (rails_of_pair a) }
        ensures network { IfOk result (λ r. r.0 ≡ record self { built = stamped (rails_of_pair a) 2 (scale_table (factor_of factor)) self.built }) }
        ensures pair { IfOk result (λ r. r.1 ≡ pair_after self.built.species) }
        ensures rails { IfOk result (λ r. Moves self.built r.0.built (rails_of_pair a) (rails_of_pair r.1)) }
        ensures value { IfOk result (λ r. IsMade self.built.species r.0.built (λ _ m. value_of r.1 m ≡ factor *ℚ value_of a m)) }
        ensures too_large { IsErrOf result TooLarge ↔ (MOST_SPECIES < self.built.species + 2) }
    {
        let Builder {
            alloc,
            rails,
            inputs,
            context,
            species,
            mut reactions,
        } = self;
        let species = with_new(species, 2)?;
        let made = (species - 1, species);
        stamp_pair(alloc, factor, a.species(), made, &mut reactions)?;
        let builder = Builder {
            alloc,
            rails,
            inputs,
            context,
            species,
            reactions,
        };
        Ok((builder, Pair::of(made)))
    }

    /// The sum of two pairs.
    pub fn add(self, a: Pair, b: Pair) -> Result<(Builder, Pair), BuildError>
        requires { AllFree self.built (rails_of_pairs a b) }
        ensures network { IfOk result (λ r. r.0 ≡ record self { built = stamped (rails_of_pairs a b) 2 add_table self.built }) }
        ensures pair { IfOk result (λ r. r.1 ≡ pair_after self.built.species) }
        ensures rails { IfOk result (λ r. Moves self.built r.0.built (rails_of_pairs a b) (rails_of_pair r.1)) }
        ensures value { IfOk result (λ r. IsMade self.built.species r.0.built (λ _ m. value_of r.1 m ≡ value_of a m +ℚ value_of b m)) }
        ensures too_large { IsErrOf result TooLarge ↔ (MOST_SPECIES < self.built.species + 2) }
    {
        of_pairs!(self, ADD, a, b)
    }

    /// The difference of two pairs.
    pub fn sub(self, a: Pair, b: Pair) -> Result<(Builder, Pair), BuildError>
        requires { AllFree self.built (rails_of_pairs a b) }
        ensures network { IfOk result (λ r. r.0 ≡ record self { built = stamped (rails_of_pairs a b) 2 sub_table self.built }) }
        ensures pair { IfOk result (λ r. r.1 ≡ pair_after self.built.species) }
        ensures rails { IfOk result (λ r. Moves self.built r.0.built (rails_of_pairs a b) (rails_of_pair r.1)) }
        ensures value { IfOk result (λ r. IsMade self.built.species r.0.built (λ _ m. value_of r.1 m ≡ value_of a m -ℚ value_of b m)) }
        ensures too_large { IsErrOf result TooLarge ↔ (MOST_SPECIES < self.built.species + 2) }
    {
        of_pairs!(self, SUB, a, b)
    }

    /// The lesser of two pairs. Two more new species come before those of the pair.
    pub fn min(self, a: Pair, b: Pair) -> Result<(Builder, Pair), BuildError>
        requires { AllFree self.built (rails_of_pairs a b) }
        ensures network { IfOk result (λ r. r.0 ≡ record self { built = stamped (rails_of_pairs a b) 4 min_table self.built }) }
        ensures pair { IfOk result (λ r. r.1 ≡ pair_after (self.built.species + 2)) }
        ensures rails { IfOk result (λ r. Moves self.built r.0.built (rails_of_pairs a b) (rails_of_pair r.1)) }
        ensures value { IfOk result (λ r. IsMade self.built.species r.0.built (λ _ m. value_of r.1 m ≡ min_ℚ (value_of a m) (value_of b m))) }
        ensures too_large { IsErrOf result TooLarge ↔ (MOST_SPECIES < self.built.species + 4) }
    {
        of_pairs!(self, MIN, a, b, between)
    }

    /// The greater of two pairs. Two more new species come before those of the pair.
    pub fn max(self, a: Pair, b: Pair) -> Result<(Builder, Pair), BuildError>
        requires { AllFree self.built (rails_of_pairs a b) }
        ensures network { IfOk result (λ r. r.0 ≡ record self { built = stamped (rails_of_pairs a b) 4 max_table self.built }) }
        ensures pair { IfOk result (λ r. r.1 ≡ pair_after (self.built.species + 2)) }
        ensures rails { IfOk result (λ r. Moves self.built r.0.built (rails_of_pairs a b) (rails_of_pair r.1)) }
        ensures value { IfOk result (λ r. IsMade self.built.species r.0.built (λ _ m. value_of r.1 m ≡ max_ℚ (value_of a m) (value_of b m))) }
        ensures too_large { IsErrOf result TooLarge ↔ (MOST_SPECIES < self.built.species + 4) }
    {
        of_pairs!(self, MAX, a, b, between)
    }

    /// The network, with this pair as its output. It feeds forward.
    pub fn close(self, output: Pair) -> Result<Network, AllocError>
        requires dual { self.rails ≡ kind.Dual }
        requires free { AllFree self.built (rails_of_pair output) }
        ensures network { IfOk result (λ n. n ≡ network_of_draft self (ends.Pair output.plus output.minus)) }
        ensures valid { IfOk result IsValid }
        ensures feed_forward { IfOk result IsFeedForward }
    {
        self.with_output(Ends::Pair(output.plus.species, output.minus.species))
    }
}

// Networks of single rails.
impl Builder {
    /// A copy for each use, which is the number of a variable, in the order of uses.
    pub fn fan_out_one(self, uses: &[usize]) -> Result<(Builder, Vec<Rail>), BuildError>
        requires direct { self.rails ≡ kind.Direct }
        requires first { self ≡ begun self.rails self.variables self.context }
        requires uses { All (λ v. (1 ≤ v) × (v ≤ self.variables)) uses.now }
        ensures network { IfOk result (λ r. r.0 ≡ record self { built = fanned self.built.species uses.now }) }
        ensures copies { IfOk result (λ r. r.1.items ≡ rails_after self.built.species (length uses.now)) }
        ensures rails { IfOk result (λ r. Moves self.built r.0.built uses.now r.1.items) }
        ensures value { IfOk result (λ r. IsMade self.built.species r.0.built (λ a m. map m r.1.items ≡ map (amount a) uses.now)) }
        ensures too_large { IsErrOf result TooLarge ↔ (MOST_SPECIES < self.built.species + length uses.now) }
    {
        let Builder {
            alloc,
            rails,
            inputs,
            context,
            species,
            ..
        } = self;
        let last = with_new(species, uses.len())?;
        let reactions = fan(alloc, species, uses)?;
        let copies = rails_after(alloc, species, last)?;
        let builder = Builder {
            alloc,
            rails,
            inputs,
            context,
            species: last,
            reactions,
        };
        Ok((builder, copies))
    }

    /// The sum of the terms, each a positive factor times a rail.
    pub fn leaf_one(self, terms: Vec<(Frac, Rail)>) -> Result<(Builder, Rail), BuildError>
        requires factors { All (λ t. 0ℚ <ℚ t.0) terms.items }
        requires free { AllFree self.built (rails_of_singles terms.items) }
        ensures network { IfOk result (λ r. r.0 ≡ record self { built = stamped (rails_of_singles terms.items) 1 (leaf_one_table (factors_of_singles terms.items)) self.built }) }
        ensures rail { IfOk result (λ r. r.1 ≡ suc self.built.species) }
        ensures rails { IfOk result (λ r. Moves self.built r.0.built (rails_of_singles terms.items) (r.1 ∷ [])) }
        ensures value { IfOk result (λ r. IsMade self.built.species r.0.built (λ _ m. m r.1 ≡ value_of_singles terms.items m)) }
        ensures too_large { IsErrOf result TooLarge ↔ (MOST_SPECIES < self.built.species + 1) }
    {
        let Builder {
            alloc,
            rails,
            inputs,
            context,
            species,
            mut reactions,
        } = self;
        let species = with_new(species, 1)?;
        stamp_singles(alloc, &terms, species, &mut reactions)?;
        let builder = Builder {
            alloc,
            rails,
            inputs,
            context,
            species,
            reactions,
        };
        Ok((builder, Rail { species }))
    }

    /// The lesser of two rails.
    pub fn min_one(self, a: Rail, b: Rail) -> Result<(Builder, Rail), BuildError>
        requires { AllFree self.built (a ∷ b ∷ []) }
        ensures network { IfOk result (λ r. r.0 ≡ record self { built = stamped (ascending a b) 1 min_one_table self.built }) }
        ensures rail { IfOk result (λ r. r.1 ≡ suc self.built.species) }
        ensures rails { IfOk result (λ r. Moves self.built r.0.built (a ∷ b ∷ []) (r.1 ∷ [])) }
        ensures value { IfOk result (λ r. IsMade self.built.species r.0.built (λ _ m. m r.1 ≡ min_ℚ (m a) (m b))) }
        ensures too_large { IsErrOf result TooLarge ↔ (MOST_SPECIES < self.built.species + 1) }
    {
        // The slots of a table's sides ascend, and so do the species in them.
        let slots = Slots {
            a: (a.species.min(b.species), 0),
            b: (a.species.max(b.species), 0),
            inner: NONE,
            made: (self.species + 1, 0),
        };
        let builder = self.with_table(&MIN_ONE, slots, Ratio::ONE, 1)?;
        Ok((
            builder,
            Rail {
                species: slots.made.0,
            },
        ))
    }

    /// The network, with this rail as its output. It feeds forward.
    pub fn close_one(self, output: Rail) -> Result<Network, AllocError>
        requires direct { self.rails ≡ kind.Direct }
        requires free { IsFree self.built output }
        ensures network { IfOk result (λ n. n ≡ network_of_draft self (ends.One output)) }
        ensures valid { IfOk result IsValid }
        ensures feed_forward { IfOk result IsFeedForward }
    {
        self.with_output(Ends::One(output.species))
    }
}

impl Builder {
    // The network with a table stamped on the slots, and the pair that it makes.
    fn stamped<const R: usize>(
        self,
        gate: &Gate<R>,
        slots: Slots,
        ratio: Ratio,
        new: usize,
    ) -> Result<(Builder, Pair), BuildError>
        requires sound { IsSound (record { species = self.built.species + new; reactions = self.built.reactions ++ reactions_at (natural ratio.numerator) (natural ratio.denominator) slots gate.now.rows }) }
        ensures network { IfOk result (λ r. r.0 ≡ record self { built = record { species = self.built.species + new; reactions = self.built.reactions ++ reactions_at (natural ratio.numerator) (natural ratio.denominator) slots gate.now.rows } }) }
        ensures pair { IfOk result (λ r. r.1 ≡ record { plus = slots.made.0; minus = slots.made.1 }) }
        ensures too_large { IsErrOf result TooLarge ↔ (MOST_SPECIES < self.built.species + new) }
    {
        let builder = self.with_table(gate, slots, ratio, new)?;
        Ok((builder, Pair::of(slots.made)))
    }

    // The network with a table stamped on the slots.
    fn with_table<const R: usize>(
        self,
        gate: &Gate<R>,
        slots: Slots,
        ratio: Ratio,
        new: usize,
    ) -> Result<Builder, BuildError>
        requires sound { IsSound (record { species = self.built.species + new; reactions = self.built.reactions ++ reactions_at (natural ratio.numerator) (natural ratio.denominator) slots gate.now.rows }) }
        ensures network { IfOk result (λ b. b ≡ record self { built = record { species = self.built.species + new; reactions = self.built.reactions ++ reactions_at (natural ratio.numerator) (natural ratio.denominator) slots gate.now.rows } }) }
        ensures too_large { IsErrOf result TooLarge ↔ (MOST_SPECIES < self.built.species + new) }
    {
        let Builder {
            alloc,
            rails,
            inputs,
            context,
            species,
            mut reactions,
        } = self;
        let species = with_new(species, new)?;
        stamp(alloc, gate, slots, ratio, &mut reactions)?;
        Ok(Builder {
            alloc,
            rails,
            inputs,
            context,
            species,
            reactions,
        })
    }

    // The network with this output.
    fn with_output(self, output: Ends) -> Result<Network, AllocError>
        requires { IsEnds self.rails self.built.species output }
        ensures network { IfOk result (λ n. n ≡ network_of_draft self output) }
        ensures valid { IfOk result IsValid }
        ensures feed_forward { IfOk result IsFeedForward }
    {
        let Builder {
            alloc,
            rails,
            inputs,
            context,
            species,
            reactions,
        } = self;
        let context = if context {
            // The context is the last of these.
            Some(width_before(rails, inputs.len(), true))
        } else {
            None
        };
        let parts = Parts {
            rails,
            species,
            reactions,
            inputs,
            output,
            context,
        };
        match Network::make(alloc, parts) {
            Ok(network) => Ok(network),
            Err(error) => Err(want_of_memory(error)),
        }
    }
}

impl Pair {
    fn of(species: (u32, u32)) -> Pair
        ensures { result ≡ record { plus = species.0; minus = species.1 } }
    {
        Pair {
            plus: Rail { species: species.0 },
            minus: Rail { species: species.1 },
        }
    }

    fn species(&self) -> (u32, u32)
        ensures { result ≡ (self.now.plus, self.now.minus) }
    {
        (self.plus.species, self.minus.species)
    }
}

// Writes terms, each a factor times a copy, into a pair.
fn stamp_terms(
    alloc: Global,
    terms: &[(Frac, Copied)],
    made: (u32, u32),
    reactions: &mut Vec<Reaction>,
) -> Result<(), AllocError>
    ensures { OnOk result (reactions_of reactions.new.items ≡ reactions_of reactions.old.items ++ reactions_of_terms made.0 made.1 terms.now) }
{
    for (factor, copied) in terms {
        match copied {
            Copied::Both(pair) => stamp_pair(alloc, *factor, pair.species(), made, reactions)?,
            Copied::Single(rail) => stamp_single(alloc, *factor, rail.species, made, reactions)?,
        }
    }
    Ok(())
}

// Writes terms, each a positive factor times a rail, into a rail.
fn stamp_singles(
    alloc: Global,
    terms: &[(Frac, Rail)],
    made: u32,
    reactions: &mut Vec<Reaction>,
) -> Result<(), AllocError>
    requires { All (λ t. 0ℚ <ℚ t.0) terms.now }
    ensures { OnOk result (reactions_of reactions.new.items ≡ reactions_of reactions.old.items ++ reactions_of_singles made terms.now) }
{
    for (factor, rail) in terms {
        stamp_rail(alloc, *factor, rail.species, made, reactions)?;
    }
    Ok(())
}

/// How many species there are with some new ones.
fn with_new(species: u32, new: usize) -> Result<u32, BuildError>
    requires { species ≤ MOST_SPECIES }
    ensures value { IfOk result (λ n. (n ≡ species + new) × (n ≤ MOST_SPECIES)) }
    ensures too_large { IfErr result (λ e. (e ≡ TooLarge) × (MOST_SPECIES < species + new)) }
{
    if new > (MOST_SPECIES - species) as usize {
        return Err(BuildError::TooLarge);
    }
    Ok(species + new as u32)
}

/// The inputs of so many variables.
fn inputs_of(alloc: Global, rails: Rails, variables: usize) -> Result<Vec<Ends>, AllocError>
    requires { variables ≤ 8 }
    ensures { IfOk result (λ v. v.items ≡ ends_of rails variables) }
{
    let mut inputs = Vec::with_capacity(alloc, variables)?;
    for earlier in 0..variables as u32 {
        inputs.push(match rails {
            Rails::Dual => Ends::Pair(2 * earlier + 1, 2 * earlier + 2),
            Rails::Direct => Ends::One(earlier + 1),
        })?;
    }
    Ok(inputs)
}

/// How many species the inputs of so many variables have, with the context.
fn width_before(rails: Rails, variables: usize, context: bool) -> u32
    requires { variables ≤ 8 }
    ensures { result ≡ width_before rails variables context }
{
    let inputs = match rails {
        Rails::Dual => 2 * variables as u32,
        Rails::Direct => variables as u32,
    };
    if context { inputs + 1 } else { inputs }
}

// Of a network that feeds forward, with few enough species, `Network::make` can only lack memory.
fn want_of_memory(_error: NetworkError) -> AllocError
    requires { _error ≡ refusal.Memory }
{
    AllocError
}
