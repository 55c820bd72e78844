//! What holds of gates. Each function here does nothing: its contract is a theorem about the definitions of specs/, proved with the crate.
//!
//! A table is a list of reactions over numbered slots: the operands' rails first, then new species. Stamping writes it into a network, on rails that no
//! reaction takes yet. The value laws speak of what a run has made of a species: what is there at its end, and what has been taken of it. They hold in every
//! network that goes on from the stamped table, with or without a context, since they speak of its reactions and species alone.
ghost use Rattle.std.specs.Prelude.{◌≡◌, ◌+◌, ◌<◌, ◌≤◌, ◌∷◌, ◌++◌, [], ℕ, suc, pos, List, length, get_or};
ghost use Rattle.crn_fraction.specs.Rational.{ℚ, ◌+ℚ◌, ◌-ℚ◌, ◌*ℚ◌, whole, min_ℚ, max_ℚ};
ghost use Rattle.crn_net.specs.Network.{Network, Reaction, IsNetwork, IsFeedForward, IsNotNegative, Run, AreAmounts, AreNotNegative, StablyComputes, amount, start, completion, completed, encoded, value_at};
ghost use Rattle.crn_net.specs.declared.Flow.{Flow};
ghost use Rattle.crn_net.specs.Totals.{made_by, made_in, AreUntaken, IsExhausted};
ghost use Rattle.crn_net.specs.Reactions.{EachGiven};
ghost use Rattle.crn_net.specs.Minimum.{minimum};
ghost use Rattle.crn_gates.specs.Gates.{Built, stamped, slot_species, renamed, Factor, IsFactor, Operand, AreOperands, factor_of, AreUpward, times, width_of, add_table, sub_table, min_table, max_table, scale_table, leaf_table, leaf_one_table, min_one_table};
ghost use Rattle.crn_gates.specs.Terms.{form_value, terms_of, value_of_terms};
ghost use Rattle.crn_gates.specs.FanOut.{fanned};
ghost use Rattle.crn_gates.specs.Building.{IsSound, IsFree, AllFree, Stamps, StampsOne, GoesOn, IsFanned};
ghost use Rattle.crn_gates.specs.Values.{StampsOnTwo, StampsOnOne, MakesOfTwo, MakesOfOne, MakesTerms, MakesOnes, MakesOfRails};
ghost use Rattle.crn_gates.specs.Lesser.{lesser};
ghost use Rattle.crn_gates.specs.MinimumLayout.{with_minimum};

use crate::MOST_SPECIES;

/// The greatest number of species of a network, which the calls of a builder compare with.
pub fn most_species()
    ensures { MOST_SPECIES ≡ 65536 }
{}

/// The factor of a fraction multiplies by it.
pub fn factors_multiply()
    ensures { (q x : ℚ) → times (factor_of q) x ≡ q *ℚ x }
{}

/// The nonzero terms of a linear form have its value.
pub fn terms_of_forms()
    ensures { (qs ys : List ℚ) → length qs ≤ length ys → value_of_terms (terms_of qs) (λ v. get_or ys v (whole (pos 0))) ≡ form_value qs ys }
{}

/// Fan-out makes a sound network of free copies, and its reactions, one after another, make of each copy as much as there is of its rail.
pub fn fan_out_copies()
    ensures sound { (n : ℕ) (rs : List ℕ) → IsSound (fanned n rs) }
    ensures free { (n : ℕ) (rs : List ℕ) (i : ℕ) → i < length rs → IsFree (fanned n rs) (suc (n + i)) }
    ensures value { (n : ℕ) (rs : List ℕ) (m : ℕ → ℚ) (i : ℕ) → i < length rs → 1 ≤ get_or rs i 0 → get_or rs i 0 ≤ n → made_by (fanned n rs).reactions m (suc (n + i)) ≡ m (suc (n + i)) +ℚ m (get_or rs i 0) }
{}

/// A sum, a difference, a minimum and a maximum, stamped on free pairs, keep a network sound, make a free pair, and leave the other free rails free.
pub fn stamped_pairs()
    ensures add { StampsOnTwo 2 add_table 4 5 }
    ensures sub { StampsOnTwo 2 sub_table 4 5 }
    ensures min { StampsOnTwo 4 min_table 6 7 }
    ensures max { StampsOnTwo 4 max_table 6 7 }
{}

/// So do a scaled pair and a leaf.
pub fn stamped_scales()
    ensures scale { (f : Factor) → IsFactor f → StampsOnOne 2 (scale_table f) 2 3 }
    ensures leaf { (b : Built) (xs : List ℕ) (ts : List Operand) → AreOperands ts → length xs ≡ width_of ts → IsSound b → AllFree b xs → Stamps b xs 2 (width_of ts) (suc (width_of ts)) (leaf_table ts) }
{}

/// A leaf and a minimum of single rails keep a network sound and make a free rail.
pub fn stamped_rails()
    ensures leaf { (b : Built) (xs : List ℕ) (fs : List Factor) → AreUpward fs → length xs ≡ length fs → IsSound b → AllFree b xs → StampsOne b xs 1 (length fs) (leaf_one_table fs) }
    ensures min { (b : Built) (x y : ℕ) → x < y → IsSound b → AllFree b (x ∷ y ∷ []) → StampsOne b (x ∷ y ∷ []) 1 2 min_one_table }
{}

/// Gates one after another: a run that leaves each reaction of the last gate, and each before it, without a reactant does so with the gates before it.
pub fn gates_in_turn()
    ensures last { (net : Network) → IsNetwork net → IsFeedForward net → (b : Built) → net.reactions ≡ b.reactions → b.species ≤ net.species → (a : List ℚ) (us : List (List Flow)) (c : List ℚ) → IsNotNegative a → Run net a us c → IsExhausted net c → GoesOn net b [] a us c }
    ensures earlier { (net : Network) (b : Built) (xs : List ℕ) (new : ℕ) (t later : List Reaction) → EachGiven (λ i. length xs ≤ i) t → (a : List ℚ) (us : List (List Flow)) (c : List ℚ) → GoesOn net (stamped xs new t b) later a us c → GoesOn net b (renamed (slot_species xs b.species) t ++ later) a us c }
{}

/// The value law of fan-out: what a run has made of a rail is what was there at its beginning, and of a copy as much as of its rail.
pub fn values_of_copies()
    ensures rail { (net : Network) (n : ℕ) (rs : List ℕ) (later : List Reaction) (a : List ℚ) (us : List (List Flow)) (c : List ℚ) → IsFanned net n rs later a us c → (s : ℕ) → 1 ≤ s → s ≤ n → made_in net us c s ≡ amount a s }
    ensures copy { (net : Network) (n : ℕ) (rs : List ℕ) (later : List Reaction) (a : List ℚ) (us : List (List Flow)) (c : List ℚ) → IsFanned net n rs later a us c → (i : ℕ) → i < length rs → 1 ≤ get_or rs i 0 → get_or rs i 0 ≤ n → made_in net us c (suc (n + i)) ≡ made_in net us c (get_or rs i 0) }
{}

/// The value laws of the gates of two pairs: where the gate's reactions, and those before them, each lack a reactant, the value made of its pair is the sum,
/// the difference, the lesser or the greater of the values made of the operands.
pub fn values_of_pairs()
    ensures add { MakesOfTwo 2 add_table 4 5 (λ u v. u +ℚ v) }
    ensures sub { MakesOfTwo 2 sub_table 4 5 (λ u v. u -ℚ v) }
    ensures min { MakesOfTwo 4 min_table 6 7 min_ℚ }
    ensures max { MakesOfTwo 4 max_table 6 7 max_ℚ }
{}

/// The value laws of a scaled pair and of a leaf. An operand of a leaf is a pair, as a copy of a variable, or a single rail, as a copy of the context.
pub fn values_of_scales()
    ensures scale { (f : Factor) → MakesOfOne 2 (scale_table f) 2 3 (times f) }
    ensures leaf { (ts : List Operand) → MakesTerms ts }
{}

/// The value laws of a leaf and a minimum of single rails.
pub fn values_of_rails()
    ensures leaf { (fs : List Factor) → AreUpward fs → MakesOnes fs }
    ensures min { MakesOfRails 1 min_one_table 2 min_ℚ }
{}

/// A feed-forward network whose output no reaction takes stably computes the value that its completion from the start has made of the output.
pub fn values_of_outputs()
    ensures { (net : Network) → IsNetwork net → IsFeedForward net → AreUntaken net net.output → (xs : List ℚ) → AreNotNegative xs → (v : ℚ) → value_at net.output (made_in net (completion net (start net xs)) (completed net (start net xs))) ≡ v → StablyComputes net xs v }
{}

/// The network of the minimum stably computes the lesser of its two inputs: fan-out of the inputs, a leaf of each variable and the gate of the minimum are
/// stamped one after another, and their value laws give what is made of the output.
pub fn minimum_computes()
    ensures species { with_minimum.species ≡ minimum.species }
    ensures reactions { with_minimum.reactions ≡ minimum.reactions }
    ensures computes { (xs : List ℚ) → AreAmounts minimum xs → StablyComputes minimum xs (lesser (encoded minimum.rails xs)) }
{}
