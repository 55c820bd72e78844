//! What holds of every network. Each function here does nothing: its contract is a theorem about the definitions of `specs/Network.antt`, proved with the crate.
ghost use Rattle.std.specs.Prelude.{◌≡◌, ◌≢◌, ◌++◌, ◌≤◌, ℕ, List, length, pos, Some};
ghost use Rattle.crn_fraction.specs.Rational.{ℚ, whole};
ghost use Rattle.crn_net.specs.Network.{Network, Reaction, Flow, completion, output, AreReactions, IsNetwork, IsState, IsNotNegative, IsFeedForward, AreFlows, AreNotNegative, Run, IsSettled, StablyComputes, amount, after, after_all, start, value_at, greatest_flux};
ghost use Rattle.crn_net.specs.Totals.{Leads, total, IsGreatest, IsComplete, IsConfluent, IsExhausted, FirstLack, AreUntaken, made_by, made_in, added, change};
ghost use Rattle.crn_net.specs.Reactions.{EachReaction, FeedsForward, given_all};
ghost use Rattle.crn_net.specs.Limits.{IsValid};
ghost use Rattle.crn_net.specs.Causes.{IsCause};
ghost use Rattle.crn_net.specs.declared.NetworkError.{NetworkError};
ghost use Rattle.crn_net.specs.declared.NetworkError.TheVariants.{Memory};
ghost use Rattle.crn_net.specs.Minimum.{minimum, amounts, segments};

/// Parts have at most one cause of refusal, and valid parts have none but want of memory.
pub fn causes_exclude_each_other()
    ensures one { (net : Network) (e f : NetworkError) → IsCause net e → IsCause net f → e ≡ f }
    ensures none { (net : Network) (e : NetworkError) → e ≢ Memory → IsCause net e → IsValid net → ⊥ }
{}

/// A start is a state, and its context species has the amount 1.
pub fn starts()
    ensures state { (net : Network) (xs : List ℚ) → AreNotNegative xs → IsState net (start net xs) }
    ensures context { (net : Network) → IsNetwork net → (xs : List ℚ) (k : ℕ) → net.context ≡ Some k → amount (start net xs) k ≡ whole (pos 1) }
{}

/// Kept totals: of each species, what is there after segments and what they took is what was there before and what they gave.
pub fn kept_totals()
    ensures { (net : Network) (us : List (List Flow)) (c : List ℚ) → Leads net c (total us) (after_all net c us) }
{}

/// The amount after a segment is the amount before and the product of each of its flows in turn.
pub fn flows_in_turn()
    ensures { (net : Network) (c : List ℚ) (u : List Flow) (s : ℕ) → AreFlows (length net.reactions) u → 1 ≤ s → s ≤ net.species → amount (after net c u) s ≡ added (amount c s) (change net s) u }
{}

/// The least quotient of amount and count is the greatest flux for which each reactant is enough.
pub fn greatest_fluxes()
    ensures { (net : Network) → AreReactions net → (r : ℕ) → 1 ≤ r → r ≤ length net.reactions → (c : List ℚ) → IsGreatest net r c (greatest_flux net r (amount c)) }
{}

/// Reactions that feed forward along their list make a feed-forward network, and are no more than its species.
pub fn lists_feed_forward()
    ensures network { (net : Network) → FeedsForward net.reactions → IsFeedForward net }
    ensures few { (n : ℕ) (rs : List Reaction) → FeedsForward rs → EachReaction n rs → length rs ≤ n }
{}

/// In a feed-forward network the completion is a run, after which each reaction lacks a reactant.
pub fn completions()
    ensures { (net : Network) → IsNetwork net → IsFeedForward net → (a : List ℚ) → IsState net a → IsComplete net a }
{}

/// Where each reaction lacks a reactant, every run leads nowhere, so the output is settled.
pub fn exhausted_states()
    ensures same { (net : Network) (c : List ℚ) → IsState net c → IsExhausted net c → (us : List (List Flow)) (d : List ℚ) → Run net c us d → d ≡ c }
    ensures settled { (net : Network) (c : List ℚ) → IsState net c → IsExhausted net c → IsSettled net c (output net c) }
{}

/// Confluence: from each state of a feed-forward network, every run ends as the completion does once it is completed itself.
pub fn confluence()
    ensures { (net : Network) → IsNetwork net → IsFeedForward net → (a : List ℚ) → IsState net a → IsConfluent net a }
{}

/// A feed-forward network stably computes what its reactions make, one after another, of the start.
pub fn settled_values()
    ensures { (net : Network) → IsNetwork net → IsFeedForward net → AreUntaken net net.output → (xs : List ℚ) → AreNotNegative xs → StablyComputes net xs (value_at net.output (made_by net.reactions (amount (start net xs)))) }
{}

/// In every run that leaves the first reactions without a reactant, these have made of a species what they make one after another,
/// where the later reactions do not give it.
pub fn made_in_runs()
    ensures { (net : Network) → AreReactions net → IsFeedForward net → (rs qs : List Reaction) → net.reactions ≡ rs ++ qs → (a : List ℚ) → IsNotNegative a → (us : List (List Flow)) (c : List ℚ) → Run net a us c → FirstLack net (length rs) c → (s : ℕ) → 1 ≤ s → s ≤ net.species → given_all qs s ≡ 0 → made_in net us c s ≡ made_by rs (amount a) s }
{}

/// The definitions on an example: the minimum of two variables, of which the first has 3/2 and 1/2 and the second 2 and 0.
/// Its completion is the ten written segments. They are a run, and lead to the output 1, which no run changes.
pub fn completion_of_the_minimum()
    ensures valid { IsNetwork minimum }
    ensures feed_forward { IsFeedForward minimum }
    ensures completion { completion minimum (start minimum amounts) ≡ segments }
    ensures run { Run minimum (start minimum amounts) segments (after_all minimum (start minimum amounts) segments) }
    ensures output { output minimum (after_all minimum (start minimum amounts) segments) ≡ whole (pos 1) }
    ensures computes { StablyComputes minimum amounts (whole (pos 1)) }
{}
