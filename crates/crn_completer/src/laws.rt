//! What holds of completions. Each function here does nothing: its contract is a theorem about the definitions of `specs/`.
ghost use Rattle.std.specs.Prelude.{◌≡◌, ◌≤◌, ◌↔◌, ℕ, List, None, Some, length};
ghost use Rattle.crn_fraction.specs.Rational.{ℚ, ◌+ℚ◌, ◌≤ℚ◌};
ghost use Rattle.crn_net.specs.Network.{Network, IsNetwork, IsState, IsFeedForward, Run, flux_of, completion, completed};
ghost use Rattle.crn_net.specs.Totals.{total};
ghost use Rattle.crn_net.specs.declared.Flow.{Flow};
ghost use Rattle.crn_segments.specs.Fits.{CompletionFits};
ghost use Rattle.crn_completer.specs.Kept.{each_alone};
ghost use Rattle.crn_completer.specs.Refusal.{completion_refusal};
ghost use Rattle.crn_completer.specs.Causes.{IsCompletionCause};
ghost use Rattle.crn_completer.specs.declared.CompletionTooBig.{CompletionTooBig};

/// No number of a completion is too big exactly where the completion fits.
pub fn fitting_completions()
    ensures { (net : Network) → IsNetwork net → (c : List ℚ) → (completion_refusal net c ≡ None) ↔ CompletionFits net c }
{}

/// A completion is refused for its cause, and for that alone: the first reaction whose turn does not fit, and in this turn the least reactant whose quotient does
/// not fit, or else the least species whose sum does not.
pub fn refused_completions()
    ensures { (net : Network) → IsNetwork net → (c : List ℚ) (e : CompletionTooBig) → (completion_refusal net c ≡ Some e) ↔ IsCompletionCause net c e }
{}

/// Confluence: after any run of a feed-forward network, what each reaction has run and what it runs in the completion is what it runs in the completion from
/// before that run. So no run has more of it, and both completions end in the same state.
pub fn confluence()
    ensures flux { (net : Network) → IsNetwork net → IsFeedForward net → (a : List ℚ) → IsState net a → (us : List (List Flow)) (c : List ℚ) → Run net a us c → (whole rest : List Flow) → each_alone whole ≡ completion net a → each_alone rest ≡ completion net c → (r : ℕ) → 1 ≤ r → r ≤ length net.reactions → total us r +ℚ flux_of rest r ≡ flux_of whole r }
    ensures most { (net : Network) → IsNetwork net → IsFeedForward net → (a : List ℚ) → IsState net a → (us : List (List Flow)) (c : List ℚ) → Run net a us c → (whole : List Flow) → each_alone whole ≡ completion net a → (r : ℕ) → 1 ≤ r → r ≤ length net.reactions → total us r ≤ℚ flux_of whole r }
    ensures end { (net : Network) → IsNetwork net → IsFeedForward net → (a : List ℚ) → IsState net a → (us : List (List Flow)) (c : List ℚ) → Run net a us c → completed net c ≡ completed net a }
{}
