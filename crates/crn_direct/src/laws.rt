//! What holds of direct layouts. Each function here does nothing: its contract is a theorem about the definitions of specs/, proved with the crate.
ghost use Rattle.std.specs.Prelude.{◌≡◌, ◌≤◌, ◌+◌, ◌*◌, ℕ, List, length, All};
ghost use Rattle.crn_fraction.specs.Rational.{ℚ, 0ℚ, ◌≤ℚ◌};
ghost use Rattle.crn_net.specs.Network.{IsNetwork, IsFeedForward};
ghost use Rattle.crn_gates.specs.Computes.{Computes};
ghost use Rattle.crn_formula.specs.Functions.{least_value};
ghost use Rattle.crn_direct.specs.Layout.{direct_layout};
ghost use Rattle.crn_direct.specs.Written.{two_forms, two_forms_network};

/// The direct layout of forms over k variables without negative coefficients is a network, and feeds forward.
pub fn layouts_feed_forward()
    ensures network { (k : ℕ) (forms : List (List ℚ)) → 1 ≤ length forms → All (λ f. length f ≡ k) forms → All (All (λ c. 0ℚ ≤ℚ c)) forms → IsNetwork (direct_layout k forms) }
    ensures feed_forward { (k : ℕ) (forms : List (List ℚ)) → 1 ≤ length forms → All (λ f. length f ≡ k) forms → All (All (λ c. 0ℚ ≤ℚ c)) forms → IsFeedForward (direct_layout k forms) }
{}

/// It stably computes the least value of the forms at the amounts of the inputs: whatever run leads from a start to a state, the completion is a run from there,
/// and the output at its end is that value, which no further run changes.
pub fn layouts_compute()
    ensures { (k : ℕ) (forms : List (List ℚ)) → 1 ≤ length forms → All (λ f. length f ≡ k) forms → All (All (λ c. 0ℚ ≤ℚ c)) forms → Computes (direct_layout k forms) (least_value forms) }
{}

/// A direct layout has at most 8 species for inputs and 10 for each form, so that of at most 32 forms is a network.
pub fn layouts_are_small()
    ensures { (k : ℕ) (forms : List (List ℚ)) → k ≤ 8 → All (λ f. length f ≡ k) forms → (direct_layout k forms).species ≤ 8 + 10 * length forms }
{}

/// The direct layout of 2x1 + x2 and 3x2, written out.
pub fn layouts_written_out()
    ensures { direct_layout 2 two_forms ≡ two_forms_network }
{}
