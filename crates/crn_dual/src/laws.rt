//! What holds of layouts. Each function here does nothing: its contract is a theorem about the definitions of specs/, proved with the crate.
ghost use Rattle.std.specs.Prelude.{◌≡◌, ◌≤◌, ◌+◌, ◌*◌, ℕ, List, Some};
ghost use Rattle.crn_fraction.specs.Rational.{ℚ};
ghost use Rattle.crn_net.specs.Network.{IsNetwork, IsFeedForward};
ghost use Rattle.crn_net.specs.Minimum.{minimum};
ghost use Rattle.crn_formula.specs.Formulas.{Formula, node_count};
ghost use Rattle.crn_formula.specs.Functions.{ByFormula, IsFitting, is_affine, kind_value, point_of};
ghost use Rattle.crn_dual.specs.Columns.{IsOverVariables, has_context, value_over};
ghost use Rattle.crn_dual.specs.Computes.{Computes};
ghost use Rattle.crn_dual.specs.Layout.{layout};
ghost use Rattle.crn_dual.specs.Written.{lesser_of_two, at_least_three, at_least_three_network, scaled_less_sum, scaled_less_sum_network};

/// The layout of a formula is a network, and feeds forward.
pub fn layouts_feed_forward()
    ensures network { (k : ℕ) (e : Formula) → IsOverVariables k e → IsNetwork (layout k e) }
    ensures feed_forward { (k : ℕ) (e : Formula) → IsOverVariables k e → IsFeedForward (layout k e) }
{}

/// The layout of a formula stably computes its value: whatever run leads from a start to a state, the completion is a run from there, and the output at its end
/// is the formula's value at the point that the start encodes, which no further run changes.
pub fn layouts_compute()
    ensures { (k : ℕ) (e : Formula) → IsOverVariables k e → Computes (layout k e) k e }
{}

/// The formulas of functions: a layout has a context exactly where the function is affine, and computes the function's value.
pub fn layouts_of_functions()
    ensures over { (k : ℕ) (e : Formula) → IsFitting k (ByFormula e) → IsOverVariables k e }
    ensures context { (k : ℕ) (e : Formula) → IsFitting k (ByFormula e) → has_context k e ≡ is_affine k (ByFormula e) }
    ensures value { (k : ℕ) (e : Formula) (x : List ℚ) → IsFitting k (ByFormula e) → kind_value (ByFormula e) (point_of k (ByFormula e) x) ≡ Some (value_over k e x) }
{}

/// A layout has at most 17 species for inputs and context and 22 for each node of the formula, so that of a function within its limits is a network.
pub fn layouts_are_small()
    ensures { (k : ℕ) (e : Formula) → k ≤ 8 → IsOverVariables k e → (layout k e).species ≤ 17 + 22 * node_count e }
{}

/// Layouts written out: the lesser of two variables, the greater of a variable and 3, which has a context, and a formula of multiples, sums and differences.
pub fn layouts_written_out()
    ensures lesser { layout 2 lesser_of_two ≡ minimum }
    ensures constant { layout 1 at_least_three ≡ at_least_three_network }
    ensures linear { layout 2 scaled_less_sum ≡ scaled_less_sum_network }
{}
