//! What holds of the generator. Each function here does nothing: its contract is a theorem about the definitions of specs/.

ghost use Rattle.std.specs.Prelude.{◌≡◌, ◌≤◌, ◌<◌, ◌+◌, ◌*◌, ◌^◌, ℕ, List, [], ◌∷◌, length};
ghost use Rattle.crn_fraction.specs.Rational.{ℚ};
ghost use Rattle.crn_formula.specs.Formulas.{Lin, node_count, depth_of};
ghost use Rattle.crn_formula.specs.Functions.{ByFormula, IsFitting};
ghost use Rattle.crn_net.specs.Network.{AreNotNegative};
ghost use Rattle.crn_bulk.specs.Generator.{next, drawn, leaves, left_of, right_of, over, tree, bulk_formula, bulk_amounts};
ghost use Rattle.crn_bulk.specs.Leaves.{leaves_of, AreHalves};

/// How the tree over leaves is drawn. One leaf is the tree itself. Of more leaves the tree is an operator over the trees of their halves, of which the left one is as
/// long as the right one or one longer: the left tree is drawn first, then the right tree, and then the operator.
pub fn trees_split()
    ensures one { (form : List ℚ) (z : ℕ) → tree (form ∷ []) z ≡ drawn (Lin form) z }
    ensures more { (forms : List (List ℚ)) (z : ℕ) → 2 ≤ length forms → tree forms z ≡ over (tree (left_of forms) z) (tree (right_of forms) (tree (left_of forms) z).number) }
    ensures halves { (forms : List (List ℚ)) → 2 ≤ length forms → AreHalves (left_of forms) (right_of forms) }
{}

/// The formula of n leaves has them from left to right as they were drawn, n - 1 operators, and no more levels than are needed.
pub fn formulas_of_leaves()
    ensures count { (n z : ℕ) → length (leaves n z).made ≡ n }
    ensures leaves { (n : ℕ) → 1 ≤ n → leaves_of (bulk_formula n).made ≡ (leaves n n).made }
    ensures nodes { (n : ℕ) → 1 ≤ n → node_count (bulk_formula n).made + 1 ≡ 2 * n }
    ensures depth { (n levels : ℕ) → 1 ≤ n → n ≤ 2 ^ levels → depth_of (bulk_formula n).made ≤ levels + 1 }
{}

/// With at most 1,000 leaves it is the formula of a function within the limits. Its eight amounts are not negative, and each number that is drawn is below 65,537.
pub fn jobs_fit()
    ensures function { (n : ℕ) → 1 ≤ n → n ≤ 1000 → IsFitting 4 (ByFormula (bulk_formula n).made) }
    ensures amounts { (n : ℕ) → length (bulk_amounts n).made ≡ 8 }
    ensures not_negative { (n : ℕ) → AreNotNegative (bulk_amounts n).made }
    ensures numbers { (z : ℕ) → next z < 65537 }
{}
