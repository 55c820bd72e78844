//! What is true of every function by pieces, of the least of forms, and of the three domains.
ghost use Rattle.std.specs.Prelude.{◌≡◌, ◌↔◌, ◌∷◌, ◌+◌, ℕ, List, length, Some, None, IsTrue, All, Any, Contains};
ghost use Rattle.crn_fraction.specs.Rational.{ℚ, 0ℚ, ◌≤ℚ◌, ◌<ℚ◌};
ghost use Rattle.crn_linear.specs.Forms.{at, entry_of};
ghost use Rattle.crn_formula.specs.Pieces.{Piece, Domain, Holds, all_hold, pieces_value, IsIn, IsCovered, HaveOneValue, Covers, Agree};
ghost use Rattle.crn_formula.specs.Functions.{least_value};
ghost use Rattle.crn_formula.specs.Domains.{whole_space, affine_domain, orthant};

/// Pieces that cover a domain, or agree on it, at its points of whole numbers do so at each of its points, because a multiple of
/// a point meets the same rows and conditions.
pub fn at_rational_points()
    ensures cover { (domain : Domain) (pieces : List Piece) → Covers domain pieces → (x : List ℚ) → IsIn domain x → IsCovered pieces x }
    ensures agree { (domain : Domain) (pieces : List Piece) → Agree domain pieces → (x : List ℚ) → IsIn domain x → HaveOneValue pieces x }
{}

/// Which value pieces have: none exactly where no piece holds, and where those that hold have one value, that value.
pub fn values_of_pieces()
    ensures holds { (piece : Piece) (x : List ℚ) → IsTrue (all_hold piece.conditions x) ↔ Holds piece x }
    ensures none { (pieces : List Piece) (x : List ℚ) → (pieces_value pieces x ≡ None) ↔ All (λ p. ¬ Holds p x) pieces }
    ensures one { (pieces : List Piece) (x : List ℚ) (piece : Piece) → HaveOneValue pieces x → Contains pieces piece → Holds piece x → pieces_value pieces x ≡ Some (at piece.form x) }
{}

/// The least value of forms is at most each of their values, and is one of them.
pub fn least_values()
    ensures below { (form : List ℚ) (forms : List (List ℚ)) (x : List ℚ) → All (λ f. least_value (form ∷ forms) x ≤ℚ at f x) (form ∷ forms) }
    ensures one { (form : List ℚ) (forms : List (List ℚ)) (x : List ℚ) → Any (λ f. at f x ≡ least_value (form ∷ forms) x) (form ∷ forms) }
{}

/// The points of the three domains: every point, those whose last number is above 0, and those without a negative number.
pub fn points_of_domains()
    ensures whole { (n : ℕ) (x : List ℚ) → IsIn (whole_space n) x ↔ (length x ≡ n) }
    ensures affine { (n : ℕ) (x : List ℚ) → IsIn (affine_domain (n + 1)) x ↔ ((length x ≡ n + 1) × (0ℚ <ℚ entry_of x n)) }
    ensures orthant { (n : ℕ) (x : List ℚ) → IsIn (orthant n) x ↔ ((length x ≡ n) × All (λ t. 0ℚ ≤ℚ t) x) }
{}
