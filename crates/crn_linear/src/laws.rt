//! What holds of every form, row and point. Each function here does nothing: its contract is a theorem about the definitions of `specs/`, proved with the crate.
ghost use Rattle.std.specs.Prelude.{◌≡◌, ◌≢◌, ◌↔◌, ◌++◌, ℤ, pos, List, [], ◌∷◌, Contains, IsTrue};
ghost use Rattle.std.specs.List.{AllPairs};
ghost use Rattle.std.specs.Ordering.{int_cmp};
ghost use Rattle.crn_fraction.specs.Rational.{ℚ, 0ℚ};
ghost use Rattle.crn_linear.specs.Equality.{eq_forms, eq_points, eq_rows};
ghost use Rattle.crn_linear.specs.Forms.{at, wholes, distinct_forms};
ghost use Rattle.crn_linear.specs.Rows.{Row, dot, IsBelow, Meets, MeetsWhole};
ghost use Rattle.crn_linear.specs.Cleared.{IsCleared, cleared};
ghost use Rattle.crn_linear.specs.Strengths.{is_strict, row_with};
ghost use Rattle.std.specs.declared.cmp.Ordering.TheVariants.{Less, Greater};
ghost use Rattle.crn_linear.specs.declared.Strength.{Strength};
ghost use Rattle.crn_linear.specs.declared.Strength.TheVariants.{Weak, Strict};

/// What the cleared row of a form is: a positive multiple of the form, with no number but 1 that divides all of its entries
/// unless they are all 0. No other row is so, and a point meets it where the form's value is at least 0, or above it.
pub fn clearing()
    ensures is { (form : List ℚ) → IsCleared form (cleared form) }
    ensures only { (form : List ℚ) (row : List ℤ) → IsCleared form row → row ≡ cleared form }
    ensures meets { (form x : List ℚ) (strength : Strength) → Meets (row_with (cleared form) strength) x ↔ IsBelow (is_strict strength) 0ℚ (at form x) }
{}

/// A point with whole numbers meets a row as the same point with rational numbers does, and the sign of the sum of the products
/// tells whether it does: a strict row asks that the sum is above 0, a weak one that it is not below 0.
pub fn whole_points()
    ensures meets { (row : Row) (p : List ℤ) → Meets row (wholes p) ↔ MeetsWhole row p }
    ensures strict { (entries p : List ℤ) → MeetsWhole (row_with entries Strict) p ↔ (int_cmp (dot entries p) (pos 0) ≡ Greater) }
    ensures weak { (entries p : List ℤ) → MeetsWhole (row_with entries Weak) p ↔ (int_cmp (dot entries p) (pos 0) ≢ Less) }
{}

/// What the distinct forms of a list are: all of its forms and no others, each once, by first appearance. A form that is added
/// to the list comes last where it is new, and changes nothing where it is there already.
pub fn first_appearances()
    ensures members { (forms : List (List ℚ)) (form : List ℚ) → Contains (distinct_forms forms) form ↔ Contains forms form }
    ensures once { (forms : List (List ℚ)) → AllPairs (λ a b. a ≢ b) (distinct_forms forms) }
    ensures new { (forms : List (List ℚ)) (form : List ℚ) → (Contains forms form → ⊥) → distinct_forms (forms ++ form ∷ []) ≡ distinct_forms forms ++ form ∷ [] }
    ensures again { (forms : List (List ℚ)) (form : List ℚ) → Contains forms form → distinct_forms (forms ++ form ∷ []) ≡ distinct_forms forms }
{}

/// `==` says whether two forms, or two points, have the same entries, and whether two rows also ask the same.
pub fn equality()
    ensures forms { (a b : List ℚ) → IsTrue (eq_forms a b) ↔ (a ≡ b) }
    ensures points { (a b : List ℤ) → IsTrue (eq_points a b) ↔ (a ≡ b) }
    ensures rows { (a b : Row) → IsTrue (eq_rows a b) ↔ (a ≡ b) }
{}
