//! What holds of normal forms. Each function here does nothing: its contract is a theorem about the definitions of specs/, proved with the crate.
ghost use Rattle.std.specs.Prelude.{◌≡◌, ◌≢◌, ◌↔◌, ◌⊎◌, ◌≤◌, ◌∷◌, ◌++◌, ℕ, max, List, [], length, Any, All};
ghost use Rattle.crn_fraction.specs.Rational.{ℚ, 0ℚ, ◌+ℚ◌, ◌*ℚ◌, neg_ℚ, min_ℚ, max_ℚ, ◌≤ℚ◌, ◌<ℚ◌};
ghost use Rattle.crn_linear.specs.Forms.{at};
ghost use Rattle.crn_formula.specs.Formulas.{Formula, Sub, IsOver, formula_value};
ghost use Rattle.crn_normal.specs.Sets.{taken};
ghost use Rattle.crn_normal.specs.Normal.{Sets, is_part, reduced, meet, sum_of, neg, multiples, norm};
ghost use Rattle.crn_normal.specs.Values.{IsValue, IsPositive, sets_value};
ghost use Rattle.crn_normal.specs.Steps.{Step, difference_steps, steps};
ghost use Rattle.crn_normal.specs.Refusals.{NoneStops, FirstStops};
ghost use Rattle.crn_normal.specs.declared.NormalError.{NormalError};
ghost use Rattle.crn_normal.specs.declared.NormalError.TheVariants.{Memory};

/// What is left of a list of sets, set by set: one more changes nothing where some set that is left is within it, and else comes last, and the sets go that it is
/// within.
pub fn set_by_set()
    ensures none { reduced [] ≡ [] }
    ensures more { (A : Sets) (T : List (List ℚ)) → reduced (A ++ T ∷ []) ≡ taken is_part (reduced A) T }
{}

/// The value of a list of sets is one number: the greatest of the least values of its sets.
pub fn values()
    ensures number { (A : Sets) (x : List ℚ) (v : ℚ) → IsValue A x v → sets_value A x ≡ v }
    ensures form { (form x : List ℚ) → IsValue ((form ∷ []) ∷ []) x (at form x) }
{}

/// What the operations on lists of sets do with their values.
pub fn operations()
    ensures reduced { (A : Sets) (x : List ℚ) (v : ℚ) → IsValue A x v → IsValue (reduced A) x v }
    ensures join { (A B : Sets) (x : List ℚ) (v w : ℚ) → IsValue A x v → IsValue B x w
        → IsValue (reduced (A ++ B)) x (max_ℚ v w) }
    ensures meet { (A B : Sets) (x : List ℚ) (v w : ℚ) → IsValue A x v → IsValue B x w
        → IsValue (meet A B) x (min_ℚ v w) }
    ensures sum { (A B : Sets) (x : List ℚ) (v w : ℚ) → IsValue A x v → IsValue B x w
        → IsValue (sum_of A B) x (v +ℚ w) }
    ensures neg { (A : Sets) (x : List ℚ) (v : ℚ) → IsValue A x v → IsValue (neg A) x (neg_ℚ v) }
    ensures multiples { (q : ℚ) (A : Sets) (x : List ℚ) (v : ℚ) → 0ℚ ≤ℚ q → IsValue A x v
        → IsValue (reduced (multiples q A)) x (q *ℚ v) }
{}

/// The value of the normal form of a formula is the formula's, at every point.
pub fn normal_forms()
    ensures value { (e : Formula) (x : List ℚ) → sets_value (norm e) x ≡ formula_value e x }
    ensures is { (e : Formula) (x : List ℚ) → IsValue (norm e) x (formula_value e x) }
{}

/// The first of two formulas is above the second at a point exactly where each form of some set of the normal form of the first less the second is above 0
/// there. So the two are equal at a point exactly where there is no such set of the first less the second, nor of the second less the first.
pub fn differences()
    ensures above { (a b : Formula) (x : List ℚ) → (formula_value b x <ℚ formula_value a x)
        ↔ Any (λ S. IsPositive S x) (norm (Sub a b)) }
    ensures equal { (a b : Formula) (x : List ℚ) → (formula_value a x ≡ formula_value b x)
        ↔ (All (λ S. ¬ IsPositive S x) (norm (Sub a b)) × All (λ S. ¬ IsPositive S x) (norm (Sub b a))) }
{}

/// No set of a normal form has more than 64 forms where no step is refused, and its forms have as many columns as the formula's. A difference of two has as many
/// as the longer.
pub fn sizes()
    ensures few { (e : Formula) → NoneStops (steps e) → All (λ S. length S ≤ 64) (norm e) }
    ensures few_of_difference { (A B : Sets) → NoneStops (difference_steps A B)
        → All (λ S. length S ≤ 64) (sum_of A (neg B)) }
    ensures columns { (n : ℕ) (e : Formula) → IsOver n e → All (All (λ f. length f ≡ n)) (norm e) }
    ensures columns_of_difference { (n m : ℕ) (A B : Sets) → All (All (λ f. length f ≡ n)) A
        → All (All (λ f. length f ≡ m)) B → All (All (λ f. length f ≡ max n m)) (sum_of A (neg B)) }
{}

/// Want of memory aside, steps are refused in one way exactly, unless each passes, and then in none. So each refusal comes exactly
/// where it is the first.
pub fn refusals()
    ensures one { (steps : List Step) (d e : NormalError) → d ≢ Memory → e ≢ Memory → FirstStops steps d
        → FirstStops steps e → d ≡ e }
    ensures none { (steps : List Step) (e : NormalError) → e ≢ Memory → NoneStops steps → ¬ FirstStops steps e }
    ensures some { (steps : List Step) → NoneStops steps ⊎ ((e : NormalError) × (e ≢ Memory) × FirstStops steps e) }
{}
