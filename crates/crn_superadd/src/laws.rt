//! What holds of superadditive functions. Each function here does nothing: its contract is a theorem about the definitions of
//! `specs/`, proved with the crate.

ghost use Rattle.std.specs.Prelude.{◌≡◌, ◌≢◌, ◌⊎◌, ◌↔◌, ◌<◌, ◌≤◌, ◌*◌, ◌+◌, ◌^◌, ℕ, ℤ, List, length, Contains, All};
ghost use Rattle.crn_fraction.specs.Rational.{ℚ, 0ℚ, ◌≤ℚ◌};
ghost use Rattle.crn_linear.specs.Forms.{wholes, plus};
ghost use Rattle.crn_linear.specs.Rows.{AreSmall};
ghost use Rattle.crn_formula.specs.Pieces.{Piece, Domain, IsIn, IsDomain, Covers, Agree};
ghost use Rattle.crn_formula.specs.Domains.{unit, orthant};
ghost use Rattle.crn_pieces.specs.Answers.{AreChecked};
ghost use Rattle.crn_cells.specs.Cells.{Ascend};
ghost use Rattle.crn_cells.specs.Systems.{AreClose};
ghost use Rattle.crn_cells.specs.Answers.{AreTooManyCells};
ghost use Rattle.crn_maxmin.specs.Marked.{Marked, AreLong, IsMarkedBy, AreAllCells, numbered_forms};
ghost use Rattle.crn_maxmin.specs.Conversion.{forms_below};
ghost use Rattle.crn_superadd.specs.Superadditive.{multiple, IsSuperadditive, IsWholeSuperadditive, FallsShort, IsNegativeAt, IsNonnegative, IsLeast, IsNegativeIn, NoneBelow, IsLeastMultiple, used_forms, least_times};
ghost use Rattle.crn_superadd.specs.Answers.{IsRefuted, IsNegative, AreUsedForms, IsRefused};
ghost use Rattle.crn_superadd.specs.declared.SuperError.{SuperError};
ghost use Rattle.crn_superadd.specs.declared.SuperError.TheVariants.{Memory};

/// A function is superadditive where it is so at points of whole numbers.
pub fn superadditive_at_whole_points()
    ensures { (domain : Domain) (pieces : List Piece) → Covers domain pieces → Agree domain pieces
        → IsSuperadditive domain pieces ↔ IsWholeSuperadditive domain pieces }
{}

/// A function by pieces is superadditive on its domain exactly where it is the least of its used forms there.
pub fn superadditive_is_least()
    ensures { (domain : Domain) (pieces : List Piece) (cells : List Marked)
        → IsDomain domain → AreLong domain pieces → Covers domain pieces → Agree domain pieces
        → AreAllCells domain pieces cells
        → IsSuperadditive domain pieces ↔ IsLeast domain pieces (used_forms (numbered_forms pieces) cells) }
{}

/// And exactly where in no cell a used form stands below the form of the cell.
pub fn superadditive_by_cells()
    ensures { (domain : Domain) (pieces : List Piece) (cells : List Marked)
        → IsDomain domain → AreLong domain pieces → Covers domain pieces → Agree domain pieces
        → AreAllCells domain pieces cells → IsSuperadditive domain pieces ↔ NoneBelow cells }
{}

/// Where one does, a point of a cell that has the used form and a point of that cell refute it: at each multiple of the first point, of at
/// least 1, that still meets the order of its cell where the second is added, the value at the sum is less than the sum of the two values.
pub fn sums_fall_short()
    ensures { (domain : Domain) (pieces : List Piece) (cells : List Marked)
        → IsDomain domain → AreLong domain pieces → Covers domain pieces → Agree domain pieces
        → AreAllCells domain pieces cells → (low high : Marked) (first second : List ℤ)
        → IsMarkedBy domain pieces low first → IsMarkedBy domain pieces high second
        → Contains (forms_below high) low.form → (n : ℕ) → 1 ≤ n
        → Ascend (numbered_forms pieces) (plus (multiple n (wholes first)) (wholes second)) low.order
        → FallsShort pieces (multiple n (wholes first)) (wholes second) }
{}

/// There is a least multiple of at least 1 at which the sum meets the order, whatever the second point is, where the first point meets it.
/// It is had by one division for each two neighbours of the order, and is at most `2^121 + 1` where there are at most 8 columns.
pub fn least_multiples()
    ensures is { (forms : List (List ℚ)) (order : List ℕ) (k : ℕ)
        → All (λ f. length f ≡ k) forms → All (λ i. i < length forms) order
        → (first second : List ℤ) → Ascend forms (wholes first) order
        → IsLeastMultiple forms order (wholes first) (wholes second) (least_times forms order first second) }
    ensures small { (forms : List (List ℚ)) (order : List ℕ) (first second : List ℤ)
        → AreClose forms → All (λ i. i < length forms) order → AreSmall second
        → length second ≤ 8 → 0 < length order → least_times forms order first second ≤ 2 ^ 121 + 1 }
{}

/// The least of forms over k variables is negative at a unit point exactly where a form has a negative coefficient in its column. It is
/// negative somewhere on the orthant exactly where it is so at a unit point, and nowhere exactly where no form has a negative coefficient.
pub fn negative_at_unit_points()
    ensures unit { (k : ℕ) (pieces : List Piece) (forms : List (List ℚ))
        → IsLeast (orthant k) pieces forms → All (λ f. length f ≡ k) forms → (i : ℕ) → i < k
        → IsNegativeAt pieces (wholes (unit k i)) ↔ IsNegativeIn forms i }
    ensures somewhere { (k : ℕ) (pieces : List Piece) (forms : List (List ℚ))
        → IsLeast (orthant k) pieces forms → All (λ f. length f ≡ k) forms
        → (x : List ℚ) → IsIn (orthant k) x → IsNegativeAt pieces x
        → (i : ℕ) × (i < k) × IsNegativeAt pieces (wholes (unit k i)) }
    ensures nowhere { (k : ℕ) (pieces : List Piece) (forms : List (List ℚ))
        → IsLeast (orthant k) pieces forms → All (λ f. length f ≡ k) forms
        → IsNonnegative (orthant k) pieces ↔ All (All (λ c. 0ℚ ≤ℚ c)) forms }
{}

/// The answers exclude one another: where used forms serve, the function is not refuted and nowhere negative on the orthant; where it is
/// negative it is not refuted; and each of the three says that there are at most 4,096 cells.
pub fn one_answer()
    ensures used { (domain : Domain) (pieces : List Piece) (forms : List (List ℚ)) → AreUsedForms domain pieces forms
        → (p : List ℤ) (t : ℕ) (q : List ℤ) → ¬ IsRefuted domain pieces p t q }
    ensures nonnegative { (k : ℕ) (pieces : List Piece) (forms : List (List ℚ)) → AreUsedForms (orthant k) pieces forms
        → (point : List ℤ) → ¬ IsNegative (orthant k) pieces point }
    ensures negative { (domain : Domain) (pieces : List Piece) (point : List ℤ) → IsNegative domain pieces point
        → (p : List ℤ) (t : ℕ) (q : List ℤ) → ¬ IsRefuted domain pieces p t q }
    ensures cells { (domain : Domain) (pieces : List Piece) (cells : List Marked) → AreAllCells domain pieces cells
        → length cells ≤ 4096 → ¬ AreTooManyCells domain (numbered_forms pieces) }
{}

/// Pieces that were checked on the orthant have used forms that serve, or there is a cause why not, other than want of memory.
pub fn forms_or_a_cause()
    ensures { (k : ℕ) (pieces : List Piece) → AreChecked (orthant k) pieces
        → ((forms : List (List ℚ)) × AreUsedForms (orthant k) pieces forms)
        ⊎ ((e : SuperError) × (e ≢ Memory) × IsRefused (orthant k) pieces e) }
{}
