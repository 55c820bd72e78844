//! What holds of the answers about two functions, and of the systems that are asked. Each function here does nothing: its contract
//! is a theorem about the definitions of `specs/`, proved with the crate.
ghost use Rattle.std.specs.Prelude.{◌≡◌, ◌≢◌, ◌↔◌, ◌⊎◌, ℕ, List, ℤ, length, All, Contains};
ghost use Rattle.crn_fraction.specs.Rational.{ℚ, ◌<ℚ◌};
ghost use Rattle.crn_farkas.specs.Systems.{IsPoint};
ghost use Rattle.crn_formula.specs.Formulas.{Formula, Sub, formula_value};
ghost use Rattle.crn_formula.specs.Functions.{Kind, IsFitting};
ghost use Rattle.crn_formula.specs.Pieces.{Domain, IsIn, columns_of};
ghost use Rattle.crn_normal.specs.Normal.{norm};
ghost use Rattle.crn_normal.specs.Values.{IsPositive};
ghost use Rattle.crn_same.specs.Equal.{AreEqual, asked, HasNone};
ghost use Rattle.crn_same.specs.Functions.{IsComparable, AreSame, AreShownSame, IsDifference, IsRefused};
ghost use Rattle.crn_same.specs.Alike.{AreAlike, IsSolvingLimit};
ghost use Rattle.crn_same.specs.declared.SameError.{SameError};
ghost use Rattle.crn_same.specs.declared.SameError.TheVariants.{Differ, Memory};

/// A point meets the system of a set exactly where it is in the domain and each form of the set is above 0 there.
pub fn points_of_systems()
    ensures { (domain : Domain) (S : List (List ℚ)) (x : List ℚ) → length x ≡ columns_of domain
        → IsPoint (asked domain S) x ↔ (IsIn domain x × IsPositive S x) }
{}

/// Two formulas are equal on a domain exactly where the system of no set has a point, of the sets of the first less the second and
/// of the second less the first. A point of such a system is one of the domain at which the one formula is above the other.
pub fn equality()
    ensures equal { (domain : Domain) (a b : Formula) → AreEqual domain a b
        ↔ (All (λ S. HasNone (asked domain S)) (norm (Sub a b)) × All (λ S. HasNone (asked domain S)) (norm (Sub b a))) }
    ensures differ { (domain : Domain) (a b : Formula) (S : List (List ℚ)) (x : List ℚ) → Contains (norm (Sub a b)) S
        → length x ≡ columns_of domain → IsPoint (asked domain S) x
        → IsIn domain x × (formula_value b x <ℚ formula_value a x) }
{}

/// What is shown is so: functions of which none of the sets has a point have one value at all amounts, and the point of a difference
/// is one at which they have two.
pub fn answers_are_true()
    ensures same { (k : ℕ) (f g : Kind) → IsFitting k f → IsFitting k g → AreShownSame k f g → AreSame k f g }
    ensures point { (k : ℕ) (f g : Kind) (p : List ℤ) → IsFitting k f → IsFitting k g → IsRefused k f g (Differ p)
        → IsDifference k f g p }
{}

/// Each two functions of one number of variables, by formulas or pieces, are shown to be the same, or there is a cause why they are
/// not, other than want of memory.
pub fn same_or_a_cause()
    ensures { (k : ℕ) (f g : Kind) → IsFitting k f → IsFitting k g → IsComparable f → IsComparable g
        → AreShownSame k f g ⊎ ((e : SameError) × (e ≢ Memory) × IsRefused k f g e) }
{}

/// Two refusals of the same functions, other than for want of memory, are the same but for a point, unless one is a limit of solving.
/// Beside functions that are shown to be the same stands no refusal but such a limit.
pub fn one_answer()
    ensures alike { (k : ℕ) (f g : Kind) (first second : SameError) → first ≢ Memory → second ≢ Memory
        → IsRefused k f g first → IsRefused k f g second → AreAlike first second }
    ensures limit { (k : ℕ) (f g : Kind) (error : SameError) → error ≢ Memory
        → AreShownSame k f g → IsRefused k f g error → IsSolvingLimit error }
{}
