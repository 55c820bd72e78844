//! What holds of numbers, forms and formulas in text. Each function here does nothing: its contract is a theorem about the definitions of `specs/`.

ghost use Rattle.std.specs.Prelude.{ℕ, ℤ, List, Some, None, ◌≡◌, ◌≤◌, ◌++◌, ◌↔◌, length, map, take, All, IsTrue};
ghost use Rattle.crn_token.specs.Plain.{Plain, PlainNumber};
ghost use Rattle.crn_fraction.specs.Rational.{ℚ, 0ℚ, ◌≤ℚ◌};
ghost use Rattle.crn_formula.specs.Formulas.{Formula};
ghost use Rattle.crn_form_text.specs.Grammar.{SpellsForm, SpellsPlain, SpellsFormula};
ghost use Rattle.crn_form_text.specs.Reading.{Walk, walks, whole_of, mark_of, form_of};
ghost use Rattle.crn_form_text.specs.Built.{IsWalkOf};
ghost use Rattle.crn_form_text.specs.Parsed.{form_from, plain_form_from, formula_from};
ghost use Rattle.crn_token.specs.Printed.{Item, shown, ends_before, IsPrinted};
ghost use Rattle.crn_token.specs.Small.{AreSmall};
ghost use Rattle.crn_fraction.specs.Frac.{IsFrac};
ghost use Rattle.crn_linear.specs.Forms.{entry_of};
ghost use Rattle.crn_form_text.specs.Printing.{form_items, formula_items, with_constant, with_constants, HasColumnsFor, AreFracs, AreFracsOf, FitsText};

/// Tokens spell one form at most, and one formula.
pub fn one_meaning()
    ensures forms { (k : ℕ) (f g : List ℚ) (ts : List Plain) → SpellsForm k f ts → SpellsForm k g ts → f ≡ g }
    ensures plain { (k : ℕ) (f g : List ℚ) (ts : List Plain) → SpellsPlain k f ts → SpellsPlain k g ts → f ≡ g }
    ensures formulas { (k : ℕ) (e f : Formula) (ts : List Plain) → SpellsFormula k e ts → SpellsFormula k f ts → e ≡ f }
{}

/// The definitions by cases on the tokens answer what is spelled, over any number of variables, and nothing exactly where nothing is spelled.
pub fn spelled_by_cases()
    ensures forms { (k : ℕ) (form : List ℚ) (ts : List Plain) → (form_from k ts ≡ Some form) ↔ SpellsForm k form ts }
    ensures plain { (k : ℕ) (form : List ℚ) (ts : List Plain) → (plain_form_from k ts ≡ Some form) ↔ SpellsPlain k form ts }
    ensures formulas { (k : ℕ) (e : Formula) (ts : List Plain) → (formula_from k ts ≡ Some e) ↔ SpellsFormula k e ts }
{}

/// The walks over the tokens, which have places for 8 variables, answer the same of at most 8: of a form itself, of a formula its nodes and its counts.
pub fn walks_by_cases()
    ensures forms { (k : ℕ) (ts : List Plain) → k ≤ 8 → form_of k ts ≡ form_from k ts }
    ensures formulas { (k : ℕ) (e : Formula) (ts : List Plain) → k ≤ 8 → formula_from k ts ≡ Some e
        → (w : Walk) × (whole_of (walks k) (map mark_of ts) ≡ Some w) × IsWalkOf k e w }
    ensures none { (k : ℕ) (ts : List Plain) → k ≤ 8 → formula_from k ts ≡ None → whole_of (walks k) (map mark_of ts) ≡ None }
{}

/// A form that is spelled without `-` and constants has a column for each variable and no negative coefficient.
pub fn plain_forms_are_nonnegative()
    ensures columns { (k : ℕ) (form : List ℚ) (ts : List Plain) → SpellsPlain k form ts → length form ≡ k }
    ensures nonnegative { (k : ℕ) (form : List ℚ) (ts : List Plain) → SpellsPlain k form ts → All (λ c. 0ℚ ≤ℚ c) form }
{}

/// Tokens in which no number is above the greatest spell forms and formulas of fractions that fit.
pub fn small_numbers_fit()
    ensures forms { (k : ℕ) (form : List ℚ) (ts : List Plain) → SpellsForm k form ts → AreSmall ts → AreFracsOf k form }
    ensures plain { (k : ℕ) (form : List ℚ) (ts : List Plain) → SpellsPlain k form ts → AreSmall ts → AreFracsOf k form }
    ensures formulas { (k : ℕ) (e : Formula) (ts : List Plain) → k ≤ 8 → SpellsFormula k e ts → AreSmall ts → FitsText k e }
{}

/// The tokens of a printed form spell that form, and those of a printed formula spell that formula, with a constant of 0 where the forms
/// have no column for it.
pub fn printed_spells()
    ensures forms { (k : ℕ) (form : List ℚ) → k ≤ length form → SpellsForm k (with_constant k form) (shown (form_items k form)) }
    ensures formulas { (k : ℕ) (e : Formula) → HasColumnsFor k e → SpellsFormula k (with_constants k e) (shown (formula_items k e)) }
{}

/// Before what keeps apart from a number, the tokens of a printed form or formula keep apart, so that the bytes read back as these tokens.
pub fn printed_reads_back()
    ensures forms { (k : ℕ) (form : List ℚ) (rest : List Item) → length (take k form) ≤ 8 → AreFracs (take k form) → IsFrac (entry_of form k)
        → ((n : ℤ) → IsTrue (ends_before (PlainNumber n) rest)) → IsPrinted rest → IsPrinted (form_items k form ++ rest) }
    ensures formulas { (k : ℕ) (e : Formula) → FitsText k e → (rest : List Item)
        → ((n : ℤ) → IsTrue (ends_before (PlainNumber n) rest)) → IsPrinted rest → IsPrinted (formula_items k e ++ rest) }
{}
