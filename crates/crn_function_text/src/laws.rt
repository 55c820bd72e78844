//! What holds of function text. Each function here does nothing: its contract is a theorem about the definitions of `specs/`.
ghost use Rattle.std.specs.Prelude.{ℕ, List, Some, ◌≡◌, ◌↔◌};
ghost use Rattle.crn_fraction.specs.Rational.{ℚ};
ghost use Rattle.crn_token.specs.Plain.{Plain, PlainLine, plain_lines};
ghost use Rattle.crn_token.specs.Printed.{lines_read};
ghost use Rattle.crn_grammar.specs.Table.{CanEnd, IsText, PassesNone};
ghost use Rattle.crn_formula.specs.Formulas.{Formula};
ghost use Rattle.crn_formula.specs.Functions.{IsFitting};
ghost use Rattle.crn_formula.specs.Numbers.{HasKindFracs};
ghost use Rattle.crn_form_text.specs.Grammar.{SpellsForm, SpellsPlain, SpellsFormula};
ghost use Rattle.crn_function_text.specs.Grammar.{PlainFunction, function_table};
ghost use Rattle.crn_function_text.specs.Printing.{function_lines, function_text, AreKindFracs};
ghost use Rattle.crn_function_text.specs.Spelled.{form_of, plain_form_of, formula_of};

/// What the lines of the grammar take for a form or a formula is what the tokens spell, over any number of variables, and there is none exactly where they spell none.
pub fn lines_say_what_tokens_spell()
    ensures form { (k : ℕ) (form : List ℚ) (tokens : List Plain) → (form_of k tokens ≡ Some form) ↔ SpellsForm k form tokens }
    ensures plain_form { (k : ℕ) (form : List ℚ) (tokens : List Plain) → (plain_form_of k tokens ≡ Some form) ↔ SpellsPlain k form tokens }
    ensures formula { (k : ℕ) (e : Formula) (tokens : List Plain) → (formula_of k tokens ≡ Some e) ↔ SpellsFormula k e tokens }
{}

/// Wherever lines lead that begin a text, some lines more end one. So the answer line by line is the right one.
pub fn places_can_end()
    ensures { CanEnd function_table }
{}

/// The function of a text that passes no limit keeps the rule of functions, and its numbers are fractions that fit. So it can be printed, and these are the functions that texts within the
/// limits give.
pub fn texts_keep_the_rule()
    ensures rule { (lines : List PlainLine) (f : PlainFunction) → IsText function_table lines f → PassesNone function_table lines → IsFitting f.variables f.kind }
    ensures printed { (bytes : List ℕ) (f : PlainFunction) → IsText function_table (plain_lines bytes) f → PassesNone function_table (plain_lines bytes) → AreKindFracs f.variables f.kind }
    ensures numbers { (bytes : List ℕ) (f : PlainFunction) → IsText function_table (plain_lines bytes) f → PassesNone function_table (plain_lines bytes) → HasKindFracs f.kind }
{}

/// The printed lines of a function are a text of it and pass no limit, and the bytes read as these lines.
pub fn printed_reads_back()
    ensures text { (f : PlainFunction) → IsFitting f.variables f.kind → IsText function_table (lines_read 1 (function_lines f)) f }
    ensures limits { (f : PlainFunction) → IsFitting f.variables f.kind → PassesNone function_table (lines_read 1 (function_lines f)) }
    ensures bytes { (f : PlainFunction) → IsFitting f.variables f.kind → AreKindFracs f.variables f.kind → plain_lines (function_text f) ≡ lines_read 1 (function_lines f) }
{}
