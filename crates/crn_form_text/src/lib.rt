//! Numbers, linear forms and formulas as they are written in the tokens of one line.
//!
//! What is read is what the tokens spell, by the cases of `specs/Grammar.antt`, and nothing is read exactly where they spell nothing. What is printed is the text
//! of `specs/Printing.antt`, and spells what was printed.
#![tactic(auto)]

mod form;
mod formula;
mod laws;
mod mark;
mod number;
mod print;

pub use form::{narrow, read_form, read_plain_form};
pub use formula::{FormulaText, read_formula};
pub use laws::{
    one_meaning, plain_forms_are_nonnegative, printed_reads_back, printed_spells,
    small_numbers_fit, spelled_by_cases, walks_by_cases,
};
pub use number::read_fraction;
pub use print::{print_form, print_formula, print_fraction};
