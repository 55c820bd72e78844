//! Fractions, forms and formulas, printed.

ghost use Rattle.std.specs.Prelude.{◌≡◌, ◌≤◌, ◌++◌, ◌&&◌, take, string_bytes, IfOk, OnOk};
ghost use Rattle.crn_token.specs.Printed.{spelled};
ghost use Rattle.crn_fraction.specs.Rational.{is_zero_ℚ};
ghost use Rattle.crn_fraction.specs.Frac.{IsFrac};
ghost use Rattle.crn_linear.specs.Forms.{entry_of};
ghost use Rattle.crn_formula.specs.Views.{plain_of};
ghost use Rattle.crn_form_text.specs.Grammar.{name_tokens, numeral_tokens, minus_before};
ghost use Rattle.crn_form_text.specs.Printing.{numeral_of, is_below, has_size_1, variable_term, constant_term, variable_terms, closed_up, terms_items, form_items, fraction_items, formula_items, AreFracs, AreFracsOf, FitsText};
ghost use Rattle.crn_form_text.specs.Written.{are_none, sign_items, next_items, variable_items, constant_items, word_of};

use crn_formula::Formula;
use crn_fraction::Frac;
use crn_linear::Form;
use crn_token::print_number;
use std::alloc::AllocError;

fn is_below(value: Frac) -> bool
    ensures { result ≡ is_below value }
{
    value.num() < 0
}

fn is_zero(value: Frac) -> bool
    ensures value { result ≡ is_zero_ℚ value }
    ensures fits { IsFrac value }
{
    value.num().unsigned_abs() == 0
}

fn has_size_1(value: Frac) -> bool
    ensures { result ≡ has_size_1 value }
{
    value.num().unsigned_abs() == 1 && value.den() == 1
}

// `-` before what is negative.
fn write_minus(out: &mut String, negative: bool) -> Result<(), AllocError>
    ensures { OnOk result (string_bytes out.new ≡ string_bytes out.old ++ spelled (closed_up (minus_before negative))) }
{
    if negative { out.push('-') } else { Ok(()) }
}

// A fraction without its sign.
fn write_size(out: &mut String, value: Frac) -> Result<(), AllocError>
    ensures { OnOk result (string_bytes out.new ≡ string_bytes out.old ++ spelled (closed_up (numeral_tokens (numeral_of value)))) }
{
    let size = value.num().unsigned_abs();
    let below = value.den();
    print_number(out, size)?;
    if below == 1 {
        return Ok(());
    }
    out.push('/')?;
    print_number(out, below.unsigned_abs())
}

/// Appends a fraction to a text: `n` or `n/d` in lowest terms, with `-` before it where it is negative.
pub fn print_fraction(out: &mut String, value: Frac) -> Result<(), AllocError>
    ensures text { OnOk result (string_bytes out.new ≡ string_bytes out.old ++ spelled (fraction_items value)) }
    ensures fits { OnOk result (IsFrac value) }
{
    write_minus(out, is_below(value))?;
    write_size(out, value)
}

// The sign before a term, which is the first or stands after others.
fn write_sign(out: &mut String, first: bool, negative: bool) -> Result<(), AllocError>
    ensures { OnOk result (string_bytes out.new ≡ string_bytes out.old ++ spelled (sign_items first negative)) }
{
    if first {
        write_minus(out, negative)
    } else if negative {
        out.push_str(" - ")
    } else {
        out.push_str(" + ")
    }
}

// A variable, `x` with its number, which counts from 1.
fn write_name(out: &mut String, column: usize) -> Result<(), AllocError>
    requires { column ≤ 8 }
    ensures { OnOk result (string_bytes out.new ≡ string_bytes out.old ++ spelled (closed_up (name_tokens column))) }
{
    out.push('x')?;
    print_number(out, column as u64 + 1)
}

// The term of a variable. A coefficient of size 1 is not written.
fn write_variable(
    out: &mut String,
    first: bool,
    column: usize,
    value: Frac,
) -> Result<(), AllocError>
    requires { column ≤ 8 }
    ensures { OnOk result (string_bytes out.new ≡ string_bytes out.old ++ spelled (next_items first (variable_term column value))) }
{
    write_sign(out, first, is_below(value))?;
    if !has_size_1(value) {
        write_size(out, value)?;
    }
    write_name(out, column)
}

// The term of a variable, if its coefficient is not 0. Tells whether there is still no term.
fn write_next(out: &mut String, first: bool, column: usize, value: Frac) -> Result<bool, AllocError>
    requires { column ≤ 8 }
    ensures text { OnOk result (string_bytes out.new ≡ string_bytes out.old ++ spelled (variable_items first column value)) }
    ensures first { IfOk result (λ still. still ≡ (first && is_zero_ℚ value)) }
    ensures fits { OnOk result (IsFrac value) }
{
    if is_zero(value) {
        return Ok(first);
    }
    write_variable(out, first, column, value)?;
    Ok(false)
}

// The terms of so many variables. Tells whether there are none.
fn write_variables(out: &mut String, form: &Form, variables: usize) -> Result<bool, AllocError>
    ensures text { OnOk result (string_bytes out.new ≡ string_bytes out.old ++ spelled (terms_items (variable_terms 0 (take variables form.now)))) }
    ensures first { IfOk result (λ first. first ≡ are_none (variable_terms 0 (take variables form.now))) }
    ensures fits { OnOk result (AreFracs (take variables form.now)) }
{
    let mut first = true;
    for column in 0..variables.min(form.len()) {
        first = write_next(out, first, column, form.coeff(column))?;
    }
    Ok(first)
}

// The constant of a form over so many variables, 0 where it has no column for it.
fn constant_of(form: &Form, variables: usize) -> Frac
    ensures { result ≡ entry_of form.now variables }
{
    if variables < form.len() {
        form.coeff(variables)
    } else {
        Frac::ZERO
    }
}

// The constant where it is not 0, and 0 where no term stands before it.
fn write_constant(out: &mut String, first: bool, value: Frac) -> Result<(), AllocError>
    ensures text { OnOk result (string_bytes out.new ≡ string_bytes out.old ++ spelled (constant_items first value)) }
    ensures fits { OnOk result (IsFrac value) }
{
    if !is_zero(value) {
        write_sign(out, first, is_below(value))?;
        write_size(out, value)
    } else if first {
        out.push('0')
    } else {
        Ok(())
    }
}

/// Appends a form over so many variables to a text: its terms that are not 0 in ascending order of the variables, and then its constant
/// where that is not 0. A form that is 0 prints `0`.
pub fn print_form(out: &mut String, form: &Form, variables: usize) -> Result<(), AllocError>
    ensures text { OnOk result (string_bytes out.new ≡ string_bytes out.old ++ spelled (form_items variables form.now)) }
    // Each number that is printed fits the text.
    ensures fits { OnOk result (AreFracsOf variables form.now) }
{
    let first = write_variables(out, form, variables)?;
    write_constant(out, first, constant_of(form, variables))
}

// The word of an operator on two operands.
fn word_of(formula: &Formula) -> &'static str
    ensures { result.now ≡ word_of (plain_of formula.now) }
{
    match formula {
        Formula::Add(_, _) => "add",
        Formula::Sub(_, _) => "sub",
        Formula::Min(_, _) => "min",
        Formula::Max(_, _) => "max",
        _ => "",
    }
}

/// Appends a formula over so many variables to a text, with `, ` between operands and no other space outside its forms.
pub fn print_formula(
    out: &mut String,
    formula: &Formula,
    variables: usize,
) -> Result<(), AllocError>
    ensures text { OnOk result (string_bytes out.new ≡ string_bytes out.old ++ spelled (formula_items variables (plain_of formula.now))) }
    ensures fits { variables ≤ 8 → OnOk result (FitsText variables (plain_of formula.now)) }
{
    match formula {
        Formula::Lin(form) => print_form(out, form, variables),
        Formula::Scale(factor, a) => {
            out.push_str("scale(")?;
            print_fraction(out, *factor)?;
            out.push_str(", ")?;
            print_formula(out, a, variables)?;
            out.push(')')
        }
        Formula::Add(a, b) | Formula::Sub(a, b) | Formula::Min(a, b) | Formula::Max(a, b) => {
            out.push_str(word_of(formula))?;
            out.push('(')?;
            print_formula(out, a, variables)?;
            out.push_str(", ")?;
            print_formula(out, b, variables)?;
            out.push(')')
        }
    }
}
