//! Functions, printed line by line.

ghost use Rattle.std.specs.Prelude.{◌≡◌, ◌≤◌, ◌++◌, ◌∷◌, [], map, string_bytes, All, IfOk, OnOk};
ghost use Rattle.std.specs.List.{flat_map};
ghost use Rattle.crn_token.specs.Plain.{plain_lines};
ghost use Rattle.crn_token.specs.Printed.{printed};
ghost use Rattle.crn_grammar.specs.Table.{IsText, PassesNone};
ghost use Rattle.crn_formula.specs.Domains.{domain_for};
ghost use Rattle.crn_formula.specs.Views.{kind_of, piece_of, pieces_of};
ghost use Rattle.crn_form_text.specs.Printing.{form_items, AreFracsOf};
ghost use Rattle.crn_function_text.specs.Grammar.{function_table};
ghost use Rattle.crn_function_text.specs.Reading.{function_of};
ghost use Rattle.crn_function_text.specs.Printing.{word_line, kind_word, header_lines, when_line, form_line, piece_lines, kind_lines, function_text, ArePieceFracs, AreKindFracs};

use crn_form_text::{print_form, print_formula};
use crn_formula::{Function, FunctionKind, Piece};
use crn_linear::Form;
use std::alloc::{AllocError, Global};
use std::fmt::Write;

/// The text of a function, every line of it ended by a line feed. `read_function` refuses it for want of memory alone, and otherwise
/// gives the function.
pub fn print_function(alloc: Global, function: &Function) -> Result<Vec<u8>, AllocError>
    requires { function.now.domain ≡ domain_for function.now.variables (kind_of function.now.kind) }
    ensures text { IfOk result (λ text. text.items ≡ function_text (function_of function.now)) }
    // The text reads back as the function and passes no limit.
    ensures spells { IfOk result (λ text. IsText function_table (plain_lines text.items) (function_of function.now)) }
    ensures limits { IfOk result (λ text. PassesNone function_table (plain_lines text.items)) }
{
    let mut out = String::new(alloc);
    write_header(&mut out, function)?;
    write_kind(&mut out, function.kind(), function.variables())?;
    Ok(out.into_bytes())
}

fn kind_word(kind: &FunctionKind) -> &'static str
    ensures { result.now ≡ kind_word (kind_of kind.now) }
{
    match kind {
        FunctionKind::Formula(_) => "formula",
        FunctionKind::Pieces(_) => "pieces",
        FunctionKind::Direct(_) => "direct",
    }
}

// How the function is given, and its number of variables.
fn write_header(out: &mut String, function: &Function) -> Result<(), AllocError>
    ensures { OnOk result (string_bytes out.new ≡ string_bytes out.old ++ printed (header_lines (function_of function.now))) }
{
    let word = kind_word(function.kind());
    let variables = function.variables();
    write!(out, "function {word}\nvariables {variables}\n")
}

// A line of a word and a form.
fn write_form(out: &mut String, word: &str, form: &Form, variables: usize) -> Result<(), AllocError>
    ensures text { OnOk result (string_bytes out.new ≡ string_bytes out.old ++ printed (word_line word.now (form_items variables form.now) ∷ [])) }
    ensures fits { OnOk result (AreFracsOf variables form.now) }
{
    write!(out, "{word} ")?;
    print_form(out, form, variables)?;
    out.push('\n')
}

fn write_condition(out: &mut String, form: &Form, variables: usize) -> Result<(), AllocError>
    ensures text { OnOk result (string_bytes out.new ≡ string_bytes out.old ++ printed (when_line variables form.now ∷ [])) }
    ensures fits { OnOk result (AreFracsOf variables form.now) }
{
    out.push_str("when ")?;
    print_form(out, form, variables)?;
    out.push_str(" >= 0\n")
}

fn write_conditions(
    out: &mut String,
    conditions: &[Form],
    variables: usize,
) -> Result<(), AllocError>
    ensures text { OnOk result (string_bytes out.new ≡ string_bytes out.old ++ printed (map (when_line variables) conditions.now)) }
    ensures fits { OnOk result (All (AreFracsOf variables) conditions.now) }
{
    for condition in conditions {
        write_condition(out, condition, variables)?;
    }
    Ok(())
}

fn write_piece(out: &mut String, piece: &Piece, variables: usize) -> Result<(), AllocError>
    ensures text { OnOk result (string_bytes out.new ≡ string_bytes out.old ++ printed (piece_lines variables (piece_of piece.now))) }
    ensures fits { OnOk result (ArePieceFracs variables (piece_of piece.now)) }
{
    write_form(out, "piece", &piece.form, variables)?;
    write_conditions(out, &piece.conditions, variables)
}

fn write_pieces(out: &mut String, pieces: &[Piece], variables: usize) -> Result<(), AllocError>
    ensures text { OnOk result (string_bytes out.new ≡ string_bytes out.old ++ printed (flat_map (piece_lines variables) (pieces_of pieces.now))) }
    ensures fits { OnOk result (All (ArePieceFracs variables) (pieces_of pieces.now)) }
{
    for piece in pieces {
        write_piece(out, piece, variables)?;
    }
    Ok(())
}

fn write_forms(out: &mut String, forms: &[Form], variables: usize) -> Result<(), AllocError>
    ensures text { OnOk result (string_bytes out.new ≡ string_bytes out.old ++ printed (map (form_line variables) forms.now)) }
    ensures fits { OnOk result (All (AreFracsOf variables) forms.now) }
{
    for form in forms {
        write_form(out, "form", form, variables)?;
    }
    Ok(())
}

// The lines after those of how the function is given and of the number of variables.
fn write_kind(out: &mut String, kind: &FunctionKind, variables: usize) -> Result<(), AllocError>
    ensures text { OnOk result (string_bytes out.new ≡ string_bytes out.old ++ printed (kind_lines variables (kind_of kind.now))) }
    ensures fits { variables ≤ 8 → OnOk result (AreKindFracs variables (kind_of kind.now)) }
{
    match kind {
        FunctionKind::Formula(formula) => {
            out.push_str("value ")?;
            print_formula(out, formula, variables)?;
            out.push('\n')
        }
        FunctionKind::Pieces(pieces) => write_pieces(out, pieces.as_slice(), variables),
        FunctionKind::Direct(forms) => write_forms(out, forms.as_slice(), variables),
    }
}
