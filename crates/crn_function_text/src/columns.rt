//! Pieces without the column for constants, where none of them has one.

ghost use Rattle.std.specs.Prelude.{◌≡◌, ◌+◌, ◌≤◌, map, length, take, vec_len, All};
ghost use Rattle.crn_formula.specs.Functions.{ByPieces};
ghost use Rattle.crn_formula.specs.Domains.{domain_for};
ghost use Rattle.crn_formula.specs.Views.{kind_of, piece_of, pieces_of};
ghost use Rattle.crn_function_text.specs.Columns.{narrow_piece, kept_columns};
ghost use Rattle.crn_function_text.specs.Reading.{AreKeptPieces};

use crn_form_text::narrow;
use crn_formula::{Function, FunctionKind, Piece, some_piece_has_constant};
use crn_linear::Form;

fn narrow_forms(forms: &mut [Form], variables: usize)
    requires { 1 ≤ variables }
    ensures { forms.new ≡ map (take variables) forms.old }
{
    for form in forms.iter_mut() {
        *form = narrow(form, variables);
    }
}

fn narrow_piece(piece: &mut Piece, variables: usize)
    requires { 1 ≤ variables }
    ensures { piece_of piece.new ≡ narrow_piece variables (piece_of piece.old) }
{
    piece.form = narrow(&piece.form, variables);
    narrow_forms(&mut piece.conditions, variables);
}

fn narrow_pieces(pieces: &mut [Piece], variables: usize)
    requires { 1 ≤ variables }
    ensures { pieces_of pieces.new ≡ map (narrow_piece variables) (pieces_of pieces.old) }
{
    for piece in pieces.iter_mut() {
        narrow_piece(piece, variables);
    }
}

// The pieces without constants.
fn narrowed(variables: usize, mut pieces: Vec<Piece>) -> Vec<Piece>
    requires { 1 ≤ variables }
    ensures { pieces_of result.items ≡ map (narrow_piece variables) (pieces_of pieces.items) }
{
    narrow_pieces(&mut pieces, variables);
    pieces
}

// The pieces with the columns that they need.
fn kept_columns(variables: usize, pieces: Vec<Piece>) -> Vec<Piece>
    requires { 1 ≤ variables }
    ensures { pieces_of result.items ≡ kept_columns variables (pieces_of pieces.items) }
{
    if some_piece_has_constant(&pieces, variables) {
        pieces
    } else {
        narrowed(variables, pieces)
    }
}

/// The function of pieces that were read with a column for the constants, which stays only where one of them is not 0.
pub fn function_of_pieces(variables: usize, pieces: Vec<Piece>) -> Function
    requires some { 1 ≤ variables }
    requires few { variables ≤ 8 }
    requires kept { AreKeptPieces variables (pieces_of pieces.items) }
    ensures variables { result.variables ≡ variables }
    ensures kind { kind_of result.kind ≡ ByPieces (kept_columns variables (pieces_of pieces.items)) }
    ensures domain { result.domain ≡ domain_for variables (kind_of result.kind) }
{
    Function::of(
        variables,
        FunctionKind::Pieces(kept_columns(variables, pieces)),
    )
}
