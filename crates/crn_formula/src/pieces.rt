//! Pieces: a form, and the conditions under which it holds.

ghost use Rattle.std.specs.Prelude.{◌≡◌, ◌↔◌, length, All, IsTrue};
ghost use Rattle.std.specs.List.{list_any};
ghost use Rattle.std.specs.Result.{OkIff};
ghost use Rattle.crn_formula.specs.Pieces.{all_hold, AreConditionsInReach, pieces_value, ArePiecesInReach};
ghost use Rattle.crn_formula.specs.Functions.{IsPieceOver, piece_has_constant};
ghost use Rattle.crn_formula.specs.Views.{piece_of, pieces_of};

use crate::formula::{has_constant, some_has_constant};
use crn_fraction::{Frac, TooBig};
use crn_linear::Form;

/// A piece of a function: a linear form, which counts where each of the conditions has a value of at least 0.
#[derive(Debug, Drop)]
pub struct Piece {
    /// The forms that are at least 0 where the piece holds. Without any it holds everywhere.
    pub conditions: Vec<Form>,
    /// The form whose value the function has there.
    pub form: Form,
}

impl Piece {
    // Whether the form or a condition has a constant other than 0.
    fn has_constant(&self, variables: usize) -> bool
        ensures { result ≡ piece_has_constant variables (piece_of self.now) }
    {
        has_constant(&self.form, variables)
            || some_has_constant(self.conditions.as_slice(), variables)
    }

    // Whether the form and each condition have so many columns.
    fn is_over(&self, columns: usize) -> bool
        ensures { IsTrue result ↔ IsPieceOver columns (piece_of self.now) }
    {
        self.form.len() == columns
            && self
                .conditions
                .iter()
                .all(|condition| condition.len() == columns)
    }
}

/// Whether the form or a condition of some piece has a constant other than 0, in the column past those of the variables.
pub fn some_piece_has_constant(pieces: &[Piece], variables: usize) -> bool
    ensures { result ≡ list_any (λ p. piece_has_constant variables (piece_of p)) pieces.now }
{
    pieces.iter().any(|piece| piece.has_constant(variables))
}

// Whether each piece has so many columns.
pub(crate) fn are_over(pieces: &[Piece], columns: usize) -> bool
    ensures { IsTrue result ↔ All (λ p. IsPieceOver columns (piece_of p)) pieces.now }
{
    pieces.iter().all(|piece| piece.is_over(columns))
}

// Whether each condition is at least 0, which is tried up to the first that is negative.
fn all_hold(conditions: &[Form], x: &[Frac]) -> Result<bool, TooBig>
    requires { All (λ c. length c ≡ length x.now) conditions.now }
    ensures { OkIff result (AreConditionsInReach conditions.now x.now) (all_hold conditions.now x.now) }
{
    for condition in conditions {
        if condition.at(x)?.num() < 0 {
            return Ok(false);
        }
    }
    Ok(true)
}

// The value of the first piece that holds, if one does.
pub(crate) fn first_value(pieces: &[Piece], x: &[Frac]) -> Result<Option<Frac>, TooBig>
    requires { All (λ p. IsPieceOver (length x.now) (piece_of p)) pieces.now }
    ensures { OkIff result (ArePiecesInReach (pieces_of pieces.now) x.now) (pieces_value (pieces_of pieces.now) x.now) }
{
    for piece in pieces {
        if all_hold(piece.conditions.as_slice(), x)? {
            return Ok(Some(piece.form.at(x)?));
        }
    }
    Ok(None)
}
