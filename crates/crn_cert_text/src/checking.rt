//! Whether a text is that of a function by pieces and a proof of it.

ghost use Rattle.std.specs.Prelude.{◌≡◌, ◌↔◌, IsTrue, IfOk, MatchResult};
ghost use Rattle.crn_formula.specs.Functions.{IsGivenByPieces};
ghost use Rattle.crn_formula.specs.Views.{kind_of};
ghost use Rattle.crn_cert_text.specs.TextAnswers.{IsAcceptedText, IsProvedText, IsRefusedText, unread_of, unproved_of};

use crate::proved::read_text;
use crate::{VerifyError, verify};
use crn_formula::{Function, FunctionKind};
use crn_grammar::TextError;
use crn_token::Counted;
use std::alloc::Global;
use thiserror::Error;

/// Why a text is not accepted.
#[derive(Clone, Copy, Debug, PartialEq, Eq, Error)]
pub enum CheckError {
    /// The first line up to which the lines begin no text, or the line past the last where the text is too short.
    #[error("line {line} is malformed")]
    Malformed { line: usize },
    /// The first line that passes a limit.
    #[error("limit {what:?} {count}")]
    Limit { what: Counted, count: u64 },
    /// The function is not given by pieces.
    #[error("the function is not given by pieces")]
    WrongKind,
    /// The row of a condition does not clear within 2^59.
    #[error("condition {condition} of piece {piece} is too big")]
    BigCondition { piece: usize, condition: usize },
    /// The row of the difference of the forms of two pieces does not clear within 2^59.
    #[error("the difference of pieces {first} and {second} is too big")]
    BigDifference { first: usize, second: usize },
    /// The proof line on this line of the text is the first that does not fit, or the proof ends before it is whole.
    #[error("not proved at line {line}")]
    NotProved { line: usize },
    /// Memory ran out.
    #[error("out of memory")]
    Memory,
}

/// Looks whether a text is that of a function by pieces and a proof that they cover its domain and agree on it, and of
/// how many lines the proof is.
pub fn check_text(alloc: Global, bytes: &[u8]) -> Result<usize, CheckError>
    ensures verdict { MatchResult result (IsAcceptedText bytes.now) (IsRefusedText bytes.now) }
    // The pieces of a text that is accepted cover the domain and agree on it.
    ensures proved { IfOk result (λ _. IsProvedText bytes.now) }
{
    let proved = match read_text(alloc, bytes) {
        Ok(proved) => proved,
        Err(error) => return Err(unread(error)),
    };
    if !is_given_by_pieces(&proved.function) {
        return Err(CheckError::WrongKind);
    }
    match verify(alloc, &proved.function, &proved.proof) {
        Ok(()) => Ok(proved.proof.lines.len()),
        Err(error) => Err(unproved(proved.proof.numbers.as_slice(), proved.end, error)),
    }
}

fn is_given_by_pieces(function: &Function) -> bool
    ensures { IsTrue result ↔ IsGivenByPieces (kind_of function.now.kind) }
{
    match function.kind() {
        FunctionKind::Formula(_) => false,
        FunctionKind::Pieces(_) => true,
        FunctionKind::Direct(_) => false,
    }
}

// How a refusal to read is one of the text.
fn unread(error: TextError) -> CheckError
    ensures { result ≡ unread_of error }
{
    match error {
        TextError::Malformed { line } => CheckError::Malformed { line },
        TextError::Limit { what, count } => CheckError::Limit { what, count },
        TextError::Memory => CheckError::Memory,
    }
}

// How a refusal of a proof is one of the text on whose lines of these numbers it stands.
fn unproved(numbers: &[usize], end: usize, error: VerifyError) -> CheckError
    ensures { result ≡ unproved_of numbers.now end error }
{
    match error {
        VerifyError::BigCondition { piece, condition } => {
            CheckError::BigCondition { piece, condition }
        }
        VerifyError::BigDifference { first, second } => CheckError::BigDifference { first, second },
        VerifyError::NotProved { index } => {
            let line = match numbers.get(index.saturating_sub(1)) {
                Some(number) => *number,
                None => end,
            };
            CheckError::NotProved { line }
        }
        VerifyError::Memory => CheckError::Memory,
    }
}
