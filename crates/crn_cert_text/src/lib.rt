//! Proofs that pieces cover their domain and agree on it: made of pieces that were checked, printed, read, and verified
//! line by line without solving anything.
//!
//! What is verified is covered and agreeing, a refusal names the first line that does not fit, and what is made and
//! printed is accepted by whoever reads it, but for want of memory. Each text has one verdict.
#![tactic(auto)]

ghost use Rattle.std.specs.Prelude.{◌≡◌, ◌≤◌, length, All, IfOk, MatchResult};
ghost use Rattle.crn_formula.specs.Functions.{IsGivenByPieces, IsPieceOver, AreFewPieces, condition_count};
ghost use Rattle.crn_formula.specs.Pieces.{Covers, Agree, columns_of};
ghost use Rattle.crn_formula.specs.Views.{kind_of, pieces_of};
ghost use Rattle.crn_pieces.specs.Views.{pieces_in};
ghost use Rattle.crn_cert_text.specs.Answers.{IsAccepted, IsRejected, unclear_of};
ghost use Rattle.crn_cert_text.specs.Views.{lines_of_proof};

pub use checking::{CheckError, check_text};
use crn_formula::{Domain, Function, FunctionKind, Piece};
use crn_pieces::{PiecesError, clear_conditions, clear_differences, pairs};
pub use making::{MakeError, make_proof};
pub use print::print_proof;
pub use proved::{Proved, print_proved, read_proved};
use questions::verify_pairs;
pub use read::{ProofTextError, read_proof};
use std::alloc::{AllocError, AllocFailed, Global};
use thiserror::Error;
use tree::verify_tree;

mod certificates;
mod checking;
pub mod laws;
mod making;
mod pair_rows;
mod print;
mod proved;
mod questions;
mod read;
mod solving;
mod tree;
mod words;

/// A line of a proof.
#[derive(Debug, Drop)]
pub enum ProofLine {
    /// The multipliers of the system of two pieces, that the form of the first is above that of the second.
    Pair(usize, usize, Vec<i64>),
    /// The multipliers of the system of a part of the cover tree.
    Close(Vec<i64>),
    /// A part of the cover tree has parts of its own.
    Split,
}

/// Why a proof is not accepted.
#[derive(Clone, Copy, Debug, PartialEq, Eq, Error)]
pub enum VerifyError {
    /// The row of a condition does not clear within 2^59.
    #[error("condition {condition} of piece {piece} is too big")]
    BigCondition { piece: usize, condition: usize },
    /// The row of the difference of the forms of two pieces does not clear within 2^59.
    #[error("the difference of pieces {first} and {second} is too big")]
    BigDifference { first: usize, second: usize },
    /// The line of this number is the first that does not fit, or the proof ends before it is whole.
    #[error("not proved at line {index}")]
    NotProved { index: usize },
    /// Memory ran out.
    #[error("out of memory")]
    Memory,
}

impl From<AllocError> for VerifyError {
    ghost use Rattle.crn_cert_text.specs.declared.VerifyError.TheVariants.{Memory};

    ghost from_gives = { λ _ e. e ≡ Memory };

    fn from(_error: AllocError) -> VerifyError {
        VerifyError::Memory
    }
}

impl<T: Drop> From<AllocFailed<T>> for VerifyError {
    ghost use Rattle.crn_cert_text.specs.declared.VerifyError.TheVariants.{Memory};

    ghost from_gives = { λ _ e. e ≡ Memory };

    fn from(_error: AllocFailed<T>) -> VerifyError {
        VerifyError::Memory
    }
}

/// The lines of a proof, and the numbers of the text lines that they stand on.
#[derive(Debug, Drop)]
pub struct Proof {
    pub lines: Vec<ProofLine>,
    pub numbers: Vec<usize>,
}

/// Looks whether the lines are a proof that the pieces of a function cover its domain and agree on it. Nothing is
/// solved: the multipliers of each line are tried as they are.
pub fn verify(alloc: Global, function: &Function, proof: &Proof) -> Result<(), VerifyError>
    requires { IsGivenByPieces (kind_of function.now.kind) }
    ensures verdict { MatchResult result
        (λ _. IsAccepted function.now.domain (pieces_in function.now) (lines_of_proof proof.now.lines.items))
        (IsRejected function.now.domain (pieces_in function.now) (lines_of_proof proof.now.lines.items)) }
    ensures covers { IfOk result (λ _. Covers function.now.domain (pieces_in function.now)) }
    ensures agree { IfOk result (λ _. Agree function.now.domain (pieces_in function.now)) }
{
    match function.kind() {
        FunctionKind::Pieces(pieces) => verify_pieces(
            alloc,
            function.domain(),
            pieces.as_slice(),
            proof.lines.as_slice(),
        ),
        _ => unreachable!(),
    }
}

// Why clearing is refused: for a row, or for want of memory.
fn unclear(error: PiecesError) -> VerifyError
    ensures { result ≡ unclear_of error }
{
    match error {
        PiecesError::BigCondition { piece, condition } => {
            VerifyError::BigCondition { piece, condition }
        }
        PiecesError::BigDifference { first, second } => VerifyError::BigDifference {
            first,
            second,
        },
        _ => VerifyError::Memory,
    }
}

fn verify_pieces(
    alloc: Global,
    domain: &Domain,
    pieces: &[Piece],
    lines: &[ProofLine],
) -> Result<(), VerifyError>
    requires lengths { All (IsPieceOver (columns_of domain.now)) (pieces_of pieces.now) }
    requires few { AreFewPieces condition_count (pieces_of pieces.now) }
    ensures verdict { MatchResult result
        (λ _. IsAccepted domain.now (pieces_of pieces.now) (lines_of_proof lines.now))
        (IsRejected domain.now (pieces_of pieces.now) (lines_of_proof lines.now)) }
    ensures covers { IfOk result (λ _. Covers domain.now (pieces_of pieces.now)) }
    ensures agree { IfOk result (λ _. Agree domain.now (pieces_of pieces.now)) }
{
    let conditions = match clear_conditions(alloc, pieces) {
        Ok(conditions) => conditions,
        Err(error) => return Err(unclear(error)),
    };
    let pairs = pairs(alloc, pieces.len())?;
    // All differences have to clear before a line is looked at.
    let differences = match clear_differences(
        alloc,
        pieces,
        domain.inside().len(),
        pairs.as_slice(),
    ) {
        Ok(differences) => differences,
        Err(error) => return Err(unclear(error)),
    };
    verify_pairs(
        alloc,
        domain,
        pieces,
        conditions.as_slice(),
        pairs.as_slice(),
        differences.as_slice(),
        lines,
    )?;
    let taken = 2 * pairs.len();
    verify_tree(alloc, domain, conditions.as_slice(), taken, &lines[taken..])
}
