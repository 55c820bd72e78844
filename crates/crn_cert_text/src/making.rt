//! Proofs of pieces that cover their domain and agree on it.

ghost use Rattle.std.specs.Prelude.{◌≡◌, ◌<◌, ◌≤◌, ◌⊎◌, ℕ, List, [], length, sum_by, All, IfOk, OnOk, MatchResult};
ghost use Rattle.std.specs.List.{range_with_len, flat_map};
ghost use Rattle.crn_formula.specs.Functions.{IsPieceOver, AreFewPieces, condition_count};
ghost use Rattle.crn_formula.specs.Pieces.{IsDomain, columns_of};
ghost use Rattle.crn_formula.specs.Views.{pieces_of};
ghost use Rattle.crn_farkas.specs.Systems.{HasPoint};
ghost use Rattle.crn_pieces.specs.Systems.{cover_rows, cover_system, rows_of, system_over};
ghost use Rattle.crn_pieces.specs.Pairs.{pairs_of, first_above, second_above, HaveNoPoint, IsAskedPair};
ghost use Rattle.crn_pieces.specs.Choices.{AreChoices, IsFull, IsAskedCover};
ghost use Rattle.crn_pieces.specs.Views.{lists_of, pieces_in};
ghost use Rattle.crn_pieces.specs.Answers.{AreChecked, DoesDifferenceClear, IsUnsolved};
ghost use Rattle.crn_cert_text.specs.Proofs.{IsProofOf, questions_of};
ghost use Rattle.crn_cert_text.specs.Making.{IsOfTwo, NoneFull, Answered, Grows};
ghost use Rattle.crn_cert_text.specs.Answers.{IsMade, IsUnmade};
ghost use Rattle.crn_cert_text.specs.Views.{lines_of_proof};

use crate::pair_rows::rows_of_pair;
use crate::solving::ask;
use crate::{Proof, ProofLine};
use crn_farkas::System;
use crn_feasible::Verdict;
use crn_formula::{Domain, FunctionKind, Piece};
use crn_linear::{Row, Strength, opposite};
use crn_pieces::{Checked, Unsolved, clear_conditions, pairs};
use crn_simplex::Solver;
use std::alloc::{AllocError, AllocFailed, Global};
use thiserror::Error;

/// Why no proof is made.
#[derive(Debug, Drop, Error)]
pub enum MakeError {
    /// A number of the elimination of this system passed 2^59 in size.
    #[error("a number of an elimination is too big")]
    TooBig { system: System },
    /// The elimination of this system kept more than 4,096 rows.
    #[error("an elimination keeps too many rows")]
    TooManyRows { system: System },
    /// Memory ran out.
    #[error("out of memory")]
    Memory,
}

impl From<AllocError> for MakeError {
    ghost use Rattle.crn_cert_text.specs.declared.making.MakeError.TheVariants.{Memory};

    ghost from_gives = { λ _ e. e ≡ Memory };

    fn from(_error: AllocError) -> MakeError {
        MakeError::Memory
    }
}

impl<T: Drop> From<AllocFailed<T>> for MakeError {
    ghost use Rattle.crn_cert_text.specs.declared.making.MakeError.TheVariants.{Memory};

    ghost from_gives = { λ _ e. e ≡ Memory };

    fn from(_error: AllocFailed<T>) -> MakeError {
        MakeError::Memory
    }
}

impl From<Unsolved> for MakeError {
    ghost use Rattle.crn_cert_text.specs.Answers.{unmade_of};

    ghost from_gives = { λ u e. e ≡ unmade_of u };

    fn from(unsolved: Unsolved) -> MakeError {
        match unsolved {
            Unsolved::TooBig(system) => MakeError::TooBig { system },
            Unsolved::TooManyRows(system) => MakeError::TooManyRows { system },
            Unsolved::Memory => MakeError::Memory,
        }
    }
}

/// A proof that the pieces of a function cover its domain and agree on it, as they were found to. Its lines have the
/// numbers 1, 2, and so on.
pub fn make_proof(alloc: Global, checked: &Checked) -> Result<Proof, MakeError>
    ensures { MatchResult result
        (IsMade checked.now.domain (pieces_in checked.now))
        (IsUnmade checked.now.domain (pieces_in checked.now)) }
{
    let function = checked.function();
    match function.kind() {
        FunctionKind::Pieces(pieces) => {
            prove_pieces(alloc, function.domain(), pieces.as_slice())
        }
        _ => unreachable!(),
    }
}

fn prove_pieces(alloc: Global, domain: &Domain, pieces: &[Piece]) -> Result<Proof, MakeError>
    requires lengths { All (IsPieceOver (columns_of domain.now)) (pieces_of pieces.now) }
    requires few { AreFewPieces condition_count (pieces_of pieces.now) }
    requires checked { AreChecked domain.now (pieces_of pieces.now) }
    ensures { MatchResult result
        (IsMade domain.now (pieces_of pieces.now))
        (IsUnmade domain.now (pieces_of pieces.now)) }
{
    // The conditions clear, as they did when the pieces were checked.
    let Ok(conditions) = clear_conditions(alloc, pieces) else {
        return Err(MakeError::Memory);
    };
    let pairs = pairs(alloc, pieces.len())?;
    let columns = domain.inside().len();
    let mut solver = Solver::new();
    let mut lines = Vec::new(alloc);
    make_pairs(
        alloc,
        &mut solver,
        domain,
        columns,
        pieces,
        conditions.as_slice(),
        pairs.as_slice(),
        &mut lines,
    )?;
    make_tree(
        alloc,
        &mut solver,
        domain,
        conditions.as_slice(),
        &mut lines,
    )?;
    let numbers = numbers_to(alloc, lines.len())?;
    Ok(Proof { lines, numbers })
}

// The numbers from 1 to this one.
fn numbers_to(alloc: Global, count: usize) -> Result<Vec<usize>, AllocError>
    requires { count < usize.MAX }
    ensures { IfOk result (λ numbers. numbers.items ≡ range_with_len 1 count) }
{
    let mut numbers = Vec::new(alloc);
    for i in 0..count {
        numbers.push(i + 1)?;
    }
    Ok(numbers)
}

// The multipliers that refute a system without a point.
fn refute(
    alloc: Global,
    solver: &mut Solver,
    domain: &Domain,
    rows: &[Row],
) -> Result<Vec<i64>, Unsolved>
    requires lengths { All (λ r. length r.entries ≡ columns_of domain.now) rows.now }
    requires few { length rows.now ≤ 248 }
    requires none { ¬ HasPoint (system_over domain.now rows.now) }
    ensures { MatchResult result
        (λ m. IsProofOf (system_over domain.now rows.now) m.items)
        (IsUnsolved (λ s. s ≡ system_over domain.now rows.now)) }
{
    match ask(alloc, solver, domain, rows)? {
        Verdict::Refuted(certificate) => {
            let multipliers = Vec::from_slice(alloc, certificate.multipliers())?;
            Ok(multipliers)
        }
        Verdict::Found(_) => unreachable!(),
    }
}

// Adds the two lines of a pair.
fn make_pair(
    alloc: Global,
    solver: &mut Solver,
    domain: &Domain,
    columns: usize,
    pieces: &[Piece],
    conditions: &[Vec<Row>],
    pair: (usize, usize),
    lines: &mut Vec<ProofLine>,
) -> Result<(), Unsolved>
    requires columns { columns ≡ columns_of domain.now }
    requires low { 1 ≤ pair.0 }
    requires ordered { pair.0 < pair.1 }
    requires high { pair.1 ≤ length pieces.now }
    requires conditions { lists_of conditions.now ≡ rows_of (pieces_of pieces.now) }
    requires clear { DoesDifferenceClear (pieces_of pieces.now) pair }
    requires lengths { All (IsPieceOver columns) (pieces_of pieces.now) }
    requires few { All (λ p. condition_count p ≤ 16) (pieces_of pieces.now) }
    requires none { HaveNoPoint domain.now (pieces_of pieces.now) pair }
    ensures { MatchResult result
        (λ _. Answered (questions_of domain.now (pieces_of pieces.now) pair)
        (lines_of_proof lines.old.items) (lines_of_proof lines.new.items))
        (IsUnsolved (IsOfTwo
        (first_above domain.now (pieces_of pieces.now) pair)
        (second_above domain.now (pieces_of pieces.now) pair))) }
{
    let (first, second) = pair;
    let (above, below) = rows_of_pair(alloc, pieces, conditions, columns, pair)?;
    let multipliers = refute(alloc, solver, domain, above.as_slice())?;
    lines.push(ProofLine::Pair(first, second, multipliers))?;
    let others = refute(alloc, solver, domain, below.as_slice())?;
    lines.push(ProofLine::Pair(second, first, others))?;
    Ok(())
}

// Adds the lines of all pairs.
fn make_pairs(
    alloc: Global,
    solver: &mut Solver,
    domain: &Domain,
    columns: usize,
    pieces: &[Piece],
    conditions: &[Vec<Row>],
    pairs: &[(usize, usize)],
    lines: &mut Vec<ProofLine>,
) -> Result<(), Unsolved>
    requires columns { columns ≡ columns_of domain.now }
    requires pairs { pairs.now ≡ pairs_of (length pieces.now) }
    requires conditions { lists_of conditions.now ≡ rows_of (pieces_of pieces.now) }
    requires clear { All (DoesDifferenceClear (pieces_of pieces.now)) pairs.now }
    requires lengths { All (IsPieceOver columns) (pieces_of pieces.now) }
    requires few { All (λ p. condition_count p ≤ 16) (pieces_of pieces.now) }
    requires none { All (HaveNoPoint domain.now (pieces_of pieces.now)) pairs.now }
    ensures { MatchResult result
        (λ _. Answered (flat_map (questions_of domain.now (pieces_of pieces.now)) pairs.now)
        (lines_of_proof lines.old.items) (lines_of_proof lines.new.items))
        (IsUnsolved (IsAskedPair domain.now (pieces_of pieces.now))) }
{
    for i in 0..pairs.len() {
        let (first, second) = pairs[i];
        make_pair(
            alloc,
            solver,
            domain,
            columns,
            pieces,
            conditions,
            (first, second),
            lines,
        )?;
    }
    Ok(())
}

// Adds the lines of the cover tree.
fn make_tree(
    alloc: Global,
    solver: &mut Solver,
    domain: &Domain,
    conditions: &[Vec<Row>],
    lines: &mut Vec<ProofLine>,
) -> Result<(), Unsolved>
    requires some { 0 < length conditions.now }
    requires domain { IsDomain domain.now }
    requires none { NoneFull domain.now (lists_of conditions.now) }
    requires lengths { All (All (λ r. length r.entries ≡ columns_of domain.now)) (lists_of conditions.now) }
    requires few { sum_by length (lists_of conditions.now) ≤ 100 }
    ensures { MatchResult result
        (λ _. Grows domain.now (lists_of conditions.now) []
        (lines_of_proof lines.old.items) (lines_of_proof lines.new.items))
        (IsUnsolved (IsAskedCover domain.now (lists_of conditions.now))) }
{
    let mut choices = Vec::new(alloc);
    let mut rows = Vec::new(alloc);
    grow(
        alloc,
        solver,
        domain,
        conditions,
        &mut choices,
        &mut rows,
        lines,
    )
}

// Adds the lines of the cover tree of these choices, whose rows are given.
fn grow(
    alloc: Global,
    solver: &mut Solver,
    domain: &Domain,
    conditions: &[Vec<Row>],
    choices: &mut Vec<usize>,
    rows: &mut Vec<Row>,
    lines: &mut Vec<ProofLine>,
) -> Result<(), Unsolved>
    requires rows { rows.old.items ≡ cover_rows (lists_of conditions.now) choices.old.items }
    requires chosen { AreChoices (lists_of conditions.now) choices.old.items }
    requires deeper { length choices.old.items < length conditions.now }
    requires point { HasPoint (cover_system domain.now (lists_of conditions.now) choices.old.items) }
    requires none { NoneFull domain.now (lists_of conditions.now) }
    requires lengths { All (All (λ r. length r.entries ≡ columns_of domain.now)) (lists_of conditions.now) }
    requires few { sum_by length (lists_of conditions.now) ≤ 100 }
    ensures grown { MatchResult result
        (λ _. Grows domain.now (lists_of conditions.now) choices.old.items
        (lines_of_proof lines.old.items) (lines_of_proof lines.new.items))
        (IsUnsolved (IsAskedCover domain.now (lists_of conditions.now))) }
    ensures choices { OnOk result (choices.new.items ≡ choices.old.items) }
    ensures rows { OnOk result (rows.new.items ≡ rows.old.items) }
{
    let depth = choices.len();
    let held = rows.len();
    for k in 0..conditions[depth].len() {
        let row = conditions[depth][k];
        choices.push(k)?;
        rows.push(opposite(&row, Strength::Strict))?;
        match ask(alloc, solver, domain, rows.as_slice())? {
            Verdict::Found(_) => {
                lines.push(ProofLine::Split)?;
                grow(alloc, solver, domain, conditions, choices, rows, lines)?;
            }
            Verdict::Refuted(certificate) => {
                let multipliers = Vec::from_slice(alloc, certificate.multipliers())?;
                lines.push(ProofLine::Close(multipliers))?;
            }
        }
        choices.pop();
        rows.pop();
        rows.push(row)?;
    }
    rows.truncate(held);
    Ok(())
}
