//! The pair lines of a proof.

ghost use Rattle.std.specs.Prelude.{◌≡◌, ◌↔◌, ◌<◌, ◌≤◌, ◌*◌, length, map, All, IsTrue};
ghost use Rattle.crn_formula.specs.Functions.{IsPieceOver, condition_count};
ghost use Rattle.crn_formula.specs.Pieces.{columns_of};
ghost use Rattle.crn_formula.specs.Views.{pieces_of};
ghost use Rattle.crn_pieces.specs.Systems.{rows_of};
ghost use Rattle.crn_pieces.specs.Pairs.{pairs_of, difference_of, first_above, second_above};
ghost use Rattle.crn_pieces.specs.Views.{lists_of};
ghost use Rattle.crn_cert_text.specs.Proofs.{AnswersPair};
ghost use Rattle.crn_cert_text.specs.Answers.{AnswersBoth, VerifiesPairs};
ghost use Rattle.crn_cert_text.specs.Views.{line_at};

use crate::certificates::proves;
use crate::pair_rows::{lay_pieces, replace_last};
use crate::{ProofLine, VerifyError};
use crn_formula::{Domain, Piece};
use crn_linear::{Row, Strength, opposite};
use std::alloc::Global;

// Whether the line at an index has two numbers and a certificate of these rows. Past the last line it has not.
fn fits_at(
    columns: usize,
    rows: &[Row],
    numbers: (usize, usize),
    lines: &[ProofLine],
    at: usize,
) -> bool
    requires columns { columns ≤ 9 }
    requires lengths { All (λ r. length r.entries ≡ columns) rows.now }
    requires few { length rows.now ≤ 256 }
    ensures { IsTrue result ↔ AnswersPair
        (record { above = numbers.0; below = numbers.1; system = record { columns = columns; rows = rows.now } })
        (line_at lines.now at) }
{
    if at >= lines.len() {
        return false;
    }
    match &lines[at] {
        ProofLine::Pair(above, below, multipliers) => {
            if *above != numbers.0 || *below != numbers.1 {
                return false;
            }
            proves(columns, rows, multipliers.as_slice())
        }
        ProofLine::Close(_) => false,
        ProofLine::Split => false,
    }
}

// The two lines of a pair, from an index on. The rows are a buffer.
fn verify_pair(
    rows: &mut Vec<Row>,
    domain: &Domain,
    pieces: &[Piece],
    conditions: &[Vec<Row>],
    pair: (usize, usize),
    difference: &Row,
    lines: &[ProofLine],
    at: usize,
) -> Result<(), VerifyError>
    requires low { 1 ≤ pair.0 }
    requires ordered { pair.0 < pair.1 }
    requires high { pair.1 ≤ length pieces.now }
    requires conditions { lists_of conditions.now ≡ rows_of (pieces_of pieces.now) }
    requires difference { difference.now ≡ difference_of (pieces_of pieces.now) pair }
    requires lengths { All (IsPieceOver (columns_of domain.now)) (pieces_of pieces.now) }
    requires few { All (λ p. condition_count p ≤ 16) (pieces_of pieces.now) }
    requires fits { at ≤ 4000 }
    ensures { AnswersBoth
        (record { above = pair.0; below = pair.1; system = first_above domain.now (pieces_of pieces.now) pair })
        (record { above = pair.1; below = pair.0; system = second_above domain.now (pieces_of pieces.now) pair })
        lines.now at result }
{
    let columns = domain.inside().len();
    let (first, second) = pair;
    let one = conditions[first - 1].as_slice();
    let two = conditions[second - 1].as_slice();
    lay_pieces(rows, domain.rows(), one, two, difference)?;
    if !fits_at(columns, rows.as_slice(), (first, second), lines, at) {
        return Err(VerifyError::NotProved { index: at + 1 });
    }
    replace_last(rows, opposite(difference, Strength::Strict))?;
    if !fits_at(columns, rows.as_slice(), (second, first), lines, at + 1) {
        return Err(VerifyError::NotProved { index: at + 2 });
    }
    Ok(())
}

/// The lines of all pairs, of whose forms these are the differences.
pub fn verify_pairs(
    alloc: Global,
    domain: &Domain,
    pieces: &[Piece],
    conditions: &[Vec<Row>],
    pairs: &[(usize, usize)],
    differences: &[Row],
    lines: &[ProofLine],
) -> Result<(), VerifyError>
    requires pairs { pairs.now ≡ pairs_of (length pieces.now) }
    requires few_pairs { length pairs.now ≤ 1024 }
    requires conditions { lists_of conditions.now ≡ rows_of (pieces_of pieces.now) }
    requires differences { differences.now ≡ map (difference_of (pieces_of pieces.now)) pairs.now }
    requires lengths { All (IsPieceOver (columns_of domain.now)) (pieces_of pieces.now) }
    requires few { All (λ p. condition_count p ≤ 16) (pieces_of pieces.now) }
    ensures { VerifiesPairs domain.now (pieces_of pieces.now) lines.now (2 * length pairs.now) result }
{
    let mut rows = Vec::new(alloc);
    for i in 0..pairs.len() {
        let (first, second) = pairs[i];
        verify_pair(
            &mut rows,
            domain,
            pieces,
            conditions,
            (first, second),
            &differences[i],
            lines,
            2 * i,
        )?;
    }
    Ok(())
}
