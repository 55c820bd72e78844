//! The cover tree of a proof, line by line.

ghost use Rattle.std.specs.Prelude.{◌≡◌, ◌<◌, ◌≤◌, ◌+◌, ◌++◌, List, [], length, slice_index_or, sum_by, All, OnOk};
ghost use Rattle.crn_linear.specs.Rows as linear;
ghost use Rattle.crn_formula.specs.Pieces.{columns_of};
ghost use Rattle.crn_pieces.specs.Systems.{chosen_rows, cover_rows};
ghost use Rattle.crn_pieces.specs.Choices.{AreChoices};
ghost use Rattle.crn_pieces.specs.Views.{lists_of};
ghost use Rattle.crn_cert_text.specs.Proofs.{place_of, next_part, first_part};
ghost use Rattle.crn_cert_text.specs.Walks.{part_of};
ghost use Rattle.crn_cert_text.specs.Answers.{Verifies};
ghost use Rattle.crn_cert_text.specs.Views.{lines_of_proof};

use crate::certificates::proves;
use crate::{ProofLine, VerifyError};
use crn_formula::Domain;
use crn_linear::{Row, Strength, opposite};
use std::alloc::{AllocError, Global};

// The rows of the piece at an index.
fn rows_at(conditions: &[Vec<Row>], index: usize) -> &[Row]
    requires { index < length conditions.now }
    ensures { result.now ≡ slice_index_or (lists_of conditions.now) index [] }
{
    conditions[index].as_slice()
}

// Adds the rows of a choice behind the others.
fn push_choice(rows: &mut Vec<Row>, own: &[Row], k: usize) -> Result<(), AllocError>
    requires { k < length own.now }
    ensures { OnOk result (rows.new.items ≡ rows.old.items ++ chosen_rows own.now k) }
{
    rows.extend_from_slice(&own[..k])?;
    rows.push(opposite(&own[k], Strength::Strict))?;
    Ok(())
}

// Takes the rows of a choice from the end. They are one more than its number.
fn pop_choice(rows: &mut Vec<Row>, k: usize)
    ensures { (before : List linear.Row) (own : List linear.Row) → k < length own
        → rows.old.items ≡ before ++ chosen_rows own k → rows.new.items ≡ before }
{
    let kept = rows.len().saturating_sub(k).saturating_sub(1);
    rows.truncate(kept);
}

// To the part that comes after one and the parts within it, with its rows behind those that stand before. Without any
// no choice is left.
fn go_on(
    conditions: &[Vec<Row>],
    choices: &mut Vec<usize>,
    rows: &mut Vec<Row>,
) -> Result<(), AllocError>
    requires { AreChoices (lists_of conditions.now) choices.old.items }
    ensures part { OnOk result (part_of choices.new.items ≡ next_part (lists_of conditions.now) choices.old.items) }
    ensures chosen { OnOk result (AreChoices (lists_of conditions.now) choices.new.items) }
    ensures laid { (before : List linear.Row)
        → rows.old.items ≡ before ++ cover_rows (lists_of conditions.now) choices.old.items
        → OnOk result (rows.new.items ≡ before ++ cover_rows (lists_of conditions.now) choices.new.items) }
{
    while let Some(k) = choices.pop() {
        pop_choice(rows, k);
        let own = rows_at(conditions, choices.len());
        let count = own.len();
        if k + 1 < count {
            push_choice(rows, own, k + 1)?;
            choices.push(k + 1)?;
            return Ok(());
        }
    }
    Ok(())
}

// To the first of the parts that belong to these choices, or to what comes after them where the next piece has no
// condition, with its rows behind those that stand before.
fn go_in(
    conditions: &[Vec<Row>],
    choices: &mut Vec<usize>,
    rows: &mut Vec<Row>,
) -> Result<(), AllocError>
    requires chosen { AreChoices (lists_of conditions.now) choices.old.items }
    requires deeper { length choices.old.items < length conditions.now }
    ensures part { OnOk result (part_of choices.new.items ≡ first_part (lists_of conditions.now) choices.old.items) }
    ensures chosen { OnOk result (AreChoices (lists_of conditions.now) choices.new.items) }
    ensures laid { (before : List linear.Row)
        → rows.old.items ≡ before ++ cover_rows (lists_of conditions.now) choices.old.items
        → OnOk result (rows.new.items ≡ before ++ cover_rows (lists_of conditions.now) choices.new.items) }
{
    let own = rows_at(conditions, choices.len());
    if own.is_empty() {
        return go_on(conditions, choices, rows);
    }
    push_choice(rows, own, 0)?;
    choices.push(0)?;
    Ok(())
}

/// Goes along the lines of a cover tree, which stand behind so many others.
pub fn verify_tree(
    alloc: Global,
    domain: &Domain,
    conditions: &[Vec<Row>],
    before: usize,
    lines: &[ProofLine],
) -> Result<(), VerifyError>
    requires some { 0 < length conditions.now }
    requires lengths { All (All (λ r. length r.entries ≡ columns_of domain.now)) (lists_of conditions.now) }
    requires few { sum_by length (lists_of conditions.now) ≤ 100 }
    requires fits { before + length lines.now < usize.MAX }
    ensures { Verifies domain.now (lists_of conditions.now) (place_of (first_part (lists_of conditions.now) []))
        before (lines_of_proof lines.now) result }
{
    let columns = domain.inside().len();
    let mut choices = Vec::new(alloc);
    let mut rows = Vec::from_slice(alloc, domain.rows())?;
    go_in(conditions, &mut choices, &mut rows)?;
    for i in 0..lines.len() {
        let depth = choices.len();
        if depth == 0 {
            return Err(VerifyError::NotProved {
                index: before + i + 1,
            });
        }
        match &lines[i] {
            ProofLine::Pair(_, _, _) => {
                return Err(VerifyError::NotProved {
                    index: before + i + 1,
                });
            }
            ProofLine::Close(multipliers) => {
                if !proves(columns, rows.as_slice(), multipliers.as_slice()) {
                    return Err(VerifyError::NotProved {
                        index: before + i + 1,
                    });
                }
                go_on(conditions, &mut choices, &mut rows)?;
            }
            ProofLine::Split => {
                if depth >= conditions.len() {
                    return Err(VerifyError::NotProved {
                        index: before + i + 1,
                    });
                }
                go_in(conditions, &mut choices, &mut rows)?;
            }
        }
    }
    let left = choices.len();
    if left > 0 {
        return Err(VerifyError::NotProved {
            index: before + lines.len() + 1,
        });
    }
    Ok(())
}
