//! The commands `prove` and `check`: a function is read and written with a proof that its pieces cover its domain and agree on it, or such a proof is checked.

ghost use Rattle.std.specs.Prelude.{ℕ, ◌≡◌, ◌≢◌, ◌≤◌, ◌-◌, List, length, slice_index_or, IfOk};
ghost use Rattle.crn_formula.specs.Domains.{domain_for};
ghost use Rattle.crn_formula.specs.Functions.{IsGivenByPieces};
ghost use Rattle.crn_formula.specs.Views.{kind_of};
ghost use Rattle.crn_function_text.specs.Reading.{function_of};
ghost use Rattle.crn_cert_text.specs.ProvedText.{proved_of};
ghost use Rattle.crn_pieces.specs.Answers.{AreChecked};
ghost use Rattle.crn_pieces.specs.Views.{pieces_in};
ghost use Rattle.crn_program.specs.Answer.{Says, IsFoundInText};
ghost use Rattle.crn_program.specs.Ending.{Tells};
ghost use Rattle.crn_program.specs.Finding.{NotProved, Checked as CheckedLines, text_of_outcome};
ghost use Rattle.crn_program.specs.Proving.{IsOutcomeOfProof, IsOutcomeOfCheck};
ghost use Rattle.crn_program.specs.Texts.{IsFunctionAnswer, IsProvedAnswer};
ghost use Rattle.crn_program.specs.Words.{text_limit, proved_text_limit};
ghost use Rattle.crn_token.specs.Plain.{end_of};

use crate::kinds::{is_by_pieces, other_kind};
use crate::reading::refused_lines;
use crate::refused_function::refused_function;
use crate::reply::{Reply, refused};
use crate::status::Status;
use crn_cert_text::{
    MakeError, Proved, VerifyError, make_proof, print_proved, read_proved, verify,
};
use crn_compile::CompileError;
use crn_formula::Function;
use crn_function_text::read_function;
use crn_pieces::{Checked, check_pieces};
use std::alloc::{AllocError, Global};

/// What `prove` answers to a text.
pub(crate) fn prove(alloc: Global, bytes: &[u8]) -> Result<Reply, AllocError>
    requires { length bytes.now ≤ text_limit }
    ensures { IfOk result (λ reply. Says
        (IsFoundInText text_limit IsFunctionAnswer IsOutcomeOfProof bytes.now) reply.status reply.text.items) }
{
    match read_function(alloc, bytes) {
        Ok(function) => function_answer(alloc, function),
        Err(error) => refused_lines(alloc, error),
    }
}

// What `prove` answers to a function.
fn function_answer(alloc: Global, function: Function) -> Result<Reply, AllocError>
    requires { function.domain ≡ domain_for function.variables (kind_of function.kind) }
    ensures { IfOk result (λ reply. Tells (IsOutcomeOfProof (function_of function)) reply.status reply.text.items) }
{
    if !is_by_pieces(&function) {
        return other_kind(alloc);
    }
    let variables = function.variables();
    match check_pieces(alloc, function) {
        Ok(checked) => {
            // Its clauses say that the pieces were checked.
            let _checked = checked.function();
            proof_answer(alloc, variables, &checked)
        }
        Err(error) => refused_function(alloc, variables, CompileError::from(error)),
    }
}

// What `prove` answers to a function whose pieces were checked.
fn proof_answer(alloc: Global, variables: usize, checked: &Checked) -> Result<Reply, AllocError>
    requires variables { variables ≡ checked.now.variables }
    requires pieces { IsGivenByPieces (kind_of checked.now.kind) }
    requires checked { AreChecked checked.now.domain (pieces_in checked.now) }
    requires domain { checked.now.domain ≡ domain_for checked.now.variables (kind_of checked.now.kind) }
    ensures { IfOk result (λ reply. Tells (IsOutcomeOfProof (function_of checked.now)) reply.status reply.text.items) }
{
    match make_proof(alloc, checked) {
        Ok(proof) => Ok(Reply {
            status: Status::Done,
            text: print_proved(alloc, checked, &proof)?,
        }),
        Err(MakeError::TooBig { system }) => {
            refused_function(alloc, variables, CompileError::TooBig { system })
        }
        Err(MakeError::TooManyRows { system }) => {
            refused_function(alloc, variables, CompileError::TooManyRows { system })
        }
        Err(MakeError::Memory) => Err(AllocError),
    }
}

/// What `check` answers to a text.
pub(crate) fn check(alloc: Global, bytes: &[u8]) -> Result<Reply, AllocError>
    requires { length bytes.now ≤ proved_text_limit }
    ensures { IfOk result (λ reply. Says
        (IsFoundInText proved_text_limit IsProvedAnswer (IsOutcomeOfCheck (end_of bytes.now)) bytes.now)
        reply.status reply.text.items) }
{
    match read_proved(alloc, bytes) {
        Ok(proved) => verdict(alloc, &proved),
        Err(error) => refused_lines(alloc, error),
    }
}

// What `check` answers to a function and a proof.
fn verdict(alloc: Global, proved: &Proved) -> Result<Reply, AllocError>
    requires { proved.now.function.domain ≡ domain_for proved.now.function.variables (kind_of proved.now.function.kind) }
    ensures { IfOk result (λ reply. Tells
        (IsOutcomeOfCheck proved.now.end (proved_of proved.now)) reply.status reply.text.items) }
{
    if !is_by_pieces(&proved.function) {
        return other_kind(alloc);
    }
    let variables = proved.function.variables();
    match verify(alloc, &proved.function, &proved.proof) {
        Ok(()) => checked_lines(alloc, proved.proof.lines.len()),
        Err(VerifyError::BigCondition { piece, condition }) => {
            refused_function(
                alloc,
                variables,
                CompileError::BigCondition { piece, condition },
            )
        }
        Err(VerifyError::BigDifference { first, second }) => {
            refused_function(
                alloc,
                variables,
                CompileError::BigDifference { first, second },
            )
        }
        Err(VerifyError::NotProved { index }) => {
            not_proved(alloc, line_of(&proved.proof.numbers, index, proved.end))
        }
        Err(VerifyError::Memory) => Err(AllocError),
    }
}

// What is answered to a proof of so many lines.
fn checked_lines(alloc: Global, lines: usize) -> Result<Reply, AllocError>
    ensures { IfOk result (λ reply.
        (reply.status ≡ Status.Done) × (reply.text.items ≡ text_of_outcome (CheckedLines lines))) }
{
    Ok(Reply {
        status: Status::Done,
        text: format!(in alloc; "checked lines {lines}\n")?.into_bytes(),
    })
}

// The number of the line of the text on which the proof line of this index stands, counted from 1; the end, past the last.
fn line_of(numbers: &[usize], index: usize, end: usize) -> usize
    requires { 1 ≤ index }
    ensures { result ≡ slice_index_or numbers.now (index - 1) end }
{
    match numbers.get(index - 1) {
        Some(number) => *number,
        None => end,
    }
}

// What is answered where the line of this number does not fit in the proof.
fn not_proved(alloc: Global, line: usize) -> Result<Reply, AllocError>
    ensures { IfOk result (λ reply.
        (reply.status ≡ Status.NotProved) × (reply.text.items ≡ text_of_outcome (NotProved line))) }
{
    let why = format!(in alloc; "not proved at line {line}")?;
    refused(alloc, Status::NotProved, why.as_str())
}
