//! The command `same`: two functions are read, and it is written that they are the same, or a point at which they are not.

ghost use Rattle.std.specs.Prelude.{◌≡◌, ◌≢◌, ◌↔◌, ◌≤◌, length, IfOk, IsTrue};
ghost use Rattle.crn_formula.specs.Domains.{domain_for};
ghost use Rattle.crn_formula.specs.Views.{kind_of};
ghost use Rattle.crn_function_text.specs.Two.{two_of};
ghost use Rattle.crn_same.specs.declared.SameError.TheVariants.{Memory};
ghost use Rattle.crn_program.specs.Answer.{Says, IsFoundInText};
ghost use Rattle.crn_program.specs.Comparing.{AreComparable, IsOutcomeOfTwo};
ghost use Rattle.crn_program.specs.Ending.{Tells};
ghost use Rattle.crn_program.specs.Finding.{OtherVariables, status_of_cause, status_of_same, text_in, text_of_same, text_of_outcome};
ghost use Rattle.crn_program.specs.Texts.{IsTwoAnswer};
ghost use Rattle.crn_program.specs.Words.{text_limit};

use crate::kinds::{is_comparable, other_kind};
use crate::reading::{past_limit, refused_lines};
use crate::refused_function::{refused_at, refused_function};
use crate::reply::{Reply, refused};
use crate::status::Status;
use crn_compile::CompileError;
use crn_formula::Function;
use crn_function_text::read_two_functions;
use crn_same::{SameError, same as compare};
use crn_token::Counted;
use std::alloc::{AllocError, Global};

/// What `same` answers to a text.
pub(crate) fn same(alloc: Global, bytes: &[u8]) -> Result<Reply, AllocError>
    requires { length bytes.now ≤ text_limit }
    ensures { IfOk result (λ reply. Says
        (IsFoundInText text_limit IsTwoAnswer IsOutcomeOfTwo bytes.now) reply.status reply.text.items) }
{
    match read_two_functions(alloc, bytes) {
        Ok((first, second)) => comparison(alloc, first, second),
        Err(error) => refused_lines(alloc, error),
    }
}

// What `same` answers to two functions.
fn comparison(alloc: Global, first: Function, second: Function) -> Result<Reply, AllocError>
    requires first { first.domain ≡ domain_for first.variables (kind_of first.kind) }
    requires second { second.domain ≡ domain_for second.variables (kind_of second.kind) }
    ensures { IfOk result (λ reply. Tells (IsOutcomeOfTwo (two_of (first, second))) reply.status reply.text.items) }
{
    if !are_comparable(&first, &second) {
        return other_kind(alloc);
    }
    let variables = first.variables();
    if variables != second.variables() {
        return other_variables(alloc, variables, second.variables());
    }
    match compare(alloc, first, second) {
        Ok(()) => Ok(Reply {
            status: Status::Done,
            text: format!(in alloc; "same\n")?.into_bytes(),
        }),
        Err(error) => refused_comparison(alloc, variables, error),
    }
}

// Whether neither is the least of forms.
fn are_comparable(first: &Function, second: &Function) -> bool
    ensures { IsTrue result ↔ AreComparable (two_of (first.now, second.now)) }
{
    is_comparable(first) && is_comparable(second)
}

// The refusal of functions with so many variables each.
fn other_variables(alloc: Global, first: usize, second: usize) -> Result<Reply, AllocError>
    ensures { IfOk result (λ reply.
        (reply.status ≡ Status.Variables) × (reply.text.items ≡ text_of_outcome (OtherVariables first second))) }
{
    let why = format!(in alloc; "variables {first} and {second}")?;
    refused(alloc, Status::Variables, why.as_str())
}

// What is answered where two functions of so many variables are not shown to be the same for this cause.
fn refused_comparison(
    alloc: Global,
    variables: usize,
    error: SameError,
) -> Result<Reply, AllocError>
    ensures { IfOk result (λ reply.
        (error ≢ Memory) × (reply.status ≡ status_of_same error) × (reply.text.items ≡ text_of_same variables error)) }
{
    match error {
        SameError::Pieces { which, error } => {
            refused_one(alloc, which, variables, CompileError::from(error))
        }
        SameError::Maxmin { which, error } => {
            refused_one(alloc, which, variables, CompileError::from(error))
        }
        SameError::TooManySets { count } => past_limit(alloc, Counted::Sets, count as u64),
        SameError::TooManyForms { count } => past_limit(alloc, Counted::NormalForms, count as u64),
        SameError::TooBigForm => refused(alloc, Status::TooBig, "too big normal form"),
        SameError::Differ { point } => {
            let why = format!(in alloc; "differ at")?;
            refused_at(alloc, Status::Differ, why, variables, point)
        }
        SameError::TooBig { system } => {
            refused_function(alloc, variables, CompileError::TooBig { system })
        }
        SameError::TooManyRows { system } => {
            refused_function(alloc, variables, CompileError::TooManyRows { system })
        }
        SameError::Memory => Err(AllocError),
    }
}

// The refusal of function 1 or 2 for this cause.
fn refused_one(
    alloc: Global,
    which: usize,
    variables: usize,
    cause: CompileError,
) -> Result<Reply, AllocError>
    ensures { IfOk result (λ reply.
        (cause ≢ CompileError.Memory) × (reply.status ≡ status_of_cause cause)
        × (reply.text.items ≡ text_in which variables cause)) }
{
    let reply = refused_function(alloc, variables, cause)?;
    let mut text = format!(in alloc; "in function {which}\n")?.into_bytes();
    text.extend_from_slice(reply.text.as_slice())?;
    Ok(Reply {
        status: reply.status,
        text,
    })
}
