//! The command `direct`: a function by pieces is read, and its direct network is printed.

ghost use Rattle.std.specs.Prelude.{◌≡◌, ◌≢◌, ◌≤◌, length, IfOk};
ghost use Rattle.crn_formula.specs.Domains.{domain_for};
ghost use Rattle.crn_formula.specs.Views.{kind_of};
ghost use Rattle.crn_compile.specs.declared.CompileError.TheVariants.{Memory};
ghost use Rattle.crn_compile.specs.declared.direct.DirectError.TheVariants.{Compile};
ghost use Rattle.crn_function_text.specs.Reading.{function_of};
ghost use Rattle.crn_program.specs.Answer.{Says, IsFoundInText};
ghost use Rattle.crn_program.specs.Directly.{IsOutcomeOfDirect};
ghost use Rattle.crn_program.specs.Ending.{Tells};
ghost use Rattle.crn_program.specs.Finding.{status_of_direct, text_of_direct};
ghost use Rattle.crn_program.specs.Texts.{IsFunctionAnswer};
ghost use Rattle.crn_program.specs.Words.{text_limit};

use crate::kinds::{is_linear_pieces, other_kind};
use crate::reading::refused_lines;
use crate::refused_function::{refused_at, refused_function, write_point};
use crate::reply::Reply;
use crate::status::Status;
use crn_compile::{DirectError, compile_superadditive};
use crn_formula::Function;
use crn_function_text::read_function;
use crn_linear::Point;
use crn_net_text::print_network;
use std::alloc::{AllocError, Global};
use std::fmt::Write;

/// What `direct` answers to a text.
pub(crate) fn direct(alloc: Global, bytes: &[u8]) -> Result<Reply, AllocError>
    requires { length bytes.now ≤ text_limit }
    ensures { IfOk result (λ reply. Says
        (IsFoundInText text_limit IsFunctionAnswer IsOutcomeOfDirect bytes.now) reply.status reply.text.items) }
{
    match read_function(alloc, bytes) {
        Ok(function) => function_answer(alloc, function),
        Err(error) => refused_lines(alloc, error),
    }
}

// What `direct` answers to a function.
fn function_answer(alloc: Global, function: Function) -> Result<Reply, AllocError>
    requires { function.domain ≡ domain_for function.variables (kind_of function.kind) }
    ensures { IfOk result (λ reply. Tells (IsOutcomeOfDirect (function_of function)) reply.status reply.text.items) }
{
    if !is_linear_pieces(&function) {
        return other_kind(alloc);
    }
    let variables = function.variables();
    match compile_superadditive(alloc, function) {
        Ok(network) => Ok(Reply {
            status: Status::Done,
            text: print_network(alloc, &network)?,
        }),
        Err(error) => refused_direct(alloc, variables, error),
    }
}

// What is answered where a function of so many variables has no direct network for this cause.
fn refused_direct(alloc: Global, variables: usize, error: DirectError) -> Result<Reply, AllocError>
    ensures { IfOk result (λ reply.
        (error ≢ Compile Memory) × (reply.status ≡ status_of_direct error)
        × (reply.text.items ≡ text_of_direct variables error)) }
{
    match error {
        DirectError::Compile(error) => refused_function(alloc, variables, error),
        DirectError::NotSuperadditive {
            first,
            times,
            second,
        } => not_superadditive(alloc, variables, first, times, second),
        DirectError::Negative { point } => {
            let why = format!(in alloc; "negative at")?;
            refused_at(alloc, Status::Negative, why, variables, point)
        }
    }
}

// The refusal that names two points and a multiple of the first.
fn not_superadditive(
    alloc: Global,
    variables: usize,
    first: Point,
    times: u128,
    second: Point,
) -> Result<Reply, AllocError>
    ensures { IfOk result (λ reply.
        (reply.status ≡ Status.NotSuperadditive)
        × (reply.text.items ≡ text_of_direct variables (DirectError.NotSuperadditive first times second))) }
{
    let mut why = format!(in alloc; "not superadditive at {times} times")?;
    write_point(&mut why, variables, first)?;
    why.push_str(" and")?;
    refused_at(alloc, Status::NotSuperadditive, why, variables, second)
}
