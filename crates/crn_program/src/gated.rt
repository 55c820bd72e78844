//! The commands `compile-gated` and `complete-gated`: forms with gates are read, and their network is printed, or a job in it is completed.

ghost use Rattle.std.specs.Prelude.{ℕ, ◌≡◌, ◌≤◌, List, length, IfOk, None};
ghost use Rattle.crn_fraction.specs.Rational.{ℚ};
ghost use Rattle.crn_net.specs.Network.{AreAmounts, AreNotNegative, start, amount, value_at};
ghost use Rattle.crn_gated.specs.Computes.{StablyComputesGated};
ghost use Rattle.crn_gated.specs.Forms.{AreFewGatedForms};
ghost use Rattle.crn_gated.specs.Reading.{gated_of};
ghost use Rattle.crn_gated.specs.Reading.{gated_job_of};
ghost use Rattle.crn_program.specs.Answer.{Says, IsOutcomeOfGated, IsOutcomeOfGatedJob, IsFoundInText};
ghost use Rattle.crn_program.specs.Texts.{IsGatedAnswer, IsGatedJobAnswer};
ghost use Rattle.crn_program.specs.Ending.{Tells};
ghost use Rattle.crn_program.specs.Gated.{IsOutcomeOfGatedCompletion, IsOutcomeOfGatedSegments};
ghost use Rattle.crn_program.specs.Report.{OutputFits};
ghost use Rattle.crn_program.specs.Words.{text_limit};

use crate::complete::{Unfinished, refused_completion};
use crate::reading::refused_lines;
use crate::replaying::{refused_segment, replay_all};
use crate::reply::Reply;
use crate::report::{begin_report, end_report, value_of};
use crate::start::start;
use crate::status::Status;
use crn_completer::CompletionTooBig;
use crn_fraction::Frac;
use crn_gated::{GatedError, GatedFunction, GatedJob, read_gated, read_gated_job};
use crn_net::Network;
use crn_net_text::print_network;
use crn_segments::{Replay, Segment};
use std::alloc::{AllocError, Global};

/// What `compile-gated` answers to a text.
pub(crate) fn compile_gated(alloc: Global, bytes: &[u8]) -> Result<Reply, AllocError>
    requires { length bytes.now ≤ text_limit }
    ensures { IfOk result (λ reply. Says
        (IsFoundInText text_limit IsGatedAnswer IsOutcomeOfGated bytes.now) reply.status reply.text.items) }
{
    match read_gated(alloc, bytes) {
        Ok(function) => function_answer(alloc, &function),
        Err(error) => refused_lines(alloc, error),
    }
}

// What `compile-gated` answers to a function.
fn function_answer(alloc: Global, function: &GatedFunction) -> Result<Reply, AllocError>
    requires { AreFewGatedForms function.now.variables function.now.forms.items }
    ensures { IfOk result (λ reply. Tells (IsOutcomeOfGated (gated_of function.now)) reply.status reply.text.items) }
{
    let network = crn_gated::compile_gated(alloc, function)?;
    let text = print_network(alloc, &network)?;
    Ok(Reply {
        status: Status::Done,
        text,
    })
}

/// What `complete-gated` answers to a text.
pub(crate) fn complete_gated(alloc: Global, bytes: &[u8]) -> Result<Reply, AllocError>
    requires { length bytes.now ≤ text_limit }
    ensures { IfOk result (λ reply. Says
        (IsFoundInText text_limit IsGatedJobAnswer IsOutcomeOfGatedJob bytes.now) reply.status reply.text.items) }
{
    match read_gated_job(alloc, bytes) {
        Ok(job) => job_answer(alloc, &job),
        Err(error) => refused_lines(alloc, error),
    }
}

// What `complete-gated` answers to a job.
fn job_answer(alloc: Global, job: &GatedJob) -> Result<Reply, AllocError>
    requires forms { AreFewGatedForms job.now.function.variables job.now.function.forms.items }
    requires long { length job.now.amounts.items ≡ job.now.function.variables }
    requires not_negative { AreNotNegative job.now.amounts.items }
    ensures { IfOk result (λ reply. Tells (IsOutcomeOfGatedJob (gated_job_of job.now)) reply.status reply.text.items) }
{
    let network = crn_gated::compile_gated(alloc, &job.function)?;
    run_answer(alloc, &network, &job.amounts, &job.segments)
}

// What is answered to a job with this network, whose output is a single rail.
fn run_answer(
    alloc: Global,
    network: &Network,
    amounts: &[Frac],
    segments: &[Segment],
) -> Result<Reply, AllocError>
    requires amounts { AreAmounts network.now amounts.now }
    requires output { (d : List ℚ) → OutputFits network.now.output d }
    ensures { (value : ℚ) → StablyComputesGated network.now amounts.now value
        → IfOk result (λ reply. Tells
        (IsOutcomeOfGatedSegments network.now value
        (start network.now amounts.now) segments.now) reply.status reply.text.items) }
{
    let mut replay = Replay::new(alloc, network, start(alloc, network, amounts)?)?;
    match replay_all(&mut replay, segments) {
        Ok(()) => completion_answer(alloc, network, &mut replay),
        Err(refusal) => refused_segment(alloc, refusal),
    }
}

// What is answered after the given segments: the report of the gated completion from here on.
fn completion_answer(
    alloc: Global,
    network: &Network,
    replay: &mut Replay<'_>,
) -> Result<Reply, AllocError>
    requires network { replay.old.network ≡ network.now }
    requires output { (d : List ℚ) → OutputFits network.now.output d }
    ensures { IfOk result (λ reply. Tells
        (IsOutcomeOfGatedCompletion network.now replay.old.state) reply.status reply.text.items) }
{
    let mut report = begin_report(alloc, network, replay.state())?;
    match crn_gated::complete_gated(alloc, network, replay) {
        Ok(flows) => {
            let value = fitting_value(network, replay);
            end_report(&mut report, network, &flows, replay.state(), value)?;
            Ok(Reply {
                status: Status::Done,
                text: report.into_bytes(),
            })
        }
        Err(GatedError::TooBig { reaction, species }) => {
            let at = CompletionTooBig { reaction, species };
            refused_completion(alloc, Unfinished::Completion(at))
        }
        Err(GatedError::Memory) => Err(AllocError),
    }
}

// The value of the output where a replay stands, which is an amount of the state.
fn fitting_value(network: &Network, replay: &Replay<'_>) -> Frac
    requires network { replay.now.network ≡ network.now }
    requires output { OutputFits network.now.output replay.now.state }
    ensures { result ≡ value_at network.now.output (amount replay.now.state) }
{
    match value_of(network, replay.state()) {
        Ok(value) => value,
        Err(_) => unreachable!(),
    }
}
