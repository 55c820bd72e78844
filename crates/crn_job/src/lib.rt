//! The text of jobs: a function, the amounts of its inputs, and segments; and of run jobs: a network, amounts of its species, and segments.
//!
//! Each answer of a reader is the right one for its table of lines (`specs/Grammar.antt`, `specs/RunGrammar.antt`). What a text within the limits gives keeps the rules:
//! an amount for each species of the inputs, none negative, and segments.
#![tactic(auto)]

ghost use Rattle.std.specs.Prelude.{◌≡◌, ◌≤◌, ◌*◌, length, drop, vec_len, IfOk};
ghost use Rattle.crn_token.specs.Lines.{AreLinesOf};
ghost use Rattle.crn_token.specs.Plain.{plain_lines, line_number, end_of};
ghost use Rattle.crn_grammar.specs.Table.{IsText, PassesNone, IsAnswer};
ghost use Rattle.crn_grammar.specs.Table as table;
ghost use Rattle.crn_grammar.specs.Followed.{answer_map};
ghost use Rattle.crn_grammar.specs.Reading.{Gives, IsRight};
ghost use Rattle.crn_formula.specs.Domains.{domain_for};
ghost use Rattle.crn_formula.specs.Views.{kind_of};
ghost use Rattle.crn_net.specs.Network.{AreNotNegative, IsNotNegative, IsState};
ghost use Rattle.crn_function_text.specs.Reading.{function_of};
ghost use Rattle.crn_job.specs.Grammar.{PlainJob, TailValue, job_table, job_answer, job_with, tail_table, tail_answer, lines_answer, rails_of, amounts_of, amount_count};
ghost use Rattle.crn_job.specs.RunGrammar.{PlainRunJob, run_table, run_answer, run_with, run_tail_answer};
ghost use Rattle.crn_job.specs.Reading.{BeginsWithNetwork, value_of, job_of, run_value_of, run_job_of};

use crn_formula::{Function, FunctionKind};
use crn_fraction::Frac;
use crn_function_text::read_function_part;
use crn_grammar::TextError;
use crn_net::{Network, Rails};
use crn_net_text::read_network_part;
use crn_segments::{Segment, State};
use crn_token::words::{rest_of, tokens_of};
use crn_token::{LineSource, Lines, LinesFrom, TextLines};
use run_tail::RunTail;
use std::alloc::Global;
use tail::Tail;
use words::first_word;

pub mod laws;
mod run_tail;
mod tail;
mod words;

/// Why a text has no job that can be answered.
pub type JobError = TextError;

/// A function, the amounts of its inputs and segments.
#[derive(Debug, Drop)]
pub struct Job {
    pub function: Function,
    /// The amounts of the input lines from left to right.
    pub amounts: Vec<Frac>,
    pub segments: Vec<Segment>,
}

/// A network, the state that its run begins at, and segments.
#[derive(Debug, Drop)]
pub struct RunJob {
    pub network: Network,
    /// An amount of each species, 0 where the text has none.
    pub state: State,
    pub segments: Vec<Segment>,
}

/// The amounts of the `input` lines and the segments of the `segment` lines, from the line with the index `from` to the end.
pub fn read_job_tail(
    alloc: Global,
    bytes: &[u8],
    lines: &Lines,
    from: usize,
    inputs: usize,
    rails: Rails,
) -> Result<(Vec<Frac>, Vec<Segment>), JobError>
    requires lines { AreLinesOf bytes.now lines.now }
    requires from { from ≤ vec_len lines.now.lines }
    requires some { 1 ≤ inputs }
    requires few { inputs ≤ 8 }
    ensures answer { Gives value_of result (tail_answer rails inputs bytes.now from) }
    // Each answer is the right one: the amounts and segments of the lines, the malformed line, or the first limit that is passed.
    ensures part { IsRight value_of result (IsAnswer (tail_table rails inputs) line_number (end_of bytes.now) (drop from (plain_lines bytes.now))) }
    // Lines that pass no limit are read.
    ensures read { (v : TailValue) → IsText (tail_table rails inputs) (drop from (plain_lines bytes.now)) v → PassesNone (tail_table rails inputs) (drop from (plain_lines bytes.now))
        → Gives value_of result (table.Read v) }
    ensures amounts { IfOk result (λ r. (length r.0.items ≡ inputs * amounts_of rails) × AreNotNegative r.0.items) }
{
    let mut source = LinesFrom::new(bytes, lines, from);
    read_lines(alloc, bytes, &mut source, inputs, rails)
}

/// The amounts of the `input` lines and the segments of the `segment` lines, of all lines that are left.
pub fn read_tail<S: LineSource>(
    alloc: Global,
    bytes: &[u8],
    source: &mut S,
    inputs: usize,
    rails: Rails,
) -> Result<(Vec<Frac>, Vec<Segment>), JobError>
    requires text { S.text source.old ≡ bytes.now }
    requires some { 1 ≤ inputs }
    requires few { inputs ≤ 8 }
    ensures answer { Gives value_of result (lines_answer rails inputs bytes.now (S.left source.old)) }
    // Each answer is the right one: the amounts and segments of the lines, the malformed line, or the first limit that is passed.
    ensures part { IsRight value_of result (IsAnswer (tail_table rails inputs) line_number (end_of bytes.now) (S.left source.old)) }
    // Lines that pass no limit are read.
    ensures read { (v : TailValue) → IsText (tail_table rails inputs) (S.left source.old) v → PassesNone (tail_table rails inputs) (S.left source.old)
        → Gives value_of result (table.Read v) }
    ensures amounts { IfOk result (λ r. (length r.0.items ≡ inputs * amounts_of rails) × AreNotNegative r.0.items) }
{
    read_lines(alloc, bytes, source, inputs, rails)
}

// The lines after a function part, one by one.
fn read_lines<S: LineSource>(
    alloc: Global,
    bytes: &[u8],
    source: &mut S,
    inputs: usize,
    rails: Rails,
) -> Result<(Vec<Frac>, Vec<Segment>), JobError>
    requires text { S.text source.old ≡ bytes.now }
    ensures answer { Gives value_of result (lines_answer rails inputs bytes.now (S.left source.old)) }
    ensures amounts { IfOk result (λ r. (length r.0.items ≡ inputs * amounts_of rails) × AreNotNegative r.0.items) }
{
    let mut tail = Tail::new(alloc, rails, inputs);
    'lines: while let Some(line) = source.line() {
        let tokens = tokens_of(line);
        let word = first_word(bytes, tokens);
        tail = tail.after(alloc, line.number, word, rest_of(tokens))?;
        source.advance()?;
    }
    tail.value(source.end())
}

/// The job of a text: a function part, then an `input` line for each variable, with plus and minus for a function by a formula or by
/// pieces, and then `segment` lines.
pub fn read_job(alloc: Global, bytes: &[u8]) -> Result<Job, JobError>
    // Each answer is the right one: the job of the text, the malformed line, or the first limit that is passed.
    ensures answer { IsRight job_of result (IsAnswer job_table line_number (end_of bytes.now) (plain_lines bytes.now)) }
    // A text that passes no limit is read.
    ensures read { (job : PlainJob) → IsText job_table (plain_lines bytes.now) job → PassesNone job_table (plain_lines bytes.now)
        → Gives job_of result (table.Read job) }
    ensures domain { IfOk result (λ j. j.function.domain ≡ domain_for j.function.variables (kind_of j.function.kind)) }
    ensures amounts { IfOk result (λ j. (length j.amounts.items ≡ amount_count (function_of j.function)) × AreNotNegative j.amounts.items) }
{
    read_text(alloc, bytes)
}

// The job of a text, line by line.
fn read_text(alloc: Global, bytes: &[u8]) -> Result<Job, JobError>
    ensures answer { Gives job_of result (job_answer bytes.now) }
    ensures domain { IfOk result (λ j. j.function.domain ≡ domain_for j.function.variables (kind_of j.function.kind)) }
    ensures amounts { IfOk result (λ j. (length j.amounts.items ≡ amount_count (function_of j.function)) × AreNotNegative j.amounts.items) }
{
    let mut source = TextLines::new(alloc, bytes)?;
    let function = read_function_part(alloc, bytes, &mut source)?;
    read_rest(alloc, bytes, &mut source, function)
}

// A direct function has one amount an input, each other one two.
fn rails_of(function: &Function) -> Rails
    ensures { result ≡ rails_of (kind_of function.now.kind) }
{
    match function.kind() {
        FunctionKind::Direct(_) => Rails::Direct,
        _ => Rails::Dual,
    }
}

// The job of this function and the lines after it.
fn read_rest<S: LineSource>(
    alloc: Global,
    bytes: &[u8],
    source: &mut S,
    function: Function,
) -> Result<Job, JobError>
    requires text { S.text source.old ≡ bytes.now }
    ensures answer { Gives job_of result (answer_map (job_with (function_of function)) (lines_answer (rails_of (kind_of function.kind)) function.variables bytes.now (S.left source.old))) }
    ensures function { IfOk result (λ j. j.function ≡ function) }
    ensures amounts { IfOk result (λ j. (length j.amounts.items ≡ amount_count (function_of function)) × AreNotNegative j.amounts.items) }
{
    let rails = rails_of(&function);
    let inputs = function.variables();
    let (amounts, segments) = read_lines(alloc, bytes, source, inputs, rails)?;
    Ok(Job {
        function,
        amounts,
        segments,
    })
}

/// The run job of a text: a network part, then `amount` lines with strictly ascending species, and then `segment` lines. A species without a
/// line has the amount 0, the context too.
pub fn read_run_job(alloc: Global, bytes: &[u8]) -> Result<RunJob, JobError>
    // Each answer is the right one: the run job of the text, the malformed line, or the first limit that is passed.
    ensures answer { IsRight run_job_of result (IsAnswer run_table line_number (end_of bytes.now) (plain_lines bytes.now)) }
    // A text that passes no limit is read.
    ensures read { (job : PlainRunJob) → IsText run_table (plain_lines bytes.now) job → PassesNone run_table (plain_lines bytes.now)
        → Gives run_job_of result (table.Read job) }
    ensures network { IfOk result (λ j. BeginsWithNetwork bytes.now j.network) }
    ensures state { IfOk result (λ j. IsState j.network j.state) }
{
    read_run_text(alloc, bytes)
}

// The run job of a text, line by line.
fn read_run_text(alloc: Global, bytes: &[u8]) -> Result<RunJob, JobError>
    ensures answer { Gives run_job_of result (run_answer bytes.now) }
    ensures network { IfOk result (λ j. BeginsWithNetwork bytes.now j.network) }
    ensures state { IfOk result (λ j. IsState j.network j.state) }
{
    let mut source = TextLines::new(alloc, bytes)?;
    let network = read_network_part(alloc, bytes, &mut source)?;
    read_run_rest(alloc, bytes, &mut source, network)
}

// The run job of this network and the lines after it.
fn read_run_rest<S: LineSource>(
    alloc: Global,
    bytes: &[u8],
    source: &mut S,
    network: Network,
) -> Result<RunJob, JobError>
    requires text { S.text source.old ≡ bytes.now }
    ensures answer { Gives run_job_of result (answer_map (run_with network) (run_tail_answer network.species bytes.now (S.left source.old))) }
    ensures network { IfOk result (λ j. j.network ≡ network) }
    ensures state { IfOk result (λ j. IsState network j.state) }
{
    let species = network.species();
    let (state, segments) = read_run_tail(alloc, bytes, source, species)?;
    Ok(RunJob {
        network,
        state,
        segments,
    })
}

// The state of so many species and the segments, of all lines that are left.
fn read_run_tail<S: LineSource>(
    alloc: Global,
    bytes: &[u8],
    source: &mut S,
    species: u32,
) -> Result<(State, Vec<Segment>), JobError>
    requires text { S.text source.old ≡ bytes.now }
    ensures answer { Gives run_value_of result (run_tail_answer species bytes.now (S.left source.old)) }
    ensures state { IfOk result (λ r. (length r.0 ≡ species) × IsNotNegative r.0) }
{
    let mut tail = RunTail::new(alloc, species)?;
    'lines: while let Some(line) = source.line() {
        let tokens = tokens_of(line);
        let word = first_word(bytes, tokens);
        tail = tail.after(alloc, bytes, line.number, word, rest_of(tokens))?;
        source.advance()?;
    }
    Ok(tail.value())
}
