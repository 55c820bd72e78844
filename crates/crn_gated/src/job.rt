//! The text of gated jobs: a gated function, the amounts of its inputs, and segments.

ghost use Rattle.std.specs.Prelude.{◌≡◌, length, IfOk};
ghost use Rattle.crn_token.specs.Plain.{plain_lines, line_number, end_of};
ghost use Rattle.crn_grammar.specs.Table.{IsText, PassesNone, IsAnswer};
ghost use Rattle.crn_grammar.specs.Table as table;
ghost use Rattle.crn_grammar.specs.Followed.{answer_map};
ghost use Rattle.crn_grammar.specs.Reading.{Gives, IsRight};
ghost use Rattle.crn_net.specs.Network.{AreNotNegative};
ghost use Rattle.crn_net.specs.declared.Rails.TheVariants as rails;
ghost use Rattle.crn_job.specs.Grammar.{lines_answer};
ghost use Rattle.crn_gated.specs.Forms.{AreFewGatedForms};
ghost use Rattle.crn_gated.specs.JobGrammar.{PlainGatedJob, gated_job_table, gated_job_answer, gated_job_with};
ghost use Rattle.crn_gated.specs.Reading.{gated_of, gated_job_of};

use crate::GatedFunction;
use crate::text::read_part;
use crn_fraction::Frac;
use crn_grammar::TextError;
use crn_job::read_tail;
use crn_net::Rails;
use crn_segments::Segment;
use crn_token::{LineSource, TextLines};
use std::alloc::Global;

/// Why a text has no gated job that can be answered.
pub type GatedJobError = TextError;

/// A gated function, the amounts of its inputs and segments.
#[derive(Debug, Drop)]
pub struct GatedJob {
    pub function: GatedFunction,
    /// An amount for each variable.
    pub amounts: Vec<Frac>,
    pub segments: Vec<Segment>,
}

/// The gated job of a text: a gated function, then an `input` line for each variable, with one number, and then `segment` lines.
pub fn read_gated_job(alloc: Global, bytes: &[u8]) -> Result<GatedJob, GatedJobError>
    // Each answer is the right one: the job of the text, the malformed line, or the first limit that is passed.
    ensures answer { IsRight gated_job_of result (IsAnswer gated_job_table line_number (end_of bytes.now)
        (plain_lines bytes.now)) }
    // A text that passes no limit is read.
    ensures read { (job : PlainGatedJob) → IsText gated_job_table (plain_lines bytes.now) job
        → PassesNone gated_job_table (plain_lines bytes.now)
        → Gives gated_job_of result (table.Read job) }
    ensures forms { IfOk result (λ j. AreFewGatedForms j.function.variables j.function.forms.items) }
    ensures amounts { IfOk result (λ j. (length j.amounts.items ≡ j.function.variables)
        × AreNotNegative j.amounts.items) }
{
    read_text(alloc, bytes)
}

// The gated job of a text, line by line.
fn read_text(alloc: Global, bytes: &[u8]) -> Result<GatedJob, GatedJobError>
    ensures answer { Gives gated_job_of result (gated_job_answer bytes.now) }
    ensures forms { IfOk result (λ j. AreFewGatedForms j.function.variables j.function.forms.items) }
    ensures amounts { IfOk result (λ j. (length j.amounts.items ≡ j.function.variables)
        × AreNotNegative j.amounts.items) }
{
    let mut source = TextLines::new(alloc, bytes)?;
    let function = read_part(alloc, bytes, &mut source)?;
    read_rest(alloc, bytes, &mut source, function)
}

// The job of this function and the lines after it.
fn read_rest<S: LineSource>(
    alloc: Global,
    bytes: &[u8],
    source: &mut S,
    function: GatedFunction,
) -> Result<GatedJob, GatedJobError>
    requires text { S.text source.old ≡ bytes.now }
    requires forms { AreFewGatedForms function.variables function.forms.items }
    ensures answer { Gives gated_job_of result
        (answer_map (gated_job_with (gated_of function))
        (lines_answer rails.Direct function.variables bytes.now (S.left source.old))) }
    ensures function { IfOk result (λ j. j.function ≡ function) }
    ensures amounts { IfOk result (λ j. (length j.amounts.items ≡ function.variables)
        × AreNotNegative j.amounts.items) }
{
    let inputs = function.variables;
    let (amounts, segments) = read_tail(alloc, bytes, source, inputs, Rails::Direct)?;
    Ok(GatedJob {
        function,
        amounts,
        segments,
    })
}
