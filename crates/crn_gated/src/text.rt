//! The text of a gated function: its lines, and its end.

ghost use Rattle.std.specs.Prelude.{◌≡◌, ◌≤◌, List, vec_len, IfOk};
ghost use Rattle.crn_token.specs.Lines.{AreLinesOf};
ghost use Rattle.crn_token.specs.Plain.{PlainLine, plain_lines, line_number, end_of};
ghost use Rattle.crn_grammar.specs.Table.{IsText, PassesNone, IsAnswer};
ghost use Rattle.crn_grammar.specs.Table as table;
ghost use Rattle.crn_grammar.specs.Part.{IsPart, IsPartAnswer, Ends};
ghost use Rattle.crn_grammar.specs.Reading.{Gives, GivesPart, GivesUpTo, IsRight, IsRightPart};
ghost use Rattle.crn_gated.specs.Forms.{AreFewGatedForms};
ghost use Rattle.crn_gated.specs.Grammar.{PlainGated, gated_table, goes_on, gated_part, gated_answer, part_of_lines};
ghost use Rattle.crn_gated.specs.Reading.{gated_of};

use crate::GatedFunction;
use crate::place::Place;
use crn_grammar::TextError;
use crn_token::words::tokens_of;
use crn_token::{LineSource, Lines, LinesFrom, TextLines};
use std::alloc::Global;

/// Why a text has no gated function that can be answered.
pub type GatedTextError = TextError;

/// The gated function that begins the lines, and the index of the first line after it: it ends at the first line that does not begin with
/// the word that may follow.
pub fn read_gated_lines(
    alloc: Global,
    bytes: &[u8],
    lines: &Lines,
) -> Result<(GatedFunction, usize), GatedTextError>
    requires lines { AreLinesOf bytes.now lines.now }
    ensures answer { GivesPart gated_of (plain_lines bytes.now) result (gated_part bytes.now) }
    // Each answer is the right one: the function of the part, the malformed line, or the first limit that is passed.
    ensures part { IsRightPart gated_of (plain_lines bytes.now) result
        (IsPartAnswer gated_table goes_on line_number (end_of bytes.now) (plain_lines bytes.now)) }
    // A part that passes no limit is read.
    ensures read { (f : PlainGated) (rest : List PlainLine) → IsPart gated_table goes_on (plain_lines bytes.now) f rest
        → GivesPart gated_of (plain_lines bytes.now) result (Ends f rest) }
    ensures next { IfOk result (λ r. r.1 ≤ vec_len lines.now.lines) }
    ensures forms { IfOk result (λ r. AreFewGatedForms r.0.variables r.0.forms.items) }
{
    read_from(alloc, bytes, lines)
}

// The same, line by line.
fn read_from(
    alloc: Global,
    bytes: &[u8],
    lines: &Lines,
) -> Result<(GatedFunction, usize), GatedTextError>
    requires lines { AreLinesOf bytes.now lines.now }
    ensures answer { GivesPart gated_of (plain_lines bytes.now) result (gated_part bytes.now) }
    ensures next { IfOk result (λ r. r.1 ≤ vec_len lines.now.lines) }
    ensures forms { IfOk result (λ r. AreFewGatedForms r.0.variables r.0.forms.items) }
{
    let mut source = LinesFrom::new(bytes, lines, 0);
    let function = read_part(alloc, bytes, &mut source)?;
    Ok((function, source.index()))
}

/// The function part, line by line. It ends at the first line that does not begin with the word that may follow, and that line stands next then.
pub fn read_part<S: LineSource>(
    alloc: Global,
    bytes: &[u8],
    source: &mut S,
) -> Result<GatedFunction, GatedTextError>
    requires text { S.text source.old ≡ bytes.now }
    ensures answer { GivesUpTo gated_of (S.left source.new) result (part_of_lines bytes.now (S.left source.old)) }
    ensures same_text { S.text source.new ≡ S.text source.old }
    ensures forms { IfOk result (λ f. AreFewGatedForms f.variables f.forms.items) }
{
    let mut place = Place::Start;
    'lines: while let Some(line) = source.line() {
        if !place.goes_on(bytes, tokens_of(line)) {
            return place.function(line.number);
        }
        place = place.after(alloc, bytes, line)?;
        source.advance()?;
    }
    place.function(source.end())
}

/// The gated function of a text.
pub fn read_gated(alloc: Global, bytes: &[u8]) -> Result<GatedFunction, GatedTextError>
    // Each answer is the right one: the function of the text, the malformed line, or the first limit that is passed.
    ensures answer { IsRight gated_of result (IsAnswer gated_table line_number (end_of bytes.now)
        (plain_lines bytes.now)) }
    // A text that passes no limit is read.
    ensures read { (f : PlainGated) → IsText gated_table (plain_lines bytes.now) f
        → PassesNone gated_table (plain_lines bytes.now)
        → Gives gated_of result (table.Read f) }
    ensures forms { IfOk result (λ f. AreFewGatedForms f.variables f.forms.items) }
{
    read_text(alloc, bytes)
}

// The function of a text, line by line.
fn read_text(alloc: Global, bytes: &[u8]) -> Result<GatedFunction, GatedTextError>
    ensures answer { Gives gated_of result (gated_answer bytes.now) }
    ensures forms { IfOk result (λ f. AreFewGatedForms f.variables f.forms.items) }
{
    let mut source = TextLines::new(alloc, bytes)?;
    let function = read_part(alloc, bytes, &mut source)?;
    if let Some(line) = source.line() {
        return Err(GatedTextError::Malformed { line: line.number });
    }
    Ok(function)
}
