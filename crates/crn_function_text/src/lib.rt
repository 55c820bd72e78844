//! The text of functions: its grammar, apart from how it is read, and the function that a text spells.
//!
//! Each answer of a reader is the right one for its table of lines (`specs/Grammar.antt`): the function, the malformed line, or the first line that passes a
//! limit; the same of two functions one after the other (`specs/Two.antt`). A printed function reads back as itself.
#![tactic(auto)]

ghost use Rattle.std.specs.Prelude.{◌≡◌, ◌≤◌, List, drop, length, vec_len, IfOk};
ghost use Rattle.crn_token.specs.Lines.{AreLinesOf};
ghost use Rattle.crn_token.specs.Plain.{PlainLine, plain_lines, line_number, end_of};
ghost use Rattle.crn_grammar.specs.Table.{IsText, PassesNone, IsAnswer};
ghost use Rattle.crn_grammar.specs.Table as table;
ghost use Rattle.crn_grammar.specs.Part.{IsPart, IsPartAnswer, Ends};
ghost use Rattle.crn_grammar.specs.Reading.{Gives, GivesPart, GivesUpTo, IsRight, IsRightPart, IsRightUpTo};
ghost use Rattle.crn_formula.specs.Domains.{domain_for};
ghost use Rattle.crn_formula.specs.Views.{kind_of};
ghost use Rattle.crn_function_text.specs.Grammar.{PlainFunction, function_table, goes_on, function_part, function_answer, lines_answer, part_of_lines};
ghost use Rattle.crn_function_text.specs.Reading.{function_of};
ghost use Rattle.crn_function_text.specs.Two.{TwoFunctions, two_table, two_answer, two_of};

pub use crn_form_text::read_plain_form;
use crn_formula::Function;
use crn_grammar::TextError;
use crn_token::words::tokens_of;
use crn_token::{LineSource, Lines, LinesFrom, TextLines};
use place::Place;
use std::alloc::Global;
use words::first_word;

mod columns;
pub mod laws;
mod place;
mod print;
mod words;

pub use print::print_function;

/// Why a text has no function that can be answered.
pub type FunctionTextError = TextError;

/// The function part that begins at the line with the index `from`, and the index of the first line after it: the part ends at the
/// first line that does not begin with a word that may follow. Refusals speak of the lines from `from` on.
pub fn read_function_lines(
    alloc: Global,
    bytes: &[u8],
    lines: &Lines,
    from: usize,
) -> Result<(Function, usize), FunctionTextError>
    requires lines { AreLinesOf bytes.now lines.now }
    requires from { from ≤ vec_len lines.now.lines }
    ensures answer { GivesPart function_of (plain_lines bytes.now) result (function_part bytes.now from) }
    // Each answer is the right one: the function of the part, the malformed line, or the first limit that is passed.
    ensures part { IsRightPart function_of (plain_lines bytes.now) result (IsPartAnswer function_table goes_on line_number (end_of bytes.now) (drop from (plain_lines bytes.now))) }
    // A part that passes no limit is read.
    ensures read { (f : PlainFunction) (rest : List PlainLine) → IsPart function_table goes_on (drop from (plain_lines bytes.now)) f rest
        → GivesPart function_of (plain_lines bytes.now) result (Ends f rest) }
    ensures next { IfOk result (λ r. (from ≤ r.1) × (r.1 ≤ vec_len lines.now.lines)) }
    ensures domain { IfOk result (λ r. r.0.domain ≡ domain_for r.0.variables (kind_of r.0.kind)) }
{
    read_from(alloc, bytes, lines, from)
}

// The same, line by line.
fn read_from(
    alloc: Global,
    bytes: &[u8],
    lines: &Lines,
    from: usize,
) -> Result<(Function, usize), FunctionTextError>
    requires lines { AreLinesOf bytes.now lines.now }
    requires from { from ≤ vec_len lines.now.lines }
    ensures answer { GivesPart function_of (plain_lines bytes.now) result (function_part bytes.now from) }
    ensures next { IfOk result (λ r. (from ≤ r.1) × (r.1 ≤ vec_len lines.now.lines)) }
    ensures domain { IfOk result (λ r. r.0.domain ≡ domain_for r.0.variables (kind_of r.0.kind)) }
{
    let mut source = LinesFrom::new(bytes, lines, from);
    let function = read_part(alloc, bytes, &mut source)?;
    Ok((function, source.index()))
}

/// The function part that begins at the line that stands next: it ends at the first line that does not begin with a word that may follow, and that line stands next then.
pub fn read_function_part<S: LineSource>(
    alloc: Global,
    bytes: &[u8],
    source: &mut S,
) -> Result<Function, FunctionTextError>
    requires text { S.text source.old ≡ bytes.now }
    ensures answer { GivesUpTo function_of (S.left source.new) result (part_of_lines bytes.now (S.left source.old)) }
    // Each answer is the right one: the function of the part, the malformed line, or the first limit that is passed.
    ensures part { IsRightUpTo function_of (S.left source.new) result (IsPartAnswer function_table goes_on line_number (end_of bytes.now) (S.left source.old)) }
    // A part that passes no limit is read.
    ensures read { (f : PlainFunction) (rest : List PlainLine) → IsPart function_table goes_on (S.left source.old) f rest
        → GivesUpTo function_of (S.left source.new) result (Ends f rest) }
    ensures same_text { S.text source.new ≡ S.text source.old }
    ensures later { IfOk result (λ _. length (S.left source.new) ≤ length (S.left source.old)) }
    ensures domain { IfOk result (λ f. f.domain ≡ domain_for f.variables (kind_of f.kind)) }
{
    read_part(alloc, bytes, source)
}

// The function part, line by line.
fn read_part<S: LineSource>(
    alloc: Global,
    bytes: &[u8],
    source: &mut S,
) -> Result<Function, FunctionTextError>
    requires text { S.text source.old ≡ bytes.now }
    ensures answer { GivesUpTo function_of (S.left source.new) result (part_of_lines bytes.now (S.left source.old)) }
    ensures same_text { S.text source.new ≡ S.text source.old }
    ensures later { IfOk result (λ _. length (S.left source.new) ≤ length (S.left source.old)) }
    ensures domain { IfOk result (λ f. f.domain ≡ domain_for f.variables (kind_of f.kind)) }
{
    let mut place = Place::Start;
    'lines: while let Some(line) = source.line() {
        let word = first_word(bytes, tokens_of(line));
        if !place.allows(word) {
            return place.function(line.number);
        }
        place = place.after(alloc, bytes, line, word)?;
        source.advance()?;
    }
    place.function(source.end())
}

/// The function of a text.
pub fn read_function(alloc: Global, bytes: &[u8]) -> Result<Function, FunctionTextError>
    // Each answer is the right one: the function of the text, the malformed line, or the first limit that is passed.
    ensures answer { IsRight function_of result (IsAnswer function_table line_number (end_of bytes.now) (plain_lines bytes.now)) }
    // A text that passes no limit is read.
    ensures read { (f : PlainFunction) → IsText function_table (plain_lines bytes.now) f → PassesNone function_table (plain_lines bytes.now)
        → Gives function_of result (table.Read f) }
    ensures domain { IfOk result (λ f. f.domain ≡ domain_for f.variables (kind_of f.kind)) }
{
    read_text(alloc, bytes)
}

// The function of a text, line by line.
fn read_text(alloc: Global, bytes: &[u8]) -> Result<Function, FunctionTextError>
    ensures answer { Gives function_of result (function_answer bytes.now) }
    ensures domain { IfOk result (λ f. f.domain ≡ domain_for f.variables (kind_of f.kind)) }
{
    let mut source = TextLines::new(alloc, bytes)?;
    read_rest(alloc, bytes, &mut source)
}

// The function of all lines that are left.
fn read_rest<S: LineSource>(
    alloc: Global,
    bytes: &[u8],
    source: &mut S,
) -> Result<Function, FunctionTextError>
    requires text { S.text source.old ≡ bytes.now }
    ensures answer { Gives function_of result (lines_answer bytes.now (S.left source.old)) }
    ensures domain { IfOk result (λ f. f.domain ≡ domain_for f.variables (kind_of f.kind)) }
{
    let function = read_part(alloc, bytes, source)?;
    match source.line() {
        Some(line) => Err(FunctionTextError::Malformed { line: line.number }),
        None => Ok(function),
    }
}

/// The two functions of a text, of which the second follows the first.
pub fn read_two_functions(
    alloc: Global,
    bytes: &[u8],
) -> Result<(Function, Function), FunctionTextError>
    // Each answer is the right one: the two functions of the text, the malformed line, or the first limit that is passed.
    ensures answer { IsRight two_of result (IsAnswer two_table line_number (end_of bytes.now) (plain_lines bytes.now)) }
    // A text that passes no limit is read.
    ensures read { (both : TwoFunctions) → IsText two_table (plain_lines bytes.now) both → PassesNone two_table (plain_lines bytes.now)
        → Gives two_of result (table.Read both) }
    ensures first_domain { IfOk result (λ r. r.0.domain ≡ domain_for r.0.variables (kind_of r.0.kind)) }
    ensures second_domain { IfOk result (λ r. r.1.domain ≡ domain_for r.1.variables (kind_of r.1.kind)) }
{
    read_two(alloc, bytes)
}

// The two functions of a text, line by line.
fn read_two(alloc: Global, bytes: &[u8]) -> Result<(Function, Function), FunctionTextError>
    ensures answer { Gives two_of result (two_answer bytes.now) }
    ensures first_domain { IfOk result (λ r. r.0.domain ≡ domain_for r.0.variables (kind_of r.0.kind)) }
    ensures second_domain { IfOk result (λ r. r.1.domain ≡ domain_for r.1.variables (kind_of r.1.kind)) }
{
    let mut source = TextLines::new(alloc, bytes)?;
    let first = read_part(alloc, bytes, &mut source)?;
    let second = read_rest(alloc, bytes, &mut source)?;
    Ok((first, second))
}
