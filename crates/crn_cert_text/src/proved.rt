//! Texts of a function and a proof that its pieces cover its domain and agree on it.

ghost use Rattle.std.specs.Prelude.{◌≡◌, length, IfOk};
ghost use Rattle.crn_token.specs.Plain.{plain_lines, line_number, end_of};
ghost use Rattle.crn_grammar.specs.Table.{IsText, PassesNone, IsAnswer};
ghost use Rattle.crn_grammar.specs.Table as table;
ghost use Rattle.crn_grammar.specs.Followed.{answer_map};
ghost use Rattle.crn_grammar.specs.Reading.{Gives, IsRight};
ghost use Rattle.crn_formula.specs.Domains.{domain_for};
ghost use Rattle.crn_formula.specs.Views.{kind_of};
ghost use Rattle.crn_function_text.specs.Reading.{function_of};
ghost use Rattle.crn_pieces.specs.Views.{pieces_in};
ghost use Rattle.crn_cert_text.specs.Text.{lines_answer};
ghost use Rattle.crn_cert_text.specs.Answers.{IsMade};
ghost use Rattle.crn_cert_text.specs.Views.{lines_of_proof};
ghost use Rattle.crn_cert_text.specs.ProvedText.{PlainProved, proved_table, proved_answer, proved_with, proved_of, proved_text, printed_proof};
ghost use Rattle.crn_cert_text.specs.TextAnswers.{IsAcceptedText};

use crate::read::read_lines;
use crate::{Proof, ProofTextError, print_proof};
use crn_formula::Function;
use crn_function_text::{print_function, read_function_part};
use crn_grammar::TextError;
use crn_pieces::Checked;
use crn_token::{LineSource, TextLines};
use std::alloc::{AllocError, Global};

/// A function and a proof.
#[derive(Debug, Drop)]
pub struct Proved {
    pub function: Function,
    pub proof: Proof,
    /// The number of a line past the last of the text.
    pub end: usize,
}

/// The function and the proof of a text: a function part, and then proof lines.
pub fn read_proved(alloc: Global, bytes: &[u8]) -> Result<Proved, TextError>
    // Each answer is the right one: the function and the proof of the text, the malformed line, or the first limit that
    // is passed.
    ensures answer { IsRight proved_of result
        (IsAnswer proved_table line_number (end_of bytes.now) (plain_lines bytes.now)) }
    // A text that passes no limit is read.
    ensures read { (p : PlainProved) → IsText proved_table (plain_lines bytes.now) p
        → PassesNone proved_table (plain_lines bytes.now) → Gives proved_of result (table.Read p) }
    ensures domain { IfOk result (λ p. p.function.domain ≡ domain_for p.function.variables (kind_of p.function.kind)) }
    ensures end { IfOk result (λ p. p.end ≡ end_of bytes.now) }
{
    read_text(alloc, bytes)
}

/// The same, line by line.
pub fn read_text(alloc: Global, bytes: &[u8]) -> Result<Proved, TextError>
    ensures answer { Gives proved_of result (proved_answer bytes.now) }
    ensures domain { IfOk result (λ p. p.function.domain ≡ domain_for p.function.variables (kind_of p.function.kind)) }
    ensures end { IfOk result (λ p. p.end ≡ end_of bytes.now) }
{
    let mut source = TextLines::new(alloc, bytes)?;
    let function = read_function_part(alloc, bytes, &mut source)?;
    read_rest(alloc, bytes, &mut source, function)
}

// This function and the proof of the lines that are left.
fn read_rest<S: LineSource>(
    alloc: Global,
    bytes: &[u8],
    source: &mut S,
    function: Function,
) -> Result<Proved, TextError>
    requires text { S.text source.old ≡ bytes.now }
    ensures answer { Gives proved_of result
        (answer_map (proved_with (function_of function)) (lines_answer bytes.now (S.left source.old))) }
    ensures function { IfOk result (λ p. p.function ≡ function) }
    ensures end { IfOk result (λ p. p.end ≡ end_of bytes.now) }
{
    match read_lines(alloc, bytes, source) {
        Ok(proof) => Ok(Proved {
            function,
            proof,
            end: source.end(),
        }),
        Err(ProofTextError::Malformed { line }) => Err(TextError::Malformed { line }),
        Err(ProofTextError::Memory) => Err(TextError::Memory),
    }
}

/// The text of a function whose pieces were checked and of a proof that they cover its domain and agree on it.
pub fn print_proved(alloc: Global, checked: &Checked, proof: &Proof) -> Result<Vec<u8>, AllocError>
    requires domain { checked.now.domain ≡ domain_for checked.now.variables (kind_of checked.now.kind) }
    requires made { IsMade checked.now.domain (pieces_in checked.now) proof.now }
    ensures text { IfOk result (λ text.
        text.items ≡ proved_text (function_of checked.now) (lines_of_proof proof.now.lines.items)) }
    // The text reads back as the function and the lines of the proof, and passes no limit.
    ensures spells { IfOk result (λ text. IsText proved_table (plain_lines text.items)
        (printed_proof (function_of checked.now) (lines_of_proof proof.now.lines.items))) }
    ensures limits { IfOk result (λ text. PassesNone proved_table (plain_lines text.items)) }
    // So whoever reads it has this function, and a proof of it: nothing but want of memory refuses the text.
    ensures accepted { IfOk result (λ text. IsAcceptedText text.items (length proof.now.lines.items)) }
{
    let mut text = print_function(alloc, checked.function())?;
    let lines = print_proof(alloc, proof)?;
    text.extend_from_slice(lines.as_slice())?;
    Ok(text)
}
