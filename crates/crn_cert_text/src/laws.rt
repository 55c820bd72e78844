//! What proofs are, and texts with one. Each function here does nothing: its contract is a theorem about the definitions
//! of `specs/`, proved with the crate.

ghost use Rattle.std.specs.Prelude.{◌≡◌, ◌≢◌, ◌↔◌, ◌⊎◌, ◌<◌, ◌≤◌, ℕ, List, length, Some, All};
ghost use Rattle.std.specs.List.{range_with_len};
ghost use Rattle.crn_token.specs.Plain.{Plain, PlainLine, plain_lines};
ghost use Rattle.crn_token.specs.Printed.{lines_read};
ghost use Rattle.crn_grammar.specs.Table.{CanEnd, IsText};
ghost use Rattle.crn_formula.specs.Pieces.{Piece, Domain, IsDomain, Covers, Agree, columns_of};
ghost use Rattle.crn_formula.specs.Functions.{IsPieceOver, IsFitting};
ghost use Rattle.crn_pieces.specs.Systems.{rows_of};
ghost use Rattle.crn_pieces.specs.Answers.{AreChecked, IsRefused};
ghost use Rattle.crn_pieces.specs.declared.PiecesError.{PiecesError};
ghost use Rattle.crn_pieces.specs.declared.PiecesError.TheVariants as refused;
ghost use Rattle.crn_cert_text.specs.declared.making.MakeError.{MakeError};
ghost use Rattle.crn_cert_text.specs.declared.making.MakeError.TheVariants as make;
ghost use Rattle.crn_cert_text.specs.declared.VerifyError.{VerifyError};
ghost use Rattle.crn_cert_text.specs.declared.VerifyError.TheVariants as verify;
ghost use Rattle.crn_cert_text.specs.Proofs.{Line, IsProof, IsFirstUnfit, FitInTurn, start, after_lines, ended};
ghost use Rattle.crn_cert_text.specs.Answers.{IsAccepted, IsRejected, IsUnmade, IsSolvingLimit};
ghost use Rattle.crn_function_text.specs.Grammar.{PlainFunction};
ghost use Rattle.crn_function_text.specs.Printing.{AreKindFracs};
ghost use Rattle.crn_cert_text.specs.declared.checking.CheckError.{CheckError};
ghost use Rattle.crn_cert_text.specs.declared.checking.CheckError.TheVariants as check;
ghost use Rattle.crn_cert_text.specs.ProvedText.{proved_table, proved_text, printed_proof};
ghost use Rattle.crn_cert_text.specs.TextAnswers.{IsTextOf, IsAcceptedText, IsRefusedText};
ghost use Rattle.crn_cert_text.specs.Text.{SpellsLine, PlainProof, SpellLines, SpellsProof, read_line, proof_table, proof_lines, proof_text, IsPrintable, IsReadable};

/// A proof is what fits line by line until nothing is to come.
pub fn proofs_line_by_line()
    ensures { (domain : Domain) (pieces : List Piece) (lines : List Line) → 0 < length pieces
        → IsProof domain pieces lines
        ↔ (FitInTurn domain (rows_of pieces) (start domain pieces) lines
        × (after_lines (rows_of pieces) (start domain pieces) lines ≡ ended)) }
{}

/// What has a proof is covered and agreeing.
pub fn proofs_prove()
    ensures { (domain : Domain) (pieces : List Piece) (lines : List Line)
        → IsDomain domain → All (IsPieceOver (columns_of domain)) pieces → 0 < length pieces
        → IsProof domain pieces lines → Covers domain pieces × Agree domain pieces }
{}

/// Pieces that were checked have a proof, or elimination meets a limit on a system that may be asked for it. They are
/// refused for such a limit alone.
pub fn proof_or_a_limit()
    ensures some { (domain : Domain) (pieces : List Piece) → 0 < length pieces → AreChecked domain pieces
        → ((lines : List Line) × IsProof domain pieces lines)
        ⊎ ((e : MakeError) × (e ≢ make.Memory) × IsUnmade domain pieces e) }
    ensures limit { (domain : Domain) (pieces : List Piece) (e : PiecesError)
        → AreChecked domain pieces → e ≢ refused.Memory → IsRefused domain pieces e → IsSolvingLimit e }
{}

/// A proof has no first line that does not fit. So where pieces were checked, their proof is refused for want of memory
/// alone.
pub fn proofs_are_accepted()
    ensures fit { (domain : Domain) (pieces : List Piece) (lines : List Line) (number : ℕ) → 0 < length pieces
        → IsProof domain pieces lines → ¬ IsFirstUnfit domain pieces lines number }
    ensures accepted { (domain : Domain) (pieces : List Piece) (lines : List Line) (e : VerifyError)
        → 0 < length pieces → AreChecked domain pieces → IsProof domain pieces lines
        → IsRejected domain pieces lines e → e ≡ verify.Memory }
{}

/// Lines are accepted, or rejected for a cause other than want of memory, and for one such cause.
pub fn one_rejection()
    ensures some { (domain : Domain) (pieces : List Piece) (lines : List Line) → 0 < length pieces
        → IsAccepted domain pieces lines
        ⊎ ((e : VerifyError) × (e ≢ verify.Memory) × IsRejected domain pieces lines e) }
    ensures one { (domain : Domain) (pieces : List Piece) (lines : List Line) (d e : VerifyError)
        → d ≢ verify.Memory → e ≢ verify.Memory
        → IsRejected domain pieces lines d → IsRejected domain pieces lines e → d ≡ e }
{}

/// A line is read exactly where the tokens spell it, and lines are a text of the grammar exactly where they spell a
/// proof. Each place of the grammar can end.
pub fn lines_say_what_tokens_spell()
    ensures line { (tokens : List Plain) (line : Line) → (read_line tokens ≡ Some line) ↔ SpellsLine line tokens }
    ensures text { (text : List PlainLine) (p : PlainProof) → IsText proof_table text p ↔ SpellsProof text p }
    ensures ends { CanEnd proof_table }
{}

/// Printed lines read back as the lines, with the numbers from 1, or from another number where they stand behind other
/// lines.
pub fn printed_reads_back()
    ensures text { (lines : List Line) → All IsReadable lines
        → SpellLines (plain_lines (proof_text lines)) lines (range_with_len 1 (length lines)) }
    ensures behind { (number : ℕ) (lines : List Line) → All IsReadable lines
        → SpellLines (lines_read number (proof_lines lines)) lines (range_with_len number (length lines)) }
{}

/// The lines of a proof can be printed, and read back.
pub fn proofs_are_readable()
    ensures printed { (lines : List Line) → All IsReadable lines → All IsPrintable lines }
    ensures read { (domain : Domain) (pieces : List Piece) (lines : List Line) → length pieces ≤ 32
        → IsProof domain pieces lines → All IsReadable lines }
{}

/// Wherever lines lead that begin a text of a function and a proof, some lines more end one. So the answer line by line
/// is the right one.
pub fn texts_can_end()
    ensures { CanEnd proved_table }
{}

/// A printed function and the printed lines of a proof are a text of both, within the limits.
pub fn printed_texts_read_back()
    ensures { (f : PlainFunction) (lines : List Line)
        → IsFitting f.variables f.kind → AreKindFracs f.variables f.kind → f.variables ≤ 8 → All IsReadable lines
        → IsTextOf (proved_text f lines) (printed_proof f lines) }
{}

/// Each text is accepted, or refused for a cause other than want of memory. It is not both; it is accepted with one
/// number of lines, and refused for one such cause.
pub fn one_verdict()
    ensures some { (bytes : List ℕ) → ((count : ℕ) × IsAcceptedText bytes count)
        ⊎ ((e : CheckError) × (e ≢ check.Memory) × IsRefusedText bytes e) }
    ensures refused { (bytes : List ℕ) (count : ℕ) (e : CheckError)
        → IsAcceptedText bytes count → IsRefusedText bytes e → e ≡ check.Memory }
    ensures counted { (bytes : List ℕ) (m n : ℕ) → IsAcceptedText bytes m → IsAcceptedText bytes n → m ≡ n }
    ensures one { (bytes : List ℕ) (d e : CheckError) → d ≢ check.Memory → e ≢ check.Memory
        → IsRefusedText bytes d → IsRefusedText bytes e → d ≡ e }
{}
