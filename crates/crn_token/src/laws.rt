//! What holds of token lines. Each function here does nothing: its contract is a theorem about the definitions of `specs/`.

ghost use Rattle.std.specs.Prelude.{ℕ, List, Some, ◌≡◌, ◌≢◌, ◌+◌, ◌<◌, ◌≤◌, ◌++◌, ◌∷◌, [], length, take, IsTrue};
ghost use Rattle.crn_token.specs.Blanks.{IsBlank, HasNo};
ghost use Rattle.crn_token.specs.Lines.{physical_lines, joined};
ghost use Rattle.crn_token.specs.Piece.{is_piece, longest};
ghost use Rattle.crn_token.specs.Plain.{said, plain_lines, plain_lines_from};
ghost use Rattle.crn_token.specs.Printed.{Item, AreLines, printed, lines_read};
ghost use Rattle.crn_token.specs.Small.{AreSmallLines};

/// A text is cut at line feeds. The last line needs none.
pub fn lines_end_at_feeds()
    ensures feed { (line rest : List ℕ) → HasNo 10 line → physical_lines (line ++ 10 ∷ rest) ≡ line ∷ physical_lines rest }
    ensures last { (line : List ℕ) → 0 < length line → HasNo 10 line → physical_lines line ≡ line ∷ [] }
    ensures missing { (bytes : List ℕ) (b : ℕ) → b ≢ 10 → physical_lines (bytes ++ b ∷ 10 ∷ []) ≡ physical_lines (bytes ++ b ∷ []) }
{}

/// What a line says depends on its bytes alone.
pub fn lines_stand_alone()
    ensures { (number : ℕ) (lines more : List (List ℕ))
        → plain_lines_from number (lines ++ more) ≡ plain_lines_from number lines ++ plain_lines_from (number + length lines) more }
{}

/// What begins some bytes is a piece, and no longer piece begins them.
pub fn longest_is_longest()
    ensures piece { (bytes : List ℕ) → 0 < longest bytes → IsTrue (is_piece (take (longest bytes) bytes)) }
    ensures longest { (bytes : List ℕ) (n : ℕ) → longest bytes < n → n ≤ length bytes → ¬ IsTrue (is_piece (take n bytes)) }
{}

/// A comment says nothing.
pub fn comments_say_nothing()
    ensures { (line comment : List ℕ) → said (line ++ 35 ∷ comment) ≡ said line }
{}

/// A blank says nothing, and only parts what stands before it from what follows. So blanks at the ends of a line, many in place of
/// one, and a carriage return change nothing.
pub fn blanks_only_part()
    ensures { (before after : List ℕ) (b : ℕ) → IsBlank b → HasNo 35 before → said (before ++ b ∷ after) ≡ joined (said before) (said after) }
{}

/// No number of a text is above the greatest, 9223372036854775807.
pub fn numbers_are_small()
    ensures { (bytes : List ℕ) → AreSmallLines (plain_lines bytes) }
{}

/// What was printed as lines of tokens, each with a line feed, reads as those tokens.
pub fn printed_reads_back()
    ensures count { (lines : List (List Item)) → AreLines lines → length (physical_lines (printed lines)) ≡ length lines }
    ensures lines { (lines : List (List Item)) → AreLines lines → plain_lines (printed lines) ≡ lines_read 1 lines }
{}
