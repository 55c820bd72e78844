//! The words of the lines after a function part or a network part.

ghost use Rattle.std.specs.Prelude.{◌≡◌, map};
ghost use Rattle.crn_token.specs.Plain.{plain_token};
ghost use Rattle.crn_job.specs.Words.{word_of, first_word};

use crn_token::Token;
use crn_token::words::{letters, spell};

/// The word that a line begins with.
#[derive(Clone, Copy, Debug, PartialEq, Eq)]
pub enum Word {
    Input,
    Amount,
    Segment,
    /// No word, or one of no line after a function part or a network part.
    Other,
}

// The word that these letters are.
fn word_of(letters: &[u8]) -> Word
    ensures { result ≡ word_of letters.now }
{
    if spell(letters, b"input") {
        Word::Input
    } else if spell(letters, b"amount") {
        Word::Amount
    } else if spell(letters, b"segment") {
        Word::Segment
    } else {
        Word::Other
    }
}

/// The word of the first token.
pub fn first_word(bytes: &[u8], tokens: &[Token]) -> Word
    ensures { result ≡ first_word (map (plain_token bytes.now) tokens.now) }
{
    match tokens {
        [Token::Word(span), ..] => word_of(letters(bytes, *span)),
        _ => Word::Other,
    }
}
