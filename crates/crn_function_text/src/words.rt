//! The words of function text.

ghost use Rattle.std.specs.Prelude.{◌≡◌, map};
ghost use Rattle.crn_token.specs.Plain.{plain_token};
ghost use Rattle.crn_function_text.specs.Words.{word_of, first_word, given_of};

use crn_token::Token;
use crn_token::words::{letters, spell};

/// How a function is given, by the second word of its first line.
#[derive(Clone, Copy, Debug, PartialEq, Eq)]
pub enum Given {
    Formula,
    Pieces,
    Direct,
}

/// The word that a line begins with.
#[derive(Clone, Copy, Debug, PartialEq, Eq)]
pub enum Word {
    Function,
    Variables,
    Value,
    Piece,
    When,
    Form,
    /// No word, or one of no line of function text.
    Other,
}

// The word that these letters are.
fn word_of(letters: &[u8]) -> Word
    ensures { result ≡ word_of letters.now }
{
    if spell(letters, b"function") {
        Word::Function
    } else if spell(letters, b"variables") {
        Word::Variables
    } else if spell(letters, b"value") {
        Word::Value
    } else if spell(letters, b"piece") {
        Word::Piece
    } else if spell(letters, b"when") {
        Word::When
    } else if spell(letters, b"form") {
        Word::Form
    } else {
        Word::Other
    }
}

/// The word of the first token.
pub fn first_word(bytes: &[u8], tokens: &[Token]) -> Word
    ensures { result ≡ first_word (map (plain_token bytes.now) tokens.now) }
{
    match tokens {
        [Token::Word(span), ..] => word_of(letters(bytes, *span)),
        _ => Word::Other,
    }
}

/// How a function is given that these letters say.
pub fn given_of(letters: &[u8]) -> Option<Given>
    ensures { result ≡ given_of letters.now }
{
    if spell(letters, b"formula") {
        Some(Given::Formula)
    } else if spell(letters, b"pieces") {
        Some(Given::Pieces)
    } else if spell(letters, b"direct") {
        Some(Given::Direct)
    } else {
        None
    }
}
