//! Tokens as far as the grammar of forms and formulas tells them apart.

ghost use Rattle.std.specs.Prelude.{◌≡◌};
ghost use Rattle.crn_token.specs.Plain.{plain_token};
ghost use Rattle.crn_form_text.specs.Reading.{word_mark, sign_mark, mark_of};

use crn_token::words::letters;
use crn_token::{Sign, Token};

/// An operator with two operands.
#[derive(Clone, Copy, Debug, PartialEq, Eq)]
pub(crate) enum Operator {
    Add,
    Sub,
    Min,
    Max,
}

/// A token, as far as the grammar of forms and formulas tells tokens apart.
#[derive(Clone, Copy, Debug, PartialEq, Eq)]
pub(crate) enum Mark {
    /// The word `x`.
    X,
    /// The word of an operator with two operands.
    Word(Operator),
    /// The word `scale`.
    Scale,
    Number(i64),
    Plus,
    Minus,
    Slash,
    Comma,
    Left,
    Right,
    Other,
}

fn word_mark(letters: &[u8]) -> Mark
    ensures { result ≡ word_mark letters.now }
{
    match letters {
        b"x" => Mark::X,
        b"add" => Mark::Word(Operator::Add),
        b"sub" => Mark::Word(Operator::Sub),
        b"min" => Mark::Word(Operator::Min),
        b"max" => Mark::Word(Operator::Max),
        b"scale" => Mark::Scale,
        _ => Mark::Other,
    }
}

fn sign_mark(sign: Sign) -> Mark
    ensures { result ≡ sign_mark sign }
{
    match sign {
        Sign::LeftParen => Mark::Left,
        Sign::RightParen => Mark::Right,
        Sign::Comma => Mark::Comma,
        Sign::Plus => Mark::Plus,
        Sign::Minus => Mark::Minus,
        Sign::Slash => Mark::Slash,
        _ => Mark::Other,
    }
}

pub(crate) fn mark_of(bytes: &[u8], token: Token) -> Mark
    ensures { result ≡ mark_of (plain_token bytes.now token) }
{
    match token {
        Token::Word(span) => word_mark(letters(bytes, span)),
        Token::Number(number, _) => Mark::Number(number),
        Token::Symbol(sign, _) => sign_mark(sign),
    }
}
