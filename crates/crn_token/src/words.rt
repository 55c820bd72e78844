//! The words, numbers and tokens of a line, as a reader of lines goes along them.

ghost use Rattle.std.specs.Prelude.{ℕ, List, ◌≡◌, ◌<◌, ◌^◌, map, drop, slice_range, [], if◌then◌else◌, IfSome};
ghost use Rattle.std.specs.Str.{bytes_eq};
ghost use Rattle.crn_token.specs.Plain.{plain_token};
ghost use Rattle.crn_token.specs.Words.{rest_of, begins, number_at};

use crate::{Line, Span, Token};

/// The bytes of a span, as far as there are any.
pub fn letters(bytes: &[u8], span: Span) -> &[u8]
    ensures { result.now ≡ slice_range bytes.now span.start span.end }
{
    let end = span.end.min(bytes.len());
    let start = span.start.min(end);
    &bytes[start..end]
}

/// Whether these are the letters of a word.
pub fn spell(letters: &[u8], word: &[u8]) -> bool
    ensures { result ≡ bytes_eq letters.now word.now }
{
    letters == word
}

/// Whether the first token is this word.
pub fn begins(bytes: &[u8], tokens: &[Token], word: &[u8]) -> bool
    ensures { result ≡ begins word.now (map (plain_token bytes.now) tokens.now) }
{
    match tokens {
        [Token::Word(span), ..] => spell(letters(bytes, *span), word),
        _ => false,
    }
}

/// The number that is the first token.
pub fn number_at(tokens: &[Token]) -> Option<u64>
    ensures value { (bytes : List ℕ) → result ≡ number_at (map (plain_token bytes) tokens.now) }
    ensures fits { IfSome result (λ n. n < 2 ^ 63) }
{
    match tokens {
        [Token::Number(number, _), ..] if *number >= 0 => Some(*number as u64),
        _ => None,
    }
}

/// The tokens of a line, of which a bad line has none.
pub fn tokens_of(line: &Line) -> &[Token]
    ensures { result.now ≡ (if line.now.bad then [] else line.now.tokens.items) }
{
    if line.bad { &[] } else { &line.tokens }
}

/// The tokens after the first.
pub fn rest_of(tokens: &[Token]) -> &[Token]
    ensures { result.now ≡ rest_of tokens.now }
{
    match tokens {
        [_, rest @ ..] => rest,
        [] => &[],
    }
}

/// The tokens after so many.
pub fn after(tokens: &[Token], count: usize) -> &[Token]
    ensures { result.now ≡ drop count tokens.now }
{
    let (_, rest) = tokens.split_at(count.min(tokens.len()));
    rest
}
