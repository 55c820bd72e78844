//! What the tokens of a line of network text begin with, or are.

ghost use Rattle.std.specs.Prelude.{ℕ, List, ◌≡◌, ◌<◌, map, length, IsTrue};
ghost use Rattle.crn_token.specs.Plain.{plain_token};
ghost use Rattle.crn_net_text.specs.Grammar.{number_of, is_plus, is_arrow, is_nothing};

use crn_token::{Sign, Token};

/// The number that is all the tokens.
pub fn number_of(tokens: &[Token]) -> Option<u64>
    ensures { (bytes : List ℕ) → result ≡ number_of (map (plain_token bytes) tokens.now) }
{
    match tokens {
        [Token::Number(number, _)] if *number >= 0 => Some(*number as u64),
        _ => None,
    }
}

/// Whether a `+` is the first token.
pub fn is_plus(tokens: &[Token]) -> bool
    ensures some { IsTrue result → 0 < length tokens.now }
    ensures value { (bytes : List ℕ) → result ≡ is_plus (map (plain_token bytes) tokens.now) }
{
    matches!(tokens, [Token::Symbol(Sign::Plus, _), ..])
}

/// Whether a `->` is the first token.
pub fn is_arrow(tokens: &[Token]) -> bool
    ensures { (bytes : List ℕ) → result ≡ is_arrow (map (plain_token bytes) tokens.now) }
{
    matches!(tokens, [Token::Symbol(Sign::Arrow, _), ..])
}

/// `0` alone.
pub fn is_nothing(tokens: &[Token]) -> bool
    ensures { (bytes : List ℕ) → result ≡ is_nothing (map (plain_token bytes) tokens.now) }
{
    matches!(tokens, [Token::Number(0, _)])
}
