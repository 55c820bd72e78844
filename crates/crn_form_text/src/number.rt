//! Numbers and fractions in text.

ghost use Rattle.std.specs.Prelude.{ℕ, suc, List, [], ◌≡◌, ◌<◌, ◌^◌, ◌≤ℤ◌, ◌<ℤ◌, pos, map, unsigned_abs, IfSome, IfNone};
ghost use Rattle.std.specs.Option.{option_map};
ghost use Rattle.crn_token.specs.Plain.{plain_token};
ghost use Rattle.crn_fraction.specs.Rational.{whole, ◌/ℚ◌};
ghost use Rattle.crn_form_text.specs.Grammar.{signed, IsLongestNumber, BeginsNoNumber};
ghost use Rattle.crn_form_text.specs.Reading.{denominator_at, fraction_after, fraction_at, count_next, count_value, factor_of};

use crate::mark::Mark;
use crn_fraction::Frac;
use crn_token::{Sign, Token};

// The number, or its negative.
fn signed(negative: bool, number: i64) -> i64
    requires { pos 0 ≤ℤ number }
    ensures value { result ≡ signed negative (unsigned_abs number) }
    ensures small { unsigned_abs result < 2 ^ 63 }
{
    if negative { -number } else { number }
}

// The number, or its negative, as a fraction.
fn whole(negative: bool, number: i64) -> Frac
    requires { pos 0 ≤ℤ number }
    ensures { result ≡ whole (signed negative (unsigned_abs number)) }
{
    Frac::of(signed(negative, number), 1).unwrap()
}

// The quotient by a number above 0.
fn over(numerator: i64, number: i64) -> Frac
    requires small { unsigned_abs numerator < 2 ^ 63 }
    requires positive { pos 0 <ℤ number }
    ensures { result ≡ whole numerator /ℚ whole number }
{
    Frac::of(numerator, number).unwrap()
}

/// What is read of a number with its sign.
#[derive(Clone, Copy, Debug)]
pub(crate) enum Count {
    Empty,
    /// A number, which may go on with `/`.
    Whole(Frac),
    /// A number and `/`.
    Over(Frac),
    Quotient(Frac),
}

impl Count {
    // The number after a token more, if it is allowed.
    pub(crate) fn next(self, negative: bool, mark: Mark) -> Option<Count>
        ensures { result ≡ count_next negative self mark }
    {
        match self {
            Count::Empty => match mark {
                Mark::Number(number) if number >= 0 => Some(Count::Whole(whole(negative, number))),
                _ => None,
            },
            Count::Whole(number) => match mark {
                Mark::Slash => Some(Count::Over(number)),
                _ => None,
            },
            Count::Over(numerator) => match mark {
                Mark::Number(number) if number > 0 => {
                    Some(Count::Quotient(over(numerator.num(), number)))
                }
                _ => None,
            },
            Count::Quotient(_) => None,
        }
    }

    // The number, if it may end here.
    pub(crate) fn value(self) -> Option<Frac>
        ensures { result ≡ count_value self }
    {
        match self {
            Count::Whole(value) | Count::Quotient(value) => Some(value),
            _ => None,
        }
    }

    // The coefficient of a variable that follows.
    pub(crate) fn factor(self, negative: bool) -> Option<Frac>
        ensures { result ≡ factor_of negative self }
    {
        match self {
            Count::Empty => Some(whole(negative, 1)),
            _ => self.value(),
        }
    }
}

// The number below a `/`, where both begin the tokens.
fn denominator_at(tokens: &[Token]) -> Option<i64>
    ensures value { result ≡ option_map (λ e. pos (suc e)) (denominator_at (map (plain_token []) tokens.now)) }
    ensures positive { IfSome result (λ n. pos 0 <ℤ n) }
    ensures fits { IfSome result (λ n. unsigned_abs n < 2 ^ 63) }
{
    match tokens {
        [Token::Symbol(Sign::Slash, _), Token::Number(number, _), ..] if *number > 0 => Some(
            *number,
        ),
        _ => None,
    }
}

// The longest number that begins with this one, and how many tokens it has.
fn fraction_after(number: i64, rest: &[Token]) -> (Frac, usize)
    requires { pos 0 ≤ℤ number }
    ensures { result ≡ fraction_after (unsigned_abs number) (map (plain_token []) rest.now) }
{
    match denominator_at(rest) {
        Some(below) => (over(number, below), 3),
        None => (whole(false, number), 1),
    }
}

// The longest number that begins the tokens, and how many tokens it has.
fn first_fraction(tokens: &[Token]) -> Option<(Frac, usize)>
    ensures { result ≡ fraction_at (map (plain_token []) tokens.now) }
{
    match tokens {
        [Token::Number(number, _), rest @ ..] if *number >= 0 => {
            Some(fraction_after(*number, rest))
        }
        _ => None,
    }
}

/// The longest number `n` or `n/d`, in lowest terms, that begins the tokens, and how many tokens it has. There is none exactly where the
/// first token is no number. The bytes that the tokens are of say nothing in it.
pub fn read_fraction(tokens: &[Token]) -> Option<(Frac, usize)>
    ensures value { (bytes : List ℕ) → result ≡ fraction_at (map (plain_token bytes) tokens.now) }
    ensures found { (bytes : List ℕ) → IfSome result (λ p. IsLongestNumber (map (plain_token bytes) tokens.now) p.0 p.1) }
    ensures none { (bytes : List ℕ) → IfNone result (BeginsNoNumber (map (plain_token bytes) tokens.now)) }
{
    first_fraction(tokens)
}
