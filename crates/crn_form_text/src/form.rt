//! Forms in text, term by term.

ghost use Rattle.std.specs.Prelude.{ℕ, List, Some, None, ◌≡◌, ◌↔◌, IsTrue, ◌+◌, ◌^◌, ◌<◌, ◌≤◌, map, take, drop, length, if◌then◌else◌, IfSome, IfNone, vec_len, unwrap_or, slice_index_or};
ghost use Rattle.std.specs.Option.{option_map};
ghost use Rattle.crn_token.specs.Plain.{plain_token};
ghost use Rattle.crn_fraction.specs.Rational.{ℚ, 0ℚ};
ghost use Rattle.crn_form_text.specs.Grammar.{SpellsForm, IsLongestPlain, BeginsNoPlain};
ghost use Rattle.crn_form_text.specs.Parsed.{form_from};
ghost use Rattle.crn_form_text.specs.Reading.{form_of, plain_form_at, placed_at, zero_at, mark_of, put, closed, term_next, name_next, in_term_next, form_next, plain_next, form_with, no_entries, at_place};

use crate::mark::{Mark, mark_of};
use crate::number::Count;
use crn_fraction::Frac;
use crn_linear::Form;
use crn_token::{Line, Token};

/// Where a form stands after some of its tokens.
#[derive(Clone, Copy, Debug)]
pub(crate) enum Place {
    Begin,
    /// In a term, after its sign and what is read of its number.
    Term(bool, Count),
    /// After the `x` of a term with this coefficient.
    Named(Frac),
    /// After a term with a variable.
    Ended,
}

/// A form that is read token by token: what stands in each column so far.
#[derive(Clone, Copy, Debug)]
pub(crate) struct FormReader {
    place: Place,
    entries: [Option<Frac>; 9],
}

impl FormReader {
    ghost use Rattle.crn_form_text.specs.Shown.{state_of};

    pub(crate) fn new() -> FormReader
        ensures { state_of result ≡ at_place Place.Begin no_entries }
    {
        FormReader {
            place: Place::Begin,
            entries: [None; 9],
        }
    }

    // Puts a term into its column, which must be free.
    fn put(&mut self, column: usize, value: Frac) -> bool
        requires { column ≤ 8 }
        ensures entries { put self.old.entries column value ≡ (if result then Some self.new.entries else None) }
        ensures place { self.new.place ≡ self.old.place }
    {
        let entries = &mut self.entries;
        if entries[column].is_some() {
            return false;
        }
        entries[column] = Some(value);
        true
    }

    // Ends the last term, if the form may end here.
    pub(crate) fn close(&mut self, variables: usize) -> bool
        requires { variables ≤ 8 }
        ensures entries { closed variables self.old.place self.old.entries ≡ (if result then Some self.new.entries else None) }
    {
        match self.place {
            Place::Ended => true,
            Place::Term(_, count) => match count.value() {
                Some(value) => self.put(variables, value),
                None => false,
            },
            _ => false,
        }
    }

    // Begins the next term.
    fn begin_term(&mut self, variables: usize, negative: bool) -> bool
        requires { variables ≤ 8 }
        ensures { option_map (λ es. at_place (Place.Term negative Count.Empty) es) (closed variables self.old.place self.old.entries)
            ≡ (if result then Some (state_of self.new) else None) }
    {
        let closes = self.close(variables);
        self.place = Place::Term(negative, Count::Empty);
        closes
    }

    // Goes on with a term.
    fn term(&mut self, negative: bool, count: Count, mark: Mark) -> bool
        ensures { term_next negative count self.old.entries mark ≡ (if result then Some (state_of self.new) else None) }
    {
        if mark == Mark::X {
            match count.factor(negative) {
                Some(factor) => self.place = Place::Named(factor),
                None => return false,
            }
        } else {
            match count.next(negative, mark) {
                Some(next) => self.place = Place::Term(negative, next),
                None => return false,
            }
        }
        true
    }

    // Ends a term by the number of its variable.
    fn name(&mut self, variables: usize, factor: Frac, mark: Mark) -> bool
        requires { variables ≤ 8 }
        ensures { name_next variables factor self.old.entries mark ≡ (if result then Some (state_of self.new) else None) }
    {
        let Mark::Number(number) = mark else {
            return false;
        };
        if number < 1 || number > variables as i64 {
            return false;
        }
        self.place = Place::Ended;
        self.put(number as usize - 1, factor)
    }

    // Takes a token, and tells whether it is allowed.
    pub(crate) fn take(&mut self, variables: usize, mark: Mark) -> bool
        requires { variables ≤ 8 }
        ensures { form_next variables self.old.place self.old.entries mark ≡ (if result then Some (state_of self.new) else None) }
    {
        match mark {
            Mark::Minus => match self.place {
                Place::Begin => {
                    self.place = Place::Term(true, Count::Empty);
                    true
                }
                _ => self.begin_term(variables, true),
            },
            Mark::Plus => self.begin_term(variables, false),
            _ => self.take_in_term(variables, mark),
        }
    }

    // Takes a token that is no sign, and tells whether it is allowed.
    fn take_in_term(&mut self, variables: usize, mark: Mark) -> bool
        requires { variables ≤ 8 }
        ensures { in_term_next variables self.old.place self.old.entries mark ≡ (if result then Some (state_of self.new) else None) }
    {
        let place = self.place;
        match place {
            Place::Begin => self.term(false, Count::Empty, mark),
            Place::Term(negative, count) => self.term(negative, count, mark),
            Place::Named(factor) => self.name(variables, factor, mark),
            Place::Ended => false,
        }
    }

    // Takes a token of a form without negative coefficients, and tells whether it is allowed.
    fn take_plain(&mut self, variables: usize, mark: Mark) -> bool
        requires { variables ≤ 8 }
        ensures { plain_next variables self.old.place self.old.entries mark ≡ (if result then Some (state_of self.new) else None) }
    {
        match mark {
            Mark::Minus => false,
            Mark::Plus => match self.place {
                Place::Ended => {
                    self.place = Place::Term(false, Count::Empty);
                    true
                }
                _ => false,
            },
            _ => self.take_in_term(variables, mark),
        }
    }

    // Whether a term with a variable was ended just now.
    fn has_ended(&self) -> bool
        ensures { IsTrue result ↔ (self.now.place ≡ Place.Ended) }
    {
        matches!(self.place, Place::Ended)
    }

    // What stands in a column, or 0.
    fn entry(&self, column: usize) -> Frac
        requires { column ≤ 8 }
        ensures value { result ≡ unwrap_or (slice_index_or self.now.entries column None) 0ℚ }
        ensures nine { length self.now.entries ≡ 9 }
    {
        let entries = &self.entries;
        entries[column].unwrap_or(Frac::ZERO)
    }

    // The form of the first columns.
    pub(crate) fn form(&self, columns: usize) -> Form
        requires some { 1 ≤ columns }
        requires few { columns ≤ 9 }
        ensures { result ≡ form_with columns self.now.entries }
    {
        let mut coeffs = [Frac::ZERO; 9];
        for i in 0..9 {
            coeffs[i] = self.entry(i);
        }
        Form::of(&coeffs[..columns])
    }
}

// The form that the tokens spell, if they spell one.
fn form_in(bytes: &[u8], tokens: &[Token], variables: usize) -> Option<Form>
    requires { variables ≤ 8 }
    ensures { result ≡ form_of variables (map (plain_token bytes.now) tokens.now) }
{
    let mut reader = FormReader::new();
    for token in tokens {
        if !reader.take(variables, mark_of(bytes, *token)) {
            return None;
        }
    }
    if !reader.close(variables) {
        return None;
    }
    Some(reader.form(variables + 1))
}

/// The form over so many variables that the tokens spell, with a column for each and a last one for the constant. There is none exactly
/// where they spell none: a variable may stand in one term at most, and there may be one constant at most.
pub fn read_form(bytes: &[u8], tokens: &[Token], variables: usize) -> Option<Form>
    requires { variables ≤ 8 }
    ensures value { result ≡ form_from variables (map (plain_token bytes.now) tokens.now) }
    ensures spelled { IfSome result (λ form. SpellsForm variables form (map (plain_token bytes.now) tokens.now)) }
    ensures none { IfNone result ((form : List ℚ) → ¬ SpellsForm variables form (map (plain_token bytes.now) tokens.now)) }
{
    form_in(bytes, tokens, variables)
}

// The zero form, where the first token is the number 0.
fn zero_at(bytes: &[u8], tokens: &[Token], variables: usize) -> Option<(Form, usize)>
    requires some { 1 ≤ variables }
    requires few { variables ≤ 8 }
    ensures value { result ≡ zero_at variables (map mark_of (map (plain_token bytes.now) tokens.now)) }
    ensures within { IfSome result (λ p. p.1 ≤ length tokens.now) }
{
    let first = tokens.first()?;
    match mark_of(bytes, *first) {
        Mark::Number(0) => Some((FormReader::new().form(variables), 1)),
        _ => None,
    }
}

// The longest form without negative coefficients that begins the tokens, and how many tokens it has.
fn plain_form_at(bytes: &[u8], tokens: &[Token], variables: usize) -> Option<(Form, usize)>
    requires some { 1 ≤ variables }
    requires few { variables ≤ 8 }
    ensures value { result ≡ plain_form_at variables (map (plain_token bytes.now) tokens.now) }
    ensures within { IfSome result (λ p. p.1 ≤ length tokens.now) }
{
    let mut found = zero_at(bytes, tokens, variables);
    let mut reader = FormReader::new();
    for (i, token) in tokens.iter().enumerate() {
        if !reader.take_plain(variables, mark_of(bytes, *token)) {
            return found;
        }
        if reader.has_ended() {
            found = Some((reader.form(variables), i + 1));
        }
    }
    found
}

// What was found in tokens that begin at this index.
fn placed(found: Option<(Form, usize)>, from: usize) -> Option<(Form, usize)>
    requires { IfSome found (λ p. from + p.1 < 2 ^ 64) }
    ensures { result ≡ option_map (placed_at from) found }
{
    match found {
        Some((form, count)) => Some((form, from + count)),
        None => None,
    }
}

/// The longest form without negative coefficients that begins at the token `from` of a line, and the index of the token after it: the
/// number 0 alone, or terms with a variable, joined by `+`. It has a column for each variable.
pub fn read_plain_form(
    bytes: &[u8],
    line: &Line,
    from: usize,
    variables: usize,
) -> Option<(Form, usize)>
    requires place { from ≤ vec_len line.now.tokens }
    requires some { 1 ≤ variables }
    requires few { variables ≤ 8 }
    ensures value { result ≡ option_map (placed_at from) (plain_form_at variables (drop from (map (plain_token bytes.now) line.now.tokens.items))) }
    ensures found { IfSome result (λ p. IsLongestPlain variables (map (plain_token bytes.now) line.now.tokens.items) from p.0 p.1) }
    ensures none { IfNone result (BeginsNoPlain variables (map (plain_token bytes.now) line.now.tokens.items) from) }
{
    let (_, tokens) = line.tokens.as_slice().split_at(from);
    placed(plain_form_at(bytes, tokens, variables), from)
}

/// The first columns of a form, or all of them where there are no more.
pub fn narrow(form: &Form, columns: usize) -> Form
    requires { 1 ≤ columns }
    ensures { result ≡ take columns form.now }
{
    let columns = columns.min(form.len());
    let mut coeffs = [Frac::ZERO; 9];
    for i in 0..columns {
        coeffs[i] = form.coeff(i);
    }
    Form::of(&coeffs[..columns])
}
