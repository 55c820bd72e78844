//! Where a text of a gated function stands, and what each line does to it.

ghost use Rattle.std.specs.Prelude.{◌≡◌, ◌≤◌, ◌++◌, ◌∷◌, [], map, IfOk};
ghost use Rattle.std.specs.Option.{option_map, option_map_or};
ghost use Rattle.crn_token.specs.Plain.{plain_token};
ghost use Rattle.crn_token.specs.Words.{begins, rest_of};
ghost use Rattle.crn_grammar.specs.Table as table;
ghost use Rattle.crn_grammar.specs.Reading.{judged, Gives};
ghost use Rattle.crn_gated.specs.Forms.{AreFewGatedForms};
ghost use Rattle.crn_gated.specs.Grammar as grammar;
ghost use Rattle.crn_gated.specs.Grammar.{gated_form_of};
ghost use Rattle.crn_gated.specs.Reading.{shown, gated_of, IsKept};

use crate::{GatedForm, GatedFunction};
use crn_form_text::read_plain_form;
use crn_grammar::TextError;
use crn_linear::Form;
use crn_token::words::{after, begins, letters, number_at, rest_of, spell};
use crn_token::{Counted, Line, Token};
use std::alloc::Global;

/// The greatest number of variables.
const MOST_VARIABLES: u64 = 8;

/// The greatest number of forms.
const MOST_FORMS: usize = 32;

/// Where a text stands, with what was read so far.
#[derive(Drop)]
pub enum Place {
    Start,
    Header,
    Sized(usize),
    InForms(usize, Vec<GatedForm>),
}

// `gated`.
fn header(bytes: &[u8], line: usize, rest: &[Token]) -> Result<Place, TextError>
    ensures { Gives shown result (judged grammar.limit line (grammar.header (map (plain_token bytes.now) rest.now))) }
{
    match rest {
        [Token::Word(span)] => {
            if spell(letters(bytes, *span), b"gated") {
                Ok(Place::Header)
            } else {
                Err(TextError::Malformed { line })
            }
        }
        _ => Err(TextError::Malformed { line }),
    }
}

// The number of variables.
fn size(bytes: &[u8], line: usize, rest: &[Token]) -> Result<Place, TextError>
    ensures { Gives shown result (judged grammar.limit line (grammar.size (map (plain_token bytes.now) rest.now))) }
{
    match rest {
        [Token::Number(variables, _)] if *variables > 0 => {
            let count = *variables as u64;
            if count > MOST_VARIABLES {
                return Err(TextError::Limit {
                    what: Counted::Variables,
                    count,
                });
            }
            Ok(Place::Sized(count as usize))
        }
        _ => Err(TextError::Malformed { line }),
    }
}

// The number of a variable, if there are so many.
fn within(variables: usize, number: u64) -> Option<usize>
    requires { variables ≤ MOST_VARIABLES }
    ensures { result ≡ grammar.within variables number }
{
    if 0 < number && number <= variables as u64 {
        Some(number as usize)
    } else {
        None
    }
}

// The variable `xI` that begins the tokens.
#[tactic(auto, using(crn_token::proofs::LineLaws::rest_map))]
fn variable_at(bytes: &[u8], variables: usize, tokens: &[Token]) -> Option<usize>
    requires { variables ≤ MOST_VARIABLES }
    ensures { result ≡ grammar.variable_at variables (map (plain_token bytes.now) tokens.now) }
{
    if begins(bytes, tokens, b"x") {
        match number_at(rest_of(tokens)) {
            Some(number) => within(variables, number),
            None => None,
        }
    } else {
        None
    }
}

// The gate `if xI` that is all the tokens.
#[tactic(auto, using(crn_token::proofs::LineLaws::rest_map))]
fn named_gate(bytes: &[u8], variables: usize, tokens: &[Token]) -> Option<Option<usize>>
    requires { variables ≤ MOST_VARIABLES }
    ensures { result ≡ grammar.named_gate variables (map (plain_token bytes.now) tokens.now) }
{
    if tokens.len() == 3 && begins(bytes, tokens, b"if") {
        match variable_at(bytes, variables, rest_of(tokens)) {
            Some(variable) => Some(Some(variable)),
            None => None,
        }
    } else {
        None
    }
}

// The gate, or none where there are no tokens.
fn gate_of(bytes: &[u8], variables: usize, tokens: &[Token]) -> Option<Option<usize>>
    requires { variables ≤ MOST_VARIABLES }
    ensures { result ≡ grammar.gate_of variables (map (plain_token bytes.now) tokens.now) }
{
    if tokens.is_empty() {
        Some(None)
    } else {
        named_gate(bytes, variables, tokens)
    }
}

// The form with the gate that all these tokens are.
fn with_gate(bytes: &[u8], variables: usize, form: Form, tokens: &[Token]) -> Option<GatedForm>
    requires { variables ≤ MOST_VARIABLES }
    ensures { result ≡ option_map (grammar.gated form)
        (grammar.gate_of variables (map (plain_token bytes.now) tokens.now)) }
{
    match gate_of(bytes, variables, tokens) {
        Some(gate) => Some(GatedForm { form, gate }),
        None => None,
    }
}

// A form with its gate, after the first token of a line and up to its end.
fn read_gated_form(bytes: &[u8], line: &Line, variables: usize) -> Option<GatedForm>
    requires some { 1 ≤ variables }
    requires few { variables ≤ MOST_VARIABLES }
    ensures { result ≡ gated_form_of variables (map (plain_token bytes.now) (rest_of line.now.tokens.items)) }
{
    if line.tokens.is_empty() {
        return None;
    }
    match read_plain_form(bytes, line, 1, variables) {
        Some(found) => with_gate(bytes, variables, found.0, after(&line.tokens, found.1)),
        None => None,
    }
}

// The first form.
fn first_form(
    alloc: Global,
    bytes: &[u8],
    line: &Line,
    variables: usize,
) -> Result<Place, TextError>
    requires some { 1 ≤ variables }
    requires few { variables ≤ MOST_VARIABLES }
    ensures { Gives shown result (judged grammar.limit line.now.number
        (grammar.follow (grammar.Sized variables) (map (plain_token bytes.now) (rest_of line.now.tokens.items)))) }
{
    let Some(form) = read_gated_form(bytes, line, variables) else {
        return Err(TextError::Malformed { line: line.number });
    };
    let mut forms = Vec::new(alloc);
    forms.push(form)?;
    Ok(Place::InForms(variables, forms))
}

// One more form.
fn next_form(
    bytes: &[u8],
    line: &Line,
    variables: usize,
    mut forms: Vec<GatedForm>,
) -> Result<Place, TextError>
    requires { AreFewGatedForms variables forms.items }
    ensures { Gives shown result (judged grammar.limit line.now.number
        (grammar.follow (grammar.InForms variables forms.items)
        (map (plain_token bytes.now) (rest_of line.now.tokens.items)))) }
{
    let Some(form) = read_gated_form(bytes, line, variables) else {
        return Err(TextError::Malformed { line: line.number });
    };
    let count = forms.len() + 1;
    if count > MOST_FORMS {
        return Err(TextError::Limit {
            what: Counted::Forms,
            count: count as u64,
        });
    }
    forms.push(form)?;
    Ok(Place::InForms(variables, forms))
}

impl Place {
    /// Whether a line of these tokens begins with the word that may follow.
    pub fn goes_on(&self, bytes: &[u8], tokens: &[Token]) -> bool
        ensures { result ≡ begins (grammar.word_after (shown self.now)) (map (plain_token bytes.now) tokens.now) }
    {
        match self {
            Place::Start => begins(bytes, tokens, b"function"),
            Place::Header => begins(bytes, tokens, b"variables"),
            Place::Sized(_) => begins(bytes, tokens, b"form"),
            Place::InForms(..) => begins(bytes, tokens, b"form"),
        }
    }

    /// The place after one more line, which begins with that word.
    pub fn after(self, alloc: Global, bytes: &[u8], line: &Line) -> Result<Place, TextError>
        requires { IsKept (shown self) }
        ensures { Gives shown result (judged grammar.limit line.now.number
            (grammar.follow (shown self) (map (plain_token bytes.now) (rest_of line.now.tokens.items)))) }
    {
        match self {
            Place::Start => header(bytes, line.number, rest_of(&line.tokens)),
            Place::Header => size(bytes, line.number, rest_of(&line.tokens)),
            Place::Sized(variables) => first_form(alloc, bytes, line, variables),
            Place::InForms(variables, forms) => next_form(bytes, line, variables, forms),
        }
    }

    /// The function of a text that ends here, before the line `end`.
    pub fn function(self, end: usize) -> Result<GatedFunction, TextError>
        requires { IsKept (shown self) }
        ensures value { Gives gated_of result (option_map_or (λ f. table.Read f) (grammar.whole (shown self))
            (table.Malformed end)) }
        ensures forms { IfOk result (λ f. AreFewGatedForms f.variables f.forms.items) }
    {
        match self {
            Place::InForms(variables, forms) => Ok(GatedFunction { variables, forms }),
            _ => Err(TextError::Malformed { line: end }),
        }
    }
}
