//! Where a text of a function stands, and what each line does to it.

ghost use Rattle.std.specs.Prelude.{ℕ, Some, ◌≡◌, ◌+◌, ◌≤◌, ◌++◌, ◌∷◌, [], map, length, IfOk};
ghost use Rattle.std.specs.Option.{option_map, option_map_or};
ghost use Rattle.crn_token.specs.Plain.{plain_token};
ghost use Rattle.crn_token.specs.Words.{rest_of};
ghost use Rattle.crn_grammar.specs.Table as table;
ghost use Rattle.crn_grammar.specs.Reading.{judged, Gives};
ghost use Rattle.crn_formula.specs.Domains.{domain_for};
ghost use Rattle.crn_formula.specs.Views.{kind_of, pieces_of, piece_of};
ghost use Rattle.crn_form_text.specs.Built.{fitted};
ghost use Rattle.crn_function_text.specs.Spelled.{form_of, plain_form_of, formula_of};
ghost use Rattle.crn_function_text.specs.Grammar as grammar;
ghost use Rattle.crn_function_text.specs.Reading.{shown, function_of, IsKept, AreKeptPieces, AreKeptForms};

use crate::FunctionTextError;
use crate::columns::function_of_pieces;
use crate::words::{Given, Word, given_of};
use crn_form_text::{FormulaText, read_form, read_formula, read_plain_form};
use crn_formula::{Formula, Function, FunctionKind, Piece, count_conditions};
use crn_linear::Form;
use crn_token::words::{letters, rest_of};
use crn_token::{Counted, Line, Sign, Token};
use std::alloc::Global;

/// The greatest number of variables.
const MOST_VARIABLES: u64 = 8;

/// The greatest number of pieces.
const MOST_PIECES: usize = 32;

/// The greatest number of conditions of one piece.
const MOST_CONDITIONS: usize = 16;

/// The greatest number of conditions of all pieces together.
const MOST_ALL_CONDITIONS: usize = 100;

/// The greatest number of direct forms.
const MOST_FORMS: usize = 32;

/// Where a text stands, with what was read so far.
#[derive(Drop)]
pub enum Place {
    Start,
    Header(Given),
    Sized(Given, usize),
    Valued(usize, Formula),
    InPieces(usize, Vec<Piece>, Piece),
    InForms(usize, Vec<Form>),
}

// `formula`, `pieces` or `direct`.
fn header(bytes: &[u8], line: usize, rest: &[Token]) -> Result<Place, FunctionTextError>
    ensures { Gives shown result (judged grammar.limit line (grammar.header (map (plain_token bytes.now) rest.now))) }
{
    match rest {
        [Token::Word(span)] => match given_of(letters(bytes, *span)) {
            Some(given) => Ok(Place::Header(given)),
            None => Err(FunctionTextError::Malformed { line }),
        },
        _ => Err(FunctionTextError::Malformed { line }),
    }
}

// The number of variables.
fn size(bytes: &[u8], line: usize, given: Given, rest: &[Token]) -> Result<Place, FunctionTextError>
    ensures { Gives shown result (judged grammar.limit line (grammar.size given (map (plain_token bytes.now) rest.now))) }
{
    match rest {
        [Token::Number(variables, _)] if *variables > 0 => {
            let count = *variables as u64;
            if count > MOST_VARIABLES {
                return Err(FunctionTextError::Limit {
                    what: Counted::Variables,
                    count,
                });
            }
            Ok(Place::Sized(given, count as usize))
        }
        _ => Err(FunctionTextError::Malformed { line }),
    }
}

// The formula, which is counted before it is built.
fn value(
    alloc: Global,
    bytes: &[u8],
    line: usize,
    variables: usize,
    rest: &[Token],
) -> Result<Place, FunctionTextError>
    requires some { 1 ≤ variables }
    requires few { variables ≤ MOST_VARIABLES }
    ensures { Gives shown result (judged grammar.limit line (option_map (λ e. grammar.Valued variables (fitted variables e)) (formula_of variables (map (plain_token bytes.now) rest.now)))) }
{
    match read_formula(alloc, bytes, rest, variables)? {
        Some(FormulaText::Within(formula)) => Ok(Place::Valued(variables, formula)),
        Some(FormulaText::TooManyNodes(nodes)) => Err(FunctionTextError::Limit {
            what: Counted::Nodes,
            count: nodes as u64,
        }),
        Some(FormulaText::TooDeep(depth)) => Err(FunctionTextError::Limit {
            what: Counted::Depth,
            count: depth as u64,
        }),
        None => Err(FunctionTextError::Malformed { line }),
    }
}

// The form of the first piece.
fn first_piece(
    alloc: Global,
    bytes: &[u8],
    line: usize,
    variables: usize,
    rest: &[Token],
) -> Result<Place, FunctionTextError>
    requires some { 1 ≤ variables }
    requires few { variables ≤ MOST_VARIABLES }
    ensures { Gives shown result (judged grammar.limit line (option_map (λ f. grammar.InPieces variables [] (grammar.new_piece f)) (form_of variables (map (plain_token bytes.now) rest.now)))) }
{
    match read_form(bytes, rest, variables) {
        Some(form) => Ok(Place::InPieces(variables, Vec::new(alloc), new_piece(alloc, form))),
        None => Err(FunctionTextError::Malformed { line }),
    }
}

// A piece without conditions yet.
fn new_piece(alloc: Global, form: Form) -> Piece
    ensures { piece_of result ≡ grammar.new_piece form }
{
    Piece {
        conditions: Vec::new(alloc),
        form,
    }
}

// The form of one more piece.
fn next_piece(
    alloc: Global,
    bytes: &[u8],
    line: usize,
    variables: usize,
    mut done: Vec<Piece>,
    last: Piece,
    rest: &[Token],
) -> Result<Place, FunctionTextError>
    requires some { 1 ≤ variables }
    requires few { variables ≤ MOST_VARIABLES }
    requires kept { AreKeptPieces variables (pieces_of done.items ++ piece_of last ∷ []) }
    ensures { Gives shown result (judged grammar.limit line (option_map (λ f. grammar.InPieces variables (pieces_of done.items ++ piece_of last ∷ []) (grammar.new_piece f)) (form_of variables (map (plain_token bytes.now) rest.now)))) }
{
    let Some(form) = read_form(bytes, rest, variables) else {
        return Err(FunctionTextError::Malformed { line });
    };
    let pieces = done.len() + 2;
    if pieces > MOST_PIECES {
        return Err(FunctionTextError::Limit {
            what: Counted::Pieces,
            count: pieces as u64,
        });
    }
    done.push(last)?;
    Ok(Place::InPieces(variables, done, new_piece(alloc, form)))
}

// A form, and then `>= 0`.
fn read_condition(bytes: &[u8], variables: usize, rest: &[Token]) -> Option<Form>
    requires some { 1 ≤ variables }
    requires few { variables ≤ MOST_VARIABLES }
    ensures { result ≡ grammar.condition_of variables (map (plain_token bytes.now) rest.now) }
{
    if rest.len() < 2 {
        return None;
    }
    let (form, end) = rest.split_at(rest.len() - 2);
    if is_at_least_zero(bytes, end) {
        read_form(bytes, form, variables)
    } else {
        None
    }
}

// `>= 0`.
fn is_at_least_zero(bytes: &[u8], tokens: &[Token]) -> bool
    ensures { result ≡ grammar.is_at_least_zero (map (plain_token bytes.now) tokens.now) }
{
    matches!(
        tokens,
        [Token::Symbol(Sign::AtLeast, _), Token::Number(0, _)]
    )
}

// One more condition of the last piece.
fn condition(
    bytes: &[u8],
    line: usize,
    variables: usize,
    done: Vec<Piece>,
    mut last: Piece,
    rest: &[Token],
) -> Result<Place, FunctionTextError>
    requires some { 1 ≤ variables }
    requires few { variables ≤ MOST_VARIABLES }
    requires kept { AreKeptPieces variables (pieces_of done.items ++ piece_of last ∷ []) }
    ensures { Gives shown result (judged grammar.limit line (option_map (λ c. grammar.InPieces variables (pieces_of done.items) (grammar.with_condition (piece_of last) c)) (grammar.condition_of variables (map (plain_token bytes.now) rest.now)))) }
{
    let Some(condition) = read_condition(bytes, variables, rest) else {
        return Err(FunctionTextError::Malformed { line });
    };
    let count = last.conditions.len() + 1;
    if count > MOST_CONDITIONS {
        return Err(FunctionTextError::Limit {
            what: Counted::Conditions,
            count: count as u64,
        });
    }
    let together = count_conditions(&done) + count;
    if together > MOST_ALL_CONDITIONS {
        return Err(FunctionTextError::Limit {
            what: Counted::AllConditions,
            count: together as u64,
        });
    }
    last.conditions.push(condition)?;
    Ok(Place::InPieces(variables, done, last))
}

// A form without negative coefficients, after the first token of a line and up to its end.
fn read_direct_form(bytes: &[u8], line: &Line, variables: usize) -> Option<Form>
    requires some { 1 ≤ variables }
    requires few { variables ≤ MOST_VARIABLES }
    ensures { result ≡ plain_form_of variables (map (plain_token bytes.now) (rest_of line.now.tokens.items)) }
{
    if line.tokens.is_empty() {
        return None;
    }
    match read_plain_form(bytes, line, 1, variables) {
        Some((form, next)) if next == line.tokens.len() => Some(form),
        _ => None,
    }
}

// The first direct form.
fn first_form(
    alloc: Global,
    bytes: &[u8],
    line: &Line,
    variables: usize,
) -> Result<Place, FunctionTextError>
    requires some { 1 ≤ variables }
    requires few { variables ≤ MOST_VARIABLES }
    ensures { Gives shown result (judged grammar.limit line.now.number (option_map (λ f. grammar.InForms variables (f ∷ [])) (plain_form_of variables (map (plain_token bytes.now) (rest_of line.now.tokens.items))))) }
{
    let Some(form) = read_direct_form(bytes, line, variables) else {
        return Err(FunctionTextError::Malformed { line: line.number });
    };
    let mut forms = Vec::new(alloc);
    forms.push(form)?;
    Ok(Place::InForms(variables, forms))
}

// One more direct form.
fn next_form(
    bytes: &[u8],
    line: &Line,
    variables: usize,
    mut forms: Vec<Form>,
) -> Result<Place, FunctionTextError>
    requires some { 1 ≤ variables }
    requires few { variables ≤ MOST_VARIABLES }
    requires kept { AreKeptForms variables forms.items }
    ensures { Gives shown result (judged grammar.limit line.now.number (option_map (λ f. grammar.InForms variables (forms.items ++ f ∷ [])) (plain_form_of variables (map (plain_token bytes.now) (rest_of line.now.tokens.items))))) }
{
    let Some(form) = read_direct_form(bytes, line, variables) else {
        return Err(FunctionTextError::Malformed { line: line.number });
    };
    let count = forms.len() + 1;
    if count > MOST_FORMS {
        return Err(FunctionTextError::Limit {
            what: Counted::Forms,
            count: count as u64,
        });
    }
    forms.push(form)?;
    Ok(Place::InForms(variables, forms))
}

impl Place {
    /// Whether a line with this first word may follow.
    pub fn allows(&self, word: Word) -> bool
        ensures { result ≡ grammar.allows (shown self.now) word }
    {
        match self {
            Place::Start => matches!(word, Word::Function),
            Place::Header(_) => matches!(word, Word::Variables),
            Place::Sized(Given::Formula, _) => matches!(word, Word::Value),
            Place::Sized(Given::Pieces, _) => matches!(word, Word::Piece),
            Place::Sized(Given::Direct, _) => matches!(word, Word::Form),
            Place::Valued(..) => false,
            Place::InPieces(..) => matches!(word, Word::Piece | Word::When),
            Place::InForms(..) => matches!(word, Word::Form),
        }
    }

    /// The place after one more line with this first word.
    pub fn after(
        self,
        alloc: Global,
        bytes: &[u8],
        line: &Line,
        word: Word,
    ) -> Result<Place, FunctionTextError>
        requires { IsKept (shown self) }
        ensures { Gives shown result (judged grammar.limit line.now.number (grammar.follow (shown self) word (map (plain_token bytes.now) (rest_of line.now.tokens.items)))) }
    {
        let number = line.number;
        let rest = rest_of(&line.tokens);
        match self {
            Place::Start => match word {
                Word::Function => header(bytes, number, rest),
                _ => Err(FunctionTextError::Malformed { line: number }),
            },
            Place::Header(given) => match word {
                Word::Variables => size(bytes, number, given, rest),
                _ => Err(FunctionTextError::Malformed { line: number }),
            },
            Place::Sized(given, variables) => match (given, word) {
                (Given::Formula, Word::Value) => value(alloc, bytes, number, variables, rest),
                (Given::Pieces, Word::Piece) => first_piece(alloc, bytes, number, variables, rest),
                (Given::Direct, Word::Form) => first_form(alloc, bytes, line, variables),
                _ => Err(FunctionTextError::Malformed { line: number }),
            },
            Place::Valued(..) => Err(FunctionTextError::Malformed { line: number }),
            Place::InPieces(variables, done, last) => match word {
                Word::Piece => next_piece(alloc, bytes, number, variables, done, last, rest),
                Word::When => condition(bytes, number, variables, done, last, rest),
                _ => Err(FunctionTextError::Malformed { line: number }),
            },
            Place::InForms(variables, forms) => match word {
                Word::Form => next_form(bytes, line, variables, forms),
                _ => Err(FunctionTextError::Malformed { line: number }),
            },
        }
    }

    /// The function of a text that ends here, before the line `end`.
    pub fn function(self, end: usize) -> Result<Function, FunctionTextError>
        requires { IsKept (shown self) }
        ensures value { Gives function_of result (option_map_or (λ f. table.Read f) (grammar.whole (shown self)) (table.Malformed end)) }
        ensures domain { IfOk result (λ f. f.domain ≡ domain_for f.variables (kind_of f.kind)) }
    {
        match self {
            Place::Valued(variables, formula) => {
                Ok(Function::of(variables, FunctionKind::Formula(formula)))
            }
            Place::InPieces(variables, mut done, last) => {
                done.push(last)?;
                Ok(function_of_pieces(variables, done))
            }
            Place::InForms(variables, forms) => {
                Ok(Function::of(variables, FunctionKind::Direct(forms)))
            }
            _ => Err(FunctionTextError::Malformed { line: end }),
        }
    }
}
