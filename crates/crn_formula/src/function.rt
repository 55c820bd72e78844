//! Functions of each kind, and when their parts make one.

ghost use Rattle.std.specs.Prelude.{◌≡◌, ◌↔◌, ◌<◌, ◌≤◌, ◌+◌, ◌++◌, ◌∷◌, [], pos, length, take, min, sum_by, false, IsTrue, All};
ghost use Rattle.std.specs.List.{fold};
ghost use Rattle.std.specs.Result.{OkIff};
ghost use Rattle.crn_fraction.specs.Rational.{0ℚ, whole, ◌≤ℚ◌, min_ℚ};
ghost use Rattle.crn_linear.specs.Forms.{at, IsValueInReach};
ghost use Rattle.crn_formula.specs.Pieces.{columns_of};
ghost use Rattle.crn_formula.specs.Functions.{Kind, least_value, kind_value, IsKindInReach, is_affine, columns, IsKindOver, IsWithinLimits, IsFitting, condition_count, AreFewPieces, AreFewForms, HasSome, IsGivenByPieces};
ghost use Rattle.crn_formula.specs.Domains.{domain_for, orthant};
ghost use Rattle.crn_formula.specs.Views.{kind_of, piece_of, pieces_of, IsFunction};
ghost use Rattle.crn_formula.specs.Answers.{value, IsValueFormed, AnswersValue};

use crate::domain::Domain;
use crate::formula::{Formula, some_has_constant};
use crate::pieces::{Piece, are_over, first_value, some_piece_has_constant};
use crn_fraction::{Frac, TooBig};
use crn_linear::Form;
use std::marker::Model;
use thiserror::Error;

/// Why a function has no value that can be answered.
#[derive(Clone, Copy, Debug, PartialEq, Eq, Hash, Error)]
pub enum ValueError {
    /// A number that is formed on the way does not fit a fraction.
    #[error("a number on the way to the value is too big")]
    TooBig,
    /// No piece holds: each has a negative condition.
    #[error("no piece holds")]
    NoPiece,
}

/// How a function is given.
#[derive(Debug, Drop)]
pub enum FunctionKind {
    /// By a formula.
    Formula(Formula),
    /// By pieces, of which the first that holds gives the value.
    Pieces(Vec<Piece>),
    /// By forms without negative coefficients, of which the least gives the value.
    Direct(Vec<Form>),
}

impl FunctionKind {
    // The value at a point with a number for each column.
    fn value_at(&self, x: &[Frac]) -> Result<Frac, ValueError>
        requires columns { IsKindOver (length x.now) (kind_of self.now) }
        requires some { HasSome (kind_of self.now) }
        ensures { AnswersValue result (IsKindInReach (kind_of self.now) x.now) (kind_value (kind_of self.now) x.now) }
    {
        match self {
            FunctionKind::Formula(formula) => match formula.value_at(x) {
                Ok(value) => Ok(value),
                Err(TooBig) => Err(ValueError::TooBig),
            },
            FunctionKind::Pieces(pieces) => match first_value(pieces.as_slice(), x) {
                Ok(Some(value)) => Ok(value),
                Ok(None) => Err(ValueError::NoPiece),
                Err(TooBig) => Err(ValueError::TooBig),
            },
            FunctionKind::Direct(forms) => match least_value(forms.as_slice(), x) {
                Ok(value) => Ok(value),
                Err(TooBig) => Err(ValueError::TooBig),
            },
        }
    }

    // Whether a form, conditions included, has a constant other than 0.
    fn is_affine(&self, variables: usize) -> bool
        ensures { result ≡ is_affine variables (kind_of self.now) }
    {
        match self {
            FunctionKind::Formula(formula) => formula.has_constant(variables),
            FunctionKind::Pieces(pieces) => some_piece_has_constant(pieces.as_slice(), variables),
            FunctionKind::Direct(forms) => some_has_constant(forms.as_slice(), variables),
        }
    }

    // Whether each form has so many columns.
    fn is_over(&self, columns: usize) -> bool
        ensures { IsTrue result ↔ IsKindOver columns (kind_of self.now) }
    {
        match self {
            FunctionKind::Formula(formula) => formula.is_over(columns),
            FunctionKind::Pieces(pieces) => are_over(pieces.as_slice(), columns),
            FunctionKind::Direct(forms) => forms.iter().all(|form| form.len() == columns),
        }
    }

    // Whether the counts are within the limits.
    fn is_within_limits(&self, affine: bool) -> bool
        ensures { IsTrue result ↔ IsWithinLimits affine (kind_of self.now) }
    {
        match self {
            FunctionKind::Formula(formula) => formula.nodes() <= 2048 && formula.depth() <= 64,
            FunctionKind::Pieces(pieces) => are_few_pieces(pieces.as_slice()),
            FunctionKind::Direct(forms) => !affine && are_few_forms(forms.as_slice()),
        }
    }
}

// The least value of the forms, all of which are evaluated.
fn least_value(forms: &[Form], x: &[Frac]) -> Result<Frac, TooBig>
    requires some { 0 < length forms.now }
    requires columns { All (λ f. length f ≡ length x.now) forms.now }
    ensures { OkIff result (All (λ f. IsValueInReach f x.now) forms.now) (least_value forms.now x.now) }
{
    let first = forms[0].at(x)?;
    least_with(first, &forms[1..], x)
}

// The least of a number and the values of the forms.
fn least_with(first: Frac, forms: &[Form], x: &[Frac]) -> Result<Frac, TooBig>
    requires { All (λ f. length f ≡ length x.now) forms.now }
    ensures { OkIff result (All (λ f. IsValueInReach f x.now) forms.now) (fold (λ m f. min_ℚ m (at f x.now)) first forms.now) }
{
    let mut least = first;
    for form in forms {
        let value = form.at(x)?;
        least = least.least(value);
    }
    Ok(least)
}

fn are_few_pieces(pieces: &[Piece]) -> bool
    ensures { IsTrue result ↔ AreFewPieces (λ p. condition_count (piece_of p)) pieces.now }
{
    !pieces.is_empty()
        && pieces.len() <= 32
        && pieces
            .iter()
            .all(|piece| piece.conditions.as_slice().len() <= 16)
        && count_conditions(pieces) <= 100
}

/// The number of conditions of all pieces together, or `usize::MAX` where there are more.
pub fn count_conditions(pieces: &[Piece]) -> usize
    ensures { result ≡ min (sum_by condition_count (pieces_of pieces.now)) usize.MAX }
{
    let mut count = 0usize;
    for piece in pieces {
        count = count.saturating_add(piece.conditions.as_slice().len());
    }
    count
}

fn are_few_forms(forms: &[Form]) -> bool
    ensures { IsTrue result ↔ AreFewForms forms.now }
{
    !forms.is_empty() && forms.len() <= 32 && forms.iter().all(|form| is_nonnegative(form))
}

// Whether no coefficient is negative.
fn is_nonnegative(form: &Form) -> bool
    ensures { IsTrue result ↔ All (λ c. 0ℚ ≤ℚ c) form.now }
{
    for i in 0..form.len() {
        if form.coeff(i).num() < 0 {
            return false;
        }
    }
    true
}

/// A function of 1 to 8 variables: how it is given, and on which domain. A function is affine where one of its forms,
/// conditions included, has a constant other than 0; all forms then have one column more, the last being the constant.
#[derive(Debug, Drop)]
pub struct Function {
    variables: usize,
    domain: Domain,
    kind: FunctionKind,
}

impl Model for Function {
    ghost use Rattle.crn_formula.specs.Views as views;
    ghost use Rattle.std.specs.Coded.{codes};
    ghost use Rattle.crn_formula.specs.contracts.formula.Formula as formulas;

    ghost Value = { views.Function };

    ghost coded = { Prim.hlevel (codes, formulas.the_row.coded) };

    ghost view = { λ f. record { variables = f.variables; domain = f.domain; kind = f.kind } };

    ghost invariant = { λ f. views.IsFunction (record { variables = f.variables; domain = f.domain; kind = f.kind }) };
}

impl Function {
    /// Whether this is a function of so many variables: 1 to 8 variables; forms with a column for each, and for the constants
    /// where one of them is not 0; 1 to 32 pieces or direct forms; at most 16 conditions of a piece and 100 together; at most
    /// 2,048 nodes and a depth of at most 64; and no constant and no negative coefficient of a direct form.
    pub fn fits(variables: usize, kind: &FunctionKind) -> bool
        ensures { IsTrue result ↔ IsFitting variables (kind_of kind.now) }
    {
        if variables < 1 || variables > 8 {
            return false;
        }
        let affine = kind.is_affine(variables);
        let columns = if affine { variables + 1 } else { variables };
        kind.is_within_limits(affine) && kind.is_over(columns)
    }

    /// The function on its domain: the points whose last number is above 0 for an affine function, and else all points.
    pub fn of(variables: usize, kind: FunctionKind) -> Function
        requires { IsFitting variables (kind_of kind) }
        ensures variables { result.variables ≡ variables }
        ensures domain { result.domain ≡ domain_for variables (kind_of kind) }
        ensures kind { result.kind ≡ kind }
    {
        let domain = if kind.is_affine(variables) {
            Domain::affine(variables + 1)
        } else {
            Domain::whole(variables)
        };
        Function {
            variables,
            domain,
            kind,
        }
    }

    /// The number of variables.
    pub fn variables(&self) -> usize
        ensures value { result ≡ self.now.variables }
        ensures rule { IsFunction self.now }
    {
        self.variables
    }

    /// Where the function is looked at.
    pub fn domain(&self) -> &Domain
        ensures value { result.now ≡ self.now.domain }
    {
        &self.domain
    }

    /// How the function is given.
    pub fn kind(&self) -> &FunctionKind
        ensures value { result.now ≡ self.now.kind }
        ensures rule { IsFunction self.now }
    {
        &self.kind
    }

    /// Whether one of its forms, conditions included, has a constant other than 0.
    pub fn is_affine(&self) -> bool
        ensures { result ≡ is_affine self.now.variables (kind_of self.now.kind) }
    {
        self.domain.inside().len() > self.variables
    }

    /// The same pieces on the points without a negative number.
    pub fn on_orthant(self) -> Function
        requires pieces { IsGivenByPieces (kind_of self.kind) }
        requires linear { is_affine self.variables (kind_of self.kind) ≡ false }
        ensures { result ≡ record self { domain = orthant self.variables } }
    {
        Function {
            domain: Domain::orthant(self.variables),
            ..self
        }
    }

    /// The value at amounts, one for each variable, which 1 follows in an affine function. The first operand of a formula is
    /// evaluated before the second, pieces and their conditions in order up to the first negative condition and the first
    /// piece that holds, and all direct forms in order.
    pub fn value_at(&self, x: &[Frac]) -> Result<Frac, ValueError>
        requires { length x.now ≡ self.now.variables }
        ensures { AnswersValue result (IsValueFormed self.now x.now) (value self.now x.now) }
    {
        if !self.is_affine() {
            return self.kind.value_at(x);
        }
        let point = with_one(x);
        self.kind.value_at(&point[..x.len() + 1])
    }
}

// Nine places: the amounts, and 1 after the last.
fn with_one(x: &[Frac]) -> [Frac; 9]
    requires { length x.now ≤ 8 }
    ensures { take (length x.now + 1) result ≡ x.now ++ whole (pos 1) ∷ [] }
{
    let mut point = [Frac::ONE; 9];
    point[..x.len()].copy_from_slice(x);
    point
}
