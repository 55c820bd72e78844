//! Whether two functions are the same, by their formulas on a common domain.

ghost use Rattle.std.specs.Prelude.{◌≡◌, Some, OnOk, IfOk, IfErr, IsTrue, ◌⊎◌};
ghost use Rattle.crn_formula.specs.Domains.{domain_for};
ghost use Rattle.crn_formula.specs.Functions.{IsFitting, IsGivenByPieces};
ghost use Rattle.crn_formula.specs.Views.{kind_of, plain_of};
ghost use Rattle.crn_same.specs.Functions.{IsComparable, AreSame, AreShownSame, IsTrueOf, IsRefused, common_domain};
ghost use Rattle.crn_same.specs.Functions.{HasNoFormula, KeepsFormula, HasKept, formula_in, of_pieces, of_formula};

use crate::SameError;
use crate::differences::same_on;
use crn_formula::{Domain, Formula, Function, FunctionKind};
use crn_maxmin::{MaxminError, to_formula};
use crn_pieces::{PiecesError, check_pieces};
use std::alloc::Global;

// A function by its formula, or the formula that was made from its pieces.
#[derive(Drop)]
enum InFormula {
    Given(Function),
    Made(Formula),
}

impl InFormula {
    fn formula(&self) -> &Formula
        requires { HasKept self.now }
        ensures { formula_in self.now ≡ Some (plain_of result.now) }
    {
        match self {
            InFormula::Made(formula) => formula,
            InFormula::Given(function) => match function.kind() {
                FunctionKind::Formula(formula) => formula,
                _ => unreachable!(),
            },
        }
    }
}

/// Whether two functions have one value at all amounts. Pieces are checked first and their formula is made, those of the first
/// function before those of the second. The formulas are compared on the affine domain where one of the functions is affine, and
/// else at all points.
pub fn same(alloc: Global, first: Function, second: Function) -> Result<(), SameError>
    requires variables { first.variables ≡ second.variables }
    requires first { IsComparable (kind_of first.kind) }
    requires second { IsComparable (kind_of second.kind) }
    requires first_domain { first.domain ≡ domain_for first.variables (kind_of first.kind) }
    requires second_domain { second.domain ≡ domain_for second.variables (kind_of second.kind) }
    ensures same { OnOk result (AreSame first.variables (kind_of first.kind) (kind_of second.kind)) }
    ensures shown { OnOk result (AreShownSame first.variables (kind_of first.kind) (kind_of second.kind)) }
    ensures point { IfErr result (IsTrueOf first.variables (kind_of first.kind) (kind_of second.kind)) }
    ensures refusal { IfErr result (IsRefused first.variables (kind_of first.kind) (kind_of second.kind)) }
{
    let domain = common_domain(&first, &second);
    let a = in_formula(alloc, 1, first)?;
    let b = in_formula(alloc, 2, second)?;
    same_on(alloc, &domain, a.formula(), b.formula())
}

// The points at which two functions are compared.
fn common_domain(first: &Function, second: &Function) -> Domain
    requires { first.now.variables ≡ second.now.variables }
    ensures domain { result ≡ common_domain first.now.variables (kind_of first.now.kind) (kind_of second.now.kind) }
    ensures first { IsFitting first.now.variables (kind_of first.now.kind) }
    ensures second { IsFitting second.now.variables (kind_of second.now.kind) }
{
    let variables = first.variables();
    let _same = second.variables();
    if first.is_affine() || second.is_affine() {
        Domain::affine(variables + 1)
    } else {
        Domain::whole(variables)
    }
}

// The formula of function 1 or 2.
fn in_formula(alloc: Global, which: usize, function: Function) -> Result<InFormula, SameError>
    requires comparable { IsComparable (kind_of function.kind) }
    requires domain { function.domain ≡ domain_for function.variables (kind_of function.kind) }
    ensures formula { IfOk result (KeepsFormula function.variables (kind_of function.kind)) }
    ensures refused { IfErr result (HasNoFormula which function.variables (kind_of function.kind)) }
{
    if is_by_pieces(&function) {
        of_pieces(alloc, which, function)
    } else {
        Ok(InFormula::Given(function))
    }
}

fn is_by_pieces(function: &Function) -> bool
    ensures by_pieces { IsTrue result → IsGivenByPieces (kind_of function.now.kind) }
    ensures other { IsTrue result ⊎ ¬ IsGivenByPieces (kind_of function.now.kind) }
{
    matches!(function.kind(), FunctionKind::Pieces(_))
}

// The formula of the pieces of function 1 or 2.
fn of_pieces(alloc: Global, which: usize, function: Function) -> Result<InFormula, SameError>
    requires pieces { IsGivenByPieces (kind_of function.kind) }
    requires domain { function.domain ≡ domain_for function.variables (kind_of function.kind) }
    ensures formula { IfOk result (KeepsFormula function.variables (kind_of function.kind)) }
    ensures refused { IfErr result (HasNoFormula which function.variables (kind_of function.kind)) }
{
    let checked = match check_pieces(alloc, function) {
        Ok(checked) => checked,
        Err(error) => return Err(pieces_refused(which, error)),
    };
    let _checked = checked.function();
    match to_formula(alloc, &checked) {
        Ok(formula) => Ok(InFormula::Made(formula)),
        Err(error) => Err(formula_refused(which, error)),
    }
}

fn pieces_refused(which: usize, error: PiecesError) -> SameError
    ensures { result ≡ of_pieces which error }
{
    match error {
        PiecesError::Memory => SameError::Memory,
        error => SameError::Pieces { which, error },
    }
}

fn formula_refused(which: usize, error: MaxminError) -> SameError
    ensures { result ≡ of_formula which error }
{
    match error {
        MaxminError::Memory => SameError::Memory,
        error => SameError::Maxmin { which, error },
    }
}
