//! Formulas: trees of forms, sums, differences, multiples, least and greatest.

ghost use Rattle.std.specs.Prelude.{◌≡◌, ◌↔◌, ◌+◌, length, min, IsTrue};
ghost use Rattle.std.specs.List.{list_any};
ghost use Rattle.std.specs.Result.{OkIff};
ghost use Rattle.crn_fraction.specs.Rational.{max_ℚ};
ghost use Rattle.crn_formula.specs.Formulas.{formula_value, IsFormulaInReach, node_count, depth_of, IsOver, has_constant, formula_has_constant};
ghost use Rattle.crn_formula.specs.Views.{plain_of};

use crn_fraction::{Frac, TooBig};
use crn_linear::Form;
use std::cmp::Ordering;

/// A formula: a tree of operators over linear forms.
#[derive(Debug, Drop)]
pub enum Formula {
    /// The value of a linear form.
    Lin(Form),
    /// The sum.
    Add(Box<Formula>, Box<Formula>),
    /// The first operand less the second.
    Sub(Box<Formula>, Box<Formula>),
    /// A fraction times the operand.
    Scale(Frac, Box<Formula>),
    /// The lesser of the two.
    Min(Box<Formula>, Box<Formula>),
    /// The greater of the two.
    Max(Box<Formula>, Box<Formula>),
}

impl Formula {
    /// The number of nodes, operators and leaves alike, or `usize::MAX` where there are more.
    pub fn nodes(&self) -> usize
        ensures { result ≡ min (node_count (plain_of self.now)) usize.MAX }
    {
        match self {
            Formula::Lin(_) => 1,
            Formula::Scale(_, a) => more(a.nodes()),
            Formula::Add(a, b) | Formula::Sub(a, b) | Formula::Min(a, b) | Formula::Max(a, b) => {
                more(a.nodes().saturating_add(b.nodes()))
            }
        }
    }

    /// How many nodes stand below one another at most, or `usize::MAX` where there are more.
    pub fn depth(&self) -> usize
        ensures { result ≡ min (depth_of (plain_of self.now)) usize.MAX }
    {
        match self {
            Formula::Lin(_) => 1,
            Formula::Scale(_, a) => more(a.depth()),
            Formula::Add(a, b) | Formula::Sub(a, b) | Formula::Min(a, b) | Formula::Max(a, b) => {
                more(a.depth().max(b.depth()))
            }
        }
    }

    // The value at a point. It is refused where the value of a node, or a number on the way to that of a leaf, does not fit.
    pub(crate) fn value_at(&self, x: &[Frac]) -> Result<Frac, TooBig>
        requires { IsOver (length x.now) (plain_of self.now) }
        ensures { OkIff result (IsFormulaInReach (plain_of self.now) x.now) (formula_value (plain_of self.now) x.now) }
    {
        match self {
            Formula::Lin(form) => form.at(x),
            Formula::Scale(factor, a) => factor.mul(a.value_at(x)?),
            Formula::Add(a, b) => {
                let left = a.value_at(x)?;
                left.add(b.value_at(x)?)
            }
            Formula::Sub(a, b) => {
                let left = a.value_at(x)?;
                left.sub(b.value_at(x)?)
            }
            Formula::Min(a, b) => {
                let left = a.value_at(x)?;
                Ok(left.least(b.value_at(x)?))
            }
            Formula::Max(a, b) => {
                let left = a.value_at(x)?;
                Ok(greatest(left, b.value_at(x)?))
            }
        }
    }

    // Whether each leaf has so many columns.
    pub(crate) fn is_over(&self, columns: usize) -> bool
        ensures { IsTrue result ↔ IsOver columns (plain_of self.now) }
    {
        match self {
            Formula::Lin(form) => form.len() == columns,
            Formula::Scale(_, a) => a.is_over(columns),
            Formula::Add(a, b) | Formula::Sub(a, b) | Formula::Min(a, b) | Formula::Max(a, b) => {
                a.is_over(columns) && b.is_over(columns)
            }
        }
    }

    // Whether some leaf has a constant other than 0.
    pub(crate) fn has_constant(&self, variables: usize) -> bool
        ensures { result ≡ formula_has_constant variables (plain_of self.now) }
    {
        match self {
            Formula::Lin(form) => has_constant(form, variables),
            Formula::Scale(_, a) => a.has_constant(variables),
            Formula::Add(a, b) | Formula::Sub(a, b) | Formula::Min(a, b) | Formula::Max(a, b) => {
                a.has_constant(variables) || b.has_constant(variables)
            }
        }
    }
}

fn more(count: usize) -> usize
    ensures { result ≡ min (count + 1) usize.MAX }
{
    count.saturating_add(1)
}

// The greater of the two.
fn greatest(a: Frac, b: Frac) -> Frac
    ensures { result ≡ max_ℚ a b }
{
    match a.compare(b) {
        Ordering::Greater => a,
        _ => b,
    }
}

/// Whether the form has a constant other than 0, in the column past those of the variables.
pub fn has_constant(form: &Form, variables: usize) -> bool
    ensures { result ≡ has_constant variables form.now }
{
    if variables >= form.len() {
        return false;
    }
    !form.coeff(variables).is_zero()
}

// Whether some form has one.
pub(crate) fn some_has_constant(forms: &[Form], variables: usize) -> bool
    ensures { result ≡ list_any (has_constant variables) forms.now }
{
    forms.iter().any(|form| has_constant(form, variables))
}
