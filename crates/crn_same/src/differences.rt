//! Whether two formulas are equal on a domain: whether neither of their differences is above 0.

ghost use Rattle.std.specs.Prelude.{◌≡◌, length, All, OnOk, IfErr};
ghost use Rattle.crn_formula.specs.Pieces.{columns_of};
ghost use Rattle.crn_formula.specs.Views.{plain_of};
ghost use Rattle.crn_normal.specs.Normal.{neg, sum_of};
ghost use Rattle.crn_normal.specs.Steps.{difference_steps};
ghost use Rattle.crn_same.specs.Equal.{AreEqual, AreOver};
ghost use Rattle.crn_same.specs.Answers.{DifferenceStops, NoneAbove, NoneDiffers, Ends, IsTruePoint, AreRows};

use crate::SameError;
use crate::questions::Questions;
use crn_formula::{Domain, Formula};
use crn_normal::{NormalForm, normal};
use std::alloc::Global;

/// Whether two formulas have one value at every point of a domain. The sets of the first less the second are asked, and then those of
/// the second less the first. A formula may have fewer columns than the domain: its value does not see the numbers past them.
pub fn same_on(
    alloc: Global,
    domain: &Domain,
    first: &Formula,
    second: &Formula,
) -> Result<(), SameError>
    requires columns { AreOver (columns_of domain.now) (plain_of first.now) (plain_of second.now) }
    ensures equal { OnOk result (AreEqual domain.now (plain_of first.now) (plain_of second.now)) }
    ensures none { OnOk result (NoneDiffers domain.now (plain_of first.now) (plain_of second.now)) }
    ensures point { IfErr result (IsTruePoint domain.now (plain_of first.now) (plain_of second.now)) }
    ensures refused { IfErr result (Ends domain.now (plain_of first.now) (plain_of second.now)) }
{
    let a = normal(alloc, first)?;
    let b = normal(alloc, second)?;
    let mut questions = Questions::new(alloc);
    not_above(alloc, &mut questions, domain, &a, &b)?;
    not_above(alloc, &mut questions, domain, &b, &a)
}

// Whether one formula is nowhere above another, by their normal forms.
fn not_above(
    alloc: Global,
    questions: &mut Questions,
    domain: &Domain,
    first: &NormalForm,
    second: &NormalForm,
) -> Result<(), SameError>
    requires columns { All (All (λ f. length f ≡ columns_of domain.now)) (sum_of first.now (neg second.now)) }
    requires rows { AreRows questions.old.forms.keys questions.old.rows.items }
    ensures none { OnOk result
        (NoneAbove domain.now (difference_steps first.now second.now) (sum_of first.now (neg second.now))) }
    ensures rows { OnOk result (AreRows questions.new.forms.keys questions.new.rows.items) }
    ensures refused { IfErr result
        (DifferenceStops domain.now (difference_steps first.now second.now) (sum_of first.now (neg second.now))) }
{
    let difference = first.less(alloc, second)?;
    questions.ask_all(alloc, domain, &difference)
}
