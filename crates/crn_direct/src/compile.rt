//! The compiler: the copies, and then the forms in order, each later one followed by a minimum.

ghost use Rattle.std.specs.Prelude.{◌≡◌, ◌+◌, ◌<◌, ◌≤◌, ◌∷◌, ◌++◌, [], suc, length, drop, All, IfOk, OnOk, IsErrOf};
ghost use Rattle.std.specs.List.{zip};
ghost use Rattle.std.specs.Vec.Iter.{into_iter_items};
ghost use Rattle.crn_fraction.specs.Rational.{0ℚ, ◌≤ℚ◌};
ghost use Rattle.crn_net.specs.Network.{IsFeedForward};
ghost use Rattle.crn_net.specs.Limits.{IsValid};
ghost use Rattle.crn_gates.specs.Building.{IsSound, AllFree};
ghost use Rattle.crn_gates.specs.Computes.{Computes};
ghost use Rattle.crn_gates.specs.Terms.{nonzero};
ghost use Rattle.crn_gates.specs.declared.BuildError.TheVariants.{TooLarge};
ghost use Rattle.crn_formula.specs.Functions.{AreFewForms, least_value};
ghost use Rattle.crn_direct.specs.Layout.{column_count, variables_from, uses_of, leaf_on, least_on, direct_layout};

use crn_fraction::Frac;
use crn_gates::{BuildError, Builder, MOST_SPECIES, Rail};
use crn_linear::Form;
use crn_net::{Network, Rails};
use std::alloc::{AllocError, Global};
use std::vec::IntoIter;

/// The network that is the direct layout of 1 to 32 forms of the same 1 to 8 columns without negative coefficients. It never has too many species.
pub fn compile_direct(alloc: Global, forms: &[Form]) -> Result<Network, AllocError>
    requires forms { AreFewForms forms.now }
    requires few { column_count forms.now ≤ 8 }
    requires columns { All (λ f. length f ≡ column_count forms.now) forms.now }
    ensures layout { IfOk result (λ n. n ≡ direct_layout (column_count forms.now) forms.now) }
    ensures valid { IfOk result IsValid }
    ensures feed_forward { IfOk result IsFeedForward }
    ensures computes { IfOk result (λ n. Computes n (least_value forms.now)) }
{
    match lay_out(alloc, forms) {
        Ok(network) => Ok(network),
        Err(error) => Err(want_of_memory(error)),
    }
}

// Where the species are few, a builder can only lack memory.
fn want_of_memory(error: BuildError) -> AllocError
    requires { error ≡ BuildError.Memory }
{
    prove!(matches!(error, BuildError::Memory));
    AllocError
}

// The layout, step by step.
fn lay_out(alloc: Global, forms: &[Form]) -> Result<Network, BuildError>
    requires forms { AreFewForms forms.now }
    requires few { column_count forms.now ≤ 8 }
    requires columns { All (λ f. length f ≡ column_count forms.now) forms.now }
    ensures layout { IfOk result (λ n. n ≡ direct_layout (column_count forms.now) forms.now) }
    ensures valid { IfOk result IsValid }
    ensures feed_forward { IfOk result IsFeedForward }
    ensures too_large { IsErrOf result TooLarge → MOST_SPECIES < (direct_layout (column_count forms.now) forms.now).species }
{
    let variables = forms[0].len();
    let uses = uses_of(alloc, forms)?;
    let builder = Builder::new(alloc, Rails::Direct, variables, false)?;
    let (builder, copies) = builder.fan_out_one(&uses)?;
    let mut copies = copies.into_iter();
    let (builder, first) = leaf(alloc, builder, &forms[0], &mut copies)?;
    let (builder, least) = least(alloc, builder, first, &forms[1..], &mut copies)?;
    let network = builder.close_one(least)?;
    Ok(network)
}

// The variables that copies are of, form after form.
fn uses_of(alloc: Global, forms: &[Form]) -> Result<Vec<usize>, AllocError>
    ensures { IfOk result (λ v. v.items ≡ uses_of forms.now) }
{
    let mut uses = Vec::new(alloc);
    for form in forms {
        push_variables(&mut uses, form)?;
    }
    Ok(uses)
}

/// Adds the variables of a form, numbered from 1: one for each nonzero coefficient.
pub fn push_variables(uses: &mut Vec<usize>, form: &Form) -> Result<(), AllocError>
    ensures { OnOk result (uses.new.items ≡ uses.old.items ++ variables_from 1 form.now) }
{
    for column in 0..form.len() {
        if !form.coeff(column).is_zero() {
            uses.push(column + 1)?;
        }
    }
    Ok(())
}

// A form, on the first of the copies.
fn leaf(
    alloc: Global,
    builder: Builder,
    form: &Form,
    copies: &mut IntoIter<Rail>,
) -> Result<(Builder, Rail), BuildError>
    requires nonnegative { All (λ c. 0ℚ ≤ℚ c) form.now }
    requires free { AllFree builder.built (into_iter_items copies.old) }
    requires enough { length (nonzero form.now) ≤ length (into_iter_items copies.old) }
    ensures network { IfOk result (λ r. r.0 ≡ record builder { built = (leaf_on form.now (into_iter_items copies.old) builder.built).built }) }
    ensures rail { IfOk result (λ r. r.1 ≡ suc builder.built.species) }
    ensures rest { OnOk result (into_iter_items copies.new ≡ drop (length (nonzero form.now)) (into_iter_items copies.old)) }
    ensures too_large { IsErrOf result TooLarge → MOST_SPECIES < builder.built.species + 1 }
{
    let terms = terms_on(alloc, form, copies)?;
    builder.leaf_one(terms)
}

// The least of a rail and of further forms: each form, and after it the minimum of it and of what was made before.
fn least(
    alloc: Global,
    builder: Builder,
    rail: Rail,
    forms: &[Form],
    copies: &mut IntoIter<Rail>,
) -> Result<(Builder, Rail), BuildError>
    requires sound { IsSound builder.built }
    requires free { AllFree builder.built (rail ∷ into_iter_items copies.old) }
    requires enough { length (uses_of forms.now) ≤ length (into_iter_items copies.old) }
    requires nonnegative { All (All (λ c. 0ℚ ≤ℚ c)) forms.now }
    ensures network { IfOk result (λ r. r.0 ≡ record builder { built = (least_on (record { built = builder.built; rail = rail }) forms.now (into_iter_items copies.old)).built }) }
    ensures rail { IfOk result (λ r. r.1 ≡ (least_on (record { built = builder.built; rail = rail }) forms.now (into_iter_items copies.old)).rail) }
    ensures free { IfOk result (λ r. AllFree r.0.built (r.1 ∷ [])) }
    ensures too_large { IsErrOf result TooLarge → MOST_SPECIES < (least_on (record { built = builder.built; rail = rail }) forms.now (into_iter_items copies.old)).built.species }
{
    let mut builder = builder;
    let mut least = rail;
    for form in forms {
        let (with_form, rail) = leaf(alloc, builder, form, copies)?;
        let (with_minimum, lesser) = with_form.min_one(least, rail)?;
        builder = with_minimum;
        least = lesser;
    }
    Ok((builder, least))
}

/// The terms of a form: each nonzero coefficient with the next copy.
pub fn terms_on(
    alloc: Global,
    form: &Form,
    copies: &mut IntoIter<Rail>,
) -> Result<Vec<(Frac, Rail)>, AllocError>
    requires { length (nonzero form.now) ≤ length (into_iter_items copies.old) }
    ensures terms { IfOk result (λ v. v.items ≡ zip (nonzero form.now) (into_iter_items copies.old)) }
    ensures rest { OnOk result (into_iter_items copies.new ≡ drop (length (nonzero form.now)) (into_iter_items copies.old)) }
{
    let mut terms = Vec::new(alloc);
    for column in 0..form.len() {
        let coeff = form.coeff(column);
        if !coeff.is_zero() {
            match copies.next() {
                Some(copy) => terms.push((coeff, copy))?,
                None => unreachable!(),
            }
        }
    }
    Ok(terms)
}
