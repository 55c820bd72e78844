//! The compiler: the copies, and then the forms in order, each through its gate where it has one, and each later one followed by a minimum.

ghost use Rattle.std.specs.Prelude.{◌≡◌, ◌≤◌, ◌∷◌, ◌++◌, [], length, ◌<◌, ◌+◌, take, drop, All, IfOk, OnOk, IsErrOf};
ghost use Rattle.std.specs.Vec.Iter.{into_iter_items};
ghost use Rattle.crn_fraction.specs.Rational.{0ℚ, ◌≤ℚ◌};
ghost use Rattle.crn_net.specs.Limits.{IsValid};
ghost use Rattle.crn_gates.specs.Building.{AllFree};
ghost use Rattle.crn_gates.specs.Calls.{Moves};
ghost use Rattle.crn_gates.specs.declared.BuildError.TheVariants.{TooLarge};
ghost use Rattle.crn_gated.specs.Computes.{ComputesGated};
ghost use Rattle.crn_gated.specs.Forms.{AreGatedForms, gated_value};
ghost use Rattle.crn_gated.specs.Layout.{uses_of_form, gated_uses, gate_on, form_by, least_by, gated_layout};

use crate::{GatedForm, GatedFunction};
use crn_direct::{push_variables, terms_on};
use crn_gates::{BuildError, Builder, GatedBuilder, MOST_SPECIES, Rail};
use crn_net::{Network, Rails};
use std::alloc::{AllocError, Global};
use std::vec::IntoIter;

/// The network that is the gated layout of 1 to 32 forms over 1 to 8 variables.
pub fn compile_gated(alloc: Global, function: &GatedFunction) -> Result<Network, AllocError>
    requires low { 1 ≤ function.now.variables }
    requires high { function.now.variables ≤ 8 }
    requires forms { AreGatedForms function.now.variables function.now.forms.items }
    requires few { length function.now.forms.items ≤ 32 }
    ensures layout { IfOk result (λ n. n ≡ gated_layout function.now.variables function.now.forms.items) }
    ensures valid { IfOk result IsValid }
    ensures computes { IfOk result (λ n. ComputesGated n (gated_value function.now.forms.items)) }
{
    match lay_out(alloc, function.variables, &function.forms) {
        Ok(network) => Ok(network),
        Err(error) => Err(want_of_memory(error)),
    }
}

// Where the species are few, a builder can only lack memory.
fn want_of_memory(error: BuildError) -> AllocError
    requires { error ≡ BuildError.Memory }
{
    prove!(matches!(error, BuildError::Memory));
    AllocError
}

// The layout, step by step.
fn lay_out(alloc: Global, variables: usize, forms: &[GatedForm]) -> Result<Network, BuildError>
    requires low { 1 ≤ variables }
    requires high { variables ≤ 8 }
    requires forms { AreGatedForms variables forms.now }
    ensures layout { IfOk result (λ n. n ≡ gated_layout variables forms.now) }
    ensures valid { IfOk result IsValid }
    ensures too_large { IsErrOf result TooLarge → MOST_SPECIES ≤ (gated_layout variables forms.now).species }
{
    let uses = uses_of(alloc, forms)?;
    let builder = Builder::new(alloc, Rails::Direct, variables, false)?;
    let (builder, copies) = builder.fan_out_one(&uses)?;
    let mut copies = copies.into_iter();
    let (builder, first) = form_on(alloc, builder.gated(), &forms[0], &mut copies)?;
    let (builder, least) = least(alloc, builder, first, &forms[1..], &mut copies)?;
    let network = builder.close_one(least)?;
    Ok(network)
}

// The variables that copies are of, form after form.
fn uses_of(alloc: Global, forms: &[GatedForm]) -> Result<Vec<usize>, AllocError>
    ensures { IfOk result (λ v. v.items ≡ gated_uses forms.now) }
{
    let mut uses = Vec::new(alloc);
    for form in forms {
        push_uses(&mut uses, form)?;
    }
    Ok(uses)
}

// Those of a form: one for each nonzero coefficient, and one for the gate.
fn push_uses(uses: &mut Vec<usize>, form: &GatedForm) -> Result<(), AllocError>
    ensures { OnOk result (uses.new.items ≡ uses.old.items ++ uses_of_form form.now) }
{
    push_variables(uses, &form.form)?;
    if let Some(variable) = form.gate {
        uses.push(variable)?;
    }
    Ok(())
}

// A form on the first of the copies, and its gate on the next.
fn form_on(
    alloc: Global,
    builder: GatedBuilder,
    form: &GatedForm,
    copies: &mut IntoIter<Rail>,
) -> Result<(GatedBuilder, Rail), BuildError>
    requires nonnegative { All (λ c. 0ℚ ≤ℚ c) form.now.form }
    requires free { AllFree builder.built (into_iter_items copies.old) }
    requires enough { length (uses_of_form form.now) ≤ length (into_iter_items copies.old) }
    ensures network { IfOk result (λ r. r.0
        ≡ record builder { built = (form_by gate_on form.now (into_iter_items copies.old) builder.built).built }) }
    ensures rail { IfOk result (λ r. r.1 ≡ (form_by gate_on form.now (into_iter_items copies.old) builder.built).rail) }
    ensures rails { IfOk result (λ r. Moves builder.built r.0.built
        (take (length (uses_of_form form.now)) (into_iter_items copies.old)) (r.1 ∷ [])) }
    ensures rest { OnOk result (into_iter_items copies.new ≡ drop (length (uses_of_form form.now))
        (into_iter_items copies.old)) }
    ensures too_large { IsErrOf result TooLarge → MOST_SPECIES < builder.built.species + 2 }
{
    let terms = terms_on(alloc, &form.form, copies)?;
    let (builder, rail) = builder.leaf_one(terms)?;
    if form.gate.is_none() {
        return Ok((builder, rail));
    }
    match copies.next() {
        Some(copy) => builder.gate_one(copy, rail),
        None => unreachable!(),
    }
}

// The least of a rail and of further forms: each form through its gate, and after it the minimum of it and of what was made before.
fn least(
    alloc: Global,
    builder: GatedBuilder,
    rail: Rail,
    forms: &[GatedForm],
    copies: &mut IntoIter<Rail>,
) -> Result<(GatedBuilder, Rail), BuildError>
    requires free { AllFree builder.built (rail ∷ into_iter_items copies.old) }
    requires enough { length (gated_uses forms.now) ≤ length (into_iter_items copies.old) }
    requires nonnegative { All (λ f. All (λ c. 0ℚ ≤ℚ c) f.form) forms.now }
    ensures network { IfOk result (λ r. r.0
        ≡ record builder {
          built = (least_by gate_on (record { built = builder.built; rail = rail }) forms.now
              (into_iter_items copies.old)).built;
        }) }
    ensures rail { IfOk result (λ r. r.1
        ≡ (least_by gate_on (record { built = builder.built; rail = rail }) forms.now
        (into_iter_items copies.old)).rail) }
    ensures free { IfOk result (λ r. AllFree r.0.built (r.1 ∷ [])) }
    ensures too_large { IsErrOf result TooLarge
        → MOST_SPECIES < (least_by gate_on (record { built = builder.built; rail = rail }) forms.now
        (into_iter_items copies.old)).built.species }
{
    let mut builder = builder;
    let mut least = rail;
    for form in forms {
        let (with_form, rail) = form_on(alloc, builder, form, copies)?;
        let (with_minimum, lesser) = with_form.min_one(least, rail)?;
        builder = with_minimum;
        least = lesser;
    }
    Ok((builder, least))
}
