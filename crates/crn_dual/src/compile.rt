//! The compiler: leaves from left to right, then the gates of the nodes in postorder.

ghost use Rattle.std.specs.Prelude.{◌≡◌, ◌+◌, ◌<◌, ◌≤◌, ◌++◌, length, drop, IfOk, OnOk, IsErr, IsErrOf};
ghost use Rattle.std.specs.Vec.Iter.{into_iter_items};
ghost use Rattle.crn_net.specs.Network.{IsFeedForward};
ghost use Rattle.crn_net.specs.Limits.{IsValid};
ghost use Rattle.crn_gates.specs.Building.{IsSound, AllFree};
ghost use Rattle.crn_gates.specs.Pairs.{rails_of_copies};
ghost use Rattle.crn_gates.specs.declared.BuildError.TheVariants.{TooLarge};
ghost use Rattle.crn_gates.specs.Terms.{terms_of, nonzero};
ghost use Rattle.crn_formula.specs.Views.{plain_of};
ghost use Rattle.crn_dual.specs.Columns.{IsOverVariables, column_count};
ghost use Rattle.crn_dual.specs.Computes.{Computes};
ghost use Rattle.crn_dual.specs.Layout.{use_of_column, uses_of_terms, uses_of, layout};
ghost use Rattle.crn_dual.specs.OnCopies.{use_count, terms_on, nodes_on};

use crn_formula::Formula;
use crn_fraction::Frac;
use crn_gates::{BuildError, Builder, Copied, MOST_SPECIES, Pair, Use};
use crn_linear::Form;
use crn_net::{Network, Rails};
use std::alloc::{AllocError, Global};
use std::vec::IntoIter;

/// The network that is the layout of a formula over so many variables, with a context where its forms have a column more. A formula of more than 1,024 leaves
/// may have a layout of more species than a network may have.
pub fn compile_formula(
    alloc: Global,
    formula: &Formula,
    variables: usize,
) -> Result<Network, BuildError>
    requires low { 1 ≤ variables }
    requires high { variables ≤ 8 }
    requires columns { IsOverVariables variables (plain_of formula.now) }
    ensures layout { IfOk result (λ n. n ≡ layout variables (plain_of formula.now)) }
    ensures valid { IfOk result IsValid }
    ensures feed_forward { IfOk result IsFeedForward }
    ensures computes { IfOk result (λ n. Computes n variables (plain_of formula.now)) }
    ensures too_large { IsErrOf result TooLarge → MOST_SPECIES < (layout variables (plain_of formula.now)).species }
    ensures refused { MOST_SPECIES < (layout variables (plain_of formula.now)).species → IsErr result }
{
    let context = variables < column_count(formula);
    let mut uses = Vec::new(alloc);
    push_uses(&mut uses, formula, variables)?;
    let builder = Builder::new(alloc, Rails::Dual, variables, context)?;
    let (builder, copies) = builder.fan_out(&uses)?;
    let mut copies = copies.into_iter();
    let (builder, root) = lay(alloc, builder, formula, &mut copies)?;
    let network = builder.close(root)?;
    Ok(network)
}

// How many columns the first leaf has.
fn column_count(formula: &Formula) -> usize
    ensures { result ≡ column_count (plain_of formula.now) }
{
    match formula {
        Formula::Lin(form) => form.len(),
        Formula::Scale(_, a) => column_count(a),
        Formula::Add(a, _) | Formula::Sub(a, _) | Formula::Min(a, _) | Formula::Max(a, _) =>
            column_count(a),
    }
}

// The uses of a formula, leaf after leaf from left to right.
fn push_uses(uses: &mut Vec<Use>, formula: &Formula, variables: usize) -> Result<(), AllocError>
    ensures { OnOk result (uses.new.items ≡ uses.old.items ++ uses_of variables (plain_of formula.now)) }
{
    match formula {
        Formula::Lin(form) => push_form(uses, form, variables),
        Formula::Scale(_, a) => push_uses(uses, a, variables),
        Formula::Add(a, b) | Formula::Sub(a, b) | Formula::Min(a, b) | Formula::Max(a, b) => {
            push_uses(uses, a, variables)?;
            push_uses(uses, b, variables)
        }
    }
}

// Those of a leaf: one for each nonzero coefficient.
fn push_form(uses: &mut Vec<Use>, form: &Form, variables: usize) -> Result<(), AllocError>
    ensures { OnOk result (uses.new.items ≡ uses.old.items ++ uses_of_terms variables (terms_of form.now)) }
{
    for column in 0..form.len() {
        if !form.coeff(column).is_zero() {
            uses.push(use_of(column, variables))?;
        }
    }
    Ok(())
}

// What the copy for a column is of.
fn use_of(column: usize, variables: usize) -> Use
    ensures { result ≡ use_of_column variables column }
{
    if column < variables {
        Use::Variable(column + 1)
    } else {
        Use::Context
    }
}

// Lays the nodes of a formula in postorder, on the first of the copies. The network stays sound, and the other copies free.
#[cycle(nodes)]
fn lay(
    alloc: Global,
    builder: Builder,
    formula: &Formula,
    copies: &mut IntoIter<Copied>,
) -> Result<(Builder, Pair), BuildError>
    requires sound { IsSound builder.built }
    requires free { AllFree builder.built (rails_of_copies (into_iter_items copies.old)) }
    requires enough { use_count (plain_of formula.now) ≤ length (into_iter_items copies.old) }
    ensures network { IfOk result (λ r. r.0 ≡ record builder { built = (nodes_on (plain_of formula.now) (into_iter_items copies.old) builder.built).built }) }
    ensures pair { IfOk result (λ r. r.1 ≡ (nodes_on (plain_of formula.now) (into_iter_items copies.old) builder.built).pair) }
    ensures rest { OnOk result (into_iter_items copies.new ≡ drop (use_count (plain_of formula.now)) (into_iter_items copies.old)) }
    ensures too_large { IsErrOf result TooLarge → MOST_SPECIES < (nodes_on (plain_of formula.now) (into_iter_items copies.old) builder.built).built.species }
    ensures sound { IfOk result (λ r. IsSound r.0.built) }
    ensures left { IfOk result (λ r. AllFree r.0.built (rails_of_copies (into_iter_items copies.new))) }
{
    node(alloc, builder, formula, copies)
}

// The last node, after its operands.
#[cycle(nodes)]
#[tactic(auto, using(crate::proofs::Keeping::nodes_on_grow), unfolding(crate::specs::OnCopies::nodes_on))]
fn node(
    alloc: Global,
    builder: Builder,
    formula: &Formula,
    copies: &mut IntoIter<Copied>,
) -> Result<(Builder, Pair), BuildError>
    requires sound { IsSound builder.built }
    requires free { AllFree builder.built (rails_of_copies (into_iter_items copies.old)) }
    requires enough { use_count (plain_of formula.now) ≤ length (into_iter_items copies.old) }
    ensures network { IfOk result (λ r. r.0 ≡ record builder { built = (nodes_on (plain_of formula.now) (into_iter_items copies.old) builder.built).built }) }
    ensures pair { IfOk result (λ r. r.1 ≡ (nodes_on (plain_of formula.now) (into_iter_items copies.old) builder.built).pair) }
    ensures rest { OnOk result (into_iter_items copies.new ≡ drop (use_count (plain_of formula.now)) (into_iter_items copies.old)) }
    ensures too_large { IsErrOf result TooLarge → MOST_SPECIES < (nodes_on (plain_of formula.now) (into_iter_items copies.old) builder.built).built.species }
{
    match formula {
        Formula::Lin(form) => {
            let terms = terms_on(alloc, form, copies)?;
            builder.leaf(terms)
        }
        Formula::Scale(factor, a) => {
            let (builder, x) = lay(alloc, builder, a, copies)?;
            builder.scale(*factor, x)
        }
        Formula::Add(a, b) => {
            let (builder, x) = lay(alloc, builder, a, copies)?;
            let (builder, y) = lay(alloc, builder, b, copies)?;
            builder.add(x, y)
        }
        Formula::Sub(a, b) => {
            let (builder, x) = lay(alloc, builder, a, copies)?;
            let (builder, y) = lay(alloc, builder, b, copies)?;
            builder.sub(x, y)
        }
        Formula::Min(a, b) => {
            let (builder, x) = lay(alloc, builder, a, copies)?;
            let (builder, y) = lay(alloc, builder, b, copies)?;
            builder.min(x, y)
        }
        Formula::Max(a, b) => {
            let (builder, x) = lay(alloc, builder, a, copies)?;
            let (builder, y) = lay(alloc, builder, b, copies)?;
            builder.max(x, y)
        }
    }
}

// The terms of a leaf: each nonzero coefficient with the next copy.
fn terms_on(
    alloc: Global,
    form: &Form,
    copies: &mut IntoIter<Copied>,
) -> Result<Vec<(Frac, Copied)>, AllocError>
    requires { length (nonzero form.now) ≤ length (into_iter_items copies.old) }
    ensures terms { IfOk result (λ v. v.items ≡ terms_on form.now (into_iter_items copies.old)) }
    ensures rest { OnOk result (into_iter_items copies.new ≡ drop (length (nonzero form.now)) (into_iter_items copies.old)) }
{
    let mut terms = Vec::new(alloc);
    for column in 0..form.len() {
        let coeff = form.coeff(column);
        if !coeff.is_zero() {
            match copies.next() {
                Some(copy) => terms.push((coeff, copy))?,
                None => unreachable!(),
            }
        }
    }
    Ok(terms)
}
