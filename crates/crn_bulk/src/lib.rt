//! The generator of `bulk`: a function of four variables and amounts of its inputs, made by draws from a number on.
//!
//! `bulk_job` answers the job that `specs/Generator.antt` defines by its draws, and the number at which the later draws begin.
#![tactic(auto)]

ghost use Rattle.std.specs.Prelude.{◌≡◌, ◌<◌, ◌≤◌, ◌*◌, ◌%◌, ◌^◌, length, unsigned_abs, IfOk};
ghost use Rattle.crn_fraction.specs.Rational.{whole};
ghost use Rattle.crn_formula.specs.Domains.{domain_for};
ghost use Rattle.crn_formula.specs.Views.{kind_of, plain_of};
ghost use Rattle.crn_function_text.specs.Reading.{function_of};
ghost use Rattle.crn_net.specs.Network.{AreNotNegative};
ghost use Rattle.crn_job.specs.Grammar.{amount_count};
ghost use Rattle.crn_job.specs.Reading.{job_of};
ghost use Rattle.crn_bulk.specs.Generator.{next, coefficient, leaf, leaves, operator, tree, amount, amounts, bulk_job, bulk_number};

use crn_formula::{Formula, Function, FunctionKind};
use crn_fraction::Frac;
use crn_job::Job;
use crn_linear::Form;
use std::alloc::{AllocError, Global};

pub mod laws;

// The number of variables.
const VARIABLES: usize = 4;

/// The number that is drawn after `z`: `(75·z + 74) mod 65537`. It takes no memory.
pub fn draw(z: u32) -> u32
    requires { z < 65537 }
    ensures next { result ≡ next z }
    ensures small { result < 65537 }
{
    (75 * z + 74) % 65537
}

// The coefficient for a number that was drawn: from -3 to 3, and 1 in place of 0.
fn coefficient(z: u32) -> Frac
    ensures { result ≡ coefficient z }
{
    match (z % 7) as i64 - 3 {
        0 => Frac::ONE,
        count => whole(count),
    }
}

// A leaf: the form over four variables with one coefficient.
fn leaf(z: u32) -> (Form, u32)
    requires { z < 65537 }
    ensures form { result.0 ≡ (leaf z).made }
    ensures number { result.1 ≡ (leaf z).number }
    ensures small { result.1 < 65537 }
    ensures columns { length result.0 ≡ 4 }
{
    let variable = draw(z);
    let number = draw(variable);
    let mut coefficients = [Frac::ZERO; VARIABLES];
    coefficients[variable as usize % VARIABLES] = coefficient(number);
    (Form::of(&coefficients), number)
}

// So many leaves, from left to right.
fn leaves(alloc: Global, count: u32) -> Result<(Vec<Form>, u32), AllocError>
    requires { count < 65537 }
    ensures forms { IfOk result (λ r. r.0.items ≡ (leaves count count).made) }
    ensures number { IfOk result (λ r. r.1 ≡ (leaves count count).number) }
    ensures small { IfOk result (λ r. r.1 < 65537) }
    ensures length { IfOk result (λ r. length r.0.items ≡ count) }
{
    let mut forms = Vec::with_capacity(alloc, count as usize)?;
    let mut z = count;
    for _ in 0..count {
        let (form, number) = leaf(z);
        forms.push(form)?;
        z = number;
    }
    Ok((forms, z))
}

// The operator for a number that was drawn, over two formulas.
fn operator(alloc: Global, z: u32, a: Formula, b: Formula) -> Result<Formula, AllocError>
    ensures { IfOk result (λ e. plain_of e ≡ operator (z % 4) (plain_of a) (plain_of b)) }
{
    let left = Box::new(alloc, a)?;
    let right = Box::new(alloc, b)?;
    Ok(match z % 4 {
        0 => Formula::Add(left, right),
        1 => Formula::Sub(left, right),
        2 => Formula::Min(left, right),
        _ => Formula::Max(left, right),
    })
}

// The tree over leaves: those up to the middle one stand on the left.
fn tree(alloc: Global, forms: &[Form], z: u32) -> Result<(Formula, u32), AllocError>
    requires some { 1 ≤ length forms.now }
    requires small { z < 65537 }
    ensures formula { IfOk result (λ r. plain_of r.0 ≡ (tree forms.now z).made) }
    ensures number { IfOk result (λ r. r.1 ≡ (tree forms.now z).number) }
    ensures small { IfOk result (λ r. r.1 < 65537) }
{
    if forms.len() == 1 {
        return Ok((Formula::Lin(forms[0]), z));
    }
    let middle = (forms.len() - 1) / 2;
    let (left, z) = tree(alloc, &forms[..middle + 1], z)?;
    let (right, z) = tree(alloc, &forms[middle + 1..], z)?;
    let number = draw(z);
    Ok((operator(alloc, number, left, right)?, number))
}

// The amount for a number that was drawn.
fn amount(z: u32) -> Frac
    ensures { result ≡ amount z }
{
    whole((z % 100) as i64)
}

// The amounts of so many inputs, each plus before minus.
fn amounts(alloc: Global, inputs: usize, start: u32) -> Result<(Vec<Frac>, u32), AllocError>
    requires few { inputs ≤ 8 }
    requires small { start < 65537 }
    ensures amounts { IfOk result (λ r. r.0.items ≡ (amounts inputs start).made) }
    ensures number { IfOk result (λ r. r.1 ≡ (amounts inputs start).number) }
    ensures small { IfOk result (λ r. r.1 < 65537) }
{
    let mut amounts = Vec::with_capacity(alloc, 2 * inputs)?;
    let mut z = start;
    for _ in 0..inputs {
        let plus = draw(z);
        let minus = draw(plus);
        amounts.push(amount(plus))?;
        amounts.push(amount(minus))?;
        z = minus;
    }
    Ok((amounts, z))
}

// A whole number as a fraction.
fn whole(count: i64) -> Frac
    requires { unsigned_abs count < 2 ^ 63 }
    ensures { result ≡ whole count }
{
    Frac::of(count, 1).unwrap()
}

/// The job of `size` leaves, and the number that was drawn last for it, from which draws go on. The draws begin at `size`: first the variable and the coefficient of
/// each leaf, then an operator for each inner node of the tree, after those below it, and last the plus and the minus amount of each of the four variables. The job has no
/// segment. It is refused for want of memory alone.
pub fn bulk_job(alloc: Global, size: u32) -> Result<(Job, u32), AllocError>
    requires some { 1 ≤ size }
    requires few { size ≤ 1000 }
    ensures job { IfOk result (λ bulk. job_of bulk.0 ≡ bulk_job size) }
    ensures number { IfOk result (λ bulk. bulk.1 ≡ bulk_number size) }
    ensures small { IfOk result (λ bulk. bulk.1 < 65537) }
    ensures domain { IfOk result (λ bulk. bulk.0.function.domain ≡ domain_for bulk.0.function.variables (kind_of bulk.0.function.kind)) }
    ensures amounts { IfOk result (λ bulk. (length bulk.0.amounts.items ≡ amount_count (function_of bulk.0.function)) × AreNotNegative bulk.0.amounts.items) }
{
    let (forms, z) = leaves(alloc, size)?;
    let (formula, z) = tree(alloc, forms.as_slice(), z)?;
    let (amounts, z) = amounts(alloc, VARIABLES, z)?;
    let job = Job {
        function: Function::of(VARIABLES, FunctionKind::Formula(formula)),
        amounts,
        segments: Vec::new(alloc),
    };
    Ok((job, z))
}
