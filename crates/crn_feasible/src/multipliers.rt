//! Multipliers of the rows of a system. Those that are kept stand with the places of their rows, counted from 0, in ascending order of these: rows that have none
//! have the multiplier 0.

ghost use Rattle.std.specs.Prelude.{◌≡◌, ◌++◌, ◌<◌, ◌≤◌, ◌^◌, ◌*ℤ◌, pos, unsigned_abs, false, length, map, OnOk, IfOk, MatchOption, MatchResult};
ghost use Rattle.std.specs.List.{All, list_all};
ghost use Rattle.crn_linear.specs.Rows.{IsSmall, AreSmall};
ghost use Rattle.crn_feasible.specs.Elimination.{fits};
ghost use Rattle.crn_feasible.specs.Sparse.{spread, scaled, sum_of, divided, AreSmallAt, IsSparse, Mixes};
ghost use Rattle.crn_feasible.specs.Chosen.{Misses};

use crate::numbers::{mix, over_divisor, product};
use crate::rows::Ending;
use std::alloc::{AllocError, Global};

// A multiplier times a.
fn scaled(a: i64, multiplier: (usize, i64)) -> (usize, i128)
    requires a_small { IsSmall a }
    requires small { IsSmall multiplier.1 }
    ensures value { result ≡ scaled a multiplier }
    ensures wide { unsigned_abs result.1 ≤ 2 ^ 119 }
{
    (multiplier.0, product(a, multiplier.1))
}

// A times a multiplier plus b times another of the same row.
fn sum_of(a: i64, x: (usize, i64), b: i64, y: (usize, i64)) -> (usize, i128)
    requires a_small { IsSmall a }
    requires b_small { IsSmall b }
    requires first { IsSmall x.1 }
    requires second { IsSmall y.1 }
    ensures value { result ≡ sum_of a x b y }
    ensures wide { unsigned_abs result.1 ≤ 2 ^ 119 }
{
    (x.0, mix(a, x.1, b, y.1))
}

// A multiplier over a divisor, where it is then small.
fn divided(multiplier: (usize, i128), divisor: u128) -> Option<(usize, i64)>
    requires { divisor ≤ 2 ^ 119 }
    ensures { MatchOption result (fits (divided divisor multiplier).1 ≡ false) (λ m. (m ≡ divided divisor multiplier) × IsSmall m.1) }
{
    let part = over_divisor(multiplier.1, divisor)?;
    Some((multiplier.0, part))
}

// Appends a times the multipliers.
fn append_scaled(
    out: &mut Vec<(usize, i128)>,
    a: i64,
    multipliers: &[(usize, i64)],
) -> Result<(), AllocError>
    requires a_small { IsSmall a }
    requires small { AreSmallAt multipliers.now }
    requires wide { All (λ m. unsigned_abs m.1 ≤ 2 ^ 119) out.old.items }
    ensures items { OnOk result (out.new.items ≡ out.old.items ++ map (scaled a) multipliers.now) }
    ensures wide { OnOk result (All (λ m. unsigned_abs m.1 ≤ 2 ^ 119) out.new.items) }
{
    for multiplier in multipliers {
        out.push(scaled(a, *multiplier))?;
    }
    Ok(())
}

/// Writes a times the first multipliers plus b times the second.
pub fn mix_multipliers(
    out: &mut Vec<(usize, i128)>,
    a: i64,
    p: &[(usize, i64)],
    b: i64,
    n: &[(usize, i64)],
) -> Result<(), AllocError>
    requires a_small { IsSmall a }
    requires b_small { IsSmall b }
    requires first { AreSmallAt p.now }
    requires second { AreSmallAt n.now }
    ensures mixes { OnOk result (Mixes a p.now b n.now out.new.items) }
    ensures wide { OnOk result (All (λ m. unsigned_abs m.1 ≤ 2 ^ 119) out.new.items) }
{
    out.clear();
    let mut i = 0;
    let mut j = 0;
    while i < p.len() && j < n.len() {
        let x = p[i];
        let y = n[j];
        if x.0 < y.0 {
            out.push(scaled(a, x))?;
            i += 1;
        } else if y.0 < x.0 {
            out.push(scaled(b, y))?;
            j += 1;
        } else {
            out.push(sum_of(a, x, b, y))?;
            i += 1;
            j += 1;
        }
    }
    append_scaled(out, a, &p[i..])?;
    append_scaled(out, b, &n[j..])
}

/// Writes the multipliers over a divisor, where each is then at most 2^59 in size.
pub fn divide_multipliers(
    out: &mut Vec<(usize, i64)>,
    multipliers: &[(usize, i128)],
    divisor: u128,
) -> Result<(), Ending>
    requires { divisor ≤ 2 ^ 119 }
    ensures { MatchResult result (λ _. (out.new.items ≡ map (divided divisor) multipliers.now) × AreSmallAt out.new.items) (Misses (list_all (λ m. fits m.1) (map (divided divisor) multipliers.now) ≡ false)) }
{
    out.clear();
    for multiplier in multipliers {
        let Some(part) = divided(*multiplier, divisor) else {
            return Err(Ending::TooBig);
        };
        if out.push(part).is_err() {
            return Err(Ending::Memory);
        }
    }
    Ok(())
}

/// The multipliers of so many rows, one for each.
pub fn spread(
    alloc: Global,
    rows: usize,
    multipliers: &[(usize, i64)],
) -> Result<Vec<i64>, AllocError>
    requires { IsSparse rows multipliers.now }
    ensures value { IfOk result (λ all. all.items ≡ spread 0 rows multipliers.now) }
    ensures small { IfOk result (λ all. AreSmall all.items) }
{
    let mut all = Vec::new(alloc);
    let mut next = 0;
    for row in 0..rows {
        if next < multipliers.len() && multipliers[next].0 == row {
            all.push(multipliers[next].1)?;
            next += 1;
        } else {
            all.push(0)?;
        }
    }
    Ok(all)
}
