//! The values of the columns, chosen one after another between the bounds that the rows set.

ghost use Rattle.std.specs.Prelude.{◌≡◌, ◌≢◌, ◌+◌, ◌*◌, ◌≤◌, ◌<◌, ◌^◌, pos, ◌∷◌, true, false, length, IfOk, MatchOption, MatchResult};
ghost use Rattle.std.specs.List.{list_all};
ghost use Rattle.crn_fraction.specs.Rational.{whole, neg_ℚ, ◌+ℚ◌, ◌-ℚ◌, ◌/ℚ◌, max_ℚ};
ghost use Rattle.crn_linear.specs.Rows.{value, IsSmall, AreSmall};
ghost use Rattle.crn_linear.specs.Cleared.{common_den};
ghost use Rattle.crn_feasible.specs.Elimination.{coordinates, next, between, fits, fits_ℚ, numerators_over};
ghost use Rattle.crn_feasible.specs.Steps.{Goes, list_of, kept_of, IsList};
ghost use Rattle.crn_feasible.specs.Chosen.{Misses, IsWritten, is_on, bounds, greatest_of, least_of};

use crate::numbers::{LIMIT, dot, mix, over_divisor, product, small_ratio};
use crate::rows::{Ending, RowList, without};
use crn_fraction::Frac;
use crn_fraction::divisors::lcm;
use std::alloc::Global;
use std::cmp::Ordering;

/// Values of the first columns, and the same over their least common denominator.
#[derive(Drop)]
pub struct Values {
    pub exact: Vec<Frac>,
    pub den: u64,
    pub tops: Vec<i64>,
}

/// Values for the first `v` columns that meet the rows, which have no entry from column `v` on.
pub fn coordinates(alloc: Global, rows: &RowList, v: usize) -> Result<Values, Ending>
    requires columns { v ≤ rows.now.columns }
    requires list { IsList rows.now }
    ensures chosen { Goes result (λ s. s.exact.items) (coordinates v (list_of rows.now)) }
    ensures written { IfOk result IsWritten }
    ensures long { IfOk result (λ s. length s.exact.items ≡ v) }
{
    if v == 0 {
        return Ok(Values {
            exact: Vec::new(alloc),
            den: 1,
            tops: Vec::new(alloc),
        });
    }
    let rest = without(alloc, rows, v - 1)?;
    let values = coordinates(alloc, &rest, v - 1)?;
    next(alloc, rows, v - 1, values)
}

fn next(alloc: Global, rows: &RowList, v: usize, values: Values) -> Result<Values, Ending>
    requires column { v < rows.now.columns }
    requires list { IsList rows.now }
    requires written { IsWritten values }
    requires long { length values.exact.items ≡ v }
    ensures chosen { Goes result (λ s. s.exact.items) (next v (list_of rows.now) values.exact.items) }
    ensures written { IfOk result IsWritten }
    ensures long { IfOk result (λ s. length s.exact.items ≡ v + 1) }
{
    let lows = bounds(alloc, rows, v, &values, true)?;
    let highs = bounds(alloc, rows, v, &values, false)?;
    let Some(value) = between(&lows, &highs) else {
        return Err(Ending::TooBig);
    };
    let mut exact = values.exact;
    if exact.push(value).is_err() {
        return Err(Ending::Memory);
    }
    over_common(alloc, exact)
}

// The bounds of the rows with a positive entry in column v, or with a negative one.
fn bounds(
    alloc: Global,
    rows: &RowList,
    v: usize,
    values: &Values,
    positive: bool,
) -> Result<Vec<Frac>, Ending>
    requires column { v < rows.now.columns }
    requires list { IsList rows.now }
    requires written { IsWritten values.now }
    requires long { length values.now.exact.items ≡ v }
    ensures { let qs = bounds positive v values.now.exact.items (list_of rows.now) in MatchResult result (λ b. (b.items ≡ qs) × (list_all fits_ℚ qs ≡ true)) (Misses (list_all fits_ℚ qs ≡ false)) }
{
    let mut all = Vec::new(alloc);
    for row in &rows.rows {
        let entry = row.entries[v];
        if is_on(positive, entry) {
            let Some(bound) = bound(&row.entries[..v], entry, values) else {
                return Err(Ending::TooBig);
            };
            if all.push(bound).is_err() {
                return Err(Ending::Memory);
            }
        }
    }
    Ok(all)
}

fn is_on(positive: bool, entry: i64) -> bool
    ensures { result ≡ is_on positive entry }
{
    if positive { entry > 0 } else { entry < 0 }
}

// What a row asks of the value of the column where it has this entry, after the values of the columns before it.
fn bound(entries: &[i64], entry: i64, values: &Values) -> Option<Frac>
    requires entries { AreSmall entries.now }
    requires entry { IsSmall entry }
    requires some { entry ≢ pos 0 }
    requires written { IsWritten values.now }
    requires long { length entries.now ≡ length values.now.exact.items }
    requires few { length entries.now ≤ 9 }
    ensures { let q = neg_ℚ (value entries.now values.now.exact.items) /ℚ whole entry in MatchOption result (fits_ℚ q ≡ false) (λ r. (r ≡ q) × (fits_ℚ q ≡ true)) }
{
    let sum = dot(entries, &values.tops);
    let num = if entry > 0 { -sum } else { sum };
    small_ratio(num, values.den as u128 * entry.unsigned_abs() as u128)
}

// A value between the bounds, where it is small.
fn between(lows: &[Frac], highs: &[Frac]) -> Option<Frac>
    requires lows_fit { list_all fits_ℚ lows.now ≡ true }
    requires highs_fit { list_all fits_ℚ highs.now ≡ true }
    ensures { let q = between lows.now highs.now in MatchOption result (fits_ℚ q ≡ false) (λ r. (r ≡ q) × (fits_ℚ q ≡ true)) }
{
    if lows.is_empty() {
        if highs.is_empty() {
            return Some(Frac::ZERO);
        }
        return below(least(highs));
    }
    if highs.is_empty() {
        return above(greatest(lows));
    }
    middle(greatest(lows), least(highs))
}

fn above(low: Frac) -> Option<Frac>
    requires { fits_ℚ low ≡ true }
    ensures { let q = low +ℚ whole (pos 1) in MatchOption result (fits_ℚ q ≡ false) (λ r. (r ≡ q) × (fits_ℚ q ≡ true)) }
{
    let num = low.num() as i128 + low.den() as i128;
    small_ratio(num, low.den() as u128)
}

fn below(high: Frac) -> Option<Frac>
    requires { fits_ℚ high ≡ true }
    ensures { let q = high -ℚ whole (pos 1) in MatchOption result (fits_ℚ q ≡ false) (λ r. (r ≡ q) × (fits_ℚ q ≡ true)) }
{
    let num = high.num() as i128 - high.den() as i128;
    small_ratio(num, high.den() as u128)
}

fn middle(low: Frac, high: Frac) -> Option<Frac>
    requires low_fits { fits_ℚ low ≡ true }
    requires high_fits { fits_ℚ high ≡ true }
    ensures { let q = (low +ℚ high) /ℚ whole (pos 2) in MatchOption result (fits_ℚ q ≡ false) (λ r. (r ≡ q) × (fits_ℚ q ≡ true)) }
{
    let num = mix(low.num(), high.den(), high.num(), low.den());
    small_ratio(num, 2 * product(low.den(), high.den()) as u128)
}

fn greatest(bounds: &[Frac]) -> Frac
    requires some { 0 < length bounds.now }
    requires fit { list_all fits_ℚ bounds.now ≡ true }
    ensures value { result ≡ greatest_of bounds.now }
    ensures fits { fits_ℚ result ≡ true }
{
    let mut best = bounds[0];
    for bound in &bounds[1..] {
        best = greater(best, *bound);
    }
    best
}

fn least(bounds: &[Frac]) -> Frac
    requires some { 0 < length bounds.now }
    requires fit { list_all fits_ℚ bounds.now ≡ true }
    ensures value { result ≡ least_of bounds.now }
    ensures fits { fits_ℚ result ≡ true }
{
    let mut best = bounds[0];
    for bound in &bounds[1..] {
        best = best.least(*bound);
    }
    best
}

fn greater(a: Frac, b: Frac) -> Frac
    ensures { result ≡ max_ℚ a b }
{
    match a.compare(b) {
        Ordering::Greater => a,
        _ => b,
    }
}

// The values over their least common denominator, where it and the numerators are small.
fn over_common(alloc: Global, exact: Vec<Frac>) -> Result<Values, Ending>
    requires { list_all fits_ℚ exact.items ≡ true }
    ensures { let d = common_den exact.items in MatchResult result (λ s. (s.exact.items ≡ exact.items) × IsWritten s) (Misses (list_all fits (pos d ∷ numerators_over d exact.items) ≡ false)) }
{
    let Some(den) = common_den(&exact) else {
        return Err(Ending::TooBig);
    };
    let tops = tops_over(alloc, &exact, den)?;
    Ok(Values { exact, den, tops })
}

fn common_den(values: &[Frac]) -> Option<u64>
    ensures { MatchOption result (2 ^ 59 < common_den values.now) (λ d. (d ≡ common_den values.now) × (d ≤ 2 ^ 59)) }
{
    let mut common = 1u64;
    for value in values {
        let den = value.den() as u64;
        let multiple = lcm(common, den);
        if multiple > LIMIT {
            return None;
        }
        common = multiple as u64;
    }
    Some(common)
}

fn tops_over(alloc: Global, values: &[Frac], den: u64) -> Result<Vec<i64>, Ending>
    requires fit { list_all fits_ℚ values.now ≡ true }
    requires small { den ≤ 2 ^ 59 }
    ensures { MatchResult result (λ t. (t.items ≡ numerators_over den values.now) × AreSmall t.items) (Misses (list_all fits (numerators_over den values.now) ≡ false)) }
{
    let mut tops = Vec::new(alloc);
    for value in values {
        let rest = (den / value.den() as u64) as i64;
        let Some(top) = over_divisor(product(value.num(), rest), 1) else {
            return Err(Ending::TooBig);
        };
        if tops.push(top).is_err() {
            return Err(Ending::Memory);
        }
    }
    Ok(tops)
}
