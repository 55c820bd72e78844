//! Systems of two columns that no point meets, told by the signs that their rows ask of the first number of a point. Where the second number is gone, as
//! in elimination, nothing but the sign of what is left of a row counts.

ghost use Rattle.std.specs.Prelude.{◌≡◌, ℤ, List, ◌+ℤ◌, ◌*ℤ◌, ◌<ℤ◌, ◌<◌, ◌≤◌, ◌^◌, neg_ℤ, pos, unsigned_abs, length, slice_index_or, IsTrue};
ghost use Rattle.std.specs.List.{All};
ghost use Rattle.crn_linear.specs.Rows.{IsBelow_ℤ, MeetsWhole};
ghost use Rattle.crn_feasible.specs.Signs.{first, second, Knows, Follows};

use crate::numbers::mix;
use crate::rows::is_strict;
use crn_linear::Row;

// The greatest size of a short entry.
const SHORT: u64 = 1 << 14;

/// What is known of a number: that it is at least 0, above 0, at most 0, below 0.
#[derive(Clone, Copy)]
pub struct Signs {
    at_least: bool,
    above: bool,
    at_most: bool,
    below: bool,
}

impl Signs {
    // Nothing.
    fn unknown() -> Signs
        ensures { (x : ℤ) → Knows result x }
    {
        Signs {
            at_least: false,
            above: false,
            at_most: false,
            below: false,
        }
    }

    // Of a number that is at least 0, or above 0.
    fn raised(self, is_strict: bool) -> Signs
        ensures { (x : ℤ) → Knows self x → IsBelow_ℤ is_strict (pos 0) x → Knows result x }
    {
        Signs {
            at_least: true,
            above: self.above || is_strict,
            at_most: self.at_most,
            below: self.below,
        }
    }

    // Of a number that is at most 0, or below 0.
    fn lowered(self, is_strict: bool) -> Signs
        ensures { (x : ℤ) → Knows self x → IsBelow_ℤ is_strict x (pos 0) → Knows result x }
    {
        Signs {
            at_least: self.at_least,
            above: self.above,
            at_most: true,
            below: self.below || is_strict,
        }
    }

    // Of a number whose product with this factor is at least 0, or above 0.
    fn with(self, factor: i128, is_strict: bool) -> Signs
        ensures { (x : ℤ) → Knows self x → IsBelow_ℤ is_strict (pos 0) (factor *ℤ x) → Knows result x }
    {
        if factor > 0 {
            return self.raised(is_strict);
        }
        if factor < 0 {
            return self.lowered(is_strict);
        }
        if is_strict {
            return self.raised(true).lowered(true);
        }
        self
    }

    // Whether no number is so.
    fn is_impossible(self) -> bool
        ensures { IsTrue result → (x : ℤ) → ¬ Knows self x }
    {
        if self.at_least && self.below {
            return true;
        }
        self.at_most && self.above
    }
}

/// Whether each entry of each row is at most 2^14 in size.
pub fn are_short(rows: &[Row]) -> bool
    requires { All (λ r. length r.entries ≡ 2) rows.now }
    ensures { IsTrue result → All (λ r. All (λ z. unsigned_abs z ≤ 2 ^ 14) r.entries) rows.now }
{
    for row in rows {
        if !is_short(row) {
            return false;
        }
    }
    true
}

fn is_short(row: &Row) -> bool
    requires { length row.now.entries ≡ 2 }
    ensures { IsTrue result → All (λ z. unsigned_abs z ≤ 2 ^ 14) row.now.entries }
{
    row.entry(0).unsigned_abs() <= SHORT && row.entry(1).unsigned_abs() <= SHORT
}

/// Whether it is soon seen that no point meets the rows.
pub fn excludes_points(rows: &[Row]) -> bool
    requires { All (λ r. length r.entries ≡ 2) rows.now }
    ensures { IsTrue result → (p : List ℤ) → ¬ All (λ r. MeetsWhole r p) rows.now }
{
    let mut known = Signs::unknown();
    for index in 0..rows.len() {
        known = with_row(known, rows, index);
        if known.is_impossible() {
            return true;
        }
    }
    false
}

// What is known of the first number with a row: alone where it is 0 in the second column, and with each row that is below 0 there where it is above 0.
fn with_row(signs: Signs, rows: &[Row], index: usize) -> Signs
    requires lengths { All (λ r. length r.entries ≡ 2) rows.now }
    requires within { index < length rows.now }
    ensures { Follows rows.now signs result }
{
    let row = &rows[index];
    let lead = row.entry(1);
    if lead < 0 {
        return signs;
    }
    if lead > 0 {
        return with_pairs(signs, rows, row);
    }
    signs.with(row.entry(0) as i128, is_strict(row))
}

fn with_pairs(signs: Signs, rows: &[Row], row: &Row) -> Signs
    requires lengths { All (λ r. length r.entries ≡ 2) rows.now }
    requires row_length { length row.now.entries ≡ 2 }
    requires above { pos 0 <ℤ second row.now }
    ensures { (p : List ℤ) → MeetsWhole row.now p → All (λ r. MeetsWhole r p) rows.now → Knows signs (first p) → Knows result (first p) }
{
    let mut known = signs;
    for other in rows {
        known = with_pair(known, row, other);
    }
    known
}

fn with_pair(signs: Signs, p: &Row, n: &Row) -> Signs
    requires p_length { length p.now.entries ≡ 2 }
    requires n_length { length n.now.entries ≡ 2 }
    requires above { pos 0 <ℤ second p.now }
    ensures { (x : List ℤ) → MeetsWhole p.now x → MeetsWhole n.now x → Knows signs (first x) → Knows result (first x) }
{
    if n.entry(1) >= 0 {
        return signs;
    }
    let factor = without_second(p, n);
    if is_strict(p) {
        return signs.with(factor, true);
    }
    signs.with(factor, is_strict(n))
}

// The first entry of the sum of multiples in which the second is 0.
fn without_second(p: &Row, n: &Row) -> i128
    requires p_length { length p.now.entries ≡ 2 }
    requires n_length { length n.now.entries ≡ 2 }
    ensures { result ≡ neg_ℤ (second n.now) *ℤ first p.now.entries +ℤ second p.now *ℤ first n.now.entries }
{
    let back = -n.entry(1);
    mix(back, p.entry(0), p.entry(1), n.entry(0))
}
