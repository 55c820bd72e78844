//! Linear forms with fractions, rows with whole entries and whole points, each of 1 to 9 columns. Values, signs and cleared
//! rows are exact.
#![tactic(auto)]

ghost use Rattle.std.specs.Prelude.{◌≡◌, ◌*◌, ◌<◌, ◌≤◌, ◌^◌, pos, ◌*ℤ◌, ◌<ℤ◌, unsigned_abs, length, slice_index_or, take, IfSome, MatchOption};
ghost use Rattle.std.specs.List.{All};
ghost use Rattle.std.specs.Result.{OkIff};
ghost use Rattle.std.specs.Ordering.{int_cmp};
ghost use Rattle.crn_fraction.specs.Rational.{ratio, whole, ◌-ℚ◌, ◌/ℚ◌};
ghost use Rattle.crn_linear.specs.Forms.{at, entry_of, minus, wholes, IsValueInReach};
ghost use Rattle.crn_linear.specs.Rows.{dot, IsSmall, AreSmall, opposite_of};
ghost use Rattle.crn_linear.specs.Cleared.{common, over, pivot, size_ℚ, common_den, unit_of, numerators, cleared, IsSmallFrac};
ghost use Rattle.crn_linear.specs.Views.{HasColumns, padded};
ghost use Rattle.crn_linear.specs.Strengths.{is_strict, row_with};

use crn_fraction::divisors::{gcd, lcm, wide_gcd};
use crn_fraction::{Frac, TooBig};
use std::cmp::Ordering;
use std::marker::Model;

pub mod laws;

// The greatest size of an entry of a row or a point.
const LIMIT: u128 = 1 << 59;

/// What a row asks of a point: that the sum of the products of their numbers is at least 0, or that it is above 0.
#[derive(Clone, Copy, Debug, PartialEq, Eq, Hash)]
pub enum Strength {
    /// At least 0.
    Weak,
    /// Above 0.
    Strict,
}

/// A linear form: a fraction for each of its 1 to 9 columns. An affine form has its constant in the last.
#[derive(Clone, Copy, Debug, PartialEq, Eq, Hash)]
pub struct Form {
    coeffs: [Frac; 9],
    len: usize,
}

impl Model for Form {
    ghost use Rattle.std.specs.Prelude.{List, take, length};
    ghost use Rattle.crn_fraction.specs.Rational.{ℚ, 0ℚ};
    ghost use Rattle.crn_linear.specs.Views.{coded_form, IsPadded, padded, padded_back};

    ghost Value = { List ℚ };

    ghost coded = { coded_form };

    ghost view = { λ f. take f.len f.coeffs };

    ghost invariant = { λ f. IsPadded 0ℚ f.len f.coeffs };

    ghost inverse = { λ q. record { coeffs = padded 0ℚ q; len = length q } };

    ghost inverse_ok = { λ f kept. λ i. record { coeffs = (padded_back 0ℚ f.len f.coeffs kept).0 i; len = (padded_back 0ℚ f.len f.coeffs kept).1 i } };
}

/// A point: a whole number of size at most 2^59 for each of its 1 to 9 columns.
#[derive(Clone, Copy, Debug, PartialEq, Eq, Hash)]
pub struct Point {
    entries: [i64; 9],
    len: usize,
}

impl Model for Point {
    ghost use Rattle.std.specs.Prelude.{List, ℤ, pos, take, length};
    ghost use Rattle.crn_linear.specs.Views.{IsSmallPadded, padded, small_padded_back};

    ghost Value = { List ℤ };

    ghost view = { λ p. take p.len p.entries };

    ghost invariant = { λ p. IsSmallPadded p.len p.entries };

    ghost inverse = { λ q. record { entries = padded (pos 0) q; len = length q } };

    ghost inverse_ok = { λ p kept. λ i. record { entries = (small_padded_back p.len p.entries kept).0 i; len = (small_padded_back p.len p.entries kept).1 i } };
}

/// A row of a system: a whole number of size at most 2^59 for each of its 1 to 9 columns, and what it asks of a point.
#[derive(Clone, Copy, Debug, PartialEq, Eq, Hash)]
pub struct Row {
    entries: [i64; 9],
    len: usize,
    strength: Strength,
}

impl Model for Row {
    ghost use Rattle.std.specs.Prelude.{List, ℤ, pos, take, length};
    ghost use Rattle.crn_linear.specs.Rows as rows;
    ghost use Rattle.crn_linear.specs.Views.{IsSmallPadded, padded, small_padded_back};
    ghost use Rattle.crn_linear.specs.Strengths.{is_strict, strength_of, strength_back};

    ghost Value = { rows.Row };

    ghost view = { λ r. record { entries = take r.len r.entries; strict = is_strict r.strength } };

    ghost invariant = { λ r. IsSmallPadded r.len r.entries };

    ghost inverse = { λ q. record { entries = padded (pos 0) q.entries; len = length q.entries; strength = strength_of q.strict } };

    ghost inverse_ok = { λ r kept. λ i. record { entries = (small_padded_back r.len r.entries kept).0 i; len = (small_padded_back r.len r.entries kept).1 i; strength = strength_back r.strength i } };
}

impl Form {
    /// The form of these coefficients.
    pub fn of(coeffs: &[Frac]) -> Form
        requires { HasColumns coeffs.now }
        ensures { result ≡ coeffs.now }
    {
        let mut places = [Frac::ZERO; 9];
        for i in 0..coeffs.len() {
            places[i] = coeffs[i];
        }
        Form {
            coeffs: places,
            len: coeffs.len(),
        }
    }

    /// The number of columns.
    pub fn len(&self) -> usize
        ensures value { result ≡ length self.now }
        ensures columns { HasColumns self.now }
    {
        self.len
    }

    /// The coefficient of a column.
    pub fn coeff(&self, index: usize) -> Frac
        requires { index < length self.now }
        ensures { result ≡ entry_of self.now index }
    {
        let coeffs = &self.coeffs;
        coeffs[index]
    }

    /// The value at a point: the sum of the products in ascending order of the columns. It is refused where one of them, or
    /// a sum of the first few, does not fit.
    pub fn at(&self, x: &[Frac]) -> Result<Frac, TooBig>
        requires { length self.now ≡ length x.now }
        ensures { OkIff result (IsValueInReach self.now x.now) (at self.now x.now) }
    {
        let mut sum = Frac::ZERO;
        for i in 0..self.len() {
            let product = self.coeff(i).mul(x[i])?;
            sum = sum.add(product)?;
        }
        Ok(sum)
    }
}

impl Point {
    /// The point of these numbers.
    pub fn of(entries: &[i64]) -> Point
        requires columns { HasColumns entries.now }
        requires small { AreSmall entries.now }
        ensures { result ≡ entries.now }
    {
        Point {
            entries: nine(entries),
            len: entries.len(),
        }
    }

    /// The number of columns.
    pub fn len(&self) -> usize
        ensures value { result ≡ length self.now }
        ensures columns { HasColumns self.now }
        ensures small { AreSmall self.now }
    {
        self.len
    }

    /// The number of a column.
    pub fn entry(&self, index: usize) -> i64
        requires { index < length self.now }
        ensures value { result ≡ slice_index_or self.now index (pos 0) }
        ensures small { IsSmall result }
    {
        let entries = &self.entries;
        entries[index]
    }
}

impl Row {
    /// The row of these entries.
    pub fn of(entries: &[i64], strength: Strength) -> Row
        requires columns { HasColumns entries.now }
        requires small { AreSmall entries.now }
        ensures { result ≡ row_with entries.now strength }
    {
        Row {
            entries: nine(entries),
            len: entries.len(),
            strength,
        }
    }

    /// The number of columns.
    pub fn len(&self) -> usize
        ensures value { result ≡ length self.now.entries }
        ensures columns { HasColumns self.now.entries }
        ensures small { AreSmall self.now.entries }
    {
        self.len
    }

    /// The number of a column.
    pub fn entry(&self, index: usize) -> i64
        requires { index < length self.now.entries }
        ensures value { result ≡ slice_index_or self.now.entries index (pos 0) }
        ensures small { IsSmall result }
    {
        let entries = &self.entries;
        entries[index]
    }

    /// What the row asks of a point.
    pub fn strength(&self) -> Strength
        ensures { is_strict result ≡ self.now.strict }
    {
        self.strength
    }

    /// The sign of the sum of the products, as its order to 0.
    pub fn sign_at(&self, p: &Point) -> Ordering
        requires { length self.now.entries ≡ length p.now }
        ensures { result ≡ int_cmp (dot self.now.entries p.now) (pos 0) }
    {
        let mut sum = 0i128;
        for i in 0..p.len() {
            sum += product(self.entry(i), p.entry(i));
        }
        sum.cmp(&0)
    }
}

/// The row with every sign changed.
pub fn opposite(row: &Row, strength: Strength) -> Row
    ensures { result ≡ row_with (opposite_of row.now.entries) strength }
{
    let mut entries = [0i64; 9];
    for i in 0..row.len() {
        entries[i] = -row.entry(i);
    }
    Row {
        entries,
        len: row.len(),
        strength,
    }
}

/// The row of a form: its positive multiple whose entries are whole with greatest common divisor 1, or the zero row. It is
/// refused where an entry passes 2^59 in size.
pub fn row_of(form: &Form, strength: Strength) -> Result<Row, TooBig>
    ensures { OkIff result (AreSmall (cleared form.now)) (row_with (cleared form.now) strength) }
{
    let nothing = Form {
        coeffs: [Frac::ZERO; 9],
        len: form.len(),
    };
    difference_row(form, &nothing, strength)
}

/// The row of the exact difference of two forms, whose coefficients need not fit a fraction.
pub fn difference_row(a: &Form, b: &Form, strength: Strength) -> Result<Row, TooBig>
    requires { length a.now ≡ length b.now }
    ensures { OkIff result (AreSmall (cleared (minus a.now b.now))) (row_with (cleared (minus a.now b.now)) strength) }
{
    if let Some(differences) = whole_differences(a, b) {
        return Ok(whole_row(&differences[..a.len()], strength));
    }
    let units = units_of(a, b)?;
    let common = common_den(&units)?;
    numerators(&units, common, strength)
}

// The differences of the coefficients, where all of these are whole and the differences are small.
fn whole_differences(a: &Form, b: &Form) -> Option<[i64; 9]>
    requires { length a.now ≡ length b.now }
    ensures { IfSome result (λ places. AreSmall (take (length a.now) places)
        × (minus a.now b.now ≡ wholes (take (length a.now) places))) }
{
    let mut differences = [0i64; 9];
    for i in 0..a.len() {
        differences[i] = whole_difference(a.coeff(i), b.coeff(i))?;
    }
    Some(differences)
}

// The difference of two whole numbers, where it is small.
fn whole_difference(a: Frac, b: Frac) -> Option<i64>
    ensures { IfSome result (λ n. IsSmall n × (a -ℚ b ≡ whole n)) }
{
    if a.den() != 1 || b.den() != 1 {
        return None;
    }
    let difference = a.num().checked_sub(b.num())?;
    if difference.unsigned_abs() as u128 > LIMIT {
        return None;
    }
    Some(difference)
}

// The row of small whole numbers.
fn whole_row(numbers: &[i64], strength: Strength) -> Row
    requires columns { HasColumns numbers.now }
    requires small { AreSmall numbers.now }
    ensures small { AreSmall (cleared (wholes numbers.now)) }
    ensures value { result ≡ row_with (cleared (wholes numbers.now)) strength }
{
    let parts = without_divisor(numbers);
    Row::of(&parts[..numbers.len()], strength)
}

/// Small numbers over their greatest common divisor, and 0 past the last. Zeros stay as they are.
pub fn without_divisor(numbers: &[i64]) -> [i64; 9]
    requires few { length numbers.now ≤ 9 }
    requires small { AreSmall numbers.now }
    ensures { result ≡ padded (pos 0) (over (common numbers.now) numbers.now) }
{
    let divisor = common(numbers);
    if divisor <= 1 {
        return nine(numbers);
    }
    over(numbers, divisor)
}

// The greatest common divisor.
fn common(numbers: &[i64]) -> u64
    requires { AreSmall numbers.now }
    ensures value { result ≡ common numbers.now }
    ensures small { result ≤ 2 ^ 59 }
{
    let mut common = 0u64;
    for number in numbers {
        if common == 1 {
            return 1;
        }
        common = gcd(common, number.unsigned_abs());
    }
    common
}

// Each number over a divisor, and 0 past the last.
fn over(numbers: &[i64], divisor: u64) -> [i64; 9]
    requires few { length numbers.now ≤ 9 }
    requires small { AreSmall numbers.now }
    requires some { 0 < divisor }
    requires divisor { divisor ≤ 2 ^ 59 }
    ensures { result ≡ padded (pos 0) (over divisor numbers.now) }
{
    let mut parts = [0i64; 9];
    for i in 0..numbers.len() {
        parts[i] = numbers[i] / divisor as i64;
    }
    parts
}

// A fraction in lowest terms with parts of up to 127 bits, as the difference of two fractions has.
#[derive(Clone, Copy)]
struct Wide {
    num: i128,
    den: u128,
}

impl Model for Wide {
    ghost use Rattle.crn_fraction.specs.Rational.{ℚ, ratio};
    ghost use Rattle.crn_fraction.specs.Frac.{coded_ℚ};
    ghost use Rattle.crn_linear.specs.Cleared.{IsWide, wide_parts};

    ghost Value = { ℚ };

    ghost coded = { coded_ℚ };

    ghost view = { λ w. ratio w.num w.den };

    ghost invariant = { λ w. IsWide w.num w.den };

    ghost inverse = { λ q. record { num = q.num; den = q.den } };

    ghost inverse_ok = { λ w kept. λ i. record { num = (wide_parts w.num w.den kept).0 i; den = (wide_parts w.num w.den kept).1 i } };
}

impl Wide {
    fn num(self) -> i128
        ensures value { result ≡ self.num }
        ensures small { unsigned_abs result < 2 ^ 127 }
    {
        self.num
    }

    fn den(self) -> u128
        ensures value { result ≡ self.den }
        ensures positive { 0 < result }
        ensures small { result < 2 ^ 127 }
    {
        self.den
    }

    // The quotient of two whole numbers.
    fn of(num: i128, den: u128) -> Wide
        requires positive { 0 < den }
        requires num_small { unsigned_abs num < 2 ^ 127 }
        requires den_small { den < 2 ^ 127 }
        ensures { result ≡ ratio num den }
    {
        let (num, den) = lowest_terms(num, den);
        Wide { num, den }
    }

    // The exact difference.
    fn difference(a: Frac, b: Frac) -> Wide
        ensures { result ≡ a -ℚ b }
    {
        if b.is_zero() {
            return Wide {
                num: a.num() as i128,
                den: a.den() as u128,
            };
        }
        Wide::of(cross(a, b) - cross(b, a), shared_den(a, b))
    }

    // The number without its sign.
    fn size(self) -> Wide
        ensures { result ≡ size_ℚ self }
    {
        Wide::of(self.num().abs(), self.den())
    }

    // The quotient by a number above 0, where its lowest terms are at most 2^59.
    fn over(self, pivot: Wide) -> Result<Frac, TooBig>
        requires { pos 0 <ℤ pivot.num }
        ensures { OkIff result (IsSmallFrac (self /ℚ pivot)) (self /ℚ pivot) }
    {
        let (num, pivot_num) = lowest_terms(self.num(), pivot.num() as u128);
        let (pivot_den, den) = lowest_terms(pivot.den() as i128, self.den());
        let Some(low_num) = small_product(num, pivot_den) else {
            return Err(TooBig);
        };
        let Some(low_den) = small_product(pivot_num as i128, den as i128) else {
            return Err(TooBig);
        };
        Frac::of(low_num, low_den)
    }
}

// The numerator of the first over the denominator of both.
fn cross(a: Frac, b: Frac) -> i128
    ensures value { result ≡ a.num *ℤ pos b.den }
    ensures small { unsigned_abs result < 2 ^ 126 }
{
    product(a.num(), b.den())
}

// The product of the denominators.
fn shared_den(a: Frac, b: Frac) -> u128
    ensures value { result ≡ a.den * b.den }
    ensures positive { 0 < result }
    ensures small { result < 2 ^ 126 }
{
    a.den() as u128 * b.den() as u128
}

fn product(a: i64, b: i64) -> i128
    ensures value { result ≡ a *ℤ b }
    ensures small { unsigned_abs result ≤ 2 ^ 126 }
{
    a as i128 * b as i128
}

// The size of the first difference that is not 0, and 1 where there is none.
fn pivot(a: &Form, b: &Form) -> Wide
    requires { length a.now ≡ length b.now }
    ensures value { result ≡ pivot (minus a.now b.now) }
    ensures positive { pos 0 <ℤ result.num }
{
    for i in 0..a.len() {
        let difference = Wide::difference(a.coeff(i), b.coeff(i));
        if difference.num() != 0 {
            return difference.size();
        }
    }
    Wide::of(1, 1)
}

// The differences over the first that is not 0, in size.
fn units_of(a: &Form, b: &Form) -> Result<Form, TooBig>
    requires { length a.now ≡ length b.now }
    ensures { OkIff result (All IsSmallFrac (unit_of (minus a.now b.now))) (unit_of (minus a.now b.now)) }
{
    let pivot = pivot(a, b);
    let mut units = [Frac::ZERO; 9];
    for i in 0..a.len() {
        let difference = Wide::difference(a.coeff(i), b.coeff(i));
        let unit = difference.over(pivot)?;
        units[i] = unit;
    }
    Ok(Form {
        coeffs: units,
        len: a.len(),
    })
}

// The least common denominator, where it is at most 2^59.
fn common_den(units: &Form) -> Result<u64, TooBig>
    requires { All IsSmallFrac units.now }
    ensures { OkIff result (common_den units.now ≤ 2 ^ 59) (common_den units.now) }
{
    let mut common = 1u64;
    for i in 0..units.len() {
        let den = units.coeff(i).den() as u64;
        let multiple = lcm(common, den);
        if multiple > LIMIT {
            return Err(TooBig);
        }
        common = multiple as u64;
    }
    Ok(common)
}

// The row of the numerators over a common denominator.
fn numerators(units: &Form, common: u64, strength: Strength) -> Result<Row, TooBig>
    requires fractions { All IsSmallFrac units.now }
    requires denominator { common ≡ common_den units.now }
    requires small { common ≤ 2 ^ 59 }
    ensures { OkIff result (AreSmall (numerators units.now)) (row_with (numerators units.now) strength) }
{
    let mut entries = [0i64; 9];
    for i in 0..units.len() {
        let unit = units.coeff(i);
        let rest = common / unit.den() as u64;
        let Some(entry) = small_product(unit.num() as i128, rest as i128) else {
            return Err(TooBig);
        };
        entries[i] = entry;
    }
    Ok(Row {
        entries,
        len: units.len(),
        strength,
    })
}

// The product, where it is at most 2^59 in size.
fn small_product(a: i128, b: i128) -> Option<i64>
    ensures { MatchOption result (2 ^ 59 < unsigned_abs (a *ℤ b)) (λ r. (r ≡ a *ℤ b) × (unsigned_abs (a *ℤ b) ≤ 2 ^ 59)) }
{
    let product = a.checked_mul(b)?;
    if product.unsigned_abs() > LIMIT {
        return None;
    }
    Some(product as i64)
}

// Both parts of `num / den` in lowest terms.
fn lowest_terms(num: i128, den: u128) -> (i128, u128)
    requires positive { 0 < den }
    requires small { den < 2 ^ 127 }
    ensures num { result.0 ≡ (ratio num den).num }
    ensures den { result.1 ≡ (ratio num den).den }
    ensures small_num { unsigned_abs result.0 ≤ unsigned_abs num }
    ensures small_den { result.1 ≤ den }
{
    let common = wide_gcd(num.unsigned_abs(), den);
    if common == 1 {
        return (num, den);
    }
    (num / common as i128, den / common)
}

// The entries with 0 past the last.
fn nine(entries: &[i64]) -> [i64; 9]
    requires { length entries.now ≤ 9 }
    ensures { result ≡ padded (pos 0) entries.now }
{
    let mut places = [0i64; 9];
    for i in 0..entries.len() {
        places[i] = entries[i];
    }
    places
}
