//! Systems of weak and strict rows, and certificates that no point meets a system.
//!
//! `check` answers whether multipliers are a certificate of a system, `refutes` whether they are one of rows that stand in none, and `holds`
//! whether a point meets a system. A system that has a certificate has no point, which is the easy direction of Motzkin's transposition
//! theorem (`laws::certificates`).
#![tactic(auto)]

ghost use Rattle.std.specs.Prelude.{◌≡◌, ℕ, ◌<◌, ◌≤◌, ◌≤ℤ◌, ◌<ℤ◌, ◌*◌, ◌^◌, ◌↔◌, pos, ◌+ℤ◌, ◌*ℤ◌, unsigned_abs, [], length, slice_index_or, IsTrue, IfOk};
ghost use Rattle.std.specs.List.{All};
ghost use Rattle.crn_linear.specs.Forms.{wholes};
ghost use Rattle.crn_linear.specs.Rows.{dot, IsSmall, AreSmall, MeetsWhole};
ghost use Rattle.crn_farkas.specs.Systems.{IsPoint, IsWholePoint, HasNoPoint, HasStrict, IsCertificate, column};
ghost use Rattle.crn_farkas.specs.Rooms.{IsSystem, with_row, truncated, kept};

use crn_linear::{Point, Row, Strength};
use std::alloc::{AllocError, Global};
use std::marker::Model;

pub mod laws;

// The greatest size of a multiplier.
const LIMIT: i64 = 1 << 59;

/// A number of columns, and at most 256 rows of that length.
#[derive(Debug, Drop)]
pub struct System {
    columns: usize,
    room: usize,
    rows: Vec<Row>,
}

impl Model for System {
    ghost use Rattle.std.specs.Vec.{vec_capacity};
    ghost use Rattle.crn_farkas.specs.Rooms.{WithRoom, IsReserved, kept};

    ghost Value = { WithRoom };

    ghost view = { λ s. kept s.columns s.room s.rows.items };

    ghost invariant = { λ s. IsReserved (kept s.columns s.room s.rows.items) (vec_capacity s.rows) };
}

impl System {
    /// A system without rows, and room for so many.
    pub fn with_room(alloc: Global, columns: usize, room: usize) -> Result<System, AllocError>
        requires some_columns { 1 ≤ columns }
        requires few_columns { columns ≤ 9 }
        requires few_rows { room ≤ 256 }
        ensures { IfOk result (λ s. s ≡ kept columns room []) }
    {
        let rows = Vec::with_capacity(alloc, room)?;
        Ok(System {
            columns,
            room,
            rows,
        })
    }

    /// Adds a row behind the others, in the room that is there.
    pub fn push(&mut self, row: Row)
        requires length { length row.entries ≡ self.old.system.columns }
        requires room { length self.old.system.rows < self.old.room }
        ensures { self.new ≡ with_row self.old row }
    {
        self.rows.push_reserved(row);
    }

    /// Takes away all rows but so many at the front. The room stays.
    pub fn truncate(&mut self, rows: usize)
        ensures { self.new ≡ truncated rows self.old }
    {
        self.rows.truncate(rows);
    }

    /// Whether there is no room for another row.
    pub fn is_full(&self) -> bool
        ensures { IsTrue result ↔ (self.now.room ≤ length self.now.system.rows) }
    {
        self.rows.len() >= self.room
    }

    /// The number of columns.
    pub fn columns(&self) -> usize
        ensures value { result ≡ self.now.system.columns }
        ensures valid { IsSystem self.now }
    {
        self.columns
    }

    /// The rows, as they were added.
    pub fn rows(&self) -> &[Row]
        ensures value { result.now ≡ self.now.system.rows }
        ensures valid { IsSystem self.now }
    {
        &self.rows
    }
}

/// A multiplier for each row of a system, of size at most 2^59. That they are a certificate of the system is for `check` to say.
#[derive(Debug, Drop)]
pub struct Certificate {
    multipliers: Vec<i64>,
}

impl Model for Certificate {
    ghost use Rattle.std.specs.Prelude.{List, ℤ};
    ghost use Rattle.crn_linear.specs.Rows.{AreSmall};

    ghost Value = { List ℤ };

    ghost view = { λ c. c.multipliers.items };

    ghost invariant = { λ c. AreSmall c.multipliers.items };
}

impl Certificate {
    /// These multipliers.
    pub fn of(multipliers: Vec<i64>) -> Certificate
        requires { AreSmall multipliers.items }
        ensures { result ≡ multipliers.items }
    {
        Certificate { multipliers }
    }

    /// The multipliers, row by row.
    pub fn multipliers(&self) -> &[i64]
        ensures value { result.now ≡ self.now }
        ensures small { AreSmall self.now }
    {
        &self.multipliers
    }
}

/// Whether these multipliers are a certificate of the system. Then no point meets it: this is the easy direction of Motzkin's
/// transposition theorem.
pub fn check(system: &System, certificate: &Certificate) -> bool
    ensures exact { IsTrue result ↔ IsCertificate system.now.system certificate.now }
    ensures excludes { IsTrue result → HasNoPoint system.now.system }
{
    refutes(system.columns(), system.rows(), certificate.multipliers())
}

/// Whether these multipliers are small and a certificate of the system of so many columns and these rows. Then no point meets
/// it.
pub fn refutes(columns: usize, rows: &[Row], multipliers: &[i64]) -> bool
    requires columns { columns ≤ 9 }
    requires lengths { All (λ r. length r.entries ≡ columns) rows.now }
    requires few { length rows.now ≤ 256 }
    ensures exact { IsTrue result
        ↔ (AreSmall multipliers.now × IsCertificate (record { columns = columns; rows = rows.now }) multipliers.now) }
    ensures excludes { IsTrue result → HasNoPoint (record { columns = columns; rows = rows.now }) }
{
    multipliers.len() == rows.len()
        && are_in_range(multipliers)
        && has_strict(rows, multipliers)
        && sums_are_zero(columns, rows, multipliers)
}

/// Whether the point meets each row.
pub fn holds(system: &System, point: &Point) -> bool
    requires { length point.now ≡ system.now.system.columns }
    ensures exact { IsTrue result ↔ IsWholePoint system.now.system point.now }
    ensures rational { IsTrue result ↔ IsPoint system.now.system (wholes point.now) }
{
    for row in system.rows() {
        if !meets(row, point) {
            return false;
        }
    }
    true
}

/// Whether the point meets the row.
pub fn meets(row: &Row, point: &Point) -> bool
    requires { length row.now.entries ≡ length point.now }
    ensures { IsTrue result ↔ MeetsWhole row.now point.now }
{
    let sign = row.sign_at(point);
    match row.strength() {
        Strength::Weak => sign.is_ge(),
        Strength::Strict => sign.is_gt(),
    }
}

// Whether each multiplier is from 0 to 2^59.
fn are_in_range(multipliers: &[i64]) -> bool
    ensures { IsTrue result ↔ (All (λ m. pos 0 ≤ℤ m) multipliers.now × AreSmall multipliers.now) }
{
    for multiplier in multipliers {
        if *multiplier < 0 || *multiplier > LIMIT {
            return false;
        }
    }
    true
}

// Whether some strict row has a positive multiplier.
fn has_strict(rows: &[Row], multipliers: &[i64]) -> bool
    requires { length multipliers.now ≡ length rows.now }
    ensures { IsTrue result ↔ HasStrict rows.now multipliers.now }
{
    for i in 0..rows.len() {
        let row = &rows[i];
        if row.strength() == Strength::Strict && multipliers[i] > 0 {
            return true;
        }
    }
    false
}

// Whether the multiples of the rows add up to 0 in each column.
fn sums_are_zero(columns: usize, rows: &[Row], multipliers: &[i64]) -> bool
    requires columns { columns ≤ 9 }
    requires one_each { length multipliers.now ≡ length rows.now }
    requires few { length rows.now ≤ 256 }
    requires small { AreSmall multipliers.now }
    requires lengths { All (λ r. length r.entries ≡ columns) rows.now }
    ensures { IsTrue result ↔ ((v : ℕ) → v < columns → dot multipliers.now (column v rows.now) ≡ pos 0) }
{
    let sums = sums_of(columns, rows, multipliers);
    sums[..columns].iter().all(|sum| *sum == 0)
}

// The sum of the multiples in each column. Each of the at most 256 products of two numbers of size at most 2^59 is at most
// 2^118 in size, so that each partial sum is at most 2^126 and fits 128 bits.
fn sums_of(columns: usize, rows: &[Row], multipliers: &[i64]) -> [i128; 9]
    requires columns { columns ≤ 9 }
    requires one_each { length multipliers.now ≡ length rows.now }
    requires few { length rows.now ≤ 256 }
    requires small { AreSmall multipliers.now }
    requires lengths { All (λ r. length r.entries ≡ columns) rows.now }
    ensures { (v : ℕ) → v < columns → slice_index_or result v (pos 0) ≡ dot multipliers.now (column v rows.now) }
{
    let mut sums = [0i128; 9];
    for i in 0..rows.len() {
        add_multiple(&mut sums, multipliers[i], &rows[i]);
    }
    sums
}

// Adds a multiple of a row to the sums of its columns. Most multipliers of a certificate are 0.
fn add_multiple(sums: &mut [i128; 9], multiplier: i64, row: &Row)
    requires small { IsSmall multiplier }
    requires sums { (v : ℕ) → v < length row.now.entries → unsigned_abs (slice_index_or sums.old v (pos 0)) ≤ 255 * 2 ^ 118 }
    ensures value { (v : ℕ) → v < length row.now.entries → slice_index_or sums.new v (pos 0)
        ≡ slice_index_or sums.old v (pos 0) +ℤ multiplier *ℤ slice_index_or row.now.entries v (pos 0) }
    ensures small { (v : ℕ) → v < length row.now.entries
        → unsigned_abs (multiplier *ℤ slice_index_or row.now.entries v (pos 0)) ≤ 2 ^ 118 }
{
    let columns = row.len();
    if multiplier == 0 {
        return;
    }
    for v in 0..columns {
        sums[v] += product(multiplier, row.entry(v));
    }
}

fn product(a: i64, b: i64) -> i128
    requires left { IsSmall a }
    requires right { IsSmall b }
    ensures value { result ≡ a *ℤ b }
    ensures small { unsigned_abs result ≤ 2 ^ 118 }
{
    a as i128 * b as i128
}
