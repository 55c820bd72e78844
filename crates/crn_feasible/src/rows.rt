//! The rows that elimination makes, and the lists that it takes them into.

ghost use Rattle.std.specs.Prelude.{◌≡◌, ◌≤◌, ◌<◌, ◌^◌, false, pos, [], unsigned_abs, Ok, length, map, IsTrue, OnOk, IfOk, MatchOption};
ghost use Rattle.std.specs.List.{All, list_all, filter, flat_map};
ghost use Rattle.std.specs.Ordering.{int_eq};
ghost use Rattle.crn_linear.specs.Rows.{IsSmall, AreSmall};
ghost use Rattle.crn_linear.specs.Views.{HasColumns, padded};
ghost use Rattle.crn_farkas.specs.Mixtures.{mixed};
ghost use Rattle.crn_feasible.specs.Elimination.{fits, kept_with, take_row, take_rows, zeros, positives, negatives, combined, without, started};
ghost use Rattle.crn_linear.specs.Cleared.{over};
ghost use Rattle.crn_feasible.specs.Steps.{Goes, Combines, Takes, Certifies, kept, kept_of, list_of, direction_of, first_row, mixed_rows, is_negative_at, IsMade, IsKeptRow, IsShort, AreShort, IsList, HasShape};
ghost use Rattle.crn_feasible.specs.Sparse.{spread, IsSparse};

use crate::multipliers::{divide_multipliers, mix_multipliers, spread};
use crate::numbers::{common_of, common_with, mix, over_divisor, short_mix};
use crn_farkas::{Certificate, System};
use crn_linear::{Row, Strength, without_divisor};
use indexmap::IndexSet;
use std::alloc::{AllocError, Global};

// The greatest number of rows in a list.
const MAX_ROWS: usize = 4096;

// The greatest size of a number of a short row: sums of two products of such fit 64 bits.
const SHORT: u64 = 1 << 29;

/// How elimination ends before it has a point.
#[derive(Drop)]
pub enum Ending {
    Refuted(Certificate),
    TooBig,
    TooManyRows,
    Memory,
}

/// A row that was made of the rows of the system.
#[derive(Drop)]
pub struct KeptRow {
    /// Nine places, of which those of the columns count.
    pub entries: [i64; 9],
    /// The multipliers of the rows of the system that it was made of, each after the place of its row.
    pub multipliers: Vec<(usize, i64)>,
    pub strict: bool,
}

/// Room for the multipliers of one combination, before and after they are divided.
#[derive(Drop)]
pub struct Buffers {
    mixed: Vec<(usize, i128)>,
    divided: Vec<(usize, i64)>,
}

impl Buffers {
    fn new(alloc: Global) -> Buffers {
        Buffers {
            mixed: Vec::new(alloc),
            divided: Vec::new(alloc),
        }
    }
}

/// The direction of a row, with 0 in the columns past the last, and its strength.
#[derive(Clone, Copy, Debug, PartialEq, Eq, Hash)]
pub struct Direction {
    pub entries: [i64; 9],
    pub strict: bool,
}

/// Rows of so many columns that were made of so many rows of the system, no two of one direction and strength.
#[derive(Drop)]
pub struct RowList {
    pub columns: usize,
    pub sources: usize,
    pub rows: Vec<KeptRow>,
    pub seen: IndexSet<Direction>,
}

fn is_zero(entries: &[i64]) -> bool
    ensures { result ≡ list_all (λ x. int_eq x (pos 0)) entries.now }
{
    entries.iter().all(|x| *x == 0)
}

fn direction_of(entries: &[i64], strict: bool) -> Direction
    requires small { AreSmall entries.now }
    requires few { length entries.now ≤ 9 }
    ensures { result ≡ direction_of entries.now strict }
{
    Direction {
        entries: without_divisor(entries),
        strict,
    }
}

// Whether all numbers of each row are at most 2^29 in size.
fn are_short(rows: &[KeptRow], columns: usize) -> bool
    requires few { columns ≤ 9 }
    ensures { IsTrue result → All (IsShort columns) rows.now }
{
    for row in rows {
        if !is_short(row, columns) {
            return false;
        }
    }
    true
}

fn is_short(row: &KeptRow, columns: usize) -> bool
    requires few { columns ≤ 9 }
    ensures { IsTrue result → IsShort columns row.now }
{
    have_short_entries(&row.entries[..columns]) && have_short_multipliers(&row.multipliers)
}

fn have_short_entries(entries: &[i64]) -> bool
    ensures { IsTrue result → All (λ z. unsigned_abs z ≤ 2 ^ 29) entries.now }
{
    entries.iter().all(|entry| entry.unsigned_abs() <= SHORT)
}

fn have_short_multipliers(multipliers: &[(usize, i64)]) -> bool
    ensures { IsTrue result → All (λ m. unsigned_abs m.1 ≤ 2 ^ 29) multipliers.now }
{
    multipliers
        .iter()
        .all(|multiplier| multiplier.1.unsigned_abs() <= SHORT)
}

// A times the first numbers plus b times the second, all short, and 0 past the last.
fn short_sums(a: i64, p: &[i64], b: i64, n: &[i64]) -> [i64; 9]
    requires a_short { unsigned_abs a ≤ 2 ^ 29 }
    requires b_short { unsigned_abs b ≤ 2 ^ 29 }
    requires first { All (λ z. unsigned_abs z ≤ 2 ^ 29) p.now }
    requires second { All (λ z. unsigned_abs z ≤ 2 ^ 29) n.now }
    requires same { length p.now ≡ length n.now }
    requires few { length p.now ≤ 9 }
    ensures sums { result ≡ padded (pos 0) (mixed a p.now b n.now) }
    ensures small { AreSmall (mixed a p.now b n.now) }
{
    let mut sums = [0i64; 9];
    for i in 0..p.len() {
        sums[i] = short_mix(a, p[i], b, n[i]);
    }
    sums
}

// The entries of a times the first row plus b times the second, over a divisor, where each is then small.
fn divided_entries(a: i64, p: &[i64], b: i64, n: &[i64], divisor: u128) -> Option<[i64; 9]>
    requires a_small { IsSmall a }
    requires b_small { IsSmall b }
    requires first { AreSmall p.now }
    requires second { AreSmall n.now }
    requires same { length p.now ≡ length n.now }
    requires few { length p.now ≤ 9 }
    requires divisor { divisor ≤ 2 ^ 119 }
    ensures { let entries = over divisor (mixed a p.now b n.now) in MatchOption result (list_all fits entries ≡ false) (λ places. (places ≡ padded (pos 0) entries) × AreSmall entries) }
{
    let mut places = [0i64; 9];
    for i in 0..p.len() {
        let number = mix(a, p[i], b, n[i]);
        let Some(part) = over_divisor(number, divisor) else {
            return None;
        };
        places[i] = part;
    }
    Some(places)
}

fn refuted(alloc: Global, sources: usize, multipliers: &[(usize, i64)]) -> Ending
    requires { IsSparse sources multipliers.now }
    ensures { Certifies result (spread 0 sources multipliers.now) }
{
    match spread(alloc, sources, multipliers) {
        Ok(multipliers) => Ending::Refuted(Certificate::of(multipliers)),
        Err(_) => Ending::Memory,
    }
}

impl RowList {
    fn new(alloc: Global, columns: usize, sources: usize) -> RowList
        requires columns { columns ≤ 9 }
        ensures list { IsList result }
        ensures shape { HasShape result columns sources }
        ensures empty { list_of result ≡ [] }
    {
        RowList {
            columns,
            sources,
            rows: Vec::new(alloc),
            seen: IndexSet::new(alloc),
        }
    }

    // Takes a row that was divided already.
    fn take(
        &mut self,
        alloc: Global,
        entries: [i64; 9],
        multipliers: &[(usize, i64)],
        strict: bool,
    ) -> Result<(), Ending>
        requires made { IsMade self.old.columns self.old.sources entries multipliers.now }
        requires list { IsList self.old }
        ensures taken { Takes result (kept_with (list_of self.old) (kept self.old.columns self.old.sources entries multipliers.now strict)) self.new }
        ensures list { OnOk result (IsList self.new × HasShape self.new self.old.columns self.old.sources) }
    {
        let used = &entries[..self.columns];
        if is_zero(used) {
            if strict {
                return Err(refuted(alloc, self.sources, multipliers));
            }
            return Ok(());
        }
        let Ok((_, added)) = self.seen.insert_full(direction_of(used, strict)) else {
            return Err(Ending::Memory);
        };
        if !added {
            return Ok(());
        }
        if self.rows.len() >= MAX_ROWS {
            return Err(Ending::TooManyRows);
        }
        let Ok(multipliers) = Vec::from_slice(alloc, multipliers) else {
            return Err(Ending::Memory);
        };
        let row = KeptRow {
            entries,
            multipliers,
            strict,
        };
        if self.rows.push(row).is_err() {
            return Err(Ending::Memory);
        }
        Ok(())
    }

    // Takes a row of the system, which is once itself.
    fn take_own(&mut self, alloc: Global, row: &Row, index: usize) -> Result<(), Ending>
        requires columns { length row.now.entries ≡ self.old.columns }
        requires index { index < self.old.sources }
        requires list { IsList self.old }
        ensures taken { Takes result (take_row (list_of self.old) (first_row row.now index self.old.sources)) self.new }
        ensures list { OnOk result (IsList self.new × HasShape self.new self.old.columns self.old.sources) }
    {
        self.take(alloc, entries_of(row), &[(index, 1)], is_strict(row))
    }

    // The entries of a times the first row plus b times the second, over the greatest common divisor of all their numbers. The multipliers are written to the buffers.
    fn combine(
        &self,
        buffers: &mut Buffers,
        a: i64,
        p: &KeptRow,
        b: i64,
        n: &KeptRow,
    ) -> Result<[i64; 9], Ending>
        requires a_small { IsSmall a }
        requires b_small { IsSmall b }
        requires first { IsKeptRow self.now.columns self.now.sources p.now }
        requires second { IsKeptRow self.now.columns self.now.sources n.now }
        requires few { self.now.columns ≤ 9 }
        ensures { Combines result self.now.columns self.now.sources (mixed_rows a (kept_of self.now.columns self.now.sources p.now) b (kept_of self.now.columns self.now.sources n.now)) buffers.new.divided.items }
    {
        let first = &p.entries[..self.columns];
        let second = &n.entries[..self.columns];
        let mixed = &mut buffers.mixed;
        if mix_multipliers(mixed, a, &p.multipliers, b, &n.multipliers).is_err() {
            return Err(Ending::Memory);
        }
        let common = common_with(common_of(a, first, b, second), mixed);
        let Some(entries) = divided_entries(a, first, b, second, common) else {
            return Err(Ending::TooBig);
        };
        divide_multipliers(&mut buffers.divided, mixed, common)?;
        Ok(entries)
    }

    // Whether a times the first row plus b times the second adds nothing to the list: it is a weak row of zeros, or one of its direction and strength
    // is there.
    fn drops(&self, a: i64, p: &KeptRow, b: i64, n: &KeptRow) -> bool
        requires short { AreShort self.now.columns a p.now b n.now }
        requires first { IsKeptRow self.now.columns self.now.sources p.now }
        requires second { IsKeptRow self.now.columns self.now.sources n.now }
        requires list { IsList self.now }
        ensures { IsTrue result → take_row (list_of self.now) (mixed_rows a (kept_of self.now.columns self.now.sources p.now) b (kept_of self.now.columns self.now.sources n.now)) ≡ Ok (list_of self.now) }
    {
        let sums = short_sums(a, &p.entries[..self.columns], b, &n.entries[..self.columns]);
        let used = &sums[..self.columns];
        let strict = p.strict || n.strict;
        if is_zero(used) {
            return !strict;
        }
        self.seen.contains(&direction_of(used, strict))
    }

    // Takes a times the first row plus b times the second. Where the rows are short, it is told first whether that adds nothing.
    fn take_mixed(
        &mut self,
        alloc: Global,
        buffers: &mut Buffers,
        a: i64,
        p: &KeptRow,
        b: i64,
        n: &KeptRow,
        short: bool,
    ) -> Result<(), Ending>
        requires a_small { IsSmall a }
        requires b_small { IsSmall b }
        requires first { IsKeptRow self.old.columns self.old.sources p.now }
        requires second { IsKeptRow self.old.columns self.old.sources n.now }
        requires short { IsTrue short → AreShort self.old.columns a p.now b n.now }
        requires list { IsList self.old }
        ensures taken { Takes result (take_row (list_of self.old) (mixed_rows a (kept_of self.old.columns self.old.sources p.now) b (kept_of self.old.columns self.old.sources n.now))) self.new }
        ensures list { OnOk result (IsList self.new × HasShape self.new self.old.columns self.old.sources) }
    {
        if short && self.drops(a, p, b, n) {
            return Ok(());
        }
        let entries = self.combine(buffers, a, p, b, n)?;
        self.take(alloc, entries, &buffers.divided, p.strict || n.strict)
    }
}

// The entries, and 0 past the last.
fn entries_of(row: &Row) -> [i64; 9]
    ensures entries { result ≡ padded (pos 0) row.now.entries }
    ensures small { AreSmall row.now.entries }
    ensures columns { HasColumns row.now.entries }
{
    let mut places = [0i64; 9];
    for column in 0..row.len() {
        places[column] = row.entry(column);
    }
    places
}

/// Whether the row is strict.
pub fn is_strict(row: &Row) -> bool
    ensures { result ≡ row.now.strict }
{
    row.strength() == Strength::Strict
}

/// The rows of the system, taken into the first list.
pub fn start(alloc: Global, system: &System) -> Result<RowList, Ending>
    ensures taken { Goes result list_of (take_rows [] (started 0 system.now.system.rows)) }
    ensures list { IfOk result IsList }
    ensures shape { IfOk result (λ l. l.columns ≡ system.now.system.columns) }
{
    let rows = system.rows();
    let mut list = RowList::new(alloc, system.columns(), rows.len());
    for i in 0..rows.len() {
        list.take_own(alloc, &rows[i], i)?;
    }
    Ok(list)
}

/// The rows without column v: those with entry 0 there, and then each row with a positive entry combined with each with a negative one.
pub fn without(alloc: Global, list: &RowList, v: usize) -> Result<RowList, Ending>
    requires column { v < list.now.columns }
    requires list { IsList list.now }
    ensures taken { Goes result list_of (take_rows [] (without v (list_of list.now))) }
    ensures list { IfOk result IsList }
    ensures shape { IfOk result (λ l. l.columns ≡ list.now.columns) }
{
    let mut rest = RowList::new(alloc, list.columns, list.sources);
    let mut buffers = Buffers::new(alloc);
    take_zeros(alloc, &mut rest, &mut buffers, &list.rows, v)?;
    take_pairs(alloc, &mut rest, &mut buffers, &list.rows, v)?;
    Ok(rest)
}

fn take_zeros(
    alloc: Global,
    rest: &mut RowList,
    buffers: &mut Buffers,
    rows: &[KeptRow],
    v: usize,
) -> Result<(), Ending>
    requires column { v < rest.old.columns }
    requires list { IsList rest.old }
    requires rows { All (IsKeptRow rest.old.columns rest.old.sources) rows.now }
    ensures taken { Takes result (take_rows (list_of rest.old) (zeros v (map (kept_of rest.old.columns rest.old.sources) rows.now))) rest.new }
    ensures list { OnOk result (IsList rest.new × HasShape rest.new rest.old.columns rest.old.sources) }
{
    for row in rows {
        if row.entries[v] == 0 {
            rest.take_mixed(alloc, buffers, 1, row, 0, row, false)?;
        }
    }
    Ok(())
}

fn take_pairs(
    alloc: Global,
    rest: &mut RowList,
    buffers: &mut Buffers,
    rows: &[KeptRow],
    v: usize,
) -> Result<(), Ending>
    requires column { v < rest.old.columns }
    requires list { IsList rest.old }
    requires rows { All (IsKeptRow rest.old.columns rest.old.sources) rows.now }
    ensures taken { Takes result (take_rows (list_of rest.old) (flat_map (λ p. map (combined v p) (negatives v (map (kept_of rest.old.columns rest.old.sources) rows.now))) (positives v (map (kept_of rest.old.columns rest.old.sources) rows.now)))) rest.new }
    ensures list { OnOk result (IsList rest.new × HasShape rest.new rest.old.columns rest.old.sources) }
{
    let short = are_short(rows, rest.columns);
    let Ok(negatives) = negatives_of(alloc, rows, v) else {
        return Err(Ending::Memory);
    };
    for row in rows {
        if row.entries[v] > 0 {
            take_pairs_of(alloc, rest, buffers, row, &negatives, v, short)?;
        }
    }
    Ok(())
}

// The rows with a negative entry, in order.
fn negatives_of(alloc: Global, rows: &[KeptRow], v: usize) -> Result<Vec<&KeptRow>, AllocError>
    requires { v < 9 }
    ensures { IfOk result (λ found. map (λ r. r.now) found.items ≡ filter (is_negative_at v) rows.now) }
{
    let mut found = Vec::new(alloc);
    for row in rows {
        if row.entries[v] < 0 {
            found.push(row)?;
        }
    }
    Ok(found)
}

// Takes the combinations of one row with each of those that have a negative entry.
fn take_pairs_of(
    alloc: Global,
    rest: &mut RowList,
    buffers: &mut Buffers,
    p: &KeptRow,
    negatives: &[&KeptRow],
    v: usize,
    short: bool,
) -> Result<(), Ending>
    requires column { v < rest.old.columns }
    requires list { IsList rest.old }
    requires rows { All (λ r. IsKeptRow rest.old.columns rest.old.sources r.now) negatives.now }
    requires row { IsKeptRow rest.old.columns rest.old.sources p.now }
    requires short_rows { IsTrue short → All (λ r. IsShort rest.old.columns r.now) negatives.now }
    requires short_row { IsTrue short → IsShort rest.old.columns p.now }
    ensures taken { Takes result (take_rows (list_of rest.old) (map (λ r. combined v (kept_of rest.old.columns rest.old.sources p.now) (kept_of rest.old.columns rest.old.sources r.now)) negatives.now)) rest.new }
    ensures list { OnOk result (IsList rest.new × HasShape rest.new rest.old.columns rest.old.sources) }
{
    let lead = p.entries[v];
    for row in negatives {
        rest.take_mixed(alloc, buffers, -row.entries[v], p, lead, row, short)?;
    }
    Ok(())
}
