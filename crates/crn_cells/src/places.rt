//! One form more in the order of a cell, at each place at which the domain has it.
//!
//! A cell is convex, so these places follow one another (`laws::places_between`). They are asked for from the place at the cell's own point upward and then
//! downward, each time up to the first that is refuted behind one that is not.

ghost use Rattle.std.specs.Prelude.{◌≡◌, ◌<◌, ◌≤◌, suc, length, All, IfOk, IfErr, MatchOption, MatchResult};
ghost use Rattle.crn_formula.specs.Pieces.{columns_of};
ghost use Rattle.crn_cells.specs.Cells.{IsMet};
ghost use Rattle.crn_cells.specs.Insertion.{put_in, ComesBetween, Extends};
ghost use Rattle.crn_cells.specs.Answers.{order_of, IsPartCell, IsInserted, AreExtensions, IsRefused};

use crate::asking::{ask, order_system};
use crate::differences::Differences;
use crate::{Cell, CellsError};
use crn_formula::Domain;
use crn_simplex::Solver;
use std::alloc::Global;

/// The cells of one form more into which a cell falls, each with a point.
pub fn insertions(
    alloc: Global,
    solver: &mut Solver,
    domain: &Domain,
    differences: &Differences,
    cell: &Cell,
) -> Result<Vec<Cell>, CellsError>
    requires few { length differences.now ≤ 12 }
    requires long { All (λ f. length f ≡ columns_of domain.now) differences.now }
    requires next { length (order_of cell.now) < length differences.now }
    requires cell { IsPartCell domain.now differences.now (length (order_of cell.now)) cell.now }
    ensures cells { IfOk result (λ found.
        AreExtensions domain.now differences.now cell.now (Extends (order_of cell.now)) found.items) }
    ensures refusal { IfErr result (IsRefused domain.now differences.now) }
{
    let start = place_at_point(differences, cell);
    let found = insert_upward(alloc, solver, domain, differences, cell, start)?;
    insert_downward(alloc, solver, domain, differences, cell, start, found)
}

// How many forms of the cell's order are below the next one at its point.
fn place_at_point(differences: &Differences, cell: &Cell) -> usize
    requires long { All (λ f. length f ≡ length cell.now.point) differences.now }
    requires next { length (order_of cell.now) < length differences.now }
    requires within { All (λ i. i < length differences.now) (order_of cell.now) }
    ensures { result ≤ length (order_of cell.now) }
{
    let next = cell.order.len();
    for place in 0..next {
        let step = differences.row(cell.order[place], next);
        if !step.sign_at(&cell.point).is_gt() {
            return place;
        }
    }
    next
}

// The cells by the places from this one on.
fn insert_upward(
    alloc: Global,
    solver: &mut Solver,
    domain: &Domain,
    differences: &Differences,
    cell: &Cell,
    start: usize,
) -> Result<Vec<Cell>, CellsError>
    requires few { length differences.now ≤ 12 }
    requires long { All (λ f. length f ≡ columns_of domain.now) differences.now }
    requires next { length (order_of cell.now) < length differences.now }
    requires cell { IsPartCell domain.now differences.now (length (order_of cell.now)) cell.now }
    requires start { start ≤ length (order_of cell.now) }
    ensures cells { IfOk result (λ found. AreExtensions domain.now differences.now cell.now
        (ComesBetween start (suc (length (order_of cell.now))) (order_of cell.now)) found.items) }
    ensures refusal { IfErr result (IsRefused domain.now differences.now) }
{
    let mut found = Vec::new(alloc);
    for place in start..cell.order.len() + 1 {
        match insert(alloc, solver, domain, differences, cell, place)? {
            Some(inserted) => found.push(inserted)?,
            None => {
                if !found.is_empty() {
                    return Ok(found);
                }
            }
        }
    }
    Ok(found)
}

// The cells by all places: those by the places from this one on, and behind them those by the places below it.
fn insert_downward(
    alloc: Global,
    solver: &mut Solver,
    domain: &Domain,
    differences: &Differences,
    cell: &Cell,
    start: usize,
    above: Vec<Cell>,
) -> Result<Vec<Cell>, CellsError>
    requires few { length differences.now ≤ 12 }
    requires long { All (λ f. length f ≡ columns_of domain.now) differences.now }
    requires next { length (order_of cell.now) < length differences.now }
    requires cell { IsPartCell domain.now differences.now (length (order_of cell.now)) cell.now }
    requires start { start ≤ length (order_of cell.now) }
    requires above { AreExtensions domain.now differences.now cell.now
        (ComesBetween start (suc (length (order_of cell.now))) (order_of cell.now)) above.items }
    ensures cells { IfOk result (λ found.
        AreExtensions domain.now differences.now cell.now (Extends (order_of cell.now)) found.items) }
    ensures refusal { IfErr result (IsRefused domain.now differences.now) }
{
    let mut found = above;
    for place in (0..start).rev() {
        match insert(alloc, solver, domain, differences, cell, place)? {
            Some(inserted) => found.push(inserted)?,
            None => {
                if !found.is_empty() {
                    return Ok(found);
                }
            }
        }
    }
    Ok(found)
}

// The cell by one place, where the domain has it.
fn insert(
    alloc: Global,
    solver: &mut Solver,
    domain: &Domain,
    differences: &Differences,
    cell: &Cell,
    place: usize,
) -> Result<Option<Cell>, CellsError>
    requires few { length differences.now ≤ 12 }
    requires long { All (λ f. length f ≡ columns_of domain.now) differences.now }
    requires next { length (order_of cell.now) < length differences.now }
    requires cell { IsPartCell domain.now differences.now (length (order_of cell.now)) cell.now }
    requires place { place ≤ length (order_of cell.now) }
    ensures { MatchResult result
        (λ found. MatchOption found
        (¬ IsMet domain.now differences.now (suc (length (order_of cell.now)))
        (put_in place (length (order_of cell.now)) (order_of cell.now)))
        (IsInserted domain.now differences.now (length (order_of cell.now)) place cell.now))
        (IsRefused domain.now differences.now) }
{
    let next = cell.order.len();
    let mut order = Vec::with_capacity(alloc, next + 1)?;
    order.extend_from_slice(&cell.order)?;
    order.insert(place, next)?;
    let system = order_system(alloc, domain, differences, &order)?;
    match ask(alloc, solver, system, &cell.point)? {
        Some(point) => Ok(Some(Cell { order, point })),
        None => Ok(None),
    }
}
