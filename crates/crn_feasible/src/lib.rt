//! Elimination of the columns of a system, by the rule of Fourier and Motzkin: it answers a point that meets the system, or a certificate that none does.
//!
//! Each answer is checked by its own definition (a point that meets the system, or a certificate), and is elimination's own (`specs/Elimination.antt`). A limit
//! is told exactly where elimination passes it. `laws` says for which systems no limit comes.
#![tactic(auto)]

ghost use Rattle.std.specs.Prelude.{◌≡◌, length, Ok, IfOk, IsTrue};
ghost use Rattle.crn_farkas.specs.Systems.{IsRectangular, IsWholePoint, HasNoPoint};
ghost use Rattle.crn_feasible.specs.Elimination.{elimination};
ghost use Rattle.crn_feasible.specs.Answers.{Answers, IsTrueOf, IsLong, IsRefuted};
ghost use Rattle.crn_feasible.specs.Steps.{Goes};

use crn_farkas::{Certificate, System, holds};
use crn_linear::Point;
use rows::Ending;
use std::alloc::Global;
use thiserror::Error;
use two_columns::{are_short, excludes_points};

pub mod laws;
mod multipliers;
mod numbers;
mod rows;
mod two_columns;
mod values;

// The most rows of a system with two columns whose elimination keeps few rows.
const MANY_ROWS: usize = 128;

/// What is known of a system.
#[derive(Debug, Drop)]
pub enum Verdict {
    /// A point that meets it.
    Found(Point),
    /// A certificate that no point does.
    Refuted(Certificate),
}

/// Why a system was not solved.
#[derive(Clone, Copy, Debug, PartialEq, Eq, Error)]
pub enum SolveError {
    /// A number of elimination passed 2^59 in size.
    #[error("a number of the elimination is too big")]
    TooBig,
    /// Elimination kept more than 4,096 rows.
    #[error("the elimination keeps too many rows")]
    TooManyRows,
    /// Memory ran out.
    #[error("out of memory")]
    Memory,
}

/// Solves the system by elimination. What it answers, and when it refuses, is what the definition of elimination says, want of memory aside.
pub fn solve(alloc: Global, system: &System) -> Result<Verdict, SolveError>
    ensures answer { Answers result (elimination system.now.system) }
    ensures right { IfOk result (IsTrueOf system.now.system) }
    ensures long { IfOk result (IsLong system.now.system) }
{
    match eliminate(alloc, system) {
        Ok(point) => Ok(Verdict::Found(point)),
        Err(Ending::Refuted(certificate)) => Ok(Verdict::Refuted(certificate)),
        Err(Ending::TooBig) => Err(SolveError::TooBig),
        Err(Ending::TooManyRows) => Err(SolveError::TooManyRows),
        Err(Ending::Memory) => Err(SolveError::Memory),
    }
}

/// Answers the hint where it meets the system, and what `solve` answers where it does not.
pub fn solve_near(alloc: Global, system: &System, hint: &Point) -> Result<Verdict, SolveError>
    requires { length hint.now ≡ system.now.system.columns }
    ensures near { IsWholePoint system.now.system hint.now → result ≡ Ok (Verdict.Found hint.now) }
    ensures far { ¬ IsWholePoint system.now.system hint.now → Answers result (elimination system.now.system) }
    ensures right { IfOk result (IsTrueOf system.now.system) }
    ensures long { IfOk result (IsLong system.now.system) }
{
    if holds(system, hint) {
        return Ok(Verdict::Found(*hint));
    }
    solve(alloc, system)
}

/// Whether it is soon seen that elimination refutes the system, without its certificate: of two columns, at most 128 rows and entries of at most 2^14 in
/// size, where it meets no limit. `solve` tells of any system.
pub fn is_refuted(system: &System) -> bool
    ensures own { IsTrue result → IsRefuted system.now.system }
    ensures excludes { IsTrue result → HasNoPoint system.now.system }
{
    if system.columns() != 2 {
        return false;
    }
    let rows = system.rows();
    rows.len() <= MANY_ROWS && are_short(rows) && excludes_points(rows)
}

fn eliminate(alloc: Global, system: &System) -> Result<Point, Ending>
    ensures answer { Goes result (λ p. p) (elimination system.now.system) }
    ensures valid { IsRectangular system.now.system }
{
    let columns = system.columns();
    let rows = rows::start(alloc, system)?;
    let values = values::coordinates(alloc, &rows, columns)?;
    Ok(Point::of(&values.tops))
}
