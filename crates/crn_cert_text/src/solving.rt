//! One question: a point of a system, or a certificate that there is none.

ghost use Rattle.std.specs.Prelude.{◌≡◌, ◌≤◌, length, All, MatchResult};
ghost use Rattle.crn_formula.specs.Pieces.{columns_of};
ghost use Rattle.crn_pieces.specs.Systems.{system_over};
ghost use Rattle.crn_pieces.specs.Answers.{IsUnsolved};
ghost use Rattle.crn_cert_text.specs.Making.{IsVerdict};

use crn_feasible::Verdict;
use crn_formula::Domain;
use crn_linear::Row;
use crn_pieces::{Unsolved, system_of};
use crn_simplex::Solver;
use std::alloc::Global;

/// A point of the domain that meets these rows, or a certificate that there is none.
pub fn ask(
    alloc: Global,
    solver: &mut Solver,
    domain: &Domain,
    rows: &[Row],
) -> Result<Verdict, Unsolved>
    requires lengths { All (λ r. length r.entries ≡ columns_of domain.now) rows.now }
    requires few { length rows.now ≤ 248 }
    ensures { MatchResult result
        (IsVerdict (system_over domain.now rows.now))
        (IsUnsolved (λ s. s ≡ system_over domain.now rows.now)) }
{
    let system = system_of(alloc, domain, rows)?;
    match solver.solve(alloc, &system) {
        Ok(verdict) => Ok(verdict),
        Err(error) => Err(Unsolved::of(error, system)),
    }
}
