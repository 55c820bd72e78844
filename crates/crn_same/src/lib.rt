//! Whether two functions are the same.
//!
//! Each function is taken as a formula: the given one, or the max-min formula of pieces that cover their domain and agree on it. The
//! one formula is above the other at a point exactly where all forms of some set are above 0 there, of the sets of the normal form of
//! their difference. So the formulas are equal on a domain exactly where, for neither difference, the system of a set has a point:
//! the rows of the domain, and that each form of the set is above 0. `same` asks these systems in order. Where none has a point, the
//! functions have one value at all amounts (`AreSame`); a point that is found is one at which their values differ (`IsDifference`);
//! and every other end of the search has its cause (`specs/Functions.antt`). `laws` has what holds of all functions: there is an
//! answer for each two, and one but for the point of a difference and for limits of solving.
#![tactic(auto)]

ghost use Rattle.std.specs.Prelude.{◌≡◌};

use crn_farkas::System;
use crn_fraction::TooBig;
use crn_linear::Point;
use crn_maxmin::MaxminError;
use crn_normal::NormalError;
use crn_pieces::PiecesError;
use std::alloc::{AllocError, AllocFailed};
use thiserror::Error;

mod differences;
mod functions;
pub mod laws;
mod questions;

pub use functions::same;

/// Why two functions are not shown to be the same. They are dropped then.
#[derive(Debug, Drop, Error)]
pub enum SameError {
    /// The pieces of function 1 or 2 are refused.
    #[error("the pieces of function {which} are refused")]
    Pieces { which: usize, error: PiecesError },
    /// The pieces of function 1 or 2 have no formula.
    #[error("the pieces of function {which} have no formula")]
    Maxmin { which: usize, error: MaxminError },
    /// More than 64 sets are left at a step of a normal form.
    #[error("{count} sets are left")]
    TooManySets { count: usize },
    /// A set of a normal form has more than 64 forms.
    #[error("a set has {count} forms or more")]
    TooManyForms { count: usize },
    /// A coefficient of a normal form does not fit a fraction, or the row of a form does not clear within 2^59.
    #[error("a form is too big")]
    TooBigForm,
    /// The values differ at this point.
    #[error("the functions differ")]
    Differ { point: Point },
    /// A number of the elimination of this system passed 2^59 in size.
    #[error("a number of an elimination is too big")]
    TooBig { system: System },
    /// The elimination of this system kept more than 4,096 rows.
    #[error("an elimination keeps too many rows")]
    TooManyRows { system: System },
    /// Memory ran out.
    #[error("out of memory")]
    Memory,
}

impl From<AllocError> for SameError {
    ghost use Rattle.crn_same.specs.declared.SameError.TheVariants.{Memory};

    ghost from_gives = { λ _ e. e ≡ Memory };

    fn from(_error: AllocError) -> SameError {
        SameError::Memory
    }
}

impl<T: Drop> From<AllocFailed<T>> for SameError {
    ghost use Rattle.crn_same.specs.declared.SameError.TheVariants.{Memory};

    ghost from_gives = { λ _ e. e ≡ Memory };

    fn from(_error: AllocFailed<T>) -> SameError {
        SameError::Memory
    }
}

impl From<TooBig> for SameError {
    ghost use Rattle.crn_same.specs.declared.SameError.TheVariants.{TooBigForm};

    ghost from_gives = { λ _ e. e ≡ TooBigForm };

    fn from(_error: TooBig) -> SameError {
        SameError::TooBigForm
    }
}

impl From<NormalError> for SameError {
    ghost use Rattle.crn_same.specs.Answers.{refusal_of};

    ghost from_gives = { λ n e. e ≡ refusal_of n };

    fn from(error: NormalError) -> SameError {
        match error {
            NormalError::TooBig => SameError::TooBigForm,
            NormalError::TooManyForms { count } => SameError::TooManyForms { count },
            NormalError::TooManySets { count } => SameError::TooManySets { count },
            NormalError::Memory => SameError::Memory,
        }
    }
}
