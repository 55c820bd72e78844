//! Functions of rational amounts, given by a formula, by pieces or as the least of nonnegative forms, with their domains and
//! their exact values.
//!
//! `Function::of` answers a function exactly where the rule of functions holds of its parts, or the first limit that is passed. `value` is the function's value
//! at a point, or none where no piece holds; domains are those that `specs/Domains.antt` says.
#![tactic(auto)]

mod domain;
mod formula;
mod function;
pub mod laws;
mod pieces;

pub use domain::Domain;
pub use formula::{Formula, has_constant};
pub use function::{Function, FunctionKind, ValueError, count_conditions};
pub use pieces::{Piece, some_piece_has_constant};
