//! Gated minima: the least of forms without negative coefficients, of which some count only where a variable is not 0.
//!
//! A form with a gate counts as 0 where the variable of its gate is 0, however great the form's value. The gated layout computes the least by single rails, and
//! lets a form past only while there is some of a copy of the variable: the reaction of a gate takes that copy and gives it back.
#![tactic(auto)]

mod compile;
mod complete;
mod job;
pub mod laws;
mod place;
mod text;

pub use compile::compile_gated;
pub use complete::{GatedError, complete_gated};
use crn_linear::Form;
pub use job::{GatedJob, GatedJobError, read_gated_job};
pub use text::{GatedTextError, read_gated, read_gated_lines};

/// A form, and the number from 1 of the variable of its gate, where it has one.
#[derive(Debug, Drop)]
pub struct GatedForm {
    pub form: Form,
    pub gate: Option<usize>,
}

/// The least of forms over so many variables.
#[derive(Debug, Drop)]
pub struct GatedFunction {
    pub variables: usize,
    pub forms: Vec<GatedForm>,
}
