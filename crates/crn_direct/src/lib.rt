//! Direct compilation: the least of forms without negative coefficients, to networks in which a number is the amount of one species.
//!
//! `compile_direct` answers the direct layout: a copy of an input wherever a form takes one, a species for each form, and one for each minimum. The layout
//! stably computes the least value of the forms: from every state that a run reaches, the completion is a run whose output is that value.
#![tactic(auto)]

mod compile;
pub mod laws;

pub use compile::{compile_direct, push_variables, terms_on};
