//! Dual compilation: formulas to networks in which a number is the difference of the amounts of two species.
//!
//! `compile_formula` answers the layout of a formula: species of the inputs and of the context, a copy of them wherever a leaf takes one, and a gate for each
//! node. The layout stably computes the formula: from every state that a run reaches, the completion is a run whose output is the formula's value.
#![tactic(auto)]

mod compile;
pub mod laws;

pub use compile::compile_formula;
