//! Tests of the public calls of the crates of numbers, rows, functions and their texts: worked examples whose answers were found by hand.
//! They stand apart from those crates, so that each of them is proved once. A module has the tests of one crate.
#![tactic(auto)]

#[cfg(test)]
mod certificates;
#[cfg(test)]
mod checked_pieces;
#[cfg(test)]
mod elimination;
#[cfg(test)]
mod form_texts;
#[cfg(test)]
mod fractions;
#[cfg(test)]
mod function_texts;
#[cfg(test)]
mod functions;
#[cfg(test)]
mod linear_forms;
#[cfg(test)]
mod proof_texts;
#[cfg(test)]
mod quick_solver;
#[cfg(test)]
mod shared;
#[cfg(test)]
mod streams;
#[cfg(test)]
mod tokens;
