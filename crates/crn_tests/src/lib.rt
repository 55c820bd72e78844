//! Tests of the public calls of the crates from pieces to networks: worked examples whose answers were found by hand. They stand apart from those crates, so
//! that each of them is proved once.
#![tactic(auto)]

#[cfg(test)]
mod compiled_functions;
#[cfg(test)]
mod max_min_formulas;
#[cfg(test)]
mod normal_forms;
#[cfg(test)]
mod same_functions;
#[cfg(test)]
mod shared;
#[cfg(test)]
mod superadditive;
