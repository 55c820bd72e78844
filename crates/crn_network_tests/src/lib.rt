//! Tests of the public calls of the crates of networks and jobs: worked examples whose answers were found by hand. They stand apart from those crates, so that
//! each of them is proved once. A module has the tests of one crate.
#![tactic(auto)]

#[cfg(test)]
mod completions;
#[cfg(test)]
mod direct_networks;
#[cfg(test)]
mod drawn_jobs;
#[cfg(test)]
mod formula_networks;
#[cfg(test)]
mod gated_functions;
#[cfg(test)]
mod gates;
#[cfg(test)]
mod jobs;
#[cfg(test)]
mod network_texts;
#[cfg(test)]
mod networks;
#[cfg(test)]
mod segments;
#[cfg(test)]
mod shared;
