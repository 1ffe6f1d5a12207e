//! Worked examples of the definitions, and tests of what the crates do, as tables.
#![tactic(auto)]

#[cfg(test)]
mod distances;
#[cfg(test)]
mod refusals;
#[cfg(test)]
mod tables;
pub mod worked;
