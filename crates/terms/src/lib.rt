//! The words that every part of the book uses: measures, sides and kinds, rounding, and the faults with their numbers.
#![tactic(auto)]

pub mod faults;
pub mod measures;
pub mod points;
pub mod refusals;
pub mod rounding;
#[cfg(test)]
mod tests;
