//! The sheet's language: its lines, their words, the numbers that words write, and what a line asks.
#![tactic(auto)]

mod bytes;
pub mod faults;
pub mod line;
pub mod numbers;
pub mod raw;
pub mod reading;
#[cfg(test)]
mod tests;
pub mod words;
