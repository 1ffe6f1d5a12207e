//! Closing a period: the allowed revenue, and what is carried on to the next.
#![tactic(auto)]

pub mod carried;
mod checked;
pub mod figures;
pub mod period;
mod settlement;
#[cfg(test)]
mod tests;
pub mod units;
