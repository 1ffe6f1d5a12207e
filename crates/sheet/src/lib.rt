//! What the lines of a sheet do and print.
#![tactic(auto)]

pub mod print;
pub mod run;
