//! The distances of any source, as lines of text.
#![tactic(auto)]

pub mod distances;
