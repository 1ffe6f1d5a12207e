//! What a book is asked and answers, the plain book that it is held to, and what holds of every run.
#![tactic(auto)]

pub mod calls;
pub mod laws;
