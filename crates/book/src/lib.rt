//! A tariff book over any distance source: its five calls, and runs of them, held to the plain book.
#![tactic(auto)]

mod closing;
mod drawing;
pub mod laws;
mod ledger;
pub mod limits;
mod opening;
mod pass;
mod planning;
mod reading;
mod record;
mod relieving;
mod row;
mod table;
#[cfg(test)]
mod tests;
mod weighing;

pub use ledger::{Book, replay};
pub use reading::Point;
