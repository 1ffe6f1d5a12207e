//! Distance sources: what gives the stations of a network and how far two of them are apart.
#![tactic(auto)]

mod distances;
pub mod figures;
mod grid;
pub mod limits;
pub mod link;
pub mod map;
pub mod pairing;
pub mod pipe;
mod pipe_network;
pub mod refused;
mod search;
pub mod source;
pub mod table;
pub mod trunk;
