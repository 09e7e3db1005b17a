//! What is told of a family whose transitions are given in several orders: for each run what its check
//! found, and for each product whether its column is the one of the given order.
#![tactic(auto)]

pub mod lines;
pub mod orders;
