//! Tests of stores of files and sinks. They stand in a crate of their own, since a crate with tests is proved twice.
#![tactic(auto)]

mod ids;
#[cfg(test)]
mod links;
#[cfg(test)]
mod stores;

pub use ids::id_of;
