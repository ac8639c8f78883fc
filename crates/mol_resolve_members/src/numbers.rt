//! The identities of a base that classes, members, methods and parameters of source files have.

mod firsts;
mod last_declared;
mod numbers;
mod tops;
mod ways;

pub use numbers::Numbers;
