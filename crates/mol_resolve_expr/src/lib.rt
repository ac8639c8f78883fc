//! Expressions of source files, read as expressions of a program (JLS 6.5, 15): each name by the rules, and members of a value by its
//! static type. What names mean at a place, an implementation of `Names` answers.
#![tactic(auto)]

mod binary;
mod calls;
mod choice;
mod dots;
mod expr_reader;
mod indexes;
mod listed;
mod stand;
mod unary;

pub use expr_reader::ExprReader;
