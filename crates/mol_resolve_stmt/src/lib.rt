//! Statements of source files, read as statements of a program (JLS 14), with the locals that they declare.
#![tactic(auto)]

mod branches;
mod declarations;
mod headers;
mod loops;
mod parts;
mod single;
mod stmt_reader;

pub use stmt_reader::StmtReader;
