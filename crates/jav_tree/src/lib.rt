//! Named syntax trees of the Java that this project reads and writes.
#![tactic(auto)]

mod bare;
mod copy;
mod expr;
mod height;
mod printed;
mod same;
mod stmt;
mod types;
mod unit;

pub use expr::{Expr, ExprNode};
pub use printed::printed_trees;
pub use stmt::{Block, Declarator, Else, ForStart, Let, Stmt, StmtNode};
pub use types::TypeName;
pub use unit::{ClassDecl, Ctor, Field, Member, Method, Param, Unit};
