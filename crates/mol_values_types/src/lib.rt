//! Values of the cells of a program, with their trees: the types, exact copies, and which texts they may hold.
#![tactic(auto)]

mod cell;
mod copy;
mod iblock;
mod iexpr;
mod itype;
mod kind;
mod known;
mod param;
mod token_form;
mod value;
mod words;

pub use cell::{Cell, Slot};
pub use copy::copy_texts;
pub use iblock::{IBlock, IBody, IDeclarator, IElse, IForStart, IIf, ILet, IStmt, IStmtNode};
pub use iexpr::{Argument, IExpr};
pub use itype::IType;
pub use kind::{Kind, MethodKind};
pub use known::Known;
pub use param::Param;
pub use token_form::{is_comment, is_dotted, is_literal, is_name};
pub use value::Value;
pub use words::{Notes, Words};
