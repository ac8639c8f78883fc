//! The lexer: the bytes of a Java source to its tokens.
#![tactic(auto)]

mod fault;
mod scan;
mod token;

pub use fault::LexFault;
pub use scan::lex;
pub use token::Token;
