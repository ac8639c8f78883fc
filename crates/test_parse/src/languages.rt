//! The languages that a text may be read in.
use jav_lex::Token;
use jav_parse::{ParseFault, parse, parse_body, parse_expr, parse_member, parse_type};
use jav_tree::{Block, Expr, Member, TypeName, Unit};
use mol_base::List;
use std::alloc::Global;

/// What the tokens are to be.
#[derive(Clone, Copy)]
pub enum Language {
    Unit,
    Member,
    Body,
    Expr,
    Type,
}

impl Language {
    /// The language of a name.
    pub fn named(name: &str) -> Option<Language> {
        match name {
            "unit" => Some(Language::Unit),
            "member" => Some(Language::Member),
            "body" => Some(Language::Body),
            "expr" => Some(Language::Expr),
            "type" => Some(Language::Type),
            _ => None,
        }
    }

    /// The fault of these tokens; `None` where they are a tree.
    pub fn fault_of(self, alloc: Global, tokens: &[Token]) -> Option<ParseFault> {
        match self {
            Language::Unit => fault_in::<Unit>(alloc, tokens),
            Language::Member => fault_in::<List<Member>>(alloc, tokens),
            Language::Body => fault_in::<Block>(alloc, tokens),
            Language::Expr => fault_in::<Expr>(alloc, tokens),
            Language::Type => fault_in::<TypeName>(alloc, tokens),
        }
    }
}

/// What tokens are read as.
pub trait Tree: Drop {
    /// The tree of these tokens, or their first fault.
    fn read(alloc: Global, tokens: &[Token]) -> Result<Self, ParseFault>;
}

/// The fault of these tokens; `None` where they are such a tree.
fn fault_in<T: Tree>(alloc: Global, tokens: &[Token]) -> Option<ParseFault> {
    T::read(alloc, tokens).err()
}

impl Tree for Unit {
    fn read(alloc: Global, tokens: &[Token]) -> Result<Unit, ParseFault> {
        parse(alloc, tokens)
    }
}

impl Tree for List<Member> {
    fn read(alloc: Global, tokens: &[Token]) -> Result<List<Member>, ParseFault> {
        parse_member(alloc, tokens)
    }
}

impl Tree for Block {
    fn read(alloc: Global, tokens: &[Token]) -> Result<Block, ParseFault> {
        parse_body(alloc, tokens)
    }
}

impl Tree for Expr {
    fn read(alloc: Global, tokens: &[Token]) -> Result<Expr, ParseFault> {
        parse_expr(alloc, tokens)
    }
}

impl Tree for TypeName {
    fn read(alloc: Global, tokens: &[Token]) -> Result<TypeName, ParseFault> {
        parse_type(alloc, tokens)
    }
}
