//! Names and literals; and no modifiers and no comments.
ghost use Rattle.std.specs.Prelude.{◌≡◌, [], IsTrue, IfOk};
ghost use Rattle.mol_values_types.specs.TokenForms.{is_name, is_dotted, is_literal};

use crate::fault::CaseFault;
use mol_base::{List, Text, TokenKind, text_kind};
use mol_values_types::{Notes, Words};
use std::alloc::Global;

/// This word, which is a name.
pub fn name_of(alloc: Global, word: &str) -> Result<Text, CaseFault>
    ensures { IfOk result (λ name. IsTrue (is_name name)) }
{
    match text_kind(word.as_bytes()) {
        Some(TokenKind::Word) => Ok(Text::from_str(alloc, word)?),
        _ => Err(CaseFault::Unread),
    }
}

/// This word, which is a literal.
pub fn literal_of(alloc: Global, word: &str) -> Result<Text, CaseFault>
    ensures { IfOk result (λ text. IsTrue (is_literal text)) }
{
    match text_kind(word.as_bytes()) {
        Some(TokenKind::Literal) => Ok(Text::from_str(alloc, word)?),
        _ => Err(CaseFault::Unread),
    }
}

/// This word, which is a package of the cases, or a class outside them.
#[tactic(auto, using(crate::proofs::Names::shop_dotted, crate::proofs::Names::store_dotted, crate::proofs::Names::string_dotted))]
pub fn dotted_of(alloc: Global, word: &str) -> Result<Text, CaseFault>
    ensures { IfOk result (λ name. IsTrue (is_dotted name)) }
{
    match word {
        "shop" => Ok(Text::from_str(alloc, "shop")?),
        "store" => Ok(Text::from_str(alloc, "store")?),
        "String" => Ok(Text::from_str(alloc, "String")?),
        _ => Err(CaseFault::Unread),
    }
}

/// No modifiers.
pub fn no_words(alloc: Global) -> Words
    ensures { result ≡ record { texts = [] } }
{
    Words {
        texts: List::new(alloc),
    }
}

/// No comments.
pub fn no_notes(alloc: Global) -> Notes
    ensures { result ≡ record { front = []; head = []; tail = [] } }
{
    Notes {
        front: List::new(alloc),
        head: List::new(alloc),
        tail: List::new(alloc),
    }
}
