//! Parts of operations, in their forms.
ghost use Rattle.std.specs.Prelude.{◌≡◌, true, [], IsTrue, IfOk};
ghost use Rattle.std.specs.Option.{option_map_or};
ghost use Rattle.mol_op.specs.Kept.{may_be_params};
ghost use Rattle.mol_table_rules.specs.StatementForms.{is_body};
ghost use Rattle.mol_values_types.specs.TokenForms.{is_name, is_dotted, is_literal};
ghost use Rattle.mol_table_rules.specs.Forms.{is_param};
ghost use Rattle.mol_table_rules.specs.TypeForms.{is_class, is_type};

use crate::fault::CaseFault;
use mol_base::{Id, List, OutOfMemory, Tag, Text, TokenKind, text_kind};
use mol_values_types::{IBlock, IBody, IType, Notes, Param, Words};
use std::alloc::Global;

/// The identity of the base with this number.
pub fn base_id(num: u32) -> Id {
    Id {
        tag: Tag::base(),
        num,
    }
}

/// A name.
pub fn name_of(alloc: Global, word: &str) -> Result<Text, CaseFault>
    ensures { IfOk result (λ name. IsTrue (is_name name)) }
{
    match text_kind(word.as_bytes()) {
        Some(TokenKind::Word) => Ok(Text::from_str(alloc, word)?),
        _ => Err(CaseFault::Unread),
    }
}

/// A literal.
pub fn literal_of(alloc: Global, word: &str) -> Result<Text, CaseFault>
    ensures { IfOk result (λ text. IsTrue (is_literal text)) }
{
    match text_kind(word.as_bytes()) {
        Some(TokenKind::Literal) => Ok(Text::from_str(alloc, word)?),
        _ => Err(CaseFault::Unread),
    }
}

/// The package of all classes.
#[tactic(auto, using(crate::proofs::Names::shop_dotted))]
pub fn package(alloc: Global) -> Result<Text, OutOfMemory>
    ensures { IfOk result (λ text. IsTrue (is_dotted text)) }
{
    Text::from_str(alloc, "shop")
}

/// A class of the base as a type.
#[tactic(auto, using(crate::proofs::Types::class_type))]
pub fn class_type(num: u32) -> IType
    ensures { IsTrue (is_type result) }
{
    IType::Class(base_id(num))
}

/// A class of the base as a superclass, or none.
#[tactic(auto, using(crate::proofs::Types::class_is_class))]
pub fn superclass(num: Option<u32>) -> Option<IType>
    ensures { IsTrue (option_map_or is_class result true) }
{
    match num {
        Some(num) => Some(IType::Class(base_id(num))),
        None => None,
    }
}

/// The type of a parameter: a class of the base, or `int`.
#[tactic(auto, using(crate::proofs::Types::int_type))]
fn param_type(class: Option<u32>) -> IType
    ensures { IsTrue (is_type result) }
{
    match class {
        Some(num) => class_type(num),
        None => IType::Int,
    }
}

/// No modifiers.
pub fn no_words(alloc: Global) -> Words
    ensures { result ≡ record { texts = [] } }
{
    Words {
        texts: List::new(alloc),
    }
}

/// No comments.
pub fn no_notes(alloc: Global) -> Notes
    ensures { result ≡ record { front = []; head = []; tail = [] } }
{
    Notes {
        front: List::new(alloc),
        head: List::new(alloc),
        tail: List::new(alloc),
    }
}

/// A parameter as a list of its own. Its type is a class of the base, or `int`.
pub fn single_param(
    alloc: Global,
    id: Id,
    name: &str,
    class: Option<u32>,
    filler: &str,
) -> Result<List<Param>, CaseFault>
    ensures { IfOk result (λ list. IsTrue (may_be_params list)) }
{
    let name = name_of(alloc, name)?;
    let filler = literal_of(alloc, filler)?;
    listed(
        alloc,
        Param {
            id,
            name,
            ty: param_type(class),
            filler,
        },
    )
}

/// A list of one parameter.
fn listed(alloc: Global, param: Param) -> Result<List<Param>, CaseFault>
    requires { IsTrue (is_param param) }
    ensures { IfOk result (λ list. IsTrue (may_be_params list)) }
{
    let mut list = List::new(alloc);
    list.add(param)?;
    Ok(list)
}

/// The body `{ }`.
#[tactic(auto, using(crate::proofs::Shapes::empty_body))]
pub fn empty_body(alloc: Global) -> IBody
    ensures { IsTrue (is_body result) }
{
    IBody {
        block: IBlock {
            items: List::new(alloc),
            tail: List::new(alloc),
        },
    }
}
