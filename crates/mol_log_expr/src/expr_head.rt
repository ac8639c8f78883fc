//! The words with which an expression begins.
ghost use Rattle.std.specs.Prelude.{◌≡◌};
ghost use Rattle.mol_log_expr.specs.ExpressionHeads as spec;
ghost use Rattle.mol_log_words.specs.Reader.{take};
ghost use Rattle.mol_log_words.specs.Reads.{Reads};

use crate::expr_role::ExprRole;
use mol_log_words::{Cursor, Fault, TextForm};

/// The form of an expression.
#[derive(Clone, Copy)]
pub enum Head {
    Leaf(LeafHead),
    Call(CallHead),
    Outside(OutsideHead),
    Items(ItemsHead),
    Operator(OperatorHead),
    Part(PartHead),
}

/// Expressions that hold no other.
#[derive(Clone, Copy)]
pub enum LeafHead {
    Lit,
    This,
    Local,
    Param,
    Own,
    StaticField,
    NewDefault,
    OutsideName,
    OutsideClass,
}

/// Calls of methods and constructors of the program.
#[derive(Clone, Copy)]
pub enum CallHead {
    Own,
    Static,
    On,
    Super,
    New,
}

/// Calls of methods and constructors outside.
#[derive(Clone, Copy)]
pub enum OutsideHead {
    Own,
    On,
    Super,
    New,
}

/// Arrays and items in braces.
#[derive(Clone, Copy)]
pub enum ItemsHead {
    NewArray,
    ArrayLit,
    Braces,
    Index,
}

/// Operators and their operands.
#[derive(Clone, Copy)]
pub enum OperatorHead {
    Unary,
    Post,
    Binary,
    Assign,
    Cond,
}

/// Fields of an expression, and an expression beside a type.
#[derive(Clone, Copy)]
pub enum PartHead {
    Field,
    OutsideField,
    Cast,
    InstanceOf,
}

/// The form in this group that the word names.
#[tactic(auto, unfolding(crate::specs::ExpressionHeads::leaf_head))]
fn leaf_head(word: &[u8]) -> Option<LeafHead>
    ensures { result ≡ spec.leaf_head word.now }
{
    if word == b"lit".as_slice() {
        Some(LeafHead::Lit)
    } else if word == b"this".as_slice() {
        Some(LeafHead::This)
    } else if word == b"local".as_slice() {
        Some(LeafHead::Local)
    } else if word == b"param".as_slice() {
        Some(LeafHead::Param)
    } else if word == b"own".as_slice() {
        Some(LeafHead::Own)
    } else if word == b"sfield".as_slice() {
        Some(LeafHead::StaticField)
    } else if word == b"newd".as_slice() {
        Some(LeafHead::NewDefault)
    } else if word == b"outname".as_slice() {
        Some(LeafHead::OutsideName)
    } else if word == b"outclass".as_slice() {
        Some(LeafHead::OutsideClass)
    } else {
        None
    }
}

/// The form in this group that the word names.
#[tactic(auto, unfolding(crate::specs::ExpressionHeads::call_head))]
fn call_head(word: &[u8]) -> Option<CallHead>
    ensures { result ≡ spec.call_head word.now }
{
    if word == b"call".as_slice() {
        Some(CallHead::Own)
    } else if word == b"scall".as_slice() {
        Some(CallHead::Static)
    } else if word == b"callon".as_slice() {
        Some(CallHead::On)
    } else if word == b"super".as_slice() {
        Some(CallHead::Super)
    } else if word == b"newc".as_slice() {
        Some(CallHead::New)
    } else {
        None
    }
}

/// The form in this group that the word names.
#[tactic(auto, unfolding(crate::specs::ExpressionHeads::outside_head))]
fn outside_head(word: &[u8]) -> Option<OutsideHead>
    ensures { result ≡ spec.outside_head word.now }
{
    if word == b"outcall".as_slice() {
        Some(OutsideHead::Own)
    } else if word == b"outcallon".as_slice() {
        Some(OutsideHead::On)
    } else if word == b"outsuper".as_slice() {
        Some(OutsideHead::Super)
    } else if word == b"newout".as_slice() {
        Some(OutsideHead::New)
    } else {
        None
    }
}

/// The form in this group that the word names.
#[tactic(auto, unfolding(crate::specs::ExpressionHeads::items_head))]
fn items_head(word: &[u8]) -> Option<ItemsHead>
    ensures { result ≡ spec.items_head word.now }
{
    if word == b"newarr".as_slice() {
        Some(ItemsHead::NewArray)
    } else if word == b"arrlit".as_slice() {
        Some(ItemsHead::ArrayLit)
    } else if word == b"braces".as_slice() {
        Some(ItemsHead::Braces)
    } else if word == b"index".as_slice() {
        Some(ItemsHead::Index)
    } else {
        None
    }
}

/// The form in this group that the word names.
#[tactic(auto, unfolding(crate::specs::ExpressionHeads::operator_head))]
fn operator_head(word: &[u8]) -> Option<OperatorHead>
    ensures { result ≡ spec.operator_head word.now }
{
    if word == b"unary".as_slice() {
        Some(OperatorHead::Unary)
    } else if word == b"post".as_slice() {
        Some(OperatorHead::Post)
    } else if word == b"binary".as_slice() {
        Some(OperatorHead::Binary)
    } else if word == b"assign".as_slice() {
        Some(OperatorHead::Assign)
    } else if word == b"cond".as_slice() {
        Some(OperatorHead::Cond)
    } else {
        None
    }
}

/// The form in this group that the word names.
#[tactic(auto, unfolding(crate::specs::ExpressionHeads::part_head))]
fn part_head(word: &[u8]) -> Option<PartHead>
    ensures { result ≡ spec.part_head word.now }
{
    if word == b"field".as_slice() {
        Some(PartHead::Field)
    } else if word == b"outfield".as_slice() {
        Some(PartHead::OutsideField)
    } else if word == b"cast".as_slice() {
        Some(PartHead::Cast)
    } else if word == b"instanceof".as_slice() {
        Some(PartHead::InstanceOf)
    } else {
        None
    }
}

/// The form that the word names.
#[tactic(auto, unfolding(crate::specs::ExpressionHeads::any_head))]
fn any_head(word: &[u8]) -> Option<Head>
    ensures { result ≡ spec.any_head word.now }
{
    if let Some(head) = leaf_head(word) {
        return Some(Head::Leaf(head));
    }
    if let Some(head) = call_head(word) {
        return Some(Head::Call(head));
    }
    if let Some(head) = outside_head(word) {
        return Some(Head::Outside(head));
    }
    if let Some(head) = items_head(word) {
        return Some(Head::Items(head));
    }
    if let Some(head) = operator_head(word) {
        return Some(Head::Operator(head));
    }
    if let Some(head) = part_head(word) {
        return Some(Head::Part(head));
    }
    None
}

fn is_target(head: Head) -> bool
    ensures { result ≡ spec.is_target head }
{
    match head {
        Head::Leaf(leaf) => {
            !matches!(leaf, LeafHead::Lit | LeafHead::This | LeafHead::NewDefault)
        }
        Head::Items(items) => matches!(items, ItemsHead::Index),
        Head::Part(part) => matches!(part, PartHead::Field | PartHead::OutsideField),
        Head::Call(_) | Head::Outside(_) | Head::Operator(_) => false,
    }
}

fn is_action(head: Head) -> bool
    ensures { result ≡ spec.is_action head }
{
    match head {
        Head::Leaf(leaf) => matches!(leaf, LeafHead::NewDefault),
        Head::Call(_) | Head::Outside(_) => true,
        Head::Operator(operator) => {
            matches!(
                operator,
                OperatorHead::Unary | OperatorHead::Post | OperatorHead::Assign
            )
        }
        Head::Items(_) | Head::Part(_) => false,
    }
}

/// Whether an expression of this form may stand here.
fn allows(role: ExprRole, head: Head) -> bool
    ensures { result ≡ spec.allows role head }
{
    match role {
        ExprRole::Value => !matches!(head, Head::Items(ItemsHead::Braces)),
        ExprRole::First => true,
        ExprRole::Target => is_target(head),
        ExprRole::Statement => is_action(head),
    }
}

/// Whether there is an expression of this form with parts no higher than `depth`, where `has_locals` says
/// whether a local is in scope.
fn is_high_enough(depth: u32, has_locals: bool, head: Head) -> bool
    ensures { result ≡ spec.is_high_enough depth has_locals head }
{
    match head {
        Head::Leaf(leaf) => has_locals || !matches!(leaf, LeafHead::Local),
        Head::Call(call) => 0 < depth || !matches!(call, CallHead::On),
        Head::Outside(call) => 0 < depth || !matches!(call, OutsideHead::On),
        Head::Items(items) => {
            0 < depth || matches!(items, ItemsHead::ArrayLit | ItemsHead::Braces)
        }
        Head::Operator(_) | Head::Part(_) => 0 < depth,
    }
}

/// The form that the word names, if an expression of that form may stand here with parts no higher than
/// `depth`.
fn head_of(role: ExprRole, depth: u32, has_locals: bool, word: &[u8]) -> Option<Head>
    ensures { result ≡ spec.head_of role depth has_locals word.now }
{
    match any_head(word) {
        Some(head) => {
            if allows(role, head) && is_high_enough(depth, has_locals, head) {
                Some(head)
            } else {
                None
            }
        }
        None => None,
    }
}

/// Takes the word with which an expression begins that may stand here and has parts no higher than `depth`.
pub fn take_head(
    words: &mut Cursor<'_>,
    role: ExprRole,
    depth: u32,
    has_locals: bool,
) -> Result<Head, Fault>
    ensures { Reads (take (spec.head_of role depth has_locals) words.old) result words.new }
{
    let found = head_of(role, depth, has_locals, words.next_word()?.bytes());
    words.accept(found)
}

/// What operators a unary expression may have here: as a statement, `++` and `--` alone.
pub fn unary_form(role: ExprRole) -> TextForm
    ensures { result ≡ spec.unary_form role }
{
    match role {
        ExprRole::Statement => TextForm::Step,
        _ => TextForm::Unary,
    }
}
