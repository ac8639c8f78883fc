//! With which byte the text of an expression begins.
ghost use Rattle.std.specs.Prelude.{◌≡◌, ◌++◌, ◌∷◌, List, ℕ, option_map};
ghost use Rattle.jav_tree.specs.ExpressionText.{gap, on_text};
ghost use Rattle.jav_print.specs.Written.{after_prefix, before_dot, first_of, from, parenthesized, prefix_level, text_of, written, written_node};

use crate::binding::{binding_of_expr, level_after_prefix, level_on_left};
use jav_tree::{Expr, ExprNode};
use mol_base::{Boxed, Text};

/// The space between a prefix operator and its operand: `+` and `-` have one before an operand that begins
/// with the same character. Each operand on the left is visited by the innermost operator before it alone.
pub fn gap_before(op: &Text, e: &Expr, in_parens: bool) -> &'static str
    ensures { result.now ≡ gap op.now (parenthesized in_parens (text_of (written e.now))) }
{
    match op.bytes() {
        b"+" | b"-" => {
            if first_of_text(op) == first_of_operand(e, in_parens) {
                " "
            } else {
                ""
            }
        }
        _ => "",
    }
}

fn first_of_text(text: &Text) -> Option<u8>
    ensures { result ≡ first_of text.now }
{
    match text.bytes() {
        [c, ..] => Some(*c),
        [] => None,
    }
}

/// A byte that is there, or else the one that follows.
fn or_next(first: Option<u8>, next: u8) -> Option<u8>
    ensures { (text rest : List ℕ) → first ≡ first_of text → result ≡ first_of (text ++ next ∷ rest) }
{
    match first {
        Some(c) => Some(c),
        None => Some(next),
    }
}

#[cycle(first)]
fn first_of_operand(e: &Expr, in_parens: bool) -> Option<u8>
    ensures { result ≡ first_of (parenthesized in_parens (text_of (written e.now))) }
{
    if in_parens {
        Some(b'(')
    } else {
        first_of_node(&e.node)
    }
}

/// The first byte of an operand where this level is needed, or else the byte that follows it.
#[cycle(first)]
fn first_from(level: u8, e: &Expr, next: u8) -> Option<u8>
    ensures { (rest : List ℕ) → result ≡ first_of (from level (written e.now) ++ next ∷ rest) }
{
    or_next(
        first_of_operand(e, binding_of_expr(e).is_below(level)),
        next,
    )
}

/// The first byte of what stands before a dot, or else the dot.
#[cycle(first)]
fn first_before_dot(e: &Expr) -> Option<u8>
    ensures { (rest : List ℕ) → result ≡ first_of (before_dot (written e.now) ++ 46 ∷ rest) }
{
    or_next(
        first_of_operand(e, binding_of_expr(e).needs_before_dot()),
        b'.',
    )
}

#[cycle(first)]
fn first_of_node(node: &ExprNode) -> Option<u8>
    ensures { result ≡ first_of (text_of (written_node node.now)) }
{
    match node {
        ExprNode::Lit(text) => first_of_text(text),
        ExprNode::This => Some(b't'),
        ExprNode::Name(name) => first_of_text(name),
        ExprNode::Dot(e, _) => first_before_dot(e.get()),
        ExprNode::Call(on, name, _) => first_of_call(on, name),
        ExprNode::SuperCall(_, _) => Some(b's'),
        ExprNode::New(_, _) => Some(b'n'),
        ExprNode::NewArray(_, _, _) => Some(b'n'),
        ExprNode::ArrayLit(_, _) => Some(b'n'),
        ExprNode::Braces(_) => Some(b'{'),
        ExprNode::Index(e, _) => first_from(15, e.get(), b'['),
        ExprNode::Unary(op, e) => first_of_prefixed(op, e.get()),
        ExprNode::Post(e, op) => first_of_post(e.get(), op),
        ExprNode::Binary(a, op, _) => first_from(level_on_left(op), a.get(), b' '),
        ExprNode::Assign(a, _, _) => first_from(15, a.get(), b' '),
        ExprNode::Cond(test, _, _) => first_from(3, test.get(), b' '),
        ExprNode::Cast(_, _) => Some(b'('),
        ExprNode::InstanceOf(e, _) => first_from(9, e.get(), b' '),
        ExprNode::Paren(e) => first_of_node(&e.get().node),
    }
}

#[cycle(first)]
fn first_of_call(on: &Option<Boxed<Expr>>, name: &Text) -> Option<u8>
    ensures { (rest : List ℕ) → result ≡ first_of (on_text (option_map before_dot (option_map written on.now)) ++ (name.now ++ 40 ∷ rest)) }
{
    match on {
        Some(e) => first_before_dot(e.get()),
        None => or_next(first_of_text(name), b'('),
    }
}

#[cycle(first)]
fn first_of_post(e: &Expr, op: &Text) -> Option<u8>
    ensures { result ≡ first_of (from 15 (written e.now) ++ op.now) }
{
    match first_of_operand(e, binding_of_expr(e).is_below(15)) {
        Some(c) => Some(c),
        None => first_of_text(op),
    }
}

#[cycle(first)]
fn first_of_prefixed(op: &Text, e: &Expr) -> Option<u8>
    ensures { result ≡ first_of (op.now ++ after_prefix op.now (from (prefix_level op.now) (written e.now))) }
{
    match op.bytes() {
        [c, ..] => Some(*c),
        [] => first_of_operand(e, binding_of_expr(e).is_below(level_after_prefix(op))),
    }
}
