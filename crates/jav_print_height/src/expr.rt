//! Expressions.
ghost use Rattle.std.specs.Prelude.{◌≡◌, map, option_map};
ghost use Rattle.jav_tree.specs.Height as tree;
ghost use Rattle.jav_tree.specs.WithParens.{expr_printed_height};
ghost use Rattle.jav_print_height.specs.Measures as spec;

use crate::measure::{Measure, above};
use crate::operator::{assignment, binary, cast, conditional, element, literal, prefix};
use jav_tree::{Expr, ExprNode};
use mol_base::Boxed;

/// How high an expression is as it is printed.
pub fn height_of(e: &Expr) -> u32
    ensures { result ≡ expr_printed_height e.now }
{
    measure_of(e).height
}

/// How high the expression there is, 0 where there is none.
pub fn height_maybe(e: &Option<Expr>) -> u32
    ensures { result ≡ tree.tallest_maybe (option_map expr_printed_height e.now) }
{
    match e {
        Some(e) => height_of(e),
        None => 0,
    }
}

/// The greatest height of some expressions, 0 where there is none.
pub fn tallest(items: &[Expr]) -> u32
    ensures { result ≡ tree.tallest (map expr_printed_height items.now) }
{
    highest(items)
}

#[cycle(measure)]
fn measure_of(e: &Expr) -> Measure
    ensures { result ≡ spec.measure e.now }
{
    measure_of_node(&e.node)
}

#[cycle(measure)]
fn measure_of_node(node: &ExprNode) -> Measure
    ensures { result ≡ spec.measure_of_node node.now }
{
    match node {
        ExprNode::Lit(text) => literal(text),
        ExprNode::This => Measure::tight(1),
        ExprNode::Name(_) => Measure::tight(1),
        ExprNode::Dot(e, _) => Measure::tight(above(measure_of(e.get()).height_before_dot())),
        ExprNode::Call(on, _, args) => {
            let held = height_on(on).max(highest(args.items()));
            Measure::tight(above(held))
        }
        ExprNode::SuperCall(_, args) => Measure::tight(above(highest(args.items()))),
        ExprNode::New(_, args) => Measure::tight(above(highest(args.items()))),
        ExprNode::NewArray(_, sizes, _) => Measure::of_level(14, above(highest(sizes.items()))),
        ExprNode::ArrayLit(_, items) => Measure::of_level(14, above(highest(items.items()))),
        ExprNode::Braces(items) => Measure::tight(above(highest(items.items()))),
        ExprNode::Index(e, i) => element(measure_of(e.get()), measure_of(i.get())),
        ExprNode::Unary(op, e) => prefix(op, measure_of(e.get())),
        ExprNode::Post(e, _) => Measure::of_level(14, above(measure_of(e.get()).height_from(15))),
        ExprNode::Binary(a, op, b) => binary(measure_of(a.get()), op, measure_of(b.get())),
        ExprNode::Assign(a, _, b) => assignment(measure_of(a.get()), measure_of(b.get())),
        ExprNode::Cond(test, a, b) => {
            conditional(
                measure_of(test.get()),
                measure_of(a.get()),
                measure_of(b.get()),
            )
        }
        ExprNode::Cast(ty, e) => cast(ty, measure_of(e.get())),
        ExprNode::InstanceOf(e, _) => {
            Measure::of_level(9, above(measure_of(e.get()).height_from(9)))
        }
        ExprNode::Paren(inner) => measure_of(inner.get()),
    }
}

/// How high what a call is on is before its dot, 0 where there is nothing.
#[cycle(measure)]
fn height_on(on: &Option<Boxed<Expr>>) -> u32
    ensures { result ≡ tree.tallest_maybe (option_map spec.before_dot (option_map spec.measure on.now)) }
{
    match on {
        Some(e) => measure_of(e.get()).height_before_dot(),
        None => 0,
    }
}

/// The greatest height of expressions that need no parentheses, 0 where there is none.
#[cycle(measure)]
fn highest(items: &[Expr]) -> u32
    ensures { result ≡ tree.tallest (spec.heights (map spec.measure items.now)) }
{
    let mut most = 0;
    for item in items {
        most = measure_of(item).height.max(most);
    }
    most
}
