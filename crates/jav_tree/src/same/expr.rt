ghost use Rattle.std.specs.Prelude.{◌≡◌, ◌↔◌, IsTrue, map, option_map};
ghost use Rattle.jav_tree.specs.Places.{SameExpr, unplaced_expr, unplaced_expr_node};

use crate::expr::{Expr, ExprNode as Node};
use crate::same::{same_text, same_type};
use mol_base::Boxed;

impl Expr {
    /// Whether the expressions are equal but for places.
    #[cycle(same_expr)]
    pub fn same(&self, other: &Expr) -> bool
        ensures { IsTrue result ↔ SameExpr self.now other.now }
    {
        self.node.same(&other.node)
    }
}

impl Node {
    #[cycle(same_expr)]
    fn same(&self, other: &Node) -> bool
        ensures { IsTrue result ↔ unplaced_expr_node self.now ≡ unplaced_expr_node other.now }
    {
        match (self, other) {
            (Node::Lit(text), Node::Lit(their)) => same_text(text, their),
            (Node::This, Node::This) => true,
            (Node::Name(name), Node::Name(their)) => same_text(name, their),
            (Node::Dot(e, name), Node::Dot(c, their)) => same_text(name, their) && same(e, c),
            (Node::Call(on, name, args), Node::Call(c, their, items)) => {
                same_text(name, their) && same_on(on, c) && same_all(args.items(), items.items())
            }
            (Node::SuperCall(name, args), Node::SuperCall(their, items)) => {
                same_text(name, their) && same_all(args.items(), items.items())
            }
            (Node::New(ty, args), Node::New(their, items)) => {
                same_type(ty, their) && same_all(args.items(), items.items())
            }
            (Node::NewArray(ty, sizes, open), Node::NewArray(their, items, count)) => {
                *open == *count && same_type(ty, their) && same_all(sizes.items(), items.items())
            }
            (Node::ArrayLit(ty, args), Node::ArrayLit(their, items)) => {
                same_type(ty, their) && same_all(args.items(), items.items())
            }
            (Node::Braces(args), Node::Braces(items)) => same_all(args.items(), items.items()),
            (Node::Paren(e), Node::Paren(c)) => same(e, c),
            (Node::Index(a, b), Node::Index(c, d)) => same(a, c) && same(b, d),
            (Node::Unary(op, e), Node::Unary(their, c)) => same_text(op, their) && same(e, c),
            (Node::Post(e, op), Node::Post(c, their)) => same_text(op, their) && same(e, c),
            (Node::Binary(a, op, b), Node::Binary(c, their, d)) => {
                same_text(op, their) && same(a, c) && same(b, d)
            }
            (Node::Assign(a, op, b), Node::Assign(c, their, d)) => {
                same_text(op, their) && same(a, c) && same(b, d)
            }
            (Node::Cond(test, a, b), Node::Cond(their, c, d)) => {
                same(test, their) && same(a, c) && same(b, d)
            }
            (Node::Cast(ty, e), Node::Cast(their, c)) => same_type(ty, their) && same(e, c),
            (Node::InstanceOf(e, t), Node::InstanceOf(c, to)) => same_type(t, to) && same(e, c),
            _ => false,
        }
    }
}

/// Whether what the boxes hold is equal but for places.
#[cycle(same_expr)]
fn same(e: &Boxed<Expr>, other: &Boxed<Expr>) -> bool
    ensures { IsTrue result ↔ unplaced_expr e.now ≡ unplaced_expr other.now }
{
    e.get().same(other.get())
}

#[cycle(same_expr)]
fn same_on(on: &Option<Boxed<Expr>>, other: &Option<Boxed<Expr>>) -> bool
    ensures { IsTrue result ↔ option_map unplaced_expr on.now ≡ option_map unplaced_expr other.now }
{
    match (on, other) {
        (Some(e), Some(their)) => e.get().same(their.get()),
        (None, None) => true,
        _ => false,
    }
}

/// Whether there are as many expressions, each the same as the other at its place.
#[cycle(same_expr)]
pub fn same_all(items: &[Expr], others: &[Expr]) -> bool
    ensures { IsTrue result ↔ map unplaced_expr items.now ≡ map unplaced_expr others.now }
{
    if items.len() != others.len() {
        return false;
    }
    for i in 0..items.len() {
        if !items[i].same(&others[i]) {
            return false;
        }
    }
    true
}

/// Whether there is an expression in both, the same but for places, or in neither.
pub fn same_maybe(e: &Option<Expr>, other: &Option<Expr>) -> bool
    ensures { IsTrue result ↔ option_map unplaced_expr e.now ≡ option_map unplaced_expr other.now }
{
    match (e, other) {
        (Some(e), Some(their)) => e.same(their),
        (None, None) => true,
        _ => false,
    }
}
