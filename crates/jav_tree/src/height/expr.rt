ghost use Rattle.std.specs.Prelude.{◌≡◌, ℕ, ◌+◌, List, max, min, map, option_map};
ghost use Rattle.mol_base.specs.Token.{Token};
ghost use Rattle.jav_tree.specs.Expressions.{Expression};
ghost use Rattle.jav_tree.specs.Height.{expr_height, expr_node_height, tallest, tallest_maybe, maybe_height};

use crate::expr::{Expr, ExprNode};
use mol_base::Boxed;

impl Expr {
    /// How high the expression is: 1 where it holds no other, else one more than the highest that it
    /// holds. Parentheses count. The greatest `u32` stands for all that is higher.
    #[cycle(height_expr)]
    pub fn height(&self) -> u32
        ensures value { result ≡ expr_height self.now }
        // It is the height that the grammar speaks of.
        ensures grammar { (most level h : ℕ) (ts : List Token) → Expression most level h self.now ts → result ≡ min h 0xffff_ffff }
    {
        self.node.height()
    }
}

impl ExprNode {
    #[cycle(height_expr)]
    fn height(&self) -> u32
        ensures { result ≡ expr_node_height self.now }
    {
        match self {
            ExprNode::Lit(_) => 1,
            ExprNode::This => 1,
            ExprNode::Name(_) => 1,
            ExprNode::Dot(e, _) => above(e.get().height()),
            ExprNode::Call(on, _, args) => above(height_on(on).max(tallest(args.items()))),
            ExprNode::SuperCall(_, args) => above(tallest(args.items())),
            ExprNode::New(_, args) => above(tallest(args.items())),
            ExprNode::NewArray(_, sizes, _) => above(tallest(sizes.items())),
            ExprNode::ArrayLit(_, items) => above(tallest(items.items())),
            ExprNode::Braces(items) => above(tallest(items.items())),
            ExprNode::Index(e, i) => above(e.get().height().max(i.get().height())),
            ExprNode::Unary(_, e) => above(e.get().height()),
            ExprNode::Post(e, _) => above(e.get().height()),
            ExprNode::Binary(a, _, b) => above(a.get().height().max(b.get().height())),
            ExprNode::Assign(a, _, b) => above(a.get().height().max(b.get().height())),
            ExprNode::Cond(test, a, b) => {
                above(
                    test.get()
                        .height()
                        .max(a.get().height().max(b.get().height())),
                )
            }
            ExprNode::Cast(_, e) => above(e.get().height()),
            ExprNode::InstanceOf(e, _) => above(e.get().height()),
            ExprNode::Paren(e) => above(e.get().height()),
        }
    }
}

/// One higher than what is held.
pub fn above(held: u32) -> u32
    ensures { result ≡ min (held + 1) 0xffff_ffff }
{
    held.saturating_add(1)
}

#[cycle(height_expr)]
fn height_on(on: &Option<Boxed<Expr>>) -> u32
    ensures { result ≡ tallest_maybe (option_map expr_height on.now) }
{
    match on {
        Some(e) => e.get().height(),
        None => 0,
    }
}

/// The greatest height of some expressions, 0 where there is none.
#[cycle(height_expr)]
pub fn tallest(items: &[Expr]) -> u32
    ensures { result ≡ tallest (map expr_height items.now) }
{
    let mut most = 0;
    for item in items {
        most = item.height().max(most);
    }
    most
}

/// The height of the expression there is, 0 where there is none.
pub fn height_maybe(e: &Option<Expr>) -> u32
    ensures { result ≡ maybe_height e.now }
{
    match e {
        Some(e) => e.height(),
        None => 0,
    }
}
