ghost use Rattle.std.specs.Prelude.{◌≡◌, IfOk, map, option_map};
ghost use Rattle.jav_tree.specs.Parens.{expr_without_parens, expr_node_without_parens};

use crate::expr::{Expr, ExprNode};
use mol_base::{Boxed, List, OutOfMemory, both};
use std::alloc::Global;

impl Expr {
    /// The expression with each `Paren` replaced by what it holds. `Err` is want of memory.
    #[cycle(bare_expr)]
    pub fn drop_parens(&self, alloc: Global) -> Result<Expr, OutOfMemory>
        ensures { IfOk result (λ bare. bare ≡ expr_without_parens self.now) }
    {
        self.node.bare_at(alloc, self.at)
    }
}

impl ExprNode {
    #[cycle(bare_expr)]
    fn bare_at(&self, alloc: Global, at: u32) -> Result<Expr, OutOfMemory>
        ensures { IfOk result (λ bare. bare ≡ expr_node_without_parens self.now at) }
    {
        match self {
            ExprNode::Lit(text) => match text.copy(alloc) {
                Ok(text) => Ok(placed(at, ExprNode::Lit(text))),
                Err(want) => Err(want),
            },
            ExprNode::This => Ok(placed(at, ExprNode::This)),
            ExprNode::Name(text) => match text.copy(alloc) {
                Ok(text) => Ok(placed(at, ExprNode::Name(text))),
                Err(want) => Err(want),
            },
            ExprNode::Dot(e, name) => match both(bare_boxed(alloc, e.get()), name.copy(alloc)) {
                Ok((e, name)) => Ok(placed(at, ExprNode::Dot(e, name))),
                Err(want) => Err(want),
            },
            ExprNode::Call(on, name, args) => match both(
                bare_on(alloc, on),
                both(name.copy(alloc), bare_all(alloc, args.items())),
            ) {
                Ok((on, (name, args))) => Ok(placed(at, ExprNode::Call(on, name, args))),
                Err(want) => Err(want),
            },
            ExprNode::SuperCall(name, args) => match both(
                name.copy(alloc),
                bare_all(alloc, args.items()),
            ) {
                Ok((name, args)) => Ok(placed(at, ExprNode::SuperCall(name, args))),
                Err(want) => Err(want),
            },
            ExprNode::New(ty, args) => match both(ty.copy(alloc), bare_all(alloc, args.items())) {
                Ok((ty, args)) => Ok(placed(at, ExprNode::New(ty, args))),
                Err(want) => Err(want),
            },
            ExprNode::NewArray(ty, sizes, open) => match both(
                ty.copy(alloc),
                bare_all(alloc, sizes.items()),
            ) {
                Ok((ty, sizes)) => Ok(placed(at, ExprNode::NewArray(ty, sizes, *open))),
                Err(want) => Err(want),
            },
            ExprNode::ArrayLit(ty, items) => match both(
                ty.copy(alloc),
                bare_all(alloc, items.items()),
            ) {
                Ok((ty, items)) => Ok(placed(at, ExprNode::ArrayLit(ty, items))),
                Err(want) => Err(want),
            },
            ExprNode::Braces(items) => match bare_all(alloc, items.items()) {
                Ok(items) => Ok(placed(at, ExprNode::Braces(items))),
                Err(want) => Err(want),
            },
            ExprNode::Index(e, i) => match both(
                bare_boxed(alloc, e.get()),
                bare_boxed(alloc, i.get()),
            ) {
                Ok((e, i)) => Ok(placed(at, ExprNode::Index(e, i))),
                Err(want) => Err(want),
            },
            ExprNode::Unary(op, e) => match both(op.copy(alloc), bare_boxed(alloc, e.get())) {
                Ok((op, e)) => Ok(placed(at, ExprNode::Unary(op, e))),
                Err(want) => Err(want),
            },
            ExprNode::Post(e, op) => match both(bare_boxed(alloc, e.get()), op.copy(alloc)) {
                Ok((e, op)) => Ok(placed(at, ExprNode::Post(e, op))),
                Err(want) => Err(want),
            },
            ExprNode::Binary(a, op, b) => match both(
                bare_boxed(alloc, a.get()),
                both(op.copy(alloc), bare_boxed(alloc, b.get())),
            ) {
                Ok((a, (op, b))) => Ok(placed(at, ExprNode::Binary(a, op, b))),
                Err(want) => Err(want),
            },
            ExprNode::Assign(a, op, b) => match both(
                bare_boxed(alloc, a.get()),
                both(op.copy(alloc), bare_boxed(alloc, b.get())),
            ) {
                Ok((a, (op, b))) => Ok(placed(at, ExprNode::Assign(a, op, b))),
                Err(want) => Err(want),
            },
            ExprNode::Cond(c, a, b) => match both(
                bare_boxed(alloc, c.get()),
                both(bare_boxed(alloc, a.get()), bare_boxed(alloc, b.get())),
            ) {
                Ok((c, (a, b))) => Ok(placed(at, ExprNode::Cond(c, a, b))),
                Err(want) => Err(want),
            },
            ExprNode::Cast(ty, e) => match both(ty.copy(alloc), bare_boxed(alloc, e.get())) {
                Ok((ty, e)) => Ok(placed(at, ExprNode::Cast(ty, e))),
                Err(want) => Err(want),
            },
            ExprNode::InstanceOf(e, ty) => match both(bare_boxed(alloc, e.get()), ty.copy(alloc)) {
                Ok((e, ty)) => Ok(placed(at, ExprNode::InstanceOf(e, ty))),
                Err(want) => Err(want),
            },
            ExprNode::Paren(e) => e.get().drop_parens(alloc),
        }
    }
}

fn placed(at: u32, node: ExprNode) -> Expr
    ensures { result ≡ record { at = at; node = node } }
{
    Expr { at, node }
}

#[cycle(bare_expr)]
fn bare_boxed(alloc: Global, e: &Expr) -> Result<Boxed<Expr>, OutOfMemory>
    ensures { IfOk result (λ bare. bare ≡ expr_without_parens e.now) }
{
    Boxed::new(alloc, e.drop_parens(alloc)?)
}

#[cycle(bare_expr)]
fn bare_on(alloc: Global, on: &Option<Boxed<Expr>>) -> Result<Option<Boxed<Expr>>, OutOfMemory>
    ensures { IfOk result (λ bare. bare ≡ option_map expr_without_parens on.now) }
{
    match on {
        Some(e) => Ok(Some(bare_boxed(alloc, e.get())?)),
        None => Ok(None),
    }
}

/// Each of the expressions without its parentheses.
#[cycle(bare_expr)]
pub fn bare_all(alloc: Global, items: &[Expr]) -> Result<List<Expr>, OutOfMemory>
    ensures { IfOk result (λ all. all ≡ map expr_without_parens items.now) }
{
    let mut all = List::new(alloc);
    for item in items {
        all.add(item.drop_parens(alloc)?)?;
    }
    Ok(all)
}

/// The expression there is, without its parentheses.
pub fn bare_maybe(alloc: Global, e: &Option<Expr>) -> Result<Option<Expr>, OutOfMemory>
    ensures { IfOk result (λ bare. bare ≡ option_map expr_without_parens e.now) }
{
    match e {
        Some(e) => Ok(Some(e.drop_parens(alloc)?)),
        None => Ok(None),
    }
}
