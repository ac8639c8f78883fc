ghost use Rattle.std.specs.Prelude.{◌≡◌, IfOk};

use crate::expr::{Expr, ExprNode};
use mol_base::{Boxed, List, OutOfMemory, both};
use std::alloc::Global;

impl Expr {
    /// An expression that equals this one.
    #[cycle(copy_expr)]
    pub fn copy(&self, alloc: Global) -> Result<Expr, OutOfMemory>
        ensures { IfOk result (λ copy. copy ≡ self.now) }
    {
        Ok(Expr {
            at: self.at,
            node: self.node.copy(alloc)?,
        })
    }
}

impl ExprNode {
    #[cycle(copy_expr)]
    fn copy(&self, alloc: Global) -> Result<ExprNode, OutOfMemory>
        ensures { IfOk result (λ copy. copy ≡ self.now) }
    {
        match self {
            ExprNode::Lit(text) => match text.copy(alloc) {
                Ok(text) => Ok(ExprNode::Lit(text)),
                Err(want) => Err(want),
            },
            ExprNode::This => Ok(ExprNode::This),
            ExprNode::Name(text) => match text.copy(alloc) {
                Ok(text) => Ok(ExprNode::Name(text)),
                Err(want) => Err(want),
            },
            ExprNode::Dot(e, name) => match both(copy_boxed(alloc, e.get()), name.copy(alloc)) {
                Ok((e, name)) => Ok(ExprNode::Dot(e, name)),
                Err(want) => Err(want),
            },
            ExprNode::Call(on, name, args) => match both(
                copy_on(alloc, on),
                both(name.copy(alloc), copy_all(alloc, args.items())),
            ) {
                Ok((on, (name, args))) => Ok(ExprNode::Call(on, name, args)),
                Err(want) => Err(want),
            },
            ExprNode::SuperCall(name, args) => match both(
                name.copy(alloc),
                copy_all(alloc, args.items()),
            ) {
                Ok((name, args)) => Ok(ExprNode::SuperCall(name, args)),
                Err(want) => Err(want),
            },
            ExprNode::New(ty, args) => match both(ty.copy(alloc), copy_all(alloc, args.items())) {
                Ok((ty, args)) => Ok(ExprNode::New(ty, args)),
                Err(want) => Err(want),
            },
            ExprNode::NewArray(ty, sizes, open) => match both(
                ty.copy(alloc),
                copy_all(alloc, sizes.items()),
            ) {
                Ok((ty, sizes)) => Ok(ExprNode::NewArray(ty, sizes, *open)),
                Err(want) => Err(want),
            },
            ExprNode::ArrayLit(ty, items) => match both(
                ty.copy(alloc),
                copy_all(alloc, items.items()),
            ) {
                Ok((ty, items)) => Ok(ExprNode::ArrayLit(ty, items)),
                Err(want) => Err(want),
            },
            ExprNode::Braces(items) => match copy_all(alloc, items.items()) {
                Ok(items) => Ok(ExprNode::Braces(items)),
                Err(want) => Err(want),
            },
            ExprNode::Index(e, i) => match both(
                copy_boxed(alloc, e.get()),
                copy_boxed(alloc, i.get()),
            ) {
                Ok((e, i)) => Ok(ExprNode::Index(e, i)),
                Err(want) => Err(want),
            },
            ExprNode::Unary(op, e) => match both(op.copy(alloc), copy_boxed(alloc, e.get())) {
                Ok((op, e)) => Ok(ExprNode::Unary(op, e)),
                Err(want) => Err(want),
            },
            ExprNode::Post(e, op) => match both(copy_boxed(alloc, e.get()), op.copy(alloc)) {
                Ok((e, op)) => Ok(ExprNode::Post(e, op)),
                Err(want) => Err(want),
            },
            ExprNode::Binary(a, op, b) => match both(
                copy_boxed(alloc, a.get()),
                both(op.copy(alloc), copy_boxed(alloc, b.get())),
            ) {
                Ok((a, (op, b))) => Ok(ExprNode::Binary(a, op, b)),
                Err(want) => Err(want),
            },
            ExprNode::Assign(a, op, b) => match both(
                copy_boxed(alloc, a.get()),
                both(op.copy(alloc), copy_boxed(alloc, b.get())),
            ) {
                Ok((a, (op, b))) => Ok(ExprNode::Assign(a, op, b)),
                Err(want) => Err(want),
            },
            ExprNode::Cond(c, a, b) => match both(
                copy_boxed(alloc, c.get()),
                both(copy_boxed(alloc, a.get()), copy_boxed(alloc, b.get())),
            ) {
                Ok((c, (a, b))) => Ok(ExprNode::Cond(c, a, b)),
                Err(want) => Err(want),
            },
            ExprNode::Cast(ty, e) => match both(ty.copy(alloc), copy_boxed(alloc, e.get())) {
                Ok((ty, e)) => Ok(ExprNode::Cast(ty, e)),
                Err(want) => Err(want),
            },
            ExprNode::InstanceOf(e, ty) => match both(copy_boxed(alloc, e.get()), ty.copy(alloc)) {
                Ok((e, ty)) => Ok(ExprNode::InstanceOf(e, ty)),
                Err(want) => Err(want),
            },
            ExprNode::Paren(e) => match copy_boxed(alloc, e.get()) {
                Ok(e) => Ok(ExprNode::Paren(e)),
                Err(want) => Err(want),
            },
        }
    }
}

#[cycle(copy_expr)]
fn copy_boxed(alloc: Global, e: &Expr) -> Result<Boxed<Expr>, OutOfMemory>
    ensures { IfOk result (λ b. b ≡ e.now) }
{
    Boxed::new(alloc, e.copy(alloc)?)
}

#[cycle(copy_expr)]
fn copy_on(alloc: Global, on: &Option<Boxed<Expr>>) -> Result<Option<Boxed<Expr>>, OutOfMemory>
    ensures { IfOk result (λ o. o ≡ on.now) }
{
    match on {
        Some(e) => Ok(Some(copy_boxed(alloc, e.get())?)),
        None => Ok(None),
    }
}

/// Expressions that equal these.
#[cycle(copy_expr)]
pub fn copy_all(alloc: Global, items: &[Expr]) -> Result<List<Expr>, OutOfMemory>
    ensures { IfOk result (λ all. all ≡ items.now) }
{
    let mut all = List::new(alloc);
    for item in items {
        all.add(item.copy(alloc)?)?;
    }
    Ok(all)
}

/// An expression that equals the one there is.
pub fn copy_maybe(alloc: Global, e: &Option<Expr>) -> Result<Option<Expr>, OutOfMemory>
    ensures { IfOk result (λ o. o ≡ e.now) }
{
    match e {
        Some(e) => Ok(Some(e.copy(alloc)?)),
        None => Ok(None),
    }
}
