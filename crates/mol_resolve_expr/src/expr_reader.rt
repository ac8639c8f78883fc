//! Expressions, each by what it is.
ghost use Rattle.std.specs.Prelude.{◌≡◌, IfOk, Option};
ghost use Rattle.jav_tree.specs.declared.expr.ExprNode.TheOpen.{ExprNode-F};
ghost use Rattle.mol_resolve_expr.specs.Parts.{all_of, alone_of, node_of};
ghost use Rattle.mol_resolve_expr.specs.Stands.{stand_of};
ghost use Rattle.mol_resolve_readings.specs.locals.Scoped.{locals_of};
ghost use Rattle.mol_resolve_readings.specs.meant.Kept.{view_part};
ghost use Rattle.mol_resolve_readings.specs.reads.Reads.{Reads, names_of};
ghost use Rattle.mol_resolve_rules.specs.Outcomes.{TreeFault};
ghost use Rattle.mol_resolve_rules.specs.ReadTrees.{Mode, reading};

use crate::binary::Binary;
use crate::listed::Listed;
use crate::stand::Stand;
use crate::unary::Unary;
use jav_tree::{Expr, ExprNode};
use mol_base::{List, OutOfMemory, Text};
use mol_resolve_faults::FirstFault;
use mol_resolve_readings::meant::arrays::one_more;
use mol_resolve_readings::{Locals, Meant, Names};
use mol_values_types::IExpr;
use std::alloc::Global;

/// Expressions at a place in source files, with the locals that are in scope there.
#[derive(Clone, Copy)]
pub struct ExprReader<'a, N> {
    pub alloc: Global,
    pub names: &'a N,
    pub locals: &'a Locals,
}

impl<N: Names> ExprReader<'_, N> {
    /// An expression that stands alone. Faults in it are noted; there is no value where one keeps it from having a meaning. `Err` is
    /// want of memory. The time is linear in its size, but for what names cost.
    pub fn alone(&self, faults: &mut FirstFault, e: &Expr) -> Result<Option<Meant>, OutOfMemory>
        ensures { IfOk result (λ value. Reads (alone_of (N.reader self.now.names.now) (locals_of self.now.locals.now) e.now)
            (view_part value) faults.old faults.new) }
    {
        self.value(faults, e, Stand::Alone)
    }

    /// An expression by how it stands.
    #[cycle(read_expr)]
    pub(crate) fn value(
        &self,
        faults: &mut FirstFault,
        e: &Expr,
        stand: Stand,
    ) -> Result<Option<Meant>, OutOfMemory>
        ensures { let reader = N.reader self.now.names.now in
            let locals = locals_of self.now.locals.now in
            IfOk result (λ value. (mode : Mode) → stand ≡ stand_of reader locals (names_of reader e.now) mode
            → Reads ((reading reader e.now).means locals mode) (view_part value) faults.old faults.new) }
    {
        match &e.node {
            ExprNode::Lit(text) => self.literal(text),
            ExprNode::This => self.class_value(),
            ExprNode::Name(name) => self.name(faults, e.at, name, stand),
            ExprNode::Dot(on, name) => self.dot(faults, e, on.get(), name, stand),
            ExprNode::Call(on, name, args) => match on {
                None => self.listed(faults, e.at, Listed::Call(name), args.items()),
                Some(on) => self.call(faults, e.at, on.get(), name, args.items()),
            },
            ExprNode::SuperCall(name, args) => {
                self.listed(faults, e.at, Listed::SuperCall(name), args.items())
            },
            ExprNode::New(ty, args) => self.listed(faults, e.at, Listed::New(ty), args.items()),
            ExprNode::NewArray(ty, sizes, n) => {
                self.listed(faults, e.at, Listed::NewArray(ty, *n), sizes.items())
            },
            ExprNode::ArrayLit(ty, items) => {
                self.listed(faults, e.at, Listed::ArrayLit(ty), items.items())
            },
            ExprNode::Braces(items) => self.listed(faults, e.at, Listed::Braces, items.items()),
            ExprNode::Index(a, i) => self.binary(faults, e.at, Binary::Index, i.get(), a.get()),
            ExprNode::Unary(op, a) => self.unary(faults, e.at, Unary::Prefix(op), a.get()),
            ExprNode::Post(a, op) => self.unary(faults, e.at, Unary::Postfix(op), a.get()),
            ExprNode::Binary(a, op, b) => {
                self.binary(faults, e.at, Binary::Operator(op), a.get(), b.get())
            },
            ExprNode::Assign(a, op, b) => {
                self.binary(faults, e.at, Binary::Assignment(op), a.get(), b.get())
            },
            ExprNode::Cond(test, a, b) => self.choice(faults, test.get(), a.get(), b.get()),
            ExprNode::Cast(ty, a) => self.unary(faults, e.at, Unary::Cast(ty), a.get()),
            ExprNode::InstanceOf(a, ty) => {
                self.unary(faults, e.at, Unary::InstanceOf(ty), a.get())
            },
            ExprNode::Paren(inner) => self.value(faults, inner.get(), Stand::Alone),
        }
    }

    /// A literal.
    fn literal(&self, text: &Text) -> Result<Option<Meant>, OutOfMemory>
        ensures { IfOk result (λ value. (faults : Option TreeFault)
            → Reads (node_of (N.reader self.now.names.now) (locals_of self.now.locals.now) (ExprNode-F.Lit text.now) 0)
            (view_part value) faults faults) }
    {
        Ok(Some(Meant::literal(self.alloc, text)?))
    }

    /// `this`.
    fn class_value(&self) -> Result<Option<Meant>, OutOfMemory>
        ensures { IfOk result (λ value. (faults : Option TreeFault)
            → Reads (node_of (N.reader self.now.names.now) (locals_of self.now.locals.now) ExprNode-F.This 0)
            (view_part value) faults faults) }
    {
        Ok(Some(Meant::this(self.alloc, self.names.class())?))
    }

    /// Expressions that stand alone, one after the other; none where one has no value. `Err` is want of memory.
    #[cycle(read_expr)]
    pub fn all(
        &self,
        faults: &mut FirstFault,
        items: &[Expr],
    ) -> Result<Option<List<IExpr>>, OutOfMemory>
        ensures { IfOk result (λ values. Reads (all_of (N.reader self.now.names.now) (locals_of self.now.locals.now) items.now)
            values faults.old faults.new) }
    {
        let room = List::with_capacity(self.alloc, items.len())?;
        let mut values = Some(room);
        for item in items {
            let value = self.value(faults, item, Stand::Alone)?;
            values = one_more(values, value)?;
        }
        Ok(values)
    }
}
