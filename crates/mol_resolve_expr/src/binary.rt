//! Expressions over two operands (JLS 15.10.3, 15.17 to 15.24, 15.26).
ghost use Rattle.std.specs.Prelude.{◌≡◌, ℕ, IfOk, Option};
ghost use Rattle.mol_resolve_expr.specs.Parts.{node_of, over_operands};
ghost use Rattle.mol_resolve_readings.specs.locals.Scoped.{locals_of};
ghost use Rattle.mol_resolve_readings.specs.meant.Kept.{view_part};
ghost use Rattle.mol_resolve_readings.specs.reads.Reads.{Reads};
ghost use Rattle.mol_resolve_rules.specs.Outcomes.{TreeFault};
ghost use Rattle.mol_resolve_rules.specs.ReadTrees.{Reading, alone, reading};

use crate::expr_reader::ExprReader;
use crate::indexes::item_at;
use crate::stand::Stand;
use jav_tree::Expr;
use mol_base::{OutOfMemory, Text};
use mol_resolve_faults::FirstFault;
use mol_resolve_readings::meant::operators;
use mol_resolve_readings::{Meant, Names};

/// What stands over two operands.
#[derive(Clone, Copy)]
pub(crate) enum Binary<'a> {
    /// An operator between them.
    Operator(&'a Text),
    /// An operator that assigns the second to the first.
    Assignment(&'a Text),
    /// An item: the first is the index, the second the array.
    Index,
}

impl<N: Names> ExprReader<'_, N> {
    /// An expression over two operands, which are read one after the other.
    #[cycle(read_expr)]
    pub(crate) fn binary(
        &self,
        faults: &mut FirstFault,
        at: u32,
        kind: Binary<'_>,
        first: &Expr,
        second: &Expr,
    ) -> Result<Option<Meant>, OutOfMemory>
        ensures { let reader = N.reader self.now.names.now in
            IfOk result (λ value. Reads (node_of reader (locals_of self.now.locals.now)
            (over_operands kind.entry (reading reader first.now) (reading reader second.now)) at)
            (view_part value) faults.old faults.new) }
    {
        let first = self.value(faults, first, Stand::Alone)?;
        let second = self.value(faults, second, Stand::Alone)?;
        self.over_operands(faults, at, kind, first, second)
    }

    /// What stands over two operands, once these are read.
    fn over_operands(
        &self,
        faults: &mut FirstFault,
        at: u32,
        kind: Binary<'_>,
        first: Option<Meant>,
        second: Option<Meant>,
    ) -> Result<Option<Meant>, OutOfMemory>
        ensures { let reader = N.reader self.now.names.now in
            let locals = locals_of self.now.locals.now in
            IfOk result (λ value. (left right : Reading ℕ) (before between : Option TreeFault)
            → Reads (alone reader locals left) (view_part first) before between
            → Reads (alone reader locals right) (view_part second) between faults.old
            → Reads (node_of reader locals (over_operands kind.entry left right) at) (view_part value) before faults.new) }
    {
        match kind {
            Binary::Operator(op) => operators::binary(self.alloc, op, first, second),
            Binary::Assignment(op) => operators::assignment(self.alloc, op, first, second),
            Binary::Index => item_at(self.alloc, faults, at, second, first),
        }
    }
}
