//! Calls of what stands before a dot (JLS 15.12).
ghost use Rattle.std.specs.Prelude.{◌≡◌, ℕ, IfOk, List as Items, Option, [], Some, length, map};
ghost use Rattle.jav_tree.specs.declared.expr.ExprNode.TheOpen.{ExprNode-F};
ghost use Rattle.mol_resolve_expr.specs.Parts.{all_of, before_of, node_of};
ghost use Rattle.mol_resolve_readings.specs.locals.Scoped.{locals_of};
ghost use Rattle.mol_resolve_readings.specs.meant.Kept.{view_part};
ghost use Rattle.mol_resolve_readings.specs.reads.Chains.{chain_of};
ghost use Rattle.mol_resolve_readings.specs.reads.Reads.{Reads, names_of};
ghost use Rattle.mol_resolve_rules.specs.Outcomes.{Outcome, TreeFault};
ghost use Rattle.mol_resolve_rules.specs.ReadTrees as trees;
ghost use Rattle.mol_resolve_rules.specs.ReadTrees.{call_meant, no_path, reading};
ghost use Rattle.mol_values_types.specs.declared.iexpr.IExpr as exprs;

use crate::expr_reader::ExprReader;
use crate::listed::Listed;
use crate::stand::Stand;
use jav_tree::Expr;
use mol_base::{List, OutOfMemory, Text};
use mol_resolve_faults::FirstFault;
use mol_resolve_readings::{Chain, ClassPath, Meant, Names};
use mol_values_types::IExpr;

impl<N: Names> ExprReader<'_, N> {
    /// A call of what stands before a dot.
    #[cycle(read_expr)]
    pub(crate) fn call(
        &self,
        faults: &mut FirstFault,
        at: u32,
        on: &Expr,
        name: &Text,
        args: &[Expr],
    ) -> Result<Option<Meant>, OutOfMemory>
        ensures { let reader = N.reader self.now.names.now in
            IfOk result (λ value. Reads (node_of reader (locals_of self.now.locals.now)
            (ExprNode-F.Call (Some (reading reader on.now)) name.now (map (reading reader) args.now)) at)
            (view_part value) faults.old faults.new) }
    {
        let chain = self.names.chain(self.alloc, self.locals, on)?;
        match chain.path() {
            ClassPath::Whole(class) => {
                self.listed(faults, at, Listed::Through(class, name), args)
            },
            ClassPath::Front => Ok(None),
            ClassPath::NoPath => self.call_on(faults, at, on, chain, name, args),
        }
    }

    /// A call on a value, with what that begins with. The arguments are read first.
    #[cycle(read_expr)]
    fn call_on(
        &self,
        faults: &mut FirstFault,
        at: u32,
        on: &Expr,
        chain: Chain,
        name: &Text,
        args: &[Expr],
    ) -> Result<Option<Meant>, OutOfMemory>
        ensures { let reader = N.reader self.now.names.now in
            let locals = locals_of self.now.locals.now in
            IfOk result (λ value. chain ≡ chain_of reader locals (names_of reader on.now) []
            → Reads (call_meant reader at name.now (length args.now) (before_of reader locals on.now [])
            (all_of reader locals args.now) no_path) (view_part value) faults.old faults.new) }
    {
        let values = self.all(faults, args)?;
        let on = self.value(faults, on, Stand::Before(chain))?;
        self.over_receiver(faults, at, name, args.len(), on, values)
    }

    /// A call on a value with so many arguments, once these and the value are read.
    fn over_receiver(
        &self,
        faults: &mut FirstFault,
        at: u32,
        name: &Text,
        arity: usize,
        on: Option<Meant>,
        values: Option<List<IExpr>>,
    ) -> Result<Option<Meant>, OutOfMemory>
        ensures { let reader = N.reader self.now.names.now in
            IfOk result (λ call. (args : Outcome (Items exprs.IExpr)) (value : Outcome (trees.Meant ℕ)) (first between : Option TreeFault)
            → Reads args values first between → Reads value (view_part on) between faults.old
            → Reads (call_meant reader at name.now arity value args no_path) (view_part call) first faults.new) }
    {
        match on {
            Some(on) => self
                .names
                .call_on(self.alloc, faults, at, name, arity, on, values),
            None => Ok(None),
        }
    }
}
