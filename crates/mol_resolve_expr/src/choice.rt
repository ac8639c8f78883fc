//! Choices `?:` (JLS 15.25).
ghost use Rattle.std.specs.Prelude.{◌≡◌, ℕ, IfOk, Option, Some, option_map};
ghost use Rattle.std.specs.Option.{option_zip};
ghost use Rattle.jav_tree.specs.declared.expr.ExprNode.TheOpen.{ExprNode-F};
ghost use Rattle.jav_names.specs.seen.Kept.{view_value};
ghost use Rattle.jav_names.specs.StaticTypes.{common};
ghost use Rattle.mol_resolve_expr.specs.Parts.{choice_of, node_of};
ghost use Rattle.mol_resolve_readings.specs.locals.Scoped.{locals_of};
ghost use Rattle.mol_resolve_readings.specs.meant.Kept.{view_part};
ghost use Rattle.mol_resolve_readings.specs.reads.Reads.{Reads};
ghost use Rattle.mol_resolve_rules.specs.ReadTrees as trees;
ghost use Rattle.mol_resolve_rules.specs.ReadTrees.{reading};

use crate::expr_reader::ExprReader;
use crate::stand::Stand;
use jav_names::StaticType;
use jav_tree::Expr;
use mol_base::OutOfMemory;
use mol_resolve_faults::FirstFault;
use mol_resolve_readings::meant::operators;
use mol_resolve_readings::{Meant, Names};

impl<N: Names> ExprReader<'_, N> {
    /// A choice between two values. Its parts are read one after the other.
    #[cycle(read_expr)]
    pub(crate) fn choice(
        &self,
        faults: &mut FirstFault,
        test: &Expr,
        first: &Expr,
        second: &Expr,
    ) -> Result<Option<Meant>, OutOfMemory>
        ensures { let reader = N.reader self.now.names.now in
            IfOk result (λ value. Reads (node_of reader (locals_of self.now.locals.now)
            (ExprNode-F.Cond (reading reader test.now) (reading reader first.now) (reading reader second.now)) 0)
            (view_part value) faults.old faults.new) }
    {
        let test = self.value(faults, test, Stand::Alone)?;
        let first = self.value(faults, first, Stand::Alone)?;
        let second = self.value(faults, second, Stand::Alone)?;
        self.choice_of(test, first, second)
    }

    /// A choice, once its parts are read.
    fn choice_of(
        &self,
        test: Option<Meant>,
        first: Option<Meant>,
        second: Option<Meant>,
    ) -> Result<Option<Meant>, OutOfMemory>
        ensures { IfOk result (λ value. view_part value ≡ option_map (choice_of (N.reader self.now.names.now))
            (option_zip (view_part test) (option_zip (view_part first) (view_part second)))) }
    {
        let common = self.common_of(&first, &second)?;
        operators::choice(self.alloc, common, test, first, second)
    }

    /// The static type that two values have in common, where there are two.
    fn common_of(
        &self,
        first: &Option<Meant>,
        second: &Option<Meant>,
    ) -> Result<StaticType, OutOfMemory>
        ensures { IfOk result (λ ty. (a b : trees.Meant ℕ) → view_part first.now ≡ Some a → view_part second.now ≡ Some b
            → view_value ty ≡ common (N.reader self.now.names.now).view a.static_type b.static_type) }
    {
        match (first, second) {
            (Some(first), Some(second)) => self.names.common(self.alloc, &first.ty, &second.ty),
            _ => Ok(StaticType::Mixed),
        }
    }
}
