//! Expressions and types in bodies.
ghost use Rattle.std.specs.Prelude.{◌≡◌, IfOk, map, option_map};
ghost use Rattle.mol_spell_places.specs.body_locals.Kept.{locals_of};
ghost use Rattle.mol_spell_rules.specs.SpelledStatements.{declared_type};
ghost use Rattle.mol_spell_expr.specs.Parts.{argument_tree, tree_of};

use crate::body_writer::BodyWriter;
use jav_tree::{Expr, TypeName};
use mol_base::{List, OutOfMemory};
use mol_spell_expr::{ExprWriter, TypePlace};
use mol_spell_places::{BodyLocals, InBody, Places};
use mol_values_types::{Argument, IExpr, IType};

impl<P: Places> BodyWriter<'_, P> {
    /// The type of a declaration as it is written beside these locals. `Err` is want of memory.
    pub fn type_name(&self, locals: &BodyLocals<'_>, ty: &IType) -> Result<TypeName, OutOfMemory>
        ensures { IfOk result (λ tree. tree ≡ (declared_type (P.writer self.now.places.now) (locals_of locals.now) ty.now).tree) }
    {
        let names = InBody {
            places: self.places,
            locals,
        };
        let writer = ExprWriter {
            alloc: self.alloc,
            names: &names,
        };
        writer.type_name(TypePlace::Declaration, ty)
    }

    /// An expression as it is written beside these locals. `Err` is want of memory. The time is linear in its size, but for what names
    /// cost.
    pub fn expr(&self, locals: &BodyLocals<'_>, e: &IExpr) -> Result<Expr, OutOfMemory>
        ensures { IfOk result (λ tree. tree ≡ tree_of (P.writer self.now.places.now) (locals_of locals.now) e.now) }
    {
        let names = InBody {
            places: self.places,
            locals,
        };
        let writer = ExprWriter {
            alloc: self.alloc,
            names: &names,
        };
        writer.expr(e)
    }

    /// An expression, if there is one.
    pub fn maybe_expr(
        &self,
        locals: &BodyLocals<'_>,
        e: &Option<IExpr>,
    ) -> Result<Option<Expr>, OutOfMemory>
        ensures { IfOk result (λ tree. tree
            ≡ option_map (tree_of (P.writer self.now.places.now) (locals_of locals.now)) e.now) }
    {
        match e {
            Some(e) => Ok(Some(self.expr(locals, e)?)),
            None => Ok(None),
        }
    }

    /// Expressions, one after the other.
    pub(crate) fn exprs(
        &self,
        locals: &BodyLocals<'_>,
        items: &[IExpr],
    ) -> Result<List<Expr>, OutOfMemory>
        ensures { IfOk result (λ trees. trees ≡ map (tree_of (P.writer self.now.places.now) (locals_of locals.now)) items.now) }
    {
        let names = InBody {
            places: self.places,
            locals,
        };
        let writer = ExprWriter {
            alloc: self.alloc,
            names: &names,
        };
        writer.exprs(items)
    }

    /// The values of arguments, one after the other.
    pub(crate) fn arguments(
        &self,
        locals: &BodyLocals<'_>,
        args: &[Argument],
    ) -> Result<List<Expr>, OutOfMemory>
        ensures { IfOk result (λ trees. trees ≡ map (argument_tree (P.writer self.now.places.now) (locals_of locals.now)) args.now) }
    {
        let names = InBody {
            places: self.places,
            locals,
        };
        let writer = ExprWriter {
            alloc: self.alloc,
            names: &names,
        };
        writer.arguments(args)
    }
}
