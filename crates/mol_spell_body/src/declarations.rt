//! Declarations of local variables (JLS 14.4).
ghost use Rattle.std.specs.Prelude.{◌≡◌, IfOk, IsOkAnd, map};
ghost use Rattle.jav_tree.specs.declared.stmt.StmtNode.TheVariants as node;
ghost use Rattle.mol_spell_body.specs.GoesOn.{GoesOn};
ghost use Rattle.mol_spell_body.specs.Made as made;
ghost use Rattle.mol_spell_places.specs.body_locals.Kept.{locals_of};
ghost use Rattle.mol_resolve_rules.specs.ProgramViews.{seen};
ghost use Rattle.mol_spell_rules.specs.SpelledStatements.{declarator, each, mapped, spelled_let, spelled_start};

use crate::body_writer::BodyWriter;
use jav_tree::{Declarator, Expr, ForStart, Let, StmtNode, TypeName};
use mol_base::{List, OutOfMemory, Text};
use mol_spell_places::{BodyLocals, Places};
use mol_values_types::{IDeclarator, IForStart, ILet, IType};
use std::alloc::Global;

impl<P: Places> BodyWriter<'_, P> {
    /// A declaration of variables as a statement.
    pub(crate) fn let_statement<'a>(
        &self,
        locals: &mut BodyLocals<'a>,
        declared: &'a ILet,
    ) -> Result<StmtNode, OutOfMemory>
        ensures { let writer = P.writer self.now.places.now in IfOk result (λ tree. GoesOn
            (λ locals. mapped (λ declared. node.Let declared) (spelled_let writer declared.now locals)) tree
            (locals_of locals.old) (locals_of locals.new)) }
    {
        let declared = self.declaration(locals, declared)?;
        Ok(StmtNode::Let(declared))
    }

    /// A declaration of variables of one type.
    fn declaration<'a>(
        &self,
        locals: &mut BodyLocals<'a>,
        declared: &'a ILet,
    ) -> Result<Let, OutOfMemory>
        ensures { IfOk result (λ tree. GoesOn (spelled_let (P.writer self.now.places.now) declared.now) tree
            (locals_of locals.old) (locals_of locals.new)) }
    {
        let ty = self.type_name(locals, &declared.ty)?;
        let names = self.declarators(locals, &declared.ty, declared.names.items());
        let_of(declared.is_final, ty, names)
    }

    /// The variables of a declaration, one after the other.
    fn declarators<'a>(
        &self,
        locals: &mut BodyLocals<'a>,
        ty: &'a IType,
        names: &'a [IDeclarator],
    ) -> Result<List<Declarator>, OutOfMemory>
        ensures { let writer = P.writer self.now.places.now in
            IfOk result (λ trees. GoesOn (each (map (declarator writer (seen ty.now)) names.now)) trees
            (locals_of locals.old) (locals_of locals.new)) }
    {
        let mut trees = List::new(self.alloc);
        for name in names {
            let tree = self.declarator(locals, ty, name)?;
            trees.add(tree)?;
        }
        Ok(trees)
    }

    /// A variable of a declaration. Its first value is written in its own scope.
    fn declarator<'a>(
        &self,
        locals: &mut BodyLocals<'a>,
        ty: &'a IType,
        declared: &'a IDeclarator,
    ) -> Result<Declarator, OutOfMemory>
        ensures { IfOk result (λ tree. GoesOn (declarator (P.writer self.now.places.now) (seen ty.now) declared.now) tree
            (locals_of locals.old) (locals_of locals.new)) }
    {
        locals.declare(&declared.name, ty)?;
        let init = self.maybe_expr(locals, &declared.init)?;
        declarator_of(self.alloc, &declared.name, init)
    }

    /// What stands before the first `;` in the header of a `for`.
    pub(crate) fn for_start<'a>(
        &self,
        locals: &mut BodyLocals<'a>,
        start: &'a IForStart,
    ) -> Result<ForStart, OutOfMemory>
        ensures { IfOk result (λ tree. GoesOn (spelled_start (P.writer self.now.places.now) start.now) tree
            (locals_of locals.old) (locals_of locals.new)) }
    {
        match start {
            IForStart::None => Ok(ForStart::None),
            IForStart::Let(declared) => Ok(ForStart::Let(self.declaration(locals, declared)?)),
            IForStart::Do(items) => Ok(ForStart::Do(self.exprs(locals, items.items())?)),
        }
    }
}

/// A declaration of its type, and of the variables that were written after it.
fn let_of(
    is_final: bool,
    ty: TypeName,
    names: Result<List<Declarator>, OutOfMemory>,
) -> Result<Let, OutOfMemory>
    ensures { IfOk result (λ tree. IsOkAnd names (λ names. tree ≡ made.let_of is_final ty names)) }
{
    let names = names?;
    Ok(Let {
        is_final,
        ty,
        names,
    })
}

/// A variable and its first value.
fn declarator_of(alloc: Global, name: &Text, init: Option<Expr>) -> Result<Declarator, OutOfMemory>
    ensures { IfOk result (λ tree. tree ≡ made.declarator name.now init) }
{
    let name = name.copy(alloc)?;
    Ok(Declarator { name, init })
}
