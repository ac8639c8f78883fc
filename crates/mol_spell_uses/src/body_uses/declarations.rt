//! Declarations of local variables (JLS 14.4).
ghost use Rattle.std.specs.Prelude.{OnOk, map};
ghost use Rattle.mol_spell_places.specs.body_locals.Kept.{locals_of};
ghost use Rattle.mol_spell_uses.specs.body_uses.UsesOn.{UsesOn};
ghost use Rattle.mol_resolve_rules.specs.ProgramViews.{seen};
ghost use Rattle.mol_spell_rules.specs.SpelledStatements.{declarator, each, spelled_let, spelled_start};

use crate::body_uses::body_uses::BodyUses;
use crate::body_uses::types::add_declared_type;
use crate::uses::Uses;
use mol_base::OutOfMemory;
use mol_spell_places::{BodyLocals, Places};
use mol_values_types::{IDeclarator, IForStart, ILet, IType};

impl<P: Places> BodyUses<'_, P> {
    /// Adds what a declaration of variables of one type uses.
    pub(crate) fn add_let<'a>(
        &self,
        uses: &mut Uses,
        locals: &mut BodyLocals<'a>,
        declared: &'a ILet,
    ) -> Result<(), OutOfMemory>
        ensures { OnOk result (UsesOn (spelled_let (P.writer self.now.places.now) declared.now)
            (locals_of locals.old) uses.old (locals_of locals.new) uses.new) }
    {
        add_declared_type(uses, &declared.ty)?;
        self.add_declarators(uses, locals, &declared.ty, declared.names.items())
    }

    /// Adds what the first values of variables of a type use, one after the other.
    fn add_declarators<'a>(
        &self,
        uses: &mut Uses,
        locals: &mut BodyLocals<'a>,
        ty: &'a IType,
        names: &'a [IDeclarator],
    ) -> Result<(), OutOfMemory>
        ensures { OnOk result (UsesOn (each (map (declarator (P.writer self.now.places.now) (seen ty.now)) names.now))
            (locals_of locals.old) uses.old (locals_of locals.new) uses.new) }
    {
        for name in names {
            self.add_declarator(uses, locals, ty, name)?;
        }
        Ok(())
    }

    /// Adds what the first value of a variable uses, which stands in the variable's own scope.
    fn add_declarator<'a>(
        &self,
        uses: &mut Uses,
        locals: &mut BodyLocals<'a>,
        ty: &'a IType,
        declared: &'a IDeclarator,
    ) -> Result<(), OutOfMemory>
        ensures { OnOk result (UsesOn (declarator (P.writer self.now.places.now) (seen ty.now) declared.now)
            (locals_of locals.old) uses.old (locals_of locals.new) uses.new) }
    {
        locals.declare(&declared.name, ty)?;
        self.add_maybe(uses, locals, &declared.init)
    }

    /// Adds what stands before the first `;` in the header of a `for` uses.
    pub(crate) fn add_start<'a>(
        &self,
        uses: &mut Uses,
        locals: &mut BodyLocals<'a>,
        start: &'a IForStart,
    ) -> Result<(), OutOfMemory>
        ensures { OnOk result (UsesOn (spelled_start (P.writer self.now.places.now) start.now)
            (locals_of locals.old) uses.old (locals_of locals.new) uses.new) }
    {
        match start {
            IForStart::None => Ok(()),
            IForStart::Let(declared) => self.add_let(uses, locals, declared),
            IForStart::Do(items) => self.add_all(uses, locals, items.items()),
        }
    }
}
