//! What the types of declarations use.
ghost use Rattle.std.specs.Prelude.{◌≡◌, ◌++◌, OnOk};
ghost use Rattle.mol_base.specs.declared.ident.Id.{Id};
ghost use Rattle.mol_spell_uses.specs.body_uses.PartUses.{declared_uses};
ghost use Rattle.mol_resolve_rules.specs.Locals.{Locals};
ghost use Rattle.mol_spell_rules.specs.Writers.{Writer};

use crate::uses::Uses;
use mol_base::OutOfMemory;
use mol_values_types::IType;

/// Adds what the type of a declaration uses, or the type after `extends`, wherever it is printed: no variable hides the name of a class
/// there (JLS 6.4.2). `Err` is want of memory.
pub fn add_declared_type(uses: &mut Uses, ty: &IType) -> Result<(), OutOfMemory>
    ensures { OnOk result ((writer : Writer) (locals : Locals Id) → uses.new ≡ uses.old ++ declared_uses writer locals ty.now) }
{
    match ty {
        IType::Boolean => Ok(()),
        IType::Byte => Ok(()),
        IType::Short => Ok(()),
        IType::Char => Ok(()),
        IType::Int => Ok(()),
        IType::Long => Ok(()),
        IType::Void => Ok(()),
        IType::Class(class) => uses.add_class(*class, false),
        IType::Imported(full, _) => uses.add_import(full, false),
        IType::Written(text) => uses.add_written(text),
        IType::Array(item) => add_declared_type(uses, item.get()),
    }
}
