//! Types.
ghost use Rattle.std.specs.Prelude.{true, IsTrue, IfOk};
ghost use Rattle.std.specs.Option.{option_map_or};
ghost use Rattle.mol_table_rules.specs.TypeForms.{is_type, is_result, is_class};

use crate::fault::CaseFault;
use crate::line::Line;
use crate::texts::dotted_of;
use mol_values_types::IType;
use std::alloc::Global;

/// The type that begins with this word: `int`, `long`, a class by its identity, or one outside as it is written.
#[tactic(auto, using(crate::proofs::TypeForms::read_types))]
fn type_of(alloc: Global, line: &mut Line<'_>, word: &str) -> Result<IType, CaseFault>
    ensures { IfOk result (λ ty. IsTrue (is_type ty)) }
{
    match word {
        "int" => Ok(IType::Int),
        "long" => Ok(IType::Long),
        "class" => Ok(IType::Class(line.id())),
        "written" => Ok(IType::Written(dotted_of(alloc, line.word())?)),
        _ => Err(CaseFault::Unread),
    }
}

/// The next type.
pub fn read_type(alloc: Global, line: &mut Line<'_>) -> Result<IType, CaseFault>
    ensures { IfOk result (λ ty. IsTrue (is_type ty)) }
{
    let word = line.word();
    type_of(alloc, line, word)
}

/// The same, or `void`.
#[tactic(auto, using(crate::proofs::TypeForms::void_result, crate::proofs::TypeForms::type_result))]
pub fn read_result(alloc: Global, line: &mut Line<'_>) -> Result<IType, CaseFault>
    ensures { IfOk result (λ ty. IsTrue (is_result ty)) }
{
    match line.word() {
        "void" => Ok(IType::Void),
        word => type_of(alloc, line, word),
    }
}

/// A superclass by its identity, or `null` where there is none.
#[tactic(auto, using(crate::proofs::TypeForms::class_is_class))]
pub fn read_parent(line: &mut Line<'_>) -> Option<IType>
    ensures { IsTrue (option_map_or is_class result true) }
{
    match line.word() {
        "class" => Some(IType::Class(line.id())),
        "null" => None,
        _ => {
            line.spoil();
            None
        }
    }
}
