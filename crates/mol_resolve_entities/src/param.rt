//! Parameters, as the lists of methods have them.
ghost use Rattle.std.specs.Prelude.{◌≡◌, ℕ, IfOk};
ghost use Rattle.jav_names.specs.Views.{ViewType};
ghost use Rattle.mol_resolve_rules.specs.Expected.{filler_of, listed};

use jav_tree::Param as NamedParam;
use mol_base::{Id, OutOfMemory, Text};
use mol_values_types::{IType, Param};
use std::alloc::Global;

/// A parameter by its identity, with its type as it is read. `Err` is want of memory.
pub fn listed(alloc: Global, id: Id, param: &NamedParam, ty: IType) -> Result<Param, OutOfMemory>
    ensures { IfOk result (λ item. (type : ViewType ℕ) → item ≡ listed (id, (param.now, record { tree = ty; type = type }))) }
{
    let filler = filler(&ty);
    Ok(Param {
        id,
        name: param.name.copy(alloc)?,
        filler: Text::from_str(alloc, filler)?,
        ty,
    })
}

/// What a call gives for a parameter of this type for which it recorded no argument: a literal. It takes no memory.
pub fn filler(ty: &IType) -> &'static str
    ensures { result.now ≡ filler_of ty.now }
{
    match ty {
        IType::Boolean => "false",
        IType::Byte => "0",
        IType::Short => "0",
        IType::Int => "0",
        IType::Long => "0",
        IType::Char => "'\\0'",
        IType::Void => "null",
        IType::Class(_) => "null",
        IType::Imported(_, _) => "null",
        IType::Written(_) => "null",
        IType::Array(_) => "null",
    }
}
