ghost use Rattle.std.specs.Prelude.{◌≡◌, IfOk};
ghost use Rattle.mol_values_types.specs.declared.itype.IType.TheVariants as types;

use crate::IType;
use mol_base::{Boxed, OutOfMemory, Text, both};
use std::alloc::Global;

impl IType {
    /// A type that equals this one.
    pub fn copy(&self, alloc: Global) -> Result<IType, OutOfMemory>
        ensures { IfOk result (λ copy. copy ≡ self.now) }
    {
        match self {
            IType::Boolean => Ok(IType::Boolean),
            IType::Byte => Ok(IType::Byte),
            IType::Short => Ok(IType::Short),
            IType::Char => Ok(IType::Char),
            IType::Int => Ok(IType::Int),
            IType::Long => Ok(IType::Long),
            IType::Void => Ok(IType::Void),
            IType::Class(id) => Ok(IType::Class(*id)),
            IType::Imported(full, rest) => {
                match both(full.copy(alloc), copy_boxed(alloc, rest.get())) {
                    Ok((full, rest)) => Ok(IType::Imported(full, rest)),
                    Err(want) => Err(want),
                }
            },
            IType::Written(name) => match name.copy(alloc) {
                Ok(name) => Ok(IType::Written(name)),
                Err(want) => Err(want),
            },
            IType::Array(item) => match item.get().copy(alloc) {
                Ok(item) => array_of(alloc, item),
                Err(want) => Err(want),
            },
        }
    }
}

/// A text on the heap that equals this one.
fn copy_boxed(alloc: Global, text: &Text) -> Result<Boxed<Text>, OutOfMemory>
    ensures { IfOk result (λ copy. copy ≡ text.now) }
{
    Boxed::new(alloc, text.copy(alloc)?)
}

/// The array of items of this type.
fn array_of(alloc: Global, item: IType) -> Result<IType, OutOfMemory>
    ensures { IfOk result (λ array. array ≡ types.Array item) }
{
    Ok(IType::Array(Boxed::new(alloc, item)?))
}
