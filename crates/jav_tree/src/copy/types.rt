ghost use Rattle.std.specs.Prelude.{◌≡◌, IfOk};

use crate::types::TypeName;
use mol_base::{Boxed, List, OutOfMemory, Text};
use std::alloc::Global;

impl TypeName {
    /// A type that equals this one.
    pub fn copy(&self, alloc: Global) -> Result<TypeName, OutOfMemory>
        ensures { IfOk result (λ copy. copy ≡ self.now) }
    {
        match self {
            TypeName::Prim(name) => Ok(TypeName::Prim(name.copy(alloc)?)),
            TypeName::Named(name) => Ok(TypeName::Named(name.copy(alloc)?)),
            TypeName::ArrayOf(item) => Ok(TypeName::ArrayOf(Boxed::new(
                alloc,
                item.get().copy(alloc)?,
            )?)),
            TypeName::Void => Ok(TypeName::Void),
        }
    }
}

/// Texts that equal these.
pub fn copy_texts(alloc: Global, texts: &[Text]) -> Result<List<Text>, OutOfMemory>
    ensures { IfOk result (λ all. all ≡ texts.now) }
{
    let mut all = List::new(alloc);
    for text in texts {
        all.add(text.copy(alloc)?)?;
    }
    Ok(all)
}
