//! Types as words.
ghost use Rattle.std.specs.Prelude.{◌≡◌, ℕ, ◌++◌, List as Items, IfOk, OnOk};
ghost use Rattle.mol_log_words.specs.Types.{IsType};
ghost use Rattle.mol_log_words.specs.TypeWords.{type_words};
ghost use Rattle.mol_log_words.specs.declared.type_role.TypeRole.{TypeRole as Role};

use crate::written::Written;
use mol_base::{List, OutOfMemory, Text};
use mol_values_types::IType;
use std::alloc::Global;

/// The words of a type, as a log has them. They spell the type wherever any words do.
/// `Err` is want of memory.
pub fn write_type(alloc: Global, ty: &IType) -> Result<List<Text>, OutOfMemory>
    ensures words { IfOk result (λ words. words ≡ type_words ty.now) }
    ensures form { IfOk result (λ words. (r : Role) (k : ℕ) (ts : Items (Items ℕ)) → IsType r k ty.now ts
        → IsType r k ty.now words) }
{
    let mut words = Written::new(alloc);
    words.ty(ty)?;
    Ok(words.into_list())
}

impl Written {
    /// Adds the words of a type.
    pub fn ty(&mut self, ty: &IType) -> Result<(), OutOfMemory>
        ensures { OnOk result (self.new ≡ self.old ++ type_words ty.now) }
    {
        match ty {
            IType::Boolean => self.word("boolean"),
            IType::Byte => self.word("byte"),
            IType::Short => self.word("short"),
            IType::Char => self.word("char"),
            IType::Int => self.word("int"),
            IType::Long => self.word("long"),
            IType::Void => self.word("void"),
            IType::Class(id) => self.id_after("class", id),
            IType::Imported(full, rest) => {
                self.word("imported")?;
                self.text(full)?;
                self.text(rest.get())
            }
            IType::Written(name) => self.text_after("written", name),
            IType::Array(item) => {
                self.word("array")?;
                self.ty(item.get())
            }
        }
    }
}
