ghost use Rattle.std.specs.Prelude.{◌≡◌, ◌++◌, OnOk};
ghost use Rattle.jav_tree.specs.TypeText.{type_text};
ghost use Rattle.jav_tree.specs.Types as spec;

use crate::page::Page;
use jav_tree::TypeName;
use mol_base::OutOfMemory;

impl Page {
    /// Appends a type.
    pub fn type_name(&mut self, ty: &TypeName) -> Result<(), OutOfMemory>
        ensures { OnOk result (self.new ≡ self.old ++ type_text ty.now) }
    {
        match ty {
            TypeName::Prim(name) => self.put(name.as_str()),
            TypeName::Named(name) => self.put(name.as_str()),
            TypeName::ArrayOf(item) => {
                self.type_name(item.get())?;
                self.put("[]")
            }
            TypeName::Void => self.put("void"),
        }
    }
}

/// Whether a type is primitive, and no array of one.
pub fn is_primitive(ty: &TypeName) -> bool
    ensures { result ≡ spec.is_primitive ty.now }
{
    match ty {
        TypeName::Prim(_) => true,
        TypeName::Named(_) => false,
        TypeName::ArrayOf(_) => false,
        TypeName::Void => false,
    }
}
