//! A local variable of a body.
use mol_base::Text;
use mol_values_types::IType;

/// A local variable, by its name and its type.
#[derive(Clone, Copy)]
pub struct BodyLocal<'a> {
    pub name: &'a Text,
    pub ty: &'a IType,
}
