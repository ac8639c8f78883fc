//! Local variables.
use jav_names::SeenType;
use mol_base::Text;

/// A local variable, by its name and its type.
#[derive(Drop)]
pub struct Local {
    pub name: Text,
    pub ty: SeenType,
}

/// A local in scope, by its number, and the nearest local of its name when it came into scope.
#[derive(Clone, Copy)]
pub(crate) struct InScope {
    pub number: u32,
    pub hidden: Option<u32>,
}
