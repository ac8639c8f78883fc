//! Where the names in a cell are read.
use jav_scope::ImportIndex;
use mol_base::Id;
use mol_faults_expr::MemberIndex;
use mol_spell_places::ParamNames;
use mol_values_types::Param;

/// A place in the file of a class of a table where the names in a cell are read, but for the locals in scope. The class need not live.
#[derive(Clone, Copy)]
pub struct CellPlace<'a, 'b> {
    pub members: &'b MemberIndex<'a>,
    pub class: Id,
    /// The names of the parameters in scope.
    pub param_names: &'b ParamNames<'a>,
    /// These parameters.
    pub params: &'b [Param],
    /// Whether the place is in a constructor.
    pub in_constructor: bool,
    /// The imports of the file.
    pub imports: &'b ImportIndex<'b>,
}
