//! What is in scope where a cell prints.
ghost use Rattle.std.specs.Prelude.{◌≡◌};
ghost use Rattle.std.specs.FinMap.{get};
ghost use Rattle.mol_faults_misread.specs.misread_faults.Scopes.{in_constructor, params_in};

use mol_base::Id;
use mol_scope_classes::{is_constructor, params_of};
use mol_table::Table;
use mol_values_types::{Known, Param};

/// The parameters in scope in the cells of an entity: those of the method of a declaration, and none in any other. It takes no memory.
pub(crate) fn params_in_scope<'a>(table: &'a Table, id: &Id) -> &'a [Param]
    ensures { result.now ≡ params_in table.now (get table.now.known id.now) }
{
    match table.known(*id) {
        Some(Known::Decl(method)) => params_of(table, &method),
        _ => &[],
    }
}

/// Whether the cells of an entity are in a constructor. It takes no memory.
pub(crate) fn is_in_constructor(table: &Table, id: &Id) -> bool
    ensures { result ≡ in_constructor table.now (get table.now.known id.now) }
{
    match table.known(*id) {
        Some(Known::Decl(method)) => is_constructor(table, &method),
        _ => false,
    }
}
