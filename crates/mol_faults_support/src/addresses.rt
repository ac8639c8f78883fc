//! The cells that say where something is found.
ghost use Rattle.std.specs.Prelude.{◌≡◌, ◌++◌, OnOk};
ghost use Rattle.mol_faults_support.specs.Cells.{address_of, declaration_address};

use crate::slots::add_slots;
use mol_base::{Id, OutOfMemory};
use mol_table::Table;
use mol_values_types::{Cell, Known, Slot};

/// Adds the cells that say where a class, a field or a declaration is found: of a declaration also those of its method.
pub(crate) fn add_address(cells: &mut Vec<Cell>, table: &Table, id: &Id) -> Result<(), OutOfMemory>
    ensures { OnOk result (cells.new.items ≡ cells.old.items ++ address_of table.now id.now) }
{
    match table.known(*id) {
        Some(Known::Class) => add_slots(cells, id, &[Slot::Live, Slot::Package, Slot::Name]),
        Some(Known::Field) => add_slots(cells, id, &[Slot::Live, Slot::Owner, Slot::Name]),
        Some(Known::Decl(method)) => add_declaration(cells, id, &method),
        Some(Known::Method(_)) => Ok(()),
        Some(Known::Param(_)) => Ok(()),
        None => Ok(()),
    }
}

/// Adds the cells of a declaration, and of its method.
fn add_declaration(cells: &mut Vec<Cell>, id: &Id, method: &Id) -> Result<(), OutOfMemory>
    ensures { OnOk result (cells.new.items ≡ cells.old.items ++ declaration_address id.now method.now) }
{
    add_slots(cells, id, &[Slot::Live, Slot::Owner, Slot::Method])?;
    add_slots(cells, method, &[Slot::Name, Slot::Params])
}
