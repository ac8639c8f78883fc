//! The cells that say where something is and what it is.
ghost use Rattle.std.specs.Prelude.{◌≡◌, ◌++◌, OnOk};
ghost use Rattle.std.specs.List.{flat_map};
ghost use Rattle.mol_faults_support.specs.Met.{header_of};

use crate::slots::add_slots;
use mol_base::{Id, OutOfMemory};
use mol_table::Table;
use mol_values_types::{Cell, Known, Slot};

/// Adds the cells of these identities but for modifiers, comments, bodies and values.
pub(crate) fn add_headers(
    cells: &mut Vec<Cell>,
    table: &Table,
    ids: &[Id],
) -> Result<(), OutOfMemory>
    ensures { OnOk result (cells.new.items ≡ cells.old.items ++ flat_map (header_of table.now) ids.now) }
{
    for id in ids {
        add_header(cells, table, id)?;
    }
    Ok(())
}

/// Adds the cells of an identity but for modifiers, comments, body and value.
fn add_header(cells: &mut Vec<Cell>, table: &Table, id: &Id) -> Result<(), OutOfMemory>
    ensures { OnOk result (cells.new.items ≡ cells.old.items ++ header_of table.now id.now) }
{
    match table.known(*id) {
        Some(Known::Class) => add_slots(
            cells,
            id,
            &[Slot::Live, Slot::Package, Slot::Name, Slot::Super],
        ),
        Some(Known::Method(_)) => {
            add_slots(
                cells,
                id,
                &[
                    Slot::Name,
                    Slot::Result,
                    Slot::Params,
                    Slot::Kind,
                    Slot::Fixed,
                ],
            )
        },
        Some(Known::Decl(_)) => add_slots(cells, id, &[Slot::Live, Slot::Owner, Slot::Method]),
        Some(Known::Field) => add_slots(cells, id, &[Slot::Live, Slot::Owner, Slot::Name]),
        Some(Known::Param(_)) => Ok(()),
        None => Ok(()),
    }
}
