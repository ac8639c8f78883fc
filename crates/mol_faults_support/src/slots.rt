//! Cells of identities.
ghost use Rattle.std.specs.Prelude.{◌≡◌, ◌++◌, ◌∷◌, [], OnOk, map};
ghost use Rattle.std.specs.List.{flat_map};
ghost use Rattle.mol_table_rules.specs.Program.{cell};
ghost use Rattle.mol_faults_support.specs.Cells.{cells_of};
ghost use Rattle.mol_values_types.specs.declared.cell.Slot.TheVariants as slots;

use mol_base::{Id, OutOfMemory};
use mol_values_types::{Cell, Slot};

/// Adds one cell.
pub(crate) fn add_cell(cells: &mut Vec<Cell>, id: &Id, slot: Slot) -> Result<(), OutOfMemory>
    ensures { OnOk result (cells.new.items ≡ cells.old.items ++ cell id.now slot ∷ []) }
{
    cells.push(Cell { id: *id, slot })?;
    Ok(())
}

/// Adds the cells of an identity in these slots.
pub(crate) fn add_slots(cells: &mut Vec<Cell>, id: &Id, slots: &[Slot]) -> Result<(), OutOfMemory>
    ensures { OnOk result (cells.new.items ≡ cells.old.items ++ cells_of slots.now id.now) }
{
    for slot in slots {
        add_cell(cells, id, *slot)?;
    }
    Ok(())
}

/// Adds the cells of each of these identities in these slots.
pub(crate) fn add_each(cells: &mut Vec<Cell>, ids: &[Id], slots: &[Slot]) -> Result<(), OutOfMemory>
    ensures { OnOk result (cells.new.items ≡ cells.old.items ++ flat_map (cells_of slots.now) ids.now) }
{
    for id in ids {
        add_slots(cells, id, slots)?;
    }
    Ok(())
}

/// Adds what these classes extend.
pub(crate) fn add_supers(cells: &mut Vec<Cell>, classes: &[Id]) -> Result<(), OutOfMemory>
    ensures { OnOk result (cells.new.items ≡ cells.old.items ++ flat_map (cells_of (slots.Super ∷ [])) classes.now) }
{
    add_each(cells, classes, &[Slot::Super])
}

/// Adds whether these declarations live.
pub(crate) fn add_lives(cells: &mut Vec<Cell>, declarations: &[Id]) -> Result<(), OutOfMemory>
    ensures { OnOk result (cells.new.items ≡ cells.old.items ++ flat_map (cells_of (slots.Live ∷ [])) declarations.now) }
{
    add_each(cells, declarations, &[Slot::Live])
}

/// Adds the parameters of these methods.
pub(crate) fn add_params(cells: &mut Vec<Cell>, methods: &[Id]) -> Result<(), OutOfMemory>
    ensures { OnOk result (cells.new.items ≡ cells.old.items ++ flat_map (cells_of (slots.Params ∷ [])) methods.now) }
{
    add_each(cells, methods, &[Slot::Params])
}
