//! What becomes of the values of all cells.
use crate::fault::CaseFault;
use indexmap::IndexMap;
use mol_base::{Id, OutOfMemory};
use mol_table::Table;
use mol_values::{rename_value, same_value};
use mol_values_types::{Cell, Slot, Value};
use std::alloc::Global;

/// The cells that have a value.
fn cells_of(alloc: Global, table: &Table) -> Result<Vec<Cell>, OutOfMemory> {
    let mut cells = Vec::new(alloc);
    for id in table.ids() {
        for slot in Slot::ALL {
            let cell = Cell { id: *id, slot };
            if table.get(&cell).is_some() {
                cells.push(cell)?;
            }
        }
    }
    Ok(cells)
}

/// Whether a value has the form of this slot, and its copy is the same.
fn is_copied(alloc: Global, slot: Slot, value: &Value) -> Result<bool, OutOfMemory> {
    let copy = value.copy(alloc)?;
    Ok(value.slot() == slot && same_value(&copy, value))
}

/// How many cells there are, and in how many of them the value is of the slot and its copy is the same.
pub fn copied_text(alloc: Global, table: &Table) -> Result<String, CaseFault> {
    let mut copied = 0_u64;
    let cells = cells_of(alloc, table)?;
    for cell in &cells {
        if let Some(value) = table.get(cell) {
            if is_copied(alloc, cell.slot, value)? {
                copied = copied.saturating_add(1);
            }
        }
    }
    Ok(format!(in alloc; "{copied} of {}", cells.len())?)
}

/// The second identity in place of the first one.
fn single_name(alloc: Global, first: Id, second: Id) -> Result<IndexMap<Id, Id>, OutOfMemory> {
    let mut names = IndexMap::new(alloc);
    let _ = names.insert(first, second)?;
    Ok(names)
}

/// Whether a value is another one with these names.
fn is_other(alloc: Global, names: &IndexMap<Id, Id>, value: &Value) -> Result<bool, OutOfMemory> {
    let renamed = rename_value(alloc, names, value)?;
    Ok(!same_value(&renamed, value))
}

/// How many values are other ones with the second identity in place of the first one.
pub fn renamed_text(
    alloc: Global,
    table: &Table,
    first: Id,
    second: Id,
) -> Result<String, CaseFault> {
    let names = single_name(alloc, first, second)?;
    let mut changed = 0_u64;
    let cells = cells_of(alloc, table)?;
    for cell in &cells {
        if let Some(value) = table.get(cell) {
            if is_other(alloc, &names, value)? {
                changed = changed.saturating_add(1);
            }
        }
    }
    Ok(format!(in alloc; "{changed}")?)
}
