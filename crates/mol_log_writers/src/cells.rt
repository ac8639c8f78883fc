//! The cells that an operation writes.
ghost use Rattle.std.specs.Prelude.{◌≡◌, ◌++◌, ◌∷◌, [], IfOk, OnOk};
ghost use Rattle.mol_log_writers.specs.Cells.{maybe_decl_cells, slot_cells, written_cells};
ghost use Rattle.mol_table_rules.specs.Program.{cell};

use crate::written::{decl_slots, written_by};
use mol_base::{Id, OutOfMemory};
use mol_op::Op;
use mol_values_types::{Cell, Slot};
use std::alloc::Global;

/// The cells that an operation writes, in the order in which it does. What adds an entity writes all cells of it. `Err` is want of memory.
pub fn cells_of(alloc: Global, op: &Op) -> Result<Vec<Cell>, OutOfMemory>
    ensures { IfOk result (λ cells. cells.items ≡ written_cells op.now) }
{
    let mut cells = Vec::new(alloc);
    let written = written_by(op);
    add_slots(&mut cells, &written.id, written.slots)?;
    add_decl(&mut cells, &written.decl)?;
    Ok(cells)
}

/// Adds the cells of a declaration, if there is one.
fn add_decl(cells: &mut Vec<Cell>, decl: &Option<Id>) -> Result<(), OutOfMemory>
    ensures { OnOk result (cells.new.items ≡ cells.old.items ++ maybe_decl_cells decl.now) }
{
    match decl {
        Some(decl) => add_slots(cells, decl, decl_slots()),
        None => Ok(()),
    }
}

/// Adds the cells of an identity in these slots.
fn add_slots(cells: &mut Vec<Cell>, id: &Id, slots: &[Slot]) -> Result<(), OutOfMemory>
    ensures { OnOk result (cells.new.items ≡ cells.old.items ++ slot_cells id.now slots.now) }
{
    for slot in slots {
        add_cell(cells, id, *slot)?;
    }
    Ok(())
}

/// Adds one cell.
fn add_cell(cells: &mut Vec<Cell>, id: &Id, slot: Slot) -> Result<(), OutOfMemory>
    ensures { OnOk result (cells.new.items ≡ cells.old.items ++ cell id.now slot ∷ []) }
{
    cells.push(Cell { id: *id, slot })?;
    Ok(())
}
