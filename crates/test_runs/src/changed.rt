//! What is printed of changes.
use crate::case::Case;
use crate::case_fault::CaseFault;
use crate::programs::program_of;
use jav_print::print;
use mol_base::OutOfMemory;
use mol_faults::{Fault, faults, support};
use mol_report::fault_line;
use mol_spell::{SpeltUnit, spell};
use mol_table::Table;
use mol_values_types::Cell;
use std::alloc::{AllocError, Global};

/// What is printed of a change of the program that the entries of a base make, or why it is none.
pub fn change(alloc: Global, base: &str, case: &Case<'_>) -> Result<String, CaseFault> {
    let before = program_of(alloc, base, "")?;
    changed(alloc, &before, base, case)
}

/// What is printed of a change, where the program before it is there.
fn changed(
    alloc: Global,
    before: &Table,
    base: &str,
    case: &Case<'_>,
) -> Result<String, CaseFault> {
    let after = program_of(alloc, base, case.entries)?;
    printed(alloc, before, &after, case)
}

/// What is printed of the programs before and after a change.
fn printed(
    alloc: Global,
    before: &Table,
    after: &Table,
    case: &Case<'_>,
) -> Result<String, CaseFault> {
    let mut text = String::new(alloc);
    push_line(&mut text, "", case.name.as_bytes())?;
    push_faults(alloc, &mut text, before, after)?;
    if !case.paths.is_empty() {
        push_files(alloc, &mut text, after, case)?;
    }
    Ok(text)
}

/// Appends a line with its LF.
fn push_line(text: &mut String, indent: &str, line: &[u8]) -> Result<(), AllocError> {
    text.push_str(indent)?;
    text.push_str(str::from_utf8(line).unwrap_or("no text"))?;
    text.push('\n')
}

/// Appends all faults of a program, with the addresses of the one before it.
fn push_faults(
    alloc: Global,
    text: &mut String,
    before: &Table,
    after: &Table,
) -> Result<(), OutOfMemory> {
    let found = faults(alloc, after)?;
    push_each(alloc, text, before, after, found.items())
}

/// Appends faults.
fn push_each(
    alloc: Global,
    text: &mut String,
    before: &Table,
    after: &Table,
    faults: &[Fault],
) -> Result<(), OutOfMemory> {
    for fault in faults {
        push_fault(alloc, text, before, fault)?;
        push_support(alloc, text, after, fault)?;
    }
    Ok(())
}

/// Appends the line of a fault.
fn push_fault(
    alloc: Global,
    text: &mut String,
    before: &Table,
    fault: &Fault,
) -> Result<(), OutOfMemory> {
    let line = fault_line(alloc, before, fault)?;
    Ok(push_line(text, "  ", line.items())?)
}

/// Appends the line of the cells that a fault rests on.
fn push_support(
    alloc: Global,
    text: &mut String,
    after: &Table,
    fault: &Fault,
) -> Result<(), OutOfMemory> {
    let cells = support(alloc, after, fault)?;
    push_cells(alloc, text, cells.items())
}

/// Appends a line of cells.
fn push_cells(alloc: Global, text: &mut String, cells: &[Cell]) -> Result<(), OutOfMemory> {
    text.push_str("   ")?;
    for cell in cells {
        push_cell(alloc, text, cell)?;
    }
    Ok(text.push('\n')?)
}

/// Appends a space and a cell.
fn push_cell(alloc: Global, text: &mut String, cell: &Cell) -> Result<(), OutOfMemory> {
    let cell = cell_text(alloc, cell)?;
    text.push(' ')?;
    Ok(text.push_str(cell.as_str())?)
}

/// A cell: its identity, a dot and its slot.
fn cell_text(alloc: Global, cell: &Cell) -> Result<String, OutOfMemory> {
    let id = cell.id.write(alloc)?;
    let text = format!(in alloc; "{}.{:?}", id.as_str(), cell.slot)?;
    // Tags are in lower case.
    Ok(text.to_ascii_lowercase(alloc)?)
}

/// Appends the files of a program that are asked for.
fn push_files(
    alloc: Global,
    text: &mut String,
    program: &Table,
    case: &Case<'_>,
) -> Result<(), OutOfMemory> {
    let units = spell(alloc, program)?;
    push_units(alloc, text, units.items(), case)
}

/// Appends those of the files that are asked for.
fn push_units(
    alloc: Global,
    text: &mut String,
    units: &[SpeltUnit],
    case: &Case<'_>,
) -> Result<(), OutOfMemory> {
    for unit in units {
        if case.prints(unit.path.as_str()) {
            push_unit(alloc, text, unit)?;
        }
    }
    Ok(())
}

/// Appends the path and the text of a file.
fn push_unit(alloc: Global, text: &mut String, unit: &SpeltUnit) -> Result<(), OutOfMemory> {
    push_line(text, "--- ", unit.path.bytes())?;
    let file = print(alloc, &unit.unit)?;
    text.push_str(str::from_utf8(file.items()).unwrap_or("no text"))?;
    Ok(())
}
