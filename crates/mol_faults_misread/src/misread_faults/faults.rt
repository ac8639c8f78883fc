//! The faults of names that are misread.
ghost use Rattle.std.specs.Prelude.{◌≡◌, IfOk, map};
ghost use Rattle.mol_faults_rules.specs.Kept.{kept_fault};
ghost use Rattle.mol_faults_misread.specs.misread_faults.Found.{AreMisread, fault_in, fault_of, kept_name};

use crate::misread_faults::names::{MisreadName, misread_names};
use crate::misread_faults::row::{Row, fault_of, in_row};
use mol_base::{List, OutOfMemory, in_order};
use mol_faults_rules::Fault;
use mol_spell_names::ProgramIndex;
use std::alloc::Global;

/// The names in the files of a program that read as something else than what they are the names of, or as nothing, as faults in order
/// (JLS 6.5). The table is printed as it stands: the faults of a program are those of its table once it is tidied. A name in the result or
/// the parameters of a method prints once for each declaration that lives, and is listed once where it is misread in any of these files. A
/// name of what does not live is none of them: that it is gone is a fault of its own. The time is near-linear in the size of what is
/// printed, but for what names cost. `Err` is want of memory.
pub fn misread(alloc: Global, tidied: &ProgramIndex<'_>) -> Result<List<Fault>, OutOfMemory>
    ensures { IfOk result (λ faults. AreMisread tidied.now (map kept_fault faults)) }
{
    let names = misread_names(alloc, tidied)?;
    let rows = rows_of(alloc, names)?;
    faults_of(alloc, in_order(rows))
}

/// These names as rows.
fn rows_of(alloc: Global, names: Vec<MisreadName>) -> Result<Vec<Row>, OutOfMemory>
    ensures { IfOk result (λ rows. map fault_of rows.items ≡ map fault_in (map kept_name names.items)) }
{
    let mut rows = Vec::new(alloc);
    for name in names {
        rows.push(row_of(name))?;
    }
    Ok(rows)
}

/// A name as a row. It takes no memory.
fn row_of(name: MisreadName) -> Row
    ensures { fault_of result ≡ fault_in (kept_name name) }
{
    let MisreadName { at, misread } = name;
    Row {
        at,
        number: misread.number,
        target: in_row(misread.target),
    }
}

/// These as faults.
fn faults_of(alloc: Global, rows: Vec<Row>) -> Result<List<Fault>, OutOfMemory>
    ensures { IfOk result (λ faults. map kept_fault faults ≡ map fault_of rows.items) }
{
    let mut faults = List::new(alloc);
    for row in rows {
        faults.add(fault_of(row))?;
    }
    Ok(faults)
}
