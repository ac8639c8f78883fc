//! All faults of a program.
ghost use Rattle.std.specs.Prelude.{◌≡◌, ◌++◌, [], IfOk, OnOk, map};
ghost use Rattle.mol_faults_rules.specs.Kept.{kept_fault};
ghost use Rattle.mol_spell_rules.specs.FaultList.{AreFaults};
ghost use Rattle.mol_table_rules.specs.Tidy.{tidy};

use mol_base::{List, OutOfMemory};
use mol_faults_entities::{apart, false_override, outside_name, package_is_class, same_address};
use mol_faults_misread::misread;
use mol_faults_rules::Fault;
use mol_faults_values::{local_clash, missing};
use mol_spell_names::ProgramIndex;
use mol_table::Table;
use std::alloc::Global;

/// All faults of a program, each once: by their kinds, in the order of the variants of `Fault`, and then by their fields, cells by identity
/// and slot. There are none exactly where the program is clean. `Err` is want of memory.
///
/// The table is tidied once. The time is that of one pass over the program for each kind, and of sorting what they find.
pub fn faults(alloc: Global, table: &Table) -> Result<List<Fault>, OutOfMemory>
    ensures { IfOk result (λ faults. AreFaults table.now (map kept_fault faults)) }
{
    let tidied = table.tidy(alloc)?;
    let all = all_indexed(alloc, table, &tidied)?;
    Ok(List::from_vec(all))
}

/// All faults of a program, whose indexes are made of it once it is tidied.
fn all_indexed(alloc: Global, table: &Table, tidied: &Table) -> Result<Vec<Fault>, OutOfMemory>
    requires { tidied.now ≡ tidy table.now }
    ensures { IfOk result (λ all. AreFaults table.now (map kept_fault all.items)) }
{
    let index = ProgramIndex::new(alloc, tidied)?;
    all_of(alloc, table, &index)
}

/// All faults of a program, which is also there tidied.
pub(crate) fn all_of(
    alloc: Global,
    table: &Table,
    tidied: &ProgramIndex<'_>,
) -> Result<Vec<Fault>, OutOfMemory>
    requires { tidied.now ≡ tidy table.now }
    ensures { IfOk result (λ all. AreFaults table.now (map kept_fault all.items)) }
{
    let mut all = Vec::new(alloc);
    add_all(alloc, &mut all, table, tidied)?;
    Ok(all)
}

/// Adds the faults of each kind, one kind after another.
fn add_all(
    alloc: Global,
    all: &mut Vec<Fault>,
    table: &Table,
    tidied: &ProgramIndex<'_>,
) -> Result<(), OutOfMemory>
    requires none { all.old.items ≡ [] }
    requires tidied { tidied.now ≡ tidy table.now }
    ensures { OnOk result (AreFaults table.now (map kept_fault all.new.items)) }
{
    add(all, same_address(alloc, table)?)?;
    add(all, false_override(alloc, table)?)?;
    add(all, apart(alloc, table)?)?;
    add(all, outside_name(alloc, table)?)?;
    add(all, missing(alloc, table, tidied.table())?)?;
    add(all, misread(alloc, tidied)?)?;
    add(all, local_clash(alloc, table)?)?;
    add(all, package_is_class(alloc, table)?)
}

/// Adds faults at the end.
fn add(all: &mut Vec<Fault>, found: List<Fault>) -> Result<(), OutOfMemory>
    ensures { OnOk result (all.new.items ≡ all.old.items ++ found) }
{
    let mut found = found.into_vec();
    all.append(&mut found)?;
    Ok(())
}
