//! All files.
ghost use Rattle.std.specs.Prelude.{◌≡◌, IfOk, map};
ghost use Rattle.mol_spell_rules.specs.SpelledUnits.{spelling};
ghost use Rattle.mol_table_rules.specs.Tidy.{tidy};
ghost use Rattle.mol_spell.specs.Spelt.{spelled_of, unit_at};
ghost use Rattle.mol_spell.specs.keys.Keys.{key_of};

use crate::file::file_of;
use crate::keys::{UnitKey, unit_keys};
use crate::spelt_unit::SpeltUnit;
use mol_base::{List, OutOfMemory};
use mol_spell_names::ProgramIndex;
use mol_table::Table;
use std::alloc::Global;

/// A table as source files: one for each class that lives, of its values once they are tidied, ascending by path and then by class. The
/// time is near-linear in the size of the table, but for what names cost. `Err` is want of memory.
pub fn spell(alloc: Global, table: &Table) -> Result<List<SpeltUnit>, OutOfMemory>
    ensures { IfOk result (λ units. map spelled_of units ≡ spelling table.now) }
{
    let tidied = table.tidy(alloc)?;
    let index = ProgramIndex::new(alloc, &tidied)?;
    spell_tidied(alloc, &index)
}

/// The source files of a table of which each value is tidied already.
fn spell_tidied(alloc: Global, program: &ProgramIndex<'_>) -> Result<List<SpeltUnit>, OutOfMemory>
    requires { tidy program.now ≡ program.now }
    ensures { IfOk result (λ units. map spelled_of units ≡ spelling program.now) }
{
    let keys = file_keys(alloc, program)?;
    units_of(alloc, program, keys)
}

/// The keys of the source files that a table is spelled as, in the order of the files, which `file_of` has one by one. Each value of the table
/// is tidied already, as it is of each program that sources read as. The time is near-linear in the number of known identities. `Err` is want
/// of memory.
pub fn file_keys(alloc: Global, program: &ProgramIndex<'_>) -> Result<Vec<UnitKey>, OutOfMemory>
    requires { tidy program.now ≡ program.now }
    ensures { IfOk result (λ keys. map (unit_at program.now) (map key_of keys.items) ≡ spelling program.now) }
{
    unit_keys(alloc, program.table())
}

/// The files of these keys.
fn units_of(
    alloc: Global,
    program: &ProgramIndex<'_>,
    keys: Vec<UnitKey>,
) -> Result<List<SpeltUnit>, OutOfMemory>
    ensures { IfOk result (λ units. map spelled_of units ≡ map (unit_at program.now) (map key_of keys.items)) }
{
    let mut units = List::new(alloc);
    for key in keys {
        let unit = file_of(alloc, program, key)?;
        units.add(unit)?;
    }
    Ok(units)
}
