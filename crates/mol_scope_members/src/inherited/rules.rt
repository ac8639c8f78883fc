//! What holds of each table.
ghost use Rattle.mol_table_rules.specs.Rules.{IsProgram};

use mol_table::Table;

/// The rules of programs hold of each table. The call does nothing.
pub(crate) fn rules(table: &Table)
    ensures { IsProgram table.now }
{
    let _ = table.ids();
}
