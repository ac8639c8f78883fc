//! What lives, and what is gone.
ghost use Rattle.std.specs.Prelude.{◌≡◌};
ghost use Rattle.mol_conflict.specs.Found.{is_gone};
ghost use Rattle.mol_table_rules.specs.Life.{is_living_entity};

use mol_base::Id;
use mol_table::Table;
use mol_values_types::Known;

/// The programs that tell what is gone: a base, what the log leaves after which it does not live, and what the other log leaves.
#[derive(Clone, Copy)]
pub(crate) struct Programs<'a> {
    pub base: &'a Table,
    pub gone: &'a Table,
    pub other: &'a Table,
}

/// Whether this is an entity, and lives. It takes no memory.
pub(crate) fn lives(table: &Table, id: &Id) -> bool
    ensures { result ≡ is_living_entity table.now id.now }
{
    match table.known(*id) {
        None => false,
        Some(Known::Param(_)) => false,
        Some(_) => table.lives(*id),
    }
}

/// Whether an entity of the base does not live after the one log, and lives after the other. It takes no memory.
pub(crate) fn is_gone(programs: &Programs<'_>, id: &Id) -> bool
    ensures { result ≡ is_gone programs.now.base.now programs.now.gone.now programs.now.other.now id.now }
{
    lives(programs.base, id) && !lives(programs.gone, id) && lives(programs.other, id)
}
