//! Whether two tables are the same.
ghost use Rattle.std.specs.Prelude.{◌≡◌, ◌↔◌, IsTrue, option_copied};
ghost use Rattle.std.specs.List.{All};
ghost use Rattle.mol_table_numbers.specs.Agreement.{AgreeAt, AgreeIfLiving, LivingAgree};
ghost use Rattle.mol_table_rules.specs.Life.{is_living_entity};
ghost use Rattle.mol_table_rules.specs.Sameness.{Same, IsSameness};

use mol_base::Id;
use mol_table::Table;
use mol_values::same_value;
use mol_values_types::{Cell, Known, Slot, Value};

/// Whether the same entities live in both tables and have the same values in all their cells. What
/// does not live, and which parameters are known, is not looked at. It takes no memory, and a look-up
/// for each cell.
pub fn same(one: &Table, other: &Table) -> bool
    ensures same { IsTrue result ↔ Same one.now other.now }
    ensures equivalence { IsSameness }
{
    living_agree(one, other) && living_agree(other, one)
}

/// Whether each entity that lives in one table lives in the other, with the same cells.
fn living_agree(one: &Table, other: &Table) -> bool
    ensures { IsTrue result ↔ LivingAgree one.now other.now }
{
    for id in one.ids() {
        if !agree_if_living(one, other, id) {
            return false;
        }
    }
    true
}

/// Whether an entity does not live in the first table, or lives in both tables with the same cells.
fn agree_if_living(one: &Table, other: &Table, id: &Id) -> bool
    ensures { IsTrue result ↔ AgreeIfLiving one.now other.now id.now }
{
    if !is_living_entity(one, id) {
        return true;
    }
    if !is_living_entity(other, id) {
        return false;
    }
    agree(one, other, id, &Slot::ALL)
}

/// Whether this is an entity, and lives.
fn is_living_entity(table: &Table, id: &Id) -> bool
    ensures { result ≡ is_living_entity table.now id.now }
{
    match table.known(*id) {
        None => false,
        Some(Known::Param(_)) => false,
        Some(_) => table.lives(*id),
    }
}

/// Whether an identity has the same values in these slots in both tables.
fn agree(one: &Table, other: &Table, id: &Id, slots: &[Slot]) -> bool
    ensures { IsTrue result ↔ All (AgreeAt one.now other.now id.now) slots.now }
{
    for slot in slots {
        let cell = Cell {
            id: *id,
            slot: *slot,
        };
        if !same_values(one.get(&cell), other.get(&cell)) {
            return false;
        }
    }
    true
}

/// Whether both cells have a value and the same one, or neither has one.
fn same_values(first: Option<&Value>, second: Option<&Value>) -> bool
    ensures { IsTrue result ↔ (option_copied first.entry ≡ option_copied second.entry) }
{
    match (first, second) {
        (None, None) => true,
        (Some(first), Some(second)) => same_value(first, second),
        _ => false,
    }
}
