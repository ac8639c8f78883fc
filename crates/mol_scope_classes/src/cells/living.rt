//! What lives, by single cells.
ghost use Rattle.std.specs.Prelude.{◌≡◌};
ghost use Rattle.mol_table_rules.specs.Counting.{living_of};
ghost use Rattle.mol_table_rules.specs.Program.{living_at};
ghost use Rattle.mol_table_rules.specs.Renumber.{is_living_class};

use mol_base::Id;
use mol_table::Table;
use mol_values_types::{Cell, Known, Slot, Value};

/// Whether the cell `live` of an identity is there and is yes. It takes no memory.
pub fn is_live(table: &Table, id: &Id) -> bool
    ensures { result ≡ living_at table.now id.now }
{
    let cell = Cell {
        id: *id,
        slot: Slot::Live,
    };
    match table.get(&cell) {
        Some(Value::Live(live)) => *live,
        _ => false,
    }
}

/// Whether this is a class that lives. It takes no memory.
pub fn is_living_class(table: &Table, id: &Id) -> bool
    ensures { result ≡ is_living_class table.now id.now }
{
    match table.known(*id) {
        Some(Known::Class) => is_live(table, id),
        _ => false,
    }
}

/// The method of a declaration, if this is one that lives. It takes no memory.
pub fn living_method_of(table: &Table, id: &Id) -> Option<Id>
    ensures { result ≡ living_of table.now id.now }
{
    match table.known(*id) {
        Some(Known::Decl(method)) => {
            if is_live(table, id) {
                Some(method)
            } else {
                None
            }
        },
        _ => None,
    }
}
