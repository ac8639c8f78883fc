//! Names and packages.
ghost use Rattle.std.specs.Prelude.{◌≡◌};
ghost use Rattle.mol_table_rules.specs.Program.{name_at, package_at};

use mol_base::Id;
use mol_table::Table;
use mol_values_types::{Cell, Slot, Value};

/// The name of a class, a field or a method; empty where nothing has one. It takes no memory.
pub fn name_of<'a>(table: &'a Table, id: &Id) -> &'a str
    ensures { result.now ≡ name_at table.now id.now }
{
    let cell = Cell {
        id: *id,
        slot: Slot::Name,
    };
    match table.get(&cell) {
        Some(Value::Name(name)) => name.as_str(),
        _ => "",
    }
}

/// The package of a class; empty where the identity is none of a class. It takes no memory.
pub fn package_of<'a>(table: &'a Table, class: &Id) -> &'a str
    ensures { result.now ≡ package_at table.now class.now }
{
    let cell = Cell {
        id: *class,
        slot: Slot::Package,
    };
    match table.get(&cell) {
        Some(Value::Package(package)) => package.as_str(),
        _ => "",
    }
}
