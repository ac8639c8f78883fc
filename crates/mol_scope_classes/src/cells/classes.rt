//! What classes extend.
ghost use Rattle.std.specs.Prelude.{◌≡◌, option_copied, option_map};
ghost use Rattle.mol_resolve_rules.specs.ProgramViews.{seen, superclass_at};

use mol_base::Id;
use mol_table::Table;
use mol_values_types::{Cell, IType, Slot, Value};

/// The type that a class extends, if it names one, also of a class that does not live. It takes no memory.
pub fn parent_of<'a>(table: &'a Table, class: &Id) -> Option<&'a IType>
    ensures { option_map seen (option_copied result) ≡ superclass_at table.now class.now }
{
    let cell = Cell {
        id: *class,
        slot: Slot::Super,
    };
    match table.get(&cell) {
        Some(Value::Super(Some(parent))) => Some(parent),
        _ => None,
    }
}
