//! Superclasses.
ghost use Rattle.std.specs.Prelude.{◌≡◌, Some};
ghost use Rattle.std.specs.FinMap as map;
ghost use Rattle.mol_table_rules.specs.Heights.{upward};
ghost use Rattle.mol_table_rules.specs.Program.{class_of_type, parent_at};
ghost use Rattle.mol_table_rules.specs.Renumber.{is_class};
ghost use Rattle.mol_table_rules.specs.Rules.{IsProgram};

use crate::cells::is_live;
use mol_base::Id;
use mol_table::Table;
use mol_values_types::{Cell, IType, Known, Slot, Value};

/// The superclass of a class, where that is a class of the program and lives (JLS 8.1.4). It takes no memory, and the time is that of some
/// look-ups.
pub fn living_parent(table: &Table, class: &Id) -> Option<Id>
    ensures { result ≡ upward table.now (Some class.now) }
{
    match parent_of(table, class) {
        Some(parent) => {
            if is_live(table, &parent) {
                Some(parent)
            } else {
                None
            }
        },
        None => None,
    }
}

/// The superclass of a class, where that is a class of the program. Nothing else has a cell for it, and that a cell is not there takes longer
/// to find than what an identity is.
fn parent_of(table: &Table, class: &Id) -> Option<Id>
    ensures { result ≡ parent_at table.now class.now }
{
    rules(table);
    if is_class(table, class) {
        parent_in_cell(table, class)
    } else {
        None
    }
}

/// The rules of programs hold of each table. The call does nothing.
fn rules(table: &Table)
    ensures { IsProgram table.now }
{
    let _ = table.ids();
}

/// Whether this is a class.
fn is_class(table: &Table, id: &Id) -> bool
    ensures { result ≡ is_class (map.get table.now.known id.now) }
{
    match table.known(*id) {
        Some(Known::Class) => true,
        _ => false,
    }
}

/// The superclass that the cell of a class names, where that is a class of the program.
fn parent_in_cell(table: &Table, class: &Id) -> Option<Id>
    ensures { result ≡ parent_at table.now class.now }
{
    let cell = Cell {
        id: *class,
        slot: Slot::Super,
    };
    match table.get(&cell) {
        Some(Value::Super(Some(parent))) => class_of(parent),
        _ => None,
    }
}

/// The class of the program that a type is.
fn class_of(ty: &IType) -> Option<Id>
    ensures { result ≡ class_of_type ty.now }
{
    match ty {
        IType::Class(id) => Some(*id),
        _ => None,
    }
}
