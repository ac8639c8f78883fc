//! Methods that have the name and the number of parameters of one of `Object` now and had not when they were added, or the other way round.
ghost use Rattle.std.specs.Prelude.{◌≡◌, IfOk, cond, length, not};
ghost use Rattle.jav_names.specs.Members.{is_object_method};
ghost use Rattle.mol_faults_rules.specs.OfKind.{AreAllOfKind};
ghost use Rattle.mol_faults_entities.specs.method_faults.OutsideNames.{has_outside_name, is_living_method, is_noted_otherwise};
ghost use Rattle.mol_table_rules.specs.Program.{name_at, params_at};

use jav_scope::is_object_method;
use mol_base::{Id, List, OutOfMemory, Text, number_of};
use mol_faults_rules::Fault;
use mol_scope_classes::{name_of, params_of};
use mol_table::Table;
use mol_values_types::{Cell, Known, MethodKind, Slot, Value};
use std::alloc::Global;

/// Each method that lives, is no constructor, and has the name and the number of parameters of one of `Object` (JLS 4.3.2) now and had
/// not when it was added, or the other way round, in the order of identities. The time is that of a few look-ups for each known identity.
/// `Err` is want of memory.
pub fn outside_name(alloc: Global, table: &Table) -> Result<List<Fault>, OutOfMemory>
    ensures { IfOk result (λ faults. AreAllOfKind table.now 3 faults) }
{
    let mut faults = Vec::new(alloc);
    for id in table.ids() {
        if has_outside_name(alloc, table, id)? {
            faults.push(Fault::OutsideName(*id))?;
        }
    }
    Ok(List::from_vec(faults))
}

/// Whether this is such a method.
fn has_outside_name(alloc: Global, table: &Table, id: &Id) -> Result<bool, OutOfMemory>
    ensures { IfOk result (λ has. has ≡ has_outside_name table.now id.now) }
{
    if is_living_method(table, id) {
        is_noted_otherwise(alloc, table, id)
    } else {
        Ok(false)
    }
}

/// Whether this is a method that lives, and no constructor.
fn is_living_method(table: &Table, id: &Id) -> bool
    ensures { result ≡ is_living_method table.now id.now }
{
    match table.known(*id) {
        Some(Known::Method(MethodKind::Instance)) => table.lives(*id),
        Some(Known::Method(MethodKind::Static)) => table.lives(*id),
        _ => false,
    }
}

/// Whether it was noted of a method that it is one of `Object`, and it is none now, or the other way round.
fn is_noted_otherwise(alloc: Global, table: &Table, method: &Id) -> Result<bool, OutOfMemory>
    ensures { IfOk result (λ is. is ≡ is_noted_otherwise table.now method.now) }
{
    let now = is_of_object(alloc, table, method)?;
    let cell = Cell {
        id: *method,
        slot: Slot::Fixed,
    };
    match table.get(&cell) {
        Some(Value::Fixed(fixed)) => Ok(differ(*fixed, now)),
        _ => Ok(false),
    }
}

/// Whether one of the two is so and the other is not.
fn differ(fixed: bool, now: bool) -> bool
    ensures { result ≡ cond fixed (not now) now }
{
    fixed != now
}

/// Whether a method has the name and the number of parameters of one of `Object`.
fn is_of_object(alloc: Global, table: &Table, method: &Id) -> Result<bool, OutOfMemory>
    ensures { IfOk result (λ is. is ≡ is_object_method (name_at table.now method.now) (length (params_at table.now method.now))) }
{
    let name = Text::from_str(alloc, name_of(table, method))?;
    let arity = number_of(params_of(table, method).len())?;
    Ok(is_object_method(&name, arity))
}
