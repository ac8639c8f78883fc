//! Going up from classes (JLS 8.1.4).
ghost use Rattle.std.specs.Prelude.{◌≡◌, ◌⊎◌, ◌↔◌, ◌++◌, Contains, IfOk, OnOk, Some};
ghost use Rattle.mol_base.specs.declared.ident.Id.{Id as Identity};
ghost use Rattle.mol_spell_rules.specs.Support.{IsAboveDeclaration, IsBetween};
ghost use Rattle.mol_faults_support.specs.Ways.{fresh_way, AreAbove, AreBetweenOwner, AreBetweenOwners, IsClosed, IsUpTo};
ghost use Rattle.mol_table_rules.specs.Ancestors.{living_parent, unmet, walk, way};
ghost use Rattle.mol_table_rules.specs.Program.{class_of_type, parent_at};

use indexmap::IndexSet;
use mol_base::{Id, OutOfMemory};
use mol_scope_classes::{is_live, owner_of};
use mol_table::Table;
use mol_values_types::{Cell, IType, Slot, Value};
use std::alloc::Global;

/// The classes in which these declarations stand, and all above them. Each class is gone through once.
pub(crate) fn classes_above(
    alloc: Global,
    table: &Table,
    declarations: &[Id],
) -> Result<IndexSet<Id>, OutOfMemory>
    ensures { IfOk result (λ classes. AreAbove table.now declarations.now classes.keys) }
{
    let mut met = IndexSet::new(alloc);
    for declaration in declarations {
        meet_owner(table, &mut met, declaration)?;
    }
    Ok(met)
}

/// Meets the class in which a declaration stands, and those above it. With each class that was met those above it were.
fn meet_owner(table: &Table, met: &mut IndexSet<Id>, declaration: &Id) -> Result<(), OutOfMemory>
    requires { IsClosed table.now met.old.keys }
    ensures closed { OnOk result (IsClosed table.now met.new.keys) }
    ensures met { OnOk result ((class : Identity) → Contains met.new.keys class
        ↔ (Contains met.old.keys class ⊎ IsAboveDeclaration table.now declaration.now class)) }
{
    match owner_of(table, declaration) {
        Some(owner) => meet_way(table, met, &owner),
        None => Ok(()),
    }
}

/// Meets a class and then those above it, in this order, up to one that was met. With each class that was met those above it were.
fn meet_way(table: &Table, met: &mut IndexSet<Id>, class: &Id) -> Result<(), OutOfMemory>
    requires { IsClosed table.now met.old.keys }
    ensures way { OnOk result (met.new.keys ≡ met.old.keys ++ fresh_way table.now met.old.keys class.now) }
    ensures closed { OnOk result (IsClosed table.now met.new.keys) }
    ensures met { OnOk result ((above : Identity) → Contains met.new.keys above
        ↔ (Contains met.old.keys above ⊎ Contains (way table.now class.now) above)) }
{
    let ids = table.ids();
    go_up(table, met, class, ids.len() + 1)
}

/// Goes up from a class, by at most so many classes, up to one that was met.
fn go_up(table: &Table, met: &mut IndexSet<Id>, class: &Id, steps: usize) -> Result<(), OutOfMemory>
    ensures { OnOk result (met.new.keys ≡ met.old.keys ++ walk steps table.now met.old.keys (unmet met.old.keys (Some class.now))) }
{
    let mut at = Some(*class);
    for _ in 0..steps {
        let Some(next) = at else {
            return Ok(());
        };
        let is_new = met.insert(next)?;
        if !is_new {
            return Ok(());
        }
        at = living_parent(table, &next);
    }
    Ok(())
}

/// The superclass of a class, where that is a class of the program and lives.
fn living_parent(table: &Table, class: &Id) -> Option<Id>
    ensures { result ≡ living_parent table.now (parent_at table.now class.now) }
{
    match parent(table, class) {
        Some(parent) => living(table, &parent),
        None => None,
    }
}

/// A class, if it lives.
fn living(table: &Table, class: &Id) -> Option<Id>
    ensures { result ≡ living_parent table.now (Some class.now) }
{
    if is_live(table, class) {
        Some(*class)
    } else {
        None
    }
}

/// The superclass of a class, where that is a class of the program.
fn parent(table: &Table, class: &Id) -> Option<Id>
    ensures { result ≡ parent_at table.now class.now }
{
    let cell = Cell {
        id: *class,
        slot: Slot::Super,
    };
    match table.get(&cell) {
        Some(Value::Super(Some(parent))) => class_of(parent),
        _ => None,
    }
}

/// The class of the program that a type is.
fn class_of(ty: &IType) -> Option<Id>
    ensures { result ≡ class_of_type ty.now }
{
    match ty {
        IType::Boolean => None,
        IType::Byte => None,
        IType::Short => None,
        IType::Char => None,
        IType::Int => None,
        IType::Long => None,
        IType::Void => None,
        IType::Class(id) => Some(*id),
        IType::Imported(_, _) => None,
        IType::Written(_) => None,
        IType::Array(_) => None,
    }
}

/// The classes from that of one declaration up to that of the other, whichever is the lower one.
pub(crate) fn classes_between(
    alloc: Global,
    table: &Table,
    first: &Id,
    second: &Id,
) -> Result<Vec<Id>, OutOfMemory>
    ensures { IfOk result (λ classes. AreBetweenOwners table.now first.now second.now classes.items) }
{
    match owner_of(table, first) {
        Some(owner) => between_owner(alloc, table, &owner, second),
        None => Ok(Vec::new(alloc)),
    }
}

/// The classes from one up to that of a declaration, or the other way round.
fn between_owner(
    alloc: Global,
    table: &Table,
    first: &Id,
    declaration: &Id,
) -> Result<Vec<Id>, OutOfMemory>
    ensures { IfOk result (λ classes. AreBetweenOwner table.now first.now declaration.now classes.items) }
{
    match owner_of(table, declaration) {
        Some(second) => between_either(alloc, table, first, &second),
        None => Ok(Vec::new(alloc)),
    }
}

/// The classes from one up to the other, whichever is the lower one.
fn between_either(
    alloc: Global,
    table: &Table,
    first: &Id,
    second: &Id,
) -> Result<Vec<Id>, OutOfMemory>
    ensures { IfOk result (λ classes. (class : Identity) → Contains classes.items class
        ↔ (IsBetween table.now first.now second.now class ⊎ IsBetween table.now second.now first.now class)) }
{
    let mut classes = Vec::new(alloc);
    add_between(alloc, table, &mut classes, first, second)?;
    add_between(alloc, table, &mut classes, second, first)?;
    Ok(classes)
}

/// Adds the classes from one up to another, where that is met.
fn add_between(
    alloc: Global,
    table: &Table,
    classes: &mut Vec<Id>,
    lower: &Id,
    upper: &Id,
) -> Result<(), OutOfMemory>
    ensures { OnOk result ((class : Identity) → Contains classes.new.items class
        ↔ (Contains classes.old.items class ⊎ IsBetween table.now lower.now upper.now class)) }
{
    let mut met = IndexSet::new(alloc);
    meet_way(table, &mut met, lower)?;
    let between = up_to(&met, upper);
    classes.extend_from_slice(between)?;
    Ok(())
}

/// The first of some classes, up to this one; none where it is not among them.
fn up_to<'a>(classes: &'a IndexSet<Id>, last: &Id) -> &'a [Id]
    ensures { (class : Identity) → Contains result.now class ↔ IsUpTo classes.now.keys last.now class }
{
    let all = classes.as_slice();
    match classes.get_index_of(last) {
        Some(place) => &all[..=place],
        None => &[],
    }
}
