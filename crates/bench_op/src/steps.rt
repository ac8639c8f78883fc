//! The steps that a line may name.
use crate::additions::{add_class, add_field, add_method};
use crate::fault::StepFault;
use crate::groups::Group;
use crate::operations::operation_at;
use mol_base::{OutOfMemory, Tag};
use mol_op::{ApplyFault, Op, Operation};
use mol_table::Table;
use mol_values_types::MethodKind;
use std::alloc::Global;

/// Applies an operation, if there was memory for it.
fn apply<O: Operation + Drop>(
    alloc: Global,
    table: &mut Table,
    tag: Tag,
    made: Result<O, OutOfMemory>,
) -> Result<(), StepFault> {
    let operation = made?;
    match operation.apply(alloc, tag, table) {
        Ok(()) => Ok(()),
        Err(ApplyFault::OutOfMemory) => Err(StepFault::OutOfMemory),
        Err(ApplyFault::Refused(_)) => Err(StepFault::Refused),
    }
}

/// Applies an operation of the base, if there was memory for it.
fn add(alloc: Global, table: &mut Table, made: Result<Op, OutOfMemory>) -> Result<(), StepFault> {
    apply(alloc, table, Tag::base(), made)
}

/// Adds the method of a group.
fn add_static_method(alloc: Global, group: Group) -> Result<Op, OutOfMemory> {
    add_method(
        alloc,
        group.method,
        group.decl,
        group.class,
        MethodKind::Static,
    )
}

/// Adds the entities of a group.
fn add_group(alloc: Global, table: &mut Table, group: Group) -> Result<(), StepFault> {
    add(alloc, table, add_class(alloc, group.class))?;
    add(alloc, table, add_field(alloc, group.field, group.class))?;
    add(alloc, table, add_static_method(alloc, group))
}

/// Adds the entities of so many groups of a base.
fn add_groups(alloc: Global, table: &mut Table, groups: u32) -> Result<(), StepFault> {
    for place in 0..groups {
        add_group(alloc, table, Group::at(place))?;
    }
    Ok(())
}

/// Applies the operation at a place of a log of this tag.
fn apply_at(
    alloc: Global,
    table: &mut Table,
    tag: Tag,
    place: u32,
    groups: u32,
) -> Result<(), StepFault> {
    apply(alloc, table, tag, operation_at(alloc, tag, place, groups))
}

/// Applies so many operations of mixed kinds.
fn apply_mixed(
    alloc: Global,
    table: &mut Table,
    tag: Tag,
    groups: u32,
    count: u32,
) -> Result<(), StepFault> {
    for place in 0..count {
        apply_at(alloc, table, tag, place, groups)?;
    }
    Ok(())
}

/// Fills a table with so many groups, applies so many operations, and counts the identities that are known.
fn fill_and_apply(
    alloc: Global,
    table: &mut Table,
    tag: Tag,
    groups: u32,
    count: u32,
) -> Result<u64, StepFault> {
    add_groups(alloc, table, groups)?;
    apply_mixed(alloc, table, tag, groups, count)?;
    Ok(table.ids().len() as u64)
}

/// How many identities a new table knows that is filled with so many groups, once so many operations were applied.
fn count_known(alloc: Global, tag: Tag, groups: u32, count: u32) -> Result<u64, StepFault> {
    let mut table = Table::new(alloc);
    fill_and_apply(alloc, &mut table, tag, groups, count)
}

/// How many identities are known after the step of this name.
fn count_after(alloc: Global, step: &str, base: u32, count: u32) -> Result<u64, StepFault> {
    let Ok(tag) = Tag::parse(b"ann") else {
        return Err(StepFault::NoStep);
    };
    let groups = base / Group::SIZE;
    match step {
        "fill" => count_known(alloc, tag, groups, 0),
        "mixed" => count_known(alloc, tag, groups, count),
        _ => Err(StepFault::NoStep),
    }
}

/// How many identities are known after the step of a line. What is missing of its numbers is 0.
pub fn count_of(alloc: Global, line: &str) -> Result<u64, StepFault> {
    let (step, numbers) = line.split_once(' ').unwrap_or((line, ""));
    let (base, count) = numbers.split_once(' ').unwrap_or((numbers, ""));
    let base = base.parse().unwrap_or(0);
    let count = count.parse().unwrap_or(0);
    count_after(alloc, step, base, count)
}
