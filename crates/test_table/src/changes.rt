//! Operations that change a table.
use crate::fault::CaseFault;
use crate::forms::name_of;
use mol_base::{Id, List, Tag};
use mol_op::{ApplyFault, ChangeSignature, Delete, Operation, RenameMethod};
use mol_table::Table;
use mol_values_types::IType;
use std::alloc::Global;

/// Applies an operation of the base.
pub fn apply<O: Operation>(
    alloc: Global,
    table: &mut Table,
    operation: &O,
) -> Result<(), CaseFault> {
    match operation.apply(alloc, Tag::base(), table) {
        Ok(()) => Ok(()),
        Err(ApplyFault::OutOfMemory) => Err(CaseFault::OutOfMemory),
        Err(ApplyFault::Refused(_)) => Err(CaseFault::Refused),
    }
}

/// Gives a method this name.
fn rename(alloc: Global, table: &mut Table, method: Id, name: &str) -> Result<(), CaseFault> {
    let name = name_of(alloc, name)?;
    apply(alloc, table, &RenameMethod { method, name })
}

/// Takes all parameters off the list of a method, which gives nothing then.
#[tactic(auto, using(crate::proofs::Types::void_result))]
fn unlist(alloc: Global, table: &mut Table, method: Id) -> Result<(), CaseFault> {
    let operation = ChangeSignature {
        method,
        result: IType::Void,
        params: List::new(alloc),
    };
    apply(alloc, table, &operation)
}

/// Changes a table: `delete` ends a life, `rename` gives a method this name, and `unlist` takes its parameters off the list.
pub fn change(
    alloc: Global,
    table: &mut Table,
    step: &str,
    id: Id,
    name: &str,
) -> Result<(), CaseFault> {
    match step {
        "delete" => apply(alloc, table, &Delete { id }),
        "rename" => rename(alloc, table, id, name),
        _ => unlist(alloc, table, id),
    }
}
