//! Tests of single identities: the parts of the conditions of operations.
ghost use Rattle.std.specs.Prelude.{◌≡◌, ℕ, List, [], Some};
ghost use Rattle.mol_values_types.specs.declared.known.Known.TheVariants as knowns;
ghost use Rattle.std.specs.FinMap.{get};
ghost use Rattle.mol_table_rules.specs.Program.{Knowns};
ghost use Rattle.mol_op.specs.Changes.{Name};
ghost use Rattle.mol_op.specs.Rows.{block_tests, known_block_tests};
ghost use Rattle.mol_op.specs.Tests.{IsVerdict, wanted, need_fault, new_fault, list_fault, is_of_kind, test_fault, tests_fault, declares};

use crate::OpFault;
use mol_base::{Id, Tag};
use mol_table::Table;
use mol_values_types::{IBody, Known, MethodKind};

/// What an identity has to be known as.
#[derive(Clone, Copy, Debug, PartialEq, Eq)]
pub enum Want {
    Class,
    Field,
    Decl,
    Method,
    /// A method that is no constructor.
    Called,
    /// An instance method.
    Overridden,
    /// A class, a declaration or a field.
    Deleted,
}

impl Want {
    /// Whether this is what is wanted.
    fn fits(self, known: Known) -> bool
        ensures { result ≡ wanted self known }
    {
        match (self, known) {
            (Want::Class, Known::Class) => true,
            (Want::Field, Known::Field) => true,
            (Want::Decl, Known::Decl(_)) => true,
            (Want::Method, Known::Method(_)) => true,
            (Want::Called, Known::Method(MethodKind::Instance | MethodKind::Static)) => true,
            (Want::Overridden, Known::Method(MethodKind::Instance)) => true,
            (Want::Deleted, Known::Class | Known::Field | Known::Decl(_)) => true,
            _ => false,
        }
    }
}

/// The identity is known, as what is wanted.
pub fn need(table: &Table, want: Want, id: &Id) -> Result<(), OpFault>
    ensures { IsVerdict (need_fault want id.now (get table.now.known id.now)) result }
{
    match table.known(*id) {
        None => Err(OpFault::Unknown(*id)),
        Some(known) => {
            if want.fits(known) {
                Ok(())
            } else {
                Err(OpFault::WrongKind(*id))
            }
        }
    }
}

/// The identity is new: it has the entry's tag, is not known, and the operation does not name it before.
pub fn fresh(table: &Table, tag: &Tag, id: &Id, named: bool) -> Result<(), OpFault>
    ensures { IsVerdict (new_fault tag.now named id.now (get table.now.known id.now)) result }
{
    if id.tag != *tag {
        return Err(OpFault::BadTag(*id));
    }
    if table.known(*id).is_some() || named {
        return Err(OpFault::NotFresh(*id));
    }
    Ok(())
}

/// The identity is known as a parameter of the method, or is new; and the operation does not name it before.
pub fn listed(table: &Table, tag: &Tag, method: &Id, id: &Id, named: bool) -> Result<(), OpFault>
    ensures { IsVerdict (list_fault tag.now named method.now id.now (get table.now.known id.now)) result }
{
    match table.known(*id) {
        None => fresh(table, tag, id, named),
        Some(Known::Param(own)) => own_param(&own, method, id, named),
        Some(_) => Err(OpFault::WrongKind(*id)),
    }
}

/// A parameter that is known as one of `own` is one of the method, and the operation does not name it before.
#[tactic(auto, using(mol_values_types::proofs::Ties::id_ties))]
fn own_param(own: &Id, method: &Id, id: &Id, named: bool) -> Result<(), OpFault>
    ensures { (tag : List ℕ) → IsVerdict (list_fault tag named method.now id.now (Some (knowns.Param own.now))) result }
{
    if own != method {
        return Err(OpFault::WrongKind(*id));
    }
    if named {
        return Err(OpFault::NotFresh(*id));
    }
    Ok(())
}

/// The declaration is known as one of a method of this kind; else this is the fault.
pub fn declared(table: &Table, kind: MethodKind, fault: OpFault, decl: &Id) -> Result<(), OpFault>
    ensures { IsVerdict (test_fault [] [] table.now.known (declares kind fault decl.now)) result }
{
    match table.known(*decl) {
        Some(Known::Decl(method)) => {
            if is_of_kind(table, kind, &method) {
                Ok(())
            } else {
                Err(fault)
            }
        }
        _ => Err(fault),
    }
}

/// Whether the identity is known as a method of this kind.
fn is_of_kind(table: &Table, kind: MethodKind, method: &Id) -> bool
    ensures { result ≡ is_of_kind kind (get table.now.known method.now) }
{
    match table.known(*method) {
        Some(Known::Method(own)) => own == kind,
        _ => false,
    }
}

/// A declaration that is added has a block, or its method is an instance method.
pub fn has_block(body: &Option<IBody>, kind: MethodKind, decl: &Id) -> Result<(), OpFault>
    ensures { (tag : List ℕ) (own : List Name) (known : Knowns)
        → IsVerdict (tests_fault tag own known (block_tests body.now kind decl.now)) result }
{
    match (body, kind) {
        (Some(_), _) | (None, MethodKind::Instance) => Ok(()),
        (None, _) => Err(OpFault::WrongKind(*decl)),
    }
}

/// A declaration that is known has a block, or its method is an instance method.
pub fn known_block(table: &Table, body: &Option<IBody>, decl: &Id) -> Result<(), OpFault>
    ensures { IsVerdict (tests_fault [] [] table.now.known (known_block_tests body.now decl.now)) result }
{
    match body {
        Some(_) => Ok(()),
        None => declared(table, MethodKind::Instance, OpFault::WrongKind(*decl), decl),
    }
}
