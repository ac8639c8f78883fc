//! The living declarations of methods.
ghost use Rattle.std.specs.Prelude.{◌≡◌, IfOk, map, option_map};
ghost use Rattle.std.specs.FinMap as fin;
ghost use Rattle.std.specs.List.Sorted.{IsSorted};
ghost use Rattle.mol_faults_entities.specs.override_faults.Declarations.{AreDeclared, declared_as, declared_in, declared_of, is_method, row_of, rows_cmp};
ghost use Rattle.mol_table_rules.specs.Program.{owner_at};

use crate::override_faults::declaration::Declaration;
use crate::override_faults::key::Key;
use mol_base::{Id, OutOfMemory};
use mol_scope_classes::{Paths, is_live, name_of, owner_of, params_of};
use mol_table::Table;
use mol_values_types::{Known, MethodKind};
use std::alloc::Global;

/// The living declarations of methods that are no constructors, by number of parameters, name and position of the class.
pub(crate) fn by_key<'a>(
    alloc: Global,
    table: &'a Table,
    paths: &Paths,
) -> Result<Vec<Declaration<'a>>, OutOfMemory>
    ensures each { IfOk result (λ rows. AreDeclared table.now paths.now.positions.entries (map row_of rows.items)) }
    ensures sorted { IfOk result (λ rows. IsSorted rows_cmp rows.items) }
{
    let mut rows = declarations(alloc, table, paths)?;
    rows.sort_by(|former, latter| former.key.compare(&latter.key))?;
    Ok(rows)
}

/// Those of all that is known, in the order of their identities.
fn declarations<'a>(
    alloc: Global,
    table: &'a Table,
    paths: &Paths,
) -> Result<Vec<Declaration<'a>>, OutOfMemory>
    ensures { IfOk result (λ rows. AreDeclared table.now paths.now.positions.entries (map row_of rows.items)) }
{
    let mut rows = Vec::new(alloc);
    for id in table.ids() {
        if is_live(table, id) {
            if let Some(row) = declared_as(table, paths, id) {
                if rows.push(row).is_err() {
                    return Err(OutOfMemory);
                }
            }
        }
    }
    Ok(rows)
}

/// A declaration of a method that is no constructor, if this is known as one.
fn declared_as<'a>(table: &'a Table, paths: &Paths, id: &Id) -> Option<Declaration<'a>>
    ensures { let known = fin.get table.now.known id.now in
        option_map row_of result ≡ declared_as table.now paths.now.positions.entries id.now known }
{
    match table.known(*id) {
        Some(Known::Decl(method)) => declared_of(table, paths, id, &method),
        _ => None,
    }
}

/// That of this method, if it is no constructor.
fn declared_of<'a>(table: &'a Table, paths: &Paths, id: &Id, method: &Id) -> Option<Declaration<'a>>
    ensures { option_map row_of result ≡ declared_of table.now paths.now.positions.entries id.now method.now }
{
    if is_method(table, method) {
        owned_of(table, paths, id, method)
    } else {
        None
    }
}

/// That of this method, if it stands in a class.
fn owned_of<'a>(table: &'a Table, paths: &Paths, id: &Id, method: &Id) -> Option<Declaration<'a>>
    ensures { let declared = declared_in table.now paths.now.positions.entries id.now method.now in
        option_map row_of result ≡ option_map declared (owner_at table.now id.now) }
{
    match owner_of(table, id) {
        Some(owner) => Some(Declaration {
            key: Key {
                arity: params_of(table, method).len(),
                name: name_of(table, method).as_bytes(),
                position: paths.position(&owner),
            },
            owner,
            method: *method,
            id: *id,
        }),
        None => None,
    }
}

/// Whether this is a method, and no constructor.
fn is_method(table: &Table, method: &Id) -> bool
    ensures { result ≡ is_method (fin.get table.now.known method.now) }
{
    match table.known(*method) {
        Some(Known::Method(MethodKind::Instance)) => true,
        Some(Known::Method(MethodKind::Static)) => true,
        _ => false,
    }
}
