//! The methods of all classes, and the faults of a method beside methods of other classes.
ghost use Rattle.std.specs.Prelude.{◌≡◌, List, IfOk, IfSome, OnOk, ℕ, [], ◌∷◌, ◌++◌, length, map};
ghost use Rattle.mol_resolve_faults.specs.beside.Between.{faulty_below};
ghost use Rattle.mol_resolve_faults.specs.beside.Kept.{faulty_of};
ghost use Rattle.mol_resolve_members.specs.members.Rows.{kept_row};
ghost use Rattle.mol_resolve_classes.specs.related.Compared.{has_fault as has_fault_of, header_of_declaration, header_of_row, methods_in};
ghost use Rattle.mol_resolve_classes.specs.related.Tables.{AreNumbered};
ghost use Rattle.mol_resolve_members.specs.sources.Sources.{files_of};
ghost use Rattle.mol_resolve_rules.specs.MemberFaults.{Row, a_method};
ghost use Rattle.mol_resolve_rules.specs.ResolveFaults.{rows as all_rows};

use crate::namesakes::{Declaration, Namesakes};
use crate::related::rows::{declaration, is_kind};
use crate::signatures::MemberKind;
use jav_scope::{Scope, next_up};
use mol_base::{OutOfMemory, number_of};
use mol_resolve_faults::Faulty;
use mol_resolve_members::{MemberRow, Members};
use std::alloc::Global;

/// As many ancestors of a class are gone up to, one after another, in about the time that a look at the methods of all classes takes.
const FEW: u32 = 16;

/// The methods of so many files, where some class has more than a few ancestors. The time is near-linear. `Err` is want of memory.
pub(crate) fn methods_if_deep<'a>(
    alloc: Global,
    scope: &Scope<'_>,
    members: &'a Members<'a>,
    count: u32,
) -> Result<Option<Namesakes<'a>>, OutOfMemory>
    requires { count ≡ length members.now }
    ensures { IfOk result (λ kept. IfSome kept (λ methods. map header_of_declaration methods ≡ methods_in (all_rows (files_of members.now)))) }
{
    if is_deep(scope, count) {
        let methods = all_methods(alloc, members, count)?;
        Ok(Some(methods))
    } else {
        Ok(None)
    }
}

/// Whether some class of so many has more than a few ancestors.
fn is_deep(scope: &Scope<'_>, count: u32) -> bool {
    for unit in 0..count {
        if has_many_ancestors(scope, unit) {
            return true;
        }
    }
    false
}

/// Whether a class has more than a few ancestors.
fn has_many_ancestors(scope: &Scope<'_>, unit: u32) -> bool {
    let mut at = unit;
    for _step in 0..=FEW {
        match next_up(scope, unit, at) {
            Some(next) => at = next,
            None => return false,
        }
    }
    true
}

/// The methods of so many files, to be asked for namesakes. The time is near-linear. `Err` is want of memory.
fn all_methods<'a>(
    alloc: Global,
    members: &'a Members<'a>,
    count: u32,
) -> Result<Namesakes<'a>, OutOfMemory>
    requires { count ≡ length members.now }
    ensures { IfOk result (λ methods. map header_of_declaration methods ≡ methods_in (all_rows (files_of members.now))) }
{
    let methods = list_methods(alloc, members, count)?;
    Namesakes::new(alloc, methods)
}

/// The methods of so many files, one class after another.
fn list_methods<'a>(
    alloc: Global,
    members: &'a Members<'a>,
    count: u32,
) -> Result<Vec<Declaration<'a>>, OutOfMemory>
    requires { count ≡ length members.now }
    ensures methods { IfOk result (λ methods. map header_of_declaration methods.items ≡ methods_in (all_rows (files_of members.now))) }
    ensures numbered { IfOk result (λ methods. AreNumbered methods.items) }
{
    let mut methods = Vec::new(alloc);
    for unit in 0..count {
        let rows = members.of_file(unit);
        add_methods(&mut methods, rows)?;
    }
    Ok(methods)
}

/// Adds the methods among the members of a class.
fn add_methods<'a>(
    methods: &mut Vec<Declaration<'a>>,
    rows: &'a [MemberRow<'a>],
) -> Result<(), OutOfMemory>
    requires { AreNumbered methods.old.items }
    ensures methods { OnOk result (map header_of_declaration methods.new.items
        ≡ map header_of_declaration methods.old.items ++ methods_in (map kept_row rows.now)) }
    ensures numbered { OnOk result (AreNumbered methods.new.items) }
{
    for row in rows {
        if is_kind(row, MemberKind::Method) {
            add_method(methods, row)?;
        }
    }
    Ok(())
}

/// Adds a method. Its place is among the methods of all classes, since methods of several classes may share a place within their own.
fn add_method<'a>(
    methods: &mut Vec<Declaration<'a>>,
    row: &'a MemberRow<'a>,
) -> Result<(), OutOfMemory>
    requires { AreNumbered methods.old.items }
    ensures methods { OnOk result (map header_of_declaration methods.new.items
        ≡ map header_of_declaration methods.old.items ++ header_of_row (kept_row row.now) ∷ []) }
    ensures numbered { OnOk result (AreNumbered methods.new.items) }
{
    let place = number_of(methods.len())?;
    let method = declaration(row);
    methods.push(Declaration { place, ..method })?;
    Ok(())
}

/// The faults of a method beside these methods, as if they were those of an ancestor of its class. It takes no memory.
pub(crate) fn faulty_beside<'a>(methods: &Namesakes<'a>, row: &'a MemberRow<'a>) -> Faulty
    ensures { (rows : List (Row ℕ)) → map header_of_declaration methods.now ≡ methods_in rows
        → faulty_of result ≡ faulty_below a_method rows (kept_row row.now) }
{
    let method = declaration(row);
    let differences = methods.differences(&method);
    Faulty {
        duplicate: false,
        overload: differences.types,
        result: differences.result,
        hides_static: methods.hides_static(&method),
    }
}

/// Whether there is some fault.
pub(crate) fn has_fault(faulty: &Faulty) -> bool
    ensures { result ≡ has_fault_of (faulty_of faulty.now) }
{
    faulty.duplicate || faulty.overload || faulty.result || faulty.hides_static
}
