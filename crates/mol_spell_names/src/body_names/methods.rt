//! What the names of methods read as (JLS 15.12.2).
ghost use Rattle.std.specs.Prelude.{◌≡◌, [], option_copied};
ghost use Rattle.jav_scope.specs.Answers.{answered};
ghost use Rattle.jav_names.specs.LookUps.{method_from};
ghost use Rattle.mol_spell_names.specs.body_names.FoundAs.{is_method_found, name_or_empty};
ghost use Rattle.mol_resolve_rules.specs.ProgramViews.{method_at, program_view};
ghost use Rattle.mol_table_rules.specs.Program.{name_at};

use crate::body_names::params::is_same;
use jav_scope::Found;
use mol_base::{Id, Text};
use mol_scope::{MemberIndex, method_of};
use mol_table::Table;
use mol_values_types::{Cell, Known, Slot, Value};
use std::alloc::Global;

/// The declaration that the name of a method reads as in a class, with so many arguments.
pub(crate) fn method_found(
    alloc: Global,
    members: &MemberIndex<'_>,
    class: &Id,
    method: &Id,
    arity: u32,
) -> Found<Id>
    ensures { result ≡ answered (λ declared. declared.key)
        (method_from (program_view members.now) class.now (name_at members.now method.now) arity) }
{
    match method_name(members.table(), method) {
        Some(name) => method_of(members, class, name, arity),
        None => nameless_found(alloc, members, class, arity),
    }
}

/// The declaration that the empty name reads as in a class, with so many arguments.
fn nameless_found(alloc: Global, members: &MemberIndex<'_>, class: &Id, arity: u32) -> Found<Id>
    ensures { result ≡ answered (λ declared. declared.key) (method_from (program_view members.now) class.now [] arity) }
{
    let nameless = Text::empty(alloc);
    method_of(members, class, &nameless, arity)
}

/// The name of a method, if it has one.
fn method_name<'a>(table: &'a Table, method: &Id) -> Option<&'a Text>
    ensures { name_or_empty (option_copied result) ≡ name_at table.now method.now }
{
    let cell = Cell {
        id: *method,
        slot: Slot::Name,
    };
    match table.get(&cell) {
        Some(Value::Name(name)) => Some(name),
        _ => None,
    }
}

/// Whether a declaration of this method is found.
pub(crate) fn method_is(table: &Table, method: &Id, found: &Found<Id>) -> bool
    ensures { result ≡ is_method_found table.now method.now found.now }
{
    match found {
        Found::Found(declared) => is_same(method, &declared_method(table, declared)),
        Found::Outside => false,
        Found::NotFound => false,
    }
}

/// The method of a declaration; the identity itself where it is none of a declaration.
fn declared_method(table: &Table, id: &Id) -> Id
    ensures { result ≡ method_at table.now id.now }
{
    match table.known(*id) {
        Some(Known::Decl(method)) => method,
        _ => *id,
    }
}
