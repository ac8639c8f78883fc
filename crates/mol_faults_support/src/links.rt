//! Declarations, sorted by what they are found by.
ghost use Rattle.std.specs.Prelude.{◌≡◌, ◌⊎◌, ◌↔◌, ◌++◌, Contains, IfOk, OnOk, option_map};
ghost use Rattle.std.specs.FinMap as map;
ghost use Rattle.std.specs.List.Sorted.{IsPermutation, IsSorted};
ghost use Rattle.std.specs.Option.{option_to_list};
ghost use Rattle.mol_base.specs.declared.ident.Id.{Id as Identity};
ghost use Rattle.mol_faults_support.specs.Links.{constructed_by, constructor_link, declared_link, link, links_cmp, AreConstructed, AreDeclared, AreLinked, IsConstructed, IsDeclared};
ghost use Rattle.mol_faults_support.specs.declared.link.Link.{Link as Linked};
ghost use Rattle.mol_table_rules.specs.Program.{owner_at};

use crate::link::Link;
use mol_base::{Id, OutOfMemory};
use mol_scope_classes::owner_of;
use mol_table::Table;
use mol_values_types::{Known, MethodKind};
use std::alloc::Global;

/// The known declarations by their methods. The time is that of a look-up for each known identity, and of sorting what is found.
pub(crate) fn by_method(alloc: Global, table: &Table) -> Result<Vec<Link>, OutOfMemory>
    ensures { IfOk result (λ links. AreDeclared table.now links.items) }
{
    let links = declared(alloc, table)?;
    by_key(links)
}

/// The known declarations of constructors by their classes. The time is that of some look-ups for each known identity, and of sorting what
/// is found.
pub(crate) fn by_class(alloc: Global, table: &Table) -> Result<Vec<Link>, OutOfMemory>
    ensures { IfOk result (λ links. AreConstructed table.now links.items) }
{
    let links = constructors(alloc, table)?;
    by_key(links)
}

/// The same, sorted by what they are found by.
fn by_key(mut links: Vec<Link>) -> Result<Vec<Link>, OutOfMemory>
    ensures { IfOk result (λ sorted. IsPermutation links.items sorted.items × IsSorted links_cmp sorted.items) }
{
    links.sort_by(|former, latter| former.key.cmp(&latter.key))?;
    Ok(links)
}

/// The known declarations, each with its method.
fn declared(alloc: Global, table: &Table) -> Result<Vec<Link>, OutOfMemory>
    ensures { IfOk result (λ links. (found : Linked) → Contains links.items found ↔ IsDeclared table.now found) }
{
    let mut links = Vec::new(alloc);
    for id in table.ids() {
        add_some(&mut links, declared_link(table, id))?;
    }
    Ok(links)
}

/// This identity with its method, if it is a declaration.
fn declared_link(table: &Table, id: &Id) -> Option<Link>
    ensures { result ≡ declared_link table.now id.now }
{
    match table.known(*id) {
        Some(Known::Decl(method)) => Some(Link {
            key: method,
            id: *id,
        }),
        _ => None,
    }
}

/// The known declarations of constructors, each with its class.
fn constructors(alloc: Global, table: &Table) -> Result<Vec<Link>, OutOfMemory>
    ensures { IfOk result (λ links. (found : Linked) → Contains links.items found ↔ IsConstructed table.now found) }
{
    let mut links = Vec::new(alloc);
    for id in table.ids() {
        add_some(&mut links, constructor_link(table, id))?;
    }
    Ok(links)
}

/// This identity with its class, if it is a declaration of a constructor.
fn constructor_link(table: &Table, id: &Id) -> Option<Link>
    ensures { result ≡ constructor_link table.now id.now }
{
    match table.known(*id) {
        Some(Known::Decl(method)) => constructed_by(table, &method, id),
        _ => None,
    }
}

/// A declaration of this method with its class, if that is a constructor.
fn constructed_by(table: &Table, method: &Id, id: &Id) -> Option<Link>
    ensures { result ≡ constructed_by table.now id.now (map.get table.now.known method.now) }
{
    match table.known(*method) {
        Some(Known::Method(MethodKind::Constructor)) => owned_link(table, id),
        _ => None,
    }
}

/// A declaration with its class, if it has one.
fn owned_link(table: &Table, id: &Id) -> Option<Link>
    ensures { result ≡ option_map (λ class. link class id.now) (owner_at table.now id.now) }
{
    match owner_of(table, id) {
        Some(class) => Some(Link {
            key: class,
            id: *id,
        }),
        None => None,
    }
}

/// Adds a declaration, where there is one.
fn add_some(links: &mut Vec<Link>, link: Option<Link>) -> Result<(), OutOfMemory>
    ensures { OnOk result (links.new.items ≡ links.old.items ++ option_to_list link) }
{
    if let Some(link) = link {
        links.push(link)?;
    }
    Ok(())
}

/// Those that are found by one of these, any number of times.
pub(crate) fn linked(alloc: Global, links: &[Link], keys: &[Id]) -> Result<Vec<Id>, OutOfMemory>
    requires { IsSorted links_cmp links.now }
    ensures { IfOk result (λ found. AreLinked links.now keys.now found.items) }
{
    let mut found = Vec::new(alloc);
    for key in keys {
        add_linked(&mut found, links, key)?;
    }
    Ok(found)
}

/// Adds those that are found by this.
fn add_linked(found: &mut Vec<Id>, links: &[Link], key: &Id) -> Result<(), OutOfMemory>
    requires { IsSorted links_cmp links.now }
    ensures { OnOk result ((id : Identity) → Contains found.new.items id ↔ (Contains found.old.items id ⊎ Contains links.now (link key.now id))) }
{
    for link in at_key(links, key) {
        found.push(link.id)?;
    }
    Ok(())
}

/// Those that are found by this. It takes no memory, and the time is logarithmic in the number of all.
fn at_key<'a>(links: &'a [Link], key: &Id) -> &'a [Link]
    requires { IsSorted links_cmp links.now }
    ensures { (found : Linked) → Contains result.now found ↔ (Contains links.now found × (found.key ≡ key.now)) }
{
    let start = links.partition_point(|link| link.key.cmp(key).is_lt());
    let later = &links[start..];
    let count = later.partition_point(|link| link.key.cmp(key).is_eq());
    &later[..count]
}
