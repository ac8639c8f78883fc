//! The addresses of entities.
ghost use Rattle.std.specs.Prelude.{◌≡◌, length, option_map};
ghost use Rattle.std.specs.FinMap as map;
ghost use Rattle.mol_table_rules.specs.Faults.{class_address, field_address, method_address, constructor_address, address, decl_address};
ghost use Rattle.mol_table_rules.specs.Program.{name_at, owner_at, package_at, params_at};
ghost use Rattle.mol_faults_entities.specs.pair_faults.Addresses.{address_key, key_of};

use crate::pair_faults::address::Address;
use crate::pair_faults::address_kind::AddressKind;
use mol_base::Id;
use mol_scope_classes::{name_of, owner_of, package_of, params_of};
use mol_table::Table;
use mol_values_types::{Known, MethodKind};

/// The address of a class, a field or a declaration, whether it lives or not. `None` for what else the identity may be: a method, which
/// has one for each of its declarations, a parameter, or nothing that is known. It takes no memory.
pub fn entity_address<'a>(table: &'a Table, id: &Id) -> Option<Address<'a>>
    ensures { option_map key_of result ≡ option_map address_key (address table.now id.now) }
{
    match table.known(*id) {
        Some(Known::Class) => Some(class_address(table, id)),
        Some(Known::Field) => Some(field_address(table, id)),
        Some(Known::Decl(method)) => Some(declaration_address(table, id, &method)),
        _ => None,
    }
}

/// That of a class: its package and its name.
fn class_address<'a>(table: &'a Table, id: &Id) -> Address<'a>
    ensures { key_of result ≡ address_key (class_address (package_at table.now id.now) (name_at table.now id.now)) }
{
    Address {
        kind: AddressKind::Class,
        owner: None,
        package: package_of(table, id).as_bytes(),
        name: name_of(table, id).as_bytes(),
        arity: 0,
    }
}

/// That of a field: its class and its name.
fn field_address<'a>(table: &'a Table, id: &Id) -> Address<'a>
    ensures { key_of result ≡ address_key (field_address (owner_at table.now id.now) (name_at table.now id.now)) }
{
    Address {
        kind: AddressKind::Field,
        owner: owner_of(table, id),
        package: &[],
        name: name_of(table, id).as_bytes(),
        arity: 0,
    }
}

/// That of a declaration of a method or of a constructor.
fn declaration_address<'a>(table: &'a Table, id: &Id, method: &Id) -> Address<'a>
    ensures { key_of result ≡ address_key (decl_address table.now id.now method.now (map.get table.now.known method.now)) }
{
    match table.known(*method) {
        Some(Known::Method(MethodKind::Constructor)) => constructor_address(table, id, method),
        _ => method_address(table, id, method),
    }
}

/// That of a declaration of a method: its class, and the name and the number of parameters of the method.
fn method_address<'a>(table: &'a Table, id: &Id, method: &Id) -> Address<'a>
    ensures { let arity = length (params_at table.now method.now) in
        key_of result ≡ address_key (method_address (owner_at table.now id.now) (name_at table.now method.now) arity) }
{
    Address {
        kind: AddressKind::Method,
        owner: owner_of(table, id),
        package: &[],
        name: name_of(table, method).as_bytes(),
        arity: arity_of(table, method),
    }
}

/// That of the declaration of a constructor: its class and the number of its parameters.
fn constructor_address<'a>(table: &'a Table, id: &Id, method: &Id) -> Address<'a>
    ensures { key_of result
        ≡ address_key (constructor_address (owner_at table.now id.now) (length (params_at table.now method.now))) }
{
    Address {
        kind: AddressKind::Constructor,
        owner: owner_of(table, id),
        package: &[],
        name: &[],
        arity: arity_of(table, method),
    }
}

/// How many parameters a method has.
fn arity_of(table: &Table, method: &Id) -> usize
    ensures { result ≡ length (params_at table.now method.now) }
{
    params_of(table, method).len()
}
