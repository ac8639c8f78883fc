//! What lives, by its addresses.
ghost use Rattle.std.specs.Prelude.{◌≡◌, IfOk, map, option_map};
ghost use Rattle.std.specs.List.Sorted.{IsSorted};
ghost use Rattle.mol_faults_entities.specs.pair_faults.Addresses.{AreLocated, located, location_cmp, location_of};
ghost use Rattle.mol_table_rules.specs.Faults.{address};

use crate::pair_faults::address::Address;
use crate::pair_faults::addresses::entity_address;
use mol_base::{Id, OutOfMemory};
use mol_table::Table;
use std::alloc::Global;

/// An entity and its address.
#[derive(Clone, Copy)]
pub(crate) struct Addressed<'a> {
    pub address: Address<'a>,
    pub id: Id,
}

/// What lives and has an address, those of one address beside each other.
pub(crate) fn by_address<'a>(
    alloc: Global,
    table: &'a Table,
) -> Result<Vec<Addressed<'a>>, OutOfMemory>
    ensures each { IfOk result (λ rows. AreLocated table.now (map located rows.items)) }
    ensures sorted { IfOk result (λ rows. IsSorted location_cmp rows.items) }
{
    let mut rows = living_addresses(alloc, table)?;
    rows.sort_by(|former, latter| former.address.compare(&latter.address))?;
    Ok(rows)
}

/// What lives and has an address, in the order of identities.
fn living_addresses<'a>(alloc: Global, table: &'a Table) -> Result<Vec<Addressed<'a>>, OutOfMemory>
    ensures { IfOk result (λ rows. AreLocated table.now (map located rows.items)) }
{
    let mut rows = Vec::new(alloc);
    for id in table.ids() {
        if table.lives(*id) {
            if let Some(row) = entity_at(table, id) {
                if rows.push(row).is_err() {
                    return Err(OutOfMemory);
                }
            }
        }
    }
    Ok(rows)
}

/// An entity with its address, if it has one.
fn entity_at<'a>(table: &'a Table, id: &Id) -> Option<Addressed<'a>>
    ensures { option_map located result ≡ option_map (location_of id.now) (address table.now id.now) }
{
    match entity_address(table, id) {
        Some(address) => Some(Addressed { address, id: *id }),
        None => None,
    }
}
