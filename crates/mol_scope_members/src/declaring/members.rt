//! Members by their names.
ghost use Rattle.std.specs.Prelude.{IfOk};
ghost use Rattle.mol_scope_members.specs.declaring.Indexed.{AreIndexed, AreOwned};

use crate::declaring::collected::Collected;
use crate::declaring::owners::Owners;
use jav_names::id_index::Index;
use mol_base::OutOfMemory;
use mol_scope_classes::Paths;
use mol_table::Table;
use std::alloc::Global;

/// The members of a table that live: fields by class and name, methods by class, name and number of parameters, constructors by class
/// and number of parameters, and by class alone; and all declarations by their methods. Beside them the classes that declare fields and
/// methods, by the names of these.
#[derive(Drop)]
pub(crate) struct Members<'a> {
    pub fields: Index,
    pub methods: Index,
    pub constructors: Index,
    pub constructed: Index,
    pub declared: Index,
    pub field_owners: Owners<'a>,
    pub method_owners: Owners<'a>,
}

impl<'a> Members<'a> {
    /// The members of a table, whose classes stand on these paths.
    pub fn of(alloc: Global, table: &'a Table, paths: &Paths) -> Result<Members<'a>, OutOfMemory>
        ensures indexed { IfOk result (λ members. AreIndexed members table.now) }
        ensures owned { IfOk result (λ members. AreOwned members paths.now.positions.entries table.now) }
    {
        let Collected {
            fields,
            methods,
            constructors,
            constructed,
            declared,
            field_owners,
            method_owners,
        } = Collected::of(alloc, table)?;
        Ok(Members {
            fields: Index::new(fields)?,
            methods: Index::new(methods)?,
            constructors: Index::new(constructors)?,
            constructed: Index::new(constructed)?,
            declared: Index::new(declared)?,
            field_owners: Owners::new(alloc, paths, field_owners.as_slice())?,
            method_owners: Owners::new(alloc, paths, method_owners.as_slice())?,
        })
    }
}
