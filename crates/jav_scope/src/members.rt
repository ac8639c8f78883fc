//! Indexes of the members of source files.
ghost use Rattle.std.specs.Prelude.{IfOk};
ghost use Rattle.jav_scope.specs.Entries.{view_in};
ghost use Rattle.jav_scope.specs.MemberLists.{AreIndexed};

use crate::member_entries::MemberEntries;
use crate::source::SourceUnit;
use jav_names::index::Index;
use mol_base::OutOfMemory;
use std::alloc::Global;

/// The fields by class and name, the methods by class, name and number of parameters, the constructors by class and number of
/// parameters, and by class alone.
#[derive(Drop)]
pub(crate) struct Members {
    pub fields: Index,
    pub methods: Index,
    pub constructors: Index,
    pub constructed: Index,
}

impl Members {
    /// The members of all files, indexed.
    pub fn of(alloc: Global, sources: &[SourceUnit]) -> Result<Members, OutOfMemory>
        ensures { IfOk result (λ members. AreIndexed members (view_in sources.now)) }
    {
        let MemberEntries {
            fields,
            methods,
            constructors,
            constructed,
        } = MemberEntries::of(alloc, sources)?;
        let field_index = Index::new(fields)?;
        let method_index = Index::new(methods)?;
        let constructor_index = Index::new(constructors)?;
        let constructed_index = Index::new(constructed)?;
        Ok(Members {
            fields: field_index,
            methods: method_index,
            constructors: constructor_index,
            constructed: constructed_index,
        })
    }
}
