//! Imports by their simple names.
ghost use Rattle.std.specs.Prelude.{◌≡◌, IfOk, option_copied};
ghost use Rattle.jav_names.specs.LookUps.{import_of};

use crate::imports::entries::simple_names;
use jav_names::Spelling;
use jav_names::index::Index;
use mol_base::{OutOfMemory, Text};
use std::alloc::Global;
use std::marker::Model;

/// The imports of a source file. Contracts see their full names, in the order of the file.
#[derive(Drop)]
pub struct ImportIndex<'a> {
    imports: &'a [Text],
    simple_names: Index,
}

impl<'a> Model for ImportIndex<'a> {
    ghost use Rattle.std.specs.Coded.{coded_list, coded_ℕ};
    ghost use Rattle.std.specs.Prelude.{map};
    ghost use Rattle.jav_names.specs.index.Seeking.{FindsSame};
    ghost use Rattle.jav_scope.specs.Entries.{import_entry};
    ghost use Rattle.jav_names.specs.DottedNames.{Names};
    ghost use Rattle.jav_names.specs.UnitViews.{numbered};

    ghost Value = { Names };

    ghost coded = { coded_list (coded_list coded_ℕ) };

    ghost view = { λ index. index.imports.now };

    ghost invariant = { λ index. FindsSame index.simple_names (map (import_entry 0) (numbered index.imports.now)) };
}

impl<'a> ImportIndex<'a> {
    /// An index of these full names. The time is that of sorting the simple names. `Err` is want of memory.
    pub fn new(alloc: Global, imports: &'a [Text]) -> Result<ImportIndex<'a>, OutOfMemory>
        ensures { IfOk result (λ index. index ≡ imports.now) }
    {
        let entries = simple_names(alloc, imports)?;
        let simple_names = Index::new(entries)?;
        Ok(ImportIndex {
            imports,
            simple_names,
        })
    }

    /// The full name that is imported of a simple name, of several the first (JLS 7.5.1). It takes no memory. The time is logarithmic in
    /// the number of imports.
    pub fn first(&self, name: &str) -> Option<&'a Text>
        ensures { option_copied result ≡ import_of self.now name.now }
    {
        let imports = self.imports;
        match self
            .simple_names
            .first(0, 0, &Spelling::Whole(name.as_bytes()))
        {
            Some(entry) => imports.get(entry.place as usize),
            None => None,
        }
    }
}
