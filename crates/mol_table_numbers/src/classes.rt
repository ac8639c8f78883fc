//! The classes that live, in the order of the paths of their files.
ghost use Rattle.std.specs.Prelude.{◌≡◌, IfOk, map};
ghost use Rattle.std.specs.FinMap as finite;
ghost use Rattle.std.specs.List.{filter};
ghost use Rattle.indexmap.specs.IndexMap.{keys};
ghost use Rattle.mol_table_rules.specs.Counting.{passing};
ghost use Rattle.mol_table.specs.Maps.{program_in, IsOrdered};
ghost use Rattle.mol_table_numbers.specs.Numbering.{IsInOrder};
ghost use Rattle.mol_table_rules.specs.Renumber.{is_living_class, class_number};
ghost use Rattle.mol_table_numbers.specs.ClassFiles.{file_at, file_of};

use crate::paths::path;
use mol_base::{Id, OutOfMemory};
use mol_table::Maps;
use mol_values_types::Known;
use std::alloc::Global;

/// A class, by the path of its file.
#[derive(PartialEq, Eq, PartialOrd, Ord, Drop)]
pub(crate) struct ClassFile {
    pub path: Vec<u8>,
    pub class: Id,
}

/// Whether this is a class, and lives.
fn is_living_class(maps: &Maps, id: &Id) -> bool
    ensures { result ≡ is_living_class (program_in maps.now) id.now }
{
    match maps.find(id) {
        Some(Known::Class) => maps.is_living(id),
        _ => false,
    }
}

/// The classes that live, in the order of identities.
fn class_files(alloc: Global, maps: &Maps) -> Result<Vec<ClassFile>, OutOfMemory>
    ensures { IfOk result (λ files. map file_of files.items
        ≡ map (file_at (program_in maps.now)) (filter (is_living_class (program_in maps.now)) (keys maps.now.known))) }
{
    let mut files = Vec::new(alloc);
    for id in maps.known.keys().as_slice() {
        if is_living_class(maps, id) {
            files.push(ClassFile {
                path: path(alloc, maps, id)?,
                class: *id,
            })?;
        }
    }
    Ok(files)
}

/// The classes that live, by the paths of their files.
pub(crate) fn class_order(alloc: Global, maps: &Maps) -> Result<Vec<Id>, OutOfMemory>
    requires { IsOrdered maps.now }
    ensures { IfOk result (λ ids. IsInOrder (is_living_class (program_in maps.now)) (class_number (program_in maps.now))
        (passing (is_living_class (program_in maps.now)) (finite.keys (program_in maps.now).known)) ids.items) }
{
    // The known identities differ.
    let _size = maps.known.len();
    let mut files = class_files(alloc, maps)?;
    files.sort_unstable();
    class_ids(alloc, &files)
}

/// The classes of these.
fn class_ids(alloc: Global, files: &[ClassFile]) -> Result<Vec<Id>, OutOfMemory>
    ensures { IfOk result (λ ids. ids.items ≡ map (λ (file : ClassFile). file.class) files.now) }
{
    let mut ids = Vec::new(alloc);
    for file in files {
        ids.push(file.class)?;
    }
    Ok(ids)
}
