//! The paths of the files of classes.
ghost use Rattle.std.specs.Prelude.{◌≡◌, IfOk};
ghost use Rattle.mol_table.specs.Maps.{program_in};
ghost use Rattle.mol_table_rules.specs.Program.{package_at, name_at};
ghost use Rattle.mol_table_rules.specs.Renumber.{path_at};

use mol_base::{Id, OutOfMemory};
use mol_table::Maps;
use mol_values_types::{Cell, Slot, Value};
use std::alloc::Global;

/// The bytes of the package of a class.
fn package<'a>(maps: &'a Maps, class: &Id) -> &'a [u8]
    ensures { result.now ≡ package_at (program_in maps.now) class.now }
{
    let cell = Cell {
        id: *class,
        slot: Slot::Package,
    };
    match maps.value(&cell) {
        Some(Value::Package(package)) => package.bytes(),
        _ => &[],
    }
}

/// The bytes of the name of a class.
fn class_name<'a>(maps: &'a Maps, class: &Id) -> &'a [u8]
    ensures { result.now ≡ name_at (program_in maps.now) class.now }
{
    let cell = Cell {
        id: *class,
        slot: Slot::Name,
    };
    match maps.value(&cell) {
        Some(Value::Name(name)) => name.bytes(),
        _ => &[],
    }
}

/// The path of the file of a class: its package with `/` for `.`, then `/`, its name and `.java`.
pub(crate) fn path(alloc: Global, maps: &Maps, class: &Id) -> Result<Vec<u8>, OutOfMemory>
    ensures { IfOk result (λ path. path.items ≡ path_at (program_in maps.now) class.now) }
{
    let mut path = Vec::new(alloc);
    for byte in package(maps, class) {
        path.push(if *byte == b'.' { b'/' } else { *byte })?;
    }
    path.push(b'/')?;
    path.extend_from_slice(class_name(maps, class))?;
    path.extend_from_slice(b".java")?;
    Ok(path)
}
