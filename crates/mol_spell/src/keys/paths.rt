//! Paths of source files.
ghost use Rattle.std.specs.Prelude.{◌≡◌, IfOk, map, string_bytes};
ghost use Rattle.mol_base.specs.Paths.{path_of, slash_for_dot};

use mol_base::{OutOfMemory, Text};
use std::alloc::Global;

/// The path of the file of a class: the folders of its package, and its name with `.java`.
pub(crate) fn path_text(alloc: Global, package: &str, name: &str) -> Result<Text, OutOfMemory>
    ensures { IfOk result (λ path. path ≡ path_of «package».now name.now) }
{
    let folders = folders_of(alloc, package)?;
    let path = format!(in alloc; "{}/{}.java", folders.as_str(), name)?;
    Ok(Text::from_string(path))
}

/// A package as folders: with `/` for each `.`.
fn folders_of(alloc: Global, package: &str) -> Result<String, OutOfMemory>
    ensures { IfOk result (λ folders. string_bytes folders ≡ map slash_for_dot «package».now) }
{
    Ok(package.replace(alloc, ".", "/")?)
}
