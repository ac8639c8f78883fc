//! Types as they are read.
ghost use Rattle.std.specs.Prelude.{◌≡◌, ◌<◌, IfOk, Some, length, slice_get};
ghost use Rattle.jav_scope.specs.declared.source.SourceUnit.{SourceUnit};
ghost use Rattle.mol_resolve_readings.specs.meant.Kept.{view_reading};
ghost use Rattle.mol_resolve_readings.specs.reads.Reads.{Reads};
ghost use Rattle.mol_resolve_members.specs.sources.Sources.{file_of, files_of};
ghost use Rattle.mol_resolve_rules.specs.ReadFiles.{file_reader};
ghost use Rattle.mol_resolve_rules.specs.ReadTypes.{read_type};

use crate::type_trees::tree::type_tree;
use jav_scope::{Scope, seen_type};
use jav_tree::TypeName;
use mol_base::OutOfMemory;
use mol_resolve_faults::{FaultKind, FirstFault};
use mol_resolve_members::Numbers;
use mol_resolve_readings::ReadType;
use std::alloc::Global;

/// A type in the file of this number, from 0: as a program keeps it, and as the rules on names look at it (JLS 4, 6.5.5). Where its name
/// reads as nothing there is none, and an unknown member is noted at this place, in bytes. The numbers are those of the files of the
/// scope. The time is that of `type_reading`, and linear in the length of the type's text. `Err` is want of memory.
pub fn read_type(
    alloc: Global,
    scope: &Scope<'_>,
    numbers: &Numbers<'_>,
    unit: u32,
    faults: &mut FirstFault,
    at: u32,
    ty: &TypeName,
) -> Result<Option<ReadType>, OutOfMemory>
    requires numbers { numbers.now ≡ scope.now }
    requires unit { unit < length scope.now }
    ensures { IfOk result (λ read. (source : SourceUnit) → slice_get scope.now unit ≡ Some source
        → Reads (read_type (file_reader (files_of scope.now) (unit, file_of source)) at ty.now)
        (view_reading read) faults.old faults.new) }
{
    match type_tree(alloc, scope, numbers, unit, ty)? {
        Some(tree) => {
            let ty = seen_type(alloc, scope, unit, ty)?;
            Ok(Some(ReadType { tree, ty }))
        },
        None => {
            faults.note(FaultKind::UnknownMember, at);
            Ok(None)
        },
    }
}
