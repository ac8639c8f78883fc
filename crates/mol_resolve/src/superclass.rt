//! What classes extend.
ghost use Rattle.std.specs.Prelude.{◌≡◌, ◌<◌, IfOk, Some, length, option_map, slice_get};
ghost use Rattle.jav_scope.specs.declared.source.SourceUnit.{SourceUnit};
ghost use Rattle.mol_resolve_readings.specs.meant.Kept.{view_reading};
ghost use Rattle.mol_resolve_entities.specs.member_entities.Headings.{superclass_read, tree_in};
ghost use Rattle.mol_resolve_readings.specs.reads.Reads.{Reads};
ghost use Rattle.mol_resolve_members.specs.sources.Sources.{file_of, files_of};
ghost use Rattle.mol_resolve_rules.specs.ReadFiles.{file_reader};

use crate::file_reader::FileReader;
use jav_tree::TypeName;
use mol_base::OutOfMemory;
use mol_resolve_faults::FirstFault;
use mol_resolve_names::read_type;
use mol_resolve_readings::ReadType;
use mol_values_types::IType;

impl FileReader<'_> {
    /// What the class of the file of this number extends, if it extends something (JLS 8.1.4). Outer `None`: its name reads as nothing,
    /// which is noted at the beginning of the file.
    pub(crate) fn read_superclass(
        &self,
        faults: &mut FirstFault,
        unit: u32,
        parent: &Option<TypeName>,
    ) -> Result<Option<Option<IType>>, OutOfMemory>
        requires { unit < length self.now }
        ensures { IfOk result (λ above. (source : SourceUnit) → slice_get self.now unit ≡ Some source
            → Reads (superclass_read (file_reader (files_of self.now) (unit, file_of source)) parent.now) above faults.old faults.new) }
    {
        match parent {
            None => Ok(Some(None)),
            Some(ty) => {
                let read = read_type(self.alloc, self.scope, self.numbers, unit, faults, 0, ty)?;
                Ok(extended(read))
            },
        }
    }
}

/// A type that is extended, where its name reads as something.
fn extended(read: Option<ReadType>) -> Option<Option<IType>>
    ensures { result ≡ option_map (λ tree. Some tree) (option_map tree_in (view_reading read)) }
{
    match read {
        Some(read) => Some(Some(read.tree)),
        None => None,
    }
}
