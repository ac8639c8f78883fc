//! Where the source file of a class is written.
ghost use Rattle.std.specs.Prelude.{◌≡◌};
ghost use Rattle.mol_spell.specs.units.Files.{IsFileOf};

use mol_base::Id;
use mol_scope_classes::ClassMembers;
use mol_spell_names::{FileNames, MemberIndex};
use std::alloc::Global;

/// Writes the source file of a class of a table. `Err` of its calls is want of memory.
#[derive(Drop)]
pub struct UnitWriter<'a, F: FileNames> {
    pub(crate) alloc: Global,
    pub(crate) index: &'a MemberIndex<'a>,
    pub(crate) members: &'a ClassMembers<'a>,
    /// What has its simple name in the file, and the imports.
    pub(crate) file: &'a F,
    pub(crate) class: Id,
    ghost is_file: { IsFileOf index.now class (F.imports file.now) (F.simple file.now) },
    ghost same_table: { members.now ≡ index.now },
}

impl<'a, F: FileNames> UnitWriter<'a, F> {
    /// For the file of this class. It takes no memory.
    pub fn new(
        alloc: Global,
        index: &'a MemberIndex<'a>,
        members: &'a ClassMembers<'a>,
        file: &'a F,
        class: Id,
    ) -> UnitWriter<'a, F>
        requires file { IsFileOf index.now class (F.imports file.now) (F.simple file.now) }
        requires table { members.now ≡ index.now }
        ensures table { result.index.now ≡ index.now }
        ensures class { result.class ≡ class }
    {
        UnitWriter {
            alloc,
            index,
            members,
            file,
            class,
        }
    }
}
