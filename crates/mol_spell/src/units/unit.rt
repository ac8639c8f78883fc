//! The class and its file (JLS 7.3, 8.1).
ghost use Rattle.std.specs.Prelude.{◌≡◌, IfOk, IsOkAnd};
ghost use Rattle.mol_spell_rules.specs.SpelledUnits.{class_tree, unit_tree};
ghost use Rattle.mol_spell.specs.units.Headings.{class_of, unit_of};

use crate::units::class_parts::{ClassHead, FileHead};
use crate::units::unit_writer::UnitWriter;
use jav_tree::{ClassDecl, Member, TypeName, Unit};
use mol_base::{List, OutOfMemory};
use mol_spell_names::FileNames;

impl<F: FileNames> UnitWriter<'_, F> {
    /// The source file of the class. As it comes from no source, each `at` in it is 0. The time is linear in what the class holds, but for
    /// what names cost. `Err` is want of memory.
    pub fn unit(&self) -> Result<Unit, OutOfMemory>
        ensures { IfOk result (λ unit. unit ≡ unit_tree self.now.index.now self.now.class) }
    {
        let imports = self.file.imported();
        let head = FileHead::of(self.alloc, self.index.table(), &self.class, imports)?;
        unit_of(head, self.class_tree())
    }

    /// The class.
    fn class_tree(&self) -> Result<ClassDecl, OutOfMemory>
        ensures { IfOk result (λ class. class ≡ class_tree self.now.index.now self.now.class) }
    {
        let head = ClassHead::of(self.alloc, self.index.table(), &self.class)?;
        let parent = self.parent()?;
        class_of(head, parent, self.members())
    }
}

/// A class of its parts, the last of which are the members that were written.
fn class_of(
    head: ClassHead,
    parent: Option<TypeName>,
    members: Result<List<Member>, OutOfMemory>,
) -> Result<ClassDecl, OutOfMemory>
    ensures { IfOk result (λ class. IsOkAnd members (λ members. class ≡ class_of head parent members)) }
{
    let members = members?;
    Ok(head.with_members(parent, members))
}

/// A file of what stands before its class, and of the class that was written.
fn unit_of(head: FileHead, class: Result<ClassDecl, OutOfMemory>) -> Result<Unit, OutOfMemory>
    ensures { IfOk result (λ unit. IsOkAnd class (λ class. unit ≡ unit_of head class)) }
{
    let class = class?;
    Ok(head.with_class(class))
}
