//! What stands before and behind the members of a class, and before the class.
ghost use Rattle.std.specs.Prelude.{◌≡◌, IfOk};
ghost use Rattle.mol_spell.specs.units.Headings.{class_head, class_of, file_head, unit_of};

use crate::units::cells::{front_of, head_of, tail_of, words_of};
use jav_tree::{ClassDecl, Member, TypeName, Unit};
use mol_base::{Id, List, OutOfMemory, Text};
use mol_scope_classes::{name_of, package_of};
use mol_table::Table;
use mol_values_types::copy_texts;
use std::alloc::Global;

/// The comments, the modifiers and the name of a class.
#[derive(Drop)]
pub(crate) struct ClassHead {
    pub front: List<Text>,
    pub words: List<Text>,
    pub name: Text,
    pub tail: List<Text>,
}

impl ClassHead {
    /// Those of a class.
    pub(crate) fn of(alloc: Global, table: &Table, class: &Id) -> Result<ClassHead, OutOfMemory>
        ensures { IfOk result (λ head. head ≡ class_head table.now class.now) }
    {
        let front = copy_texts(alloc, front_of(table, class))?;
        let words = copy_texts(alloc, words_of(table, class))?;
        let name = Text::from_str(alloc, name_of(table, class))?;
        let tail = copy_texts(alloc, tail_of(table, class))?;
        Ok(ClassHead {
            front,
            words,
            name,
            tail,
        })
    }

    /// The class of this head that extends this, with these members.
    pub(crate) fn with_members(self, parent: Option<TypeName>, members: List<Member>) -> ClassDecl
        ensures { result ≡ class_of self parent members }
    {
        let ClassHead {
            front,
            words,
            name,
            tail,
        } = self;
        ClassDecl {
            front,
            words,
            name,
            parent,
            members,
            tail,
        }
    }
}

/// The comments before the package, the package and the imports of a file.
#[derive(Drop)]
pub(crate) struct FileHead {
    pub head: List<Text>,
    pub package: Text,
    pub imports: List<Text>,
}

impl FileHead {
    /// Those of the file of a class, with these imports.
    pub(crate) fn of(
        alloc: Global,
        table: &Table,
        class: &Id,
        imports: &[Text],
    ) -> Result<FileHead, OutOfMemory>
        ensures { IfOk result (λ head. head ≡ file_head table.now class.now imports.now) }
    {
        let head = copy_texts(alloc, head_of(table, class))?;
        let package = Text::from_str(alloc, package_of(table, class))?;
        let imports = copy_texts(alloc, imports)?;
        Ok(FileHead {
            head,
            package,
            imports,
        })
    }

    /// The file of this head, with this class.
    pub(crate) fn with_class(self, class: ClassDecl) -> Unit
        ensures { result ≡ unit_of self class }
    {
        let FileHead {
            head,
            package,
            imports,
        } = self;
        Unit {
            head,
            package,
            imports,
            class,
        }
    }
}
