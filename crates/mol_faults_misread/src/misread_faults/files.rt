//! The files of a program.
ghost use Rattle.std.specs.Prelude.{◌≡◌, ◌++◌, IfOk, OnOk, map};
ghost use Rattle.mol_faults_misread.specs.misread_faults.Files.{AreNamesOf};
ghost use Rattle.mol_faults_misread.specs.misread_faults.Found.{all_misreads, cells_misreads, class_misreads, file_misreads, kept_name};
ghost use Rattle.mol_spell_rules.specs.SimpleNames.{uses_in};
ghost use Rattle.mol_spell_rules.specs.UnitCells.{printed_cells};

use crate::misread_faults::cells::FileCells;
use crate::misread_faults::names::MisreadName;
use crate::misread_faults::names_of_file::NamesOfFile;
use jav_scope::ImportIndex;
use mol_base::{Id, OutOfMemory};
use mol_scope_classes::ClassMembers;
use mol_spell_names::{FileNames, MemberIndex, ProgramIndex, SimpleNames};
use mol_spell_uses::Uses;
use mol_values_types::Slot;
use std::alloc::Global;

/// What is misread in the files of those classes among these identities that live.
pub(crate) fn names_in(
    alloc: Global,
    program: &ProgramIndex<'_>,
    ids: &[Id],
) -> Result<Vec<MisreadName>, OutOfMemory>
    ensures { IfOk result (λ found. map kept_name found.items ≡ all_misreads program.now ids.now) }
{
    let mut found = Vec::new(alloc);
    for id in ids {
        add_class(alloc, &mut found, program, id)?;
    }
    Ok(found)
}

/// Adds what is misread in the file of a class, where it lives: what its names use decides what has a simple name.
fn add_class(
    alloc: Global,
    found: &mut Vec<MisreadName>,
    program: &ProgramIndex<'_>,
    id: &Id,
) -> Result<(), OutOfMemory>
    ensures { OnOk result (map kept_name found.new.items ≡ map kept_name found.old.items ++ class_misreads program.now id.now) }
{
    let (index, members) = (program.names(), program.members());
    match program.uses_of(id) {
        Some(uses) => add_by_uses(alloc, found, index, members, id, uses),
        None => Ok(()),
    }
}

/// Adds what is misread in the file of a class whose names use this.
fn add_by_uses<'a>(
    alloc: Global,
    found: &mut Vec<MisreadName>,
    index: &'a MemberIndex<'_>,
    members: &ClassMembers<'_>,
    class: &Id,
    uses: &'a Uses,
) -> Result<(), OutOfMemory>
    requires table { members.now ≡ index.now }
    requires uses { uses.now ≡ uses_in index.now class.now }
    ensures { OnOk result (map kept_name found.new.items ≡ map kept_name found.old.items ++ file_misreads index.now class.now) }
{
    match SimpleNames::new(alloc, index.classes(), *class, uses.items()) {
        Ok(names) => add_by_names(alloc, found, index, members, class, &names),
        Err(OutOfMemory) => Err(OutOfMemory),
    }
}

/// Adds what is misread in the file of a class that has these simple names.
fn add_by_names<'a>(
    alloc: Global,
    found: &mut Vec<MisreadName>,
    index: &'a MemberIndex<'_>,
    members: &ClassMembers<'_>,
    class: &Id,
    names: &'a SimpleNames<'_>,
) -> Result<(), OutOfMemory>
    requires table { members.now ≡ index.now }
    requires names { AreNamesOf index.now class.now names.now }
    ensures { OnOk result (map kept_name found.new.items ≡ map kept_name found.old.items ++ file_misreads index.now class.now) }
{
    let imports = names.imports(alloc)?;
    let file = NamesOfFile {
        names,
        imports: imports.items(),
    };
    add_by_imports(alloc, found, index, members, class, &file)
}

/// Adds what is misread in the cells of a file with these names, by an index of its imports.
fn add_by_imports<'a, F: FileNames>(
    alloc: Global,
    found: &mut Vec<MisreadName>,
    index: &'a MemberIndex<'_>,
    members: &ClassMembers<'_>,
    class: &Id,
    file: &'a F,
) -> Result<(), OutOfMemory>
    requires { members.now ≡ index.now }
    ensures { OnOk result (map kept_name found.new.items ≡ map kept_name found.old.items
        ++ cells_misreads index.now (F.imports file.now) (F.simple file.now) class.now (printed_cells index.now class.now)) }
{
    let imports = ImportIndex::new(alloc, file.imported())?;
    add_cells(alloc, found, index, members, class, file, &imports)
}

/// Adds what is misread in the cells of a file with these names and imports.
fn add_cells<'a, F: FileNames>(
    alloc: Global,
    found: &mut Vec<MisreadName>,
    index: &'a MemberIndex<'_>,
    members: &ClassMembers<'_>,
    class: &Id,
    file: &'a F,
    imports: &'a ImportIndex<'_>,
) -> Result<(), OutOfMemory>
    requires table { members.now ≡ index.now }
    requires imports { imports.now ≡ F.imports file.now }
    ensures { OnOk result (map kept_name found.new.items ≡ map kept_name found.old.items
        ++ cells_misreads index.now (F.imports file.now) (F.simple file.now) class.now (printed_cells index.now class.now)) }
{
    let cells = FileCells {
        alloc,
        index,
        file,
        imports,
        class: *class,
    };
    cells.add_cell(found, class, Slot::Super)?;
    cells.add_members(found, members.members_of(class))
}
