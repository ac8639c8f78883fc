//! The file of a class.
ghost use Rattle.std.specs.Prelude.{◌≡◌, IfOk};
ghost use Rattle.mol_spell_rules.specs.SimpleNames.{uses_in};
ghost use Rattle.mol_spell_rules.specs.SpelledUnits.{unit_tree};
ghost use Rattle.mol_spell.specs.NamesOf.{AreNamesOf};
ghost use Rattle.mol_spell.specs.Spelt.{spelled_of, unit_at};
ghost use Rattle.mol_spell.specs.keys.Keys.{key_of};
ghost use Rattle.mol_spell.specs.units.Files.{IsFileOf};

use crate::keys::UnitKey;
use crate::names_of_file::NamesOfFile;
use crate::spelt_unit::SpeltUnit;
use crate::units::UnitWriter;
use jav_tree::Unit;
use mol_base::{Id, OutOfMemory};
use mol_scope_classes::ClassMembers;
use mol_scope_members::MemberIndex;
use mol_spell_names::{FileNames, ProgramIndex, SimpleNames, file_uses};
use mol_spell_uses::Uses;
use std::alloc::Global;

/// The source file of a key: with its path, the tree of the class. Files are written of tidied tables, so this should be one. The time is
/// near-linear in the size of what is printed, but for what names cost. `Err` is want of memory.
pub fn file_of(
    alloc: Global,
    program: &ProgramIndex<'_>,
    key: UnitKey,
) -> Result<SpeltUnit, OutOfMemory>
    ensures { IfOk result (λ unit. spelled_of unit ≡ unit_at program.now (key_of key)) }
{
    let UnitKey { path, class } = key;
    let unit = unit_tree(alloc, program, &class)?;
    Ok(SpeltUnit { class, path, unit })
}

/// The source file of a class as a tree: what its names use decides what has a simple name.
fn unit_tree(alloc: Global, program: &ProgramIndex<'_>, class: &Id) -> Result<Unit, OutOfMemory>
    ensures { IfOk result (λ unit. unit ≡ unit_tree program.now class.now) }
{
    let (index, members) = (program.names(), program.members());
    match program.uses_of(class) {
        Some(uses) => tree_by_uses(alloc, index, members, class, uses),
        None => tree_gathering(alloc, index, members, class),
    }
}

/// The same where the class does not live, so that what the names of its file use is not kept.
fn tree_gathering(
    alloc: Global,
    index: &MemberIndex<'_>,
    members: &ClassMembers<'_>,
    class: &Id,
) -> Result<Unit, OutOfMemory>
    requires { members.now ≡ index.now }
    ensures { IfOk result (λ unit. unit ≡ unit_tree index.now class.now) }
{
    let uses = file_uses(alloc, index, members, class)?;
    tree_by_uses(alloc, index, members, class, &uses)
}

/// The file of a class whose names use these.
fn tree_by_uses<'a>(
    alloc: Global,
    index: &'a MemberIndex<'_>,
    members: &'a ClassMembers<'_>,
    class: &Id,
    uses: &'a Uses,
) -> Result<Unit, OutOfMemory>
    requires table { members.now ≡ index.now }
    requires uses { uses.now ≡ uses_in index.now class.now }
    ensures { IfOk result (λ unit. unit ≡ unit_tree index.now class.now) }
{
    match SimpleNames::new(alloc, index.classes(), *class, uses.items()) {
        Ok(names) => tree_by_names(alloc, index, members, class, &names),
        Err(OutOfMemory) => Err(OutOfMemory),
    }
}

/// The file of a class that has these simple names.
fn tree_by_names<'a>(
    alloc: Global,
    index: &'a MemberIndex<'_>,
    members: &'a ClassMembers<'_>,
    class: &Id,
    names: &'a SimpleNames<'_>,
) -> Result<Unit, OutOfMemory>
    requires table { members.now ≡ index.now }
    requires names { AreNamesOf index.now class.now names.now }
    ensures { IfOk result (λ unit. unit ≡ unit_tree index.now class.now) }
{
    let imports = names.imports(alloc)?;
    let file = NamesOfFile {
        names,
        imports: imports.items(),
    };
    tree_in(alloc, index, members, class, &file)
}

/// The file of a class with these simple names and imports.
fn tree_in<'a, F: FileNames>(
    alloc: Global,
    index: &'a MemberIndex<'_>,
    members: &'a ClassMembers<'_>,
    class: &Id,
    file: &'a F,
) -> Result<Unit, OutOfMemory>
    requires table { members.now ≡ index.now }
    requires file { IsFileOf index.now class.now (F.imports file.now) (F.simple file.now) }
    ensures { IfOk result (λ unit. unit ≡ unit_tree index.now class.now) }
{
    let writer = UnitWriter::new(alloc, index, members, file, *class);
    writer.unit()
}
